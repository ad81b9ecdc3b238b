ghost use Rattle.std.specs.Prelude.{◌≡◌, ◌≤◌, ◌==◌, length, take};
ghost use Rattle.std.specs.List.{list_all};

use std::simd::prelude::*;

/// How many bytes are looked at together.
const LANES: usize = 16;

/// Whether each byte is ff. It takes no memory.
pub fn all_ones(bytes: &[u8]) -> bool
    ensures { result ≡ list_all (λ byte. byte == 255) bytes.now }
{
    let mut left = bytes;
    while left.len() >= LANES {
        if !front_is_ones(left) {
            return false;
        }
        left = &left[LANES..];
    }
    rest_is_ones(left)
}

/// Whether each byte past the last whole group is ff.
fn rest_is_ones(bytes: &[u8]) -> bool
    ensures { result ≡ list_all (λ byte. byte == 255) bytes.now }
{
    bytes.iter().all(|byte| *byte == 0xff)
}

/// Whether each byte of the first group is ff.
#[inline(always)]
fn front_is_ones(bytes: &[u8]) -> bool
    requires { LANES ≤ length bytes.now }
    ensures { result ≡ list_all (λ byte. byte == 255) (take LANES bytes.now) }
{
    let others = u8x16::from_slice(bytes).simd_ne(u8x16::splat(0xff));
    others.to_bitmask() == 0
}
