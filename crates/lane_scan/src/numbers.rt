ghost use Rattle.std.specs.Prelude.{◌≡◌, ◌≤◌, ◌==◌, length, take};
ghost use Rattle.std.specs.List.{list_any};

use std::simd::prelude::*;

/// How many numbers are looked at together.
const LANES: usize = 8;

/// Whether an AS number stands in the list. It takes no memory.
pub fn has_as(list: &[u32], asn: u32) -> bool
    ensures { result ≡ list_any (λ number. number == asn) list.now }
{
    let mut left = list;
    while left.len() >= LANES {
        if front_has(left, asn) {
            return true;
        }
        left = &left[LANES..];
    }
    rest_has(left, asn)
}

/// Whether the number is one of those past the last whole group.
fn rest_has(list: &[u32], asn: u32) -> bool
    ensures { result ≡ list_any (λ number. number == asn) list.now }
{
    list.iter().any(|number| *number == asn)
}

/// Whether the number is one of the first group.
#[inline(always)]
fn front_has(list: &[u32], asn: u32) -> bool
    requires { LANES ≤ length list.now }
    ensures { result ≡ list_any (λ number. number == asn) (take LANES list.now) }
{
    let hits = u32x8::from_slice(list).simd_eq(u32x8::splat(asn));
    hits.to_bitmask() != 0
}
