ghost use Rattle.std.specs.Prelude.{◌≡◌, ◌≤◌, ◌/◌, ◌==◌, nat_lt, length, take};
ghost use Rattle.std.specs.List.{list_any};

use std::simd::prelude::*;

/// How many slots are looked at together.
pub(crate) const LANES: usize = 8;

/// How many of the first bits are compared together.
const FRONT_BITS: u64 = 16;

/// Whether one of the first group begins with the same 16 bits as a number.
#[inline(always)]
pub(crate) fn has_front(highs: &[u64], high: u64) -> bool
    requires { LANES ≤ length highs.now }
    ensures { result ≡ list_any (λ other. other / 281474976710656 == high / 281474976710656) (take LANES highs.now) }
{
    let fronts = u64x8::from_slice(highs) >> u64x8::splat(64 - FRONT_BITS);
    let hits = fronts.simd_eq(u64x8::splat(high >> (64 - FRONT_BITS)));
    hits.to_bitmask() != 0
}

/// Whether one of the first group of lengths is below 16.
#[inline(always)]
pub(crate) fn has_short(lens: &[u8]) -> bool
    requires { LANES ≤ length lens.now }
    ensures { result ≡ list_any (λ len. nat_lt len 16) (take LANES lens.now) }
{
    let hits = u8x8::from_slice(lens).simd_lt(u8x8::splat(FRONT_BITS as u8));
    hits.to_bitmask() != 0
}
