//! Prefixes and next hops, read from bytes.

ghost use Rattle.std.specs.Prelude.{◌≡◌, ◌<◌, Some, None, length, slice_index, IfOk, IsTrue, MatchOption, MatchResult, is_some};
ghost use Rattle.byteorder.specs.Endian.{big_from, big_number};
ghost use Rattle.attr_codec.specs.Prefixes.{addr_with, prefix_at, prefixes_of};

use net_base::{Addr, Family, Items, NoMemory, Prefix, PrefixList};
use std::alloc::Global;
use wire_buf::{Cursor, Short};

// An octet of an address, or zero where it lacks.
fn octet(octets: &[u8], at: usize) -> u8
    ensures { result ≡ slice_index octets.now at }
{
    octets.get(at).copied().unwrap_or(0)
}

fn v4_bits(octets: &[u8]) -> u32
    ensures { result ≡ big_number 4 octets.now }
{
    u32::from_be_bytes([
        octet(octets, 0),
        octet(octets, 1),
        octet(octets, 2),
        octet(octets, 3),
    ])
}

// Eight octets of an IPv6 address from a place on.
fn v6_half(octets: &[u8], at: usize) -> u64
    requires { at < 16 }
    ensures { result ≡ big_from at 8 octets.now }
{
    u64::from_be_bytes([
        octet(octets, at),
        octet(octets, at + 1),
        octet(octets, at + 2),
        octet(octets, at + 3),
        octet(octets, at + 4),
        octet(octets, at + 5),
        octet(octets, at + 6),
        octet(octets, at + 7),
    ])
}

fn v6_bits(octets: &[u8]) -> u128
    ensures { result ≡ big_number 16 octets.now }
{
    u128::from(v6_half(octets, 0)) * (1 << 64) + u128::from(v6_half(octets, 8))
}

/// The address that begins with these octets. Those that lack are zero.
pub fn addr_in(family: Family, octets: &[u8]) -> Addr
    ensures { result ≡ addr_with family octets.now }
{
    let bits = match family {
        Family::V4 => u128::from(v4_bits(octets)),
        Family::V6 => v6_bits(octets),
    };
    Addr { family, bits }
}

// The prefix in front, or `Short` where it is longer than the width of its family or passes the end.
#[tactic(auto, unfolding(crate::specs::Prefixes::prefix_at))]
fn next_prefix(family: Family, left: &mut Cursor<'_>) -> Result<Prefix, Short>
    ensures { MatchResult result (λ prefix. prefix_at family left.old ≡ Some (prefix, left.new)) (λ _. prefix_at family left.old ≡ None) }
{
    let len = left.u8()?;
    if len > family.width() {
        return Err(Short);
    }
    let octets = left.bytes((usize::from(len) + 7) / 8)?;
    Ok(Prefix::new(addr_in(family, octets), len))
}

/// The prefixes that a field is (RFC 4271 section 4.3), or None where one of them is longer than the width of its
/// family or passes the end.
pub fn read_prefixes(
    alloc: Global,
    family: Family,
    field: &[u8],
) -> Result<Option<PrefixList>, NoMemory>
    ensures { IfOk result (λ prefixes. prefixes ≡ prefixes_of family field.now) }
{
    let mut prefixes = Items::new(alloc);
    let mut left = Cursor::new(field);
    while !left.is_empty() {
        let Ok(prefix) = next_prefix(family, &mut left) else {
            return Ok(None);
        };
        prefixes.push(prefix)?;
    }
    Ok(Some(prefixes))
}

/// Whether a field is made of whole prefixes of a family.
pub fn are_prefixes(family: Family, field: &[u8]) -> bool
    ensures { result ≡ is_some (prefixes_of family field.now) }
{
    let mut left = Cursor::new(field);
    while !left.is_empty() {
        let Ok(_) = next_prefix(family, &mut left) else {
            return false;
        };
    }
    true
}
