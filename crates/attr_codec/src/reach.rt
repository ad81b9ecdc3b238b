//! MP_REACH_NLRI and MP_UNREACH_NLRI (RFC 4760).

ghost use Rattle.std.specs.Prelude.{◌≡◌, Some, None, is_some, length, IfOk, MatchResult};
ghost use Rattle.attr_codec.specs.Reach.{agreed_family, fits_hop, prefixes_fault, reach_parts, unreach_parts, reach_judged, unreach_judged, reached, unreached};

use crate::prefixes::{addr_in, are_prefixes, read_prefixes};
use bgp_wire::Encoding;
use net_base::{Addr, Family, NoMemory, PrefixList};
use std::alloc::Global;
use wire_buf::{Cursor, Short};

// The family of an AFI and a SAFI, where it is agreed.
fn family_of(enc: Encoding, afi: u16, safi: u8) -> Option<Family>
    ensures { result ≡ agreed_family enc afi safi }
{
    match (afi, safi) {
        (1, 1) if enc.v4 => Some(Family::V4),
        (2, 1) if enc.v6 => Some(Family::V6),
        _ => None,
    }
}

// The family, where it is agreed, the bytes of the hop and those of the prefixes.
#[tactic(auto, unfolding(crate::specs::Reach::reach_parts))]
fn parts_of_reach<'a>(
    enc: Encoding,
    value: &'a [u8],
) -> Result<(Option<Family>, &'a [u8], &'a [u8]), Short>
    ensures { MatchResult result (λ parts. reach_parts enc value.now ≡ Some (parts.0, parts.1.now, parts.2.now)) (λ _. reach_parts enc value.now ≡ None) }
{
    let mut left = Cursor::new(value);
    let afi = left.u16()?;
    let safi = left.u8()?;
    let size = left.u8()?;
    let hop = left.bytes(usize::from(size))?;
    let _reserved = left.u8()?;
    Ok((family_of(enc, afi, safi), hop, left.rest()))
}

// The family, where it is agreed, and the bytes of the prefixes.
#[tactic(auto, unfolding(crate::specs::Reach::unreach_parts))]
fn parts_of_unreach<'a>(enc: Encoding, value: &'a [u8]) -> Result<(Option<Family>, &'a [u8]), Short>
    ensures { MatchResult result (λ parts. unreach_parts enc value.now ≡ Some (parts.0, parts.1.now)) (λ _. unreach_parts enc value.now ≡ None) }
{
    let mut left = Cursor::new(value);
    let afi = left.u16()?;
    let safi = left.u8()?;
    Ok((family_of(enc, afi, safi), left.rest()))
}

fn fits(family: Family, hop: usize) -> bool
    ensures { result ≡ fits_hop family hop }
{
    match family {
        Family::V4 => hop == 4,
        Family::V6 => hop == 16 || hop == 32,
    }
}

fn fault_of_prefixes(family: Family, nlri: &[u8]) -> Option<u8>
    ensures { result ≡ prefixes_fault family nlri.now }
{
    if are_prefixes(family, nlri) {
        None
    } else {
        Some(10)
    }
}

/// The sub code of the NOTIFICATION that answers an MP_REACH_NLRI.
pub(crate) fn reach_fault(enc: Encoding, value: &[u8]) -> Option<u8>
    ensures { result ≡ reach_judged (reach_parts enc value.now) }
{
    match parts_of_reach(enc, value) {
        Err(_) => Some(1),
        Ok((None, _, _)) => None,
        Ok((Some(family), hop, nlri)) if fits(family, hop.len()) => {
            fault_of_prefixes(family, nlri)
        }
        Ok((Some(_), _, _)) => Some(1),
    }
}

/// The sub code of the NOTIFICATION that answers an MP_UNREACH_NLRI.
pub(crate) fn unreach_fault(enc: Encoding, value: &[u8]) -> Option<u8>
    ensures { result ≡ unreach_judged (unreach_parts enc value.now) }
{
    match parts_of_unreach(enc, value) {
        Err(_) => Some(1),
        Ok((None, _)) => None,
        Ok((Some(family), nlri)) => fault_of_prefixes(family, nlri),
    }
}

/// What an MP_REACH_NLRI announces: a family that is agreed, a hop, and prefixes.
pub(crate) fn read_reach(
    alloc: Global,
    enc: Encoding,
    value: &[u8],
) -> Result<Option<(Family, Addr, PrefixList)>, NoMemory>
    ensures { IfOk result (λ found. found ≡ reached (reach_parts enc value.now)) }
{
    match parts_of_reach(enc, value) {
        Err(_) => Ok(None),
        Ok((None, _, _)) => Ok(None),
        Ok((Some(family), hop, nlri)) => match read_prefixes(alloc, family, nlri)? {
            None => Ok(None),
            Some(prefixes) => Ok(Some((family, addr_in(family, hop), prefixes))),
        },
    }
}

/// What an MP_UNREACH_NLRI withdraws: prefixes of a family that is agreed.
pub(crate) fn read_unreach(
    alloc: Global,
    enc: Encoding,
    value: &[u8],
) -> Result<Option<(Family, PrefixList)>, NoMemory>
    ensures { IfOk result (λ found. found ≡ unreached (unreach_parts enc value.now)) }
{
    match parts_of_unreach(enc, value) {
        Err(_) => Ok(None),
        Ok((None, _)) => Ok(None),
        Ok((Some(family), nlri)) => match read_prefixes(alloc, family, nlri)? {
            None => Ok(None),
            Some(prefixes) => Ok(Some((family, prefixes))),
        },
    }
}
