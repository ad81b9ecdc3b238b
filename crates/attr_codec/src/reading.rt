//! Reading an attribute field.

ghost use Rattle.std.specs.Prelude.{◌≡◌, IfOk};
ghost use Rattle.net_base.specs.declared.addr.Family.TheVariants.{V4};
ghost use Rattle.net_base.specs.Bits.{addr_of};
ghost use Rattle.attr_codec.specs.Said.{is_malformed};
ghost use Rattle.attr_codec.specs.Gives.{Gives};
ghost use Rattle.attr_codec.specs.Values.{next_hop_said};
ghost use Rattle.attr_codec.specs.Read.{reach_said, unreach_said, is_reach_malformed, is_unreach_malformed, next_hop_of, hop_of, attrs_with, attrs_said, is_route_malformed, attributes_say, field_says};

use crate::cut_field::{CutField, cut_field};
use crate::outcome::ReadAttrs;
use crate::parts::{Lists, Numbers, Paths};
use crate::reach::{read_reach, read_unreach};
use crate::said::Flags;
use crate::together::{lists, numbers, partial, paths};
use crate::update_fault::UpdateFault;
use crate::{kind, values};
use attr_model::Attrs;
use bgp_wire::Encoding;
use net_base::{Addr, Family, NoMemory, PrefixList};
use std::alloc::Global;

type Reach = (Family, Addr, PrefixList);

type Unreach = (Family, PrefixList);

// What MP_REACH_NLRI announces, and whether its flags are bad.
fn reach(
    alloc: Global,
    enc: Encoding,
    field: &CutField<'_>,
) -> Result<(Option<Reach>, bool), NoMemory>
    ensures { IfOk result (λ found. found ≡ (reach_said enc field.now, is_reach_malformed enc field.now)) }
{
    let Some(attribute) = field.first(kind::MP_REACH) else {
        return Ok((None, false));
    };
    let reach = read_reach(alloc, enc, attribute.value)?;
    let malformed = reach.is_some() && !Flags::Optional.fits(attribute.flags);
    Ok((reach, malformed))
}

// What MP_UNREACH_NLRI withdraws, and whether its flags are bad.
fn unreach(
    alloc: Global,
    enc: Encoding,
    field: &CutField<'_>,
) -> Result<(Option<Unreach>, bool), NoMemory>
    ensures { IfOk result (λ found. found ≡ (unreach_said enc field.now, is_unreach_malformed enc field.now)) }
{
    let Some(attribute) = field.first(kind::MP_UNREACH) else {
        return Ok((None, false));
    };
    let unreach = read_unreach(alloc, enc, attribute.value)?;
    let malformed = unreach.is_some() && !Flags::Optional.fits(attribute.flags);
    Ok((unreach, malformed))
}

fn hop(next_hop: Option<Addr>, reach: &Option<Reach>) -> Addr
    ensures { result ≡ hop_of next_hop reach.now }
{
    match (next_hop, reach) {
        (Some(hop), _) => hop,
        (None, Some((_, hop, _))) => *hop,
        (None, None) => Addr::unspecified(Family::V4),
    }
}

// The attributes of a route, where ORIGIN and AS_PATH are there and good.
fn build(
    hop: Addr,
    origin: Option<u8>,
    numbers: Numbers,
    paths: Paths,
    lists: Lists,
    partial: u8,
) -> Option<Attrs>
    ensures { result ≡ attrs_with hop origin paths.path numbers paths lists «partial» }
{
    let (Some(origin), Some(path)) = (origin, paths.path) else {
        return None;
    };
    Some(Attrs {
        origin,
        path,
        hop,
        med: numbers.med,
        local_pref: numbers.local_pref,
        atomic: numbers.atomic,
        aggregator: paths.aggregator,
        communities: lists.communities,
        large: lists.large,
        unknown: lists.unknown,
        partial,
        weight: 0,
    })
}

// NEXT_HOP, where it is there and good, and whether it is malformed.
fn next_hop(field: &CutField<'_>) -> (Option<Addr>, bool)
    ensures { result ≡ (next_hop_of field.now, is_malformed (next_hop_said field.now)) }
{
    let said = values::number(field, kind::NEXT_HOP, Flags::WellKnown);
    let malformed = said.is_malformed();
    (said.value().map(v4_addr), malformed)
}

fn v4_addr(bits: u32) -> Addr
    ensures { result ≡ addr_of V4 bits }
{
    Addr {
        family: Family::V4,
        bits: u128::from(bits),
    }
}

// The attributes of a route with this hop, and whether one of those that make them is malformed.
fn attrs(
    alloc: Global,
    enc: Encoding,
    hop: Addr,
    field: &CutField<'_>,
) -> Result<(Option<Attrs>, bool), NoMemory>
    ensures { IfOk result (λ found. found ≡ (attrs_said enc hop field.now, is_route_malformed enc field.now)) }
{
    let origin = values::origin(field);
    let numbers = numbers(enc.external, field);
    let paths = paths(alloc, enc.as4, field)?;
    let lists = lists(alloc, field)?;
    let malformed = origin.is_malformed()
        || numbers.malformed
        || paths.malformed
        || lists.malformed;
    let partial = partial(&paths, &lists, field);
    let attrs = build(hop, origin.value(), numbers, paths, lists, partial);
    Ok((attrs, malformed))
}

// What the attributes of a field without a NOTIFICATION say.
#[tactic(auto, unfolding(crate::specs::Read::attributes_say))]
fn said(alloc: Global, enc: Encoding, field: &CutField<'_>) -> Result<ReadAttrs, NoMemory>
    ensures { IfOk result (λ said. said ≡ attributes_say enc field.now) }
{
    let (reach, malformed_reach) = reach(alloc, enc, field)?;
    let (unreach, malformed_unreach) = unreach(alloc, enc, field)?;
    let (next_hop, malformed_hop) = next_hop(field);
    let (attrs, malformed) = attrs(alloc, enc, hop(next_hop, &reach), field)?;
    Ok(ReadAttrs {
        attrs,
        withdraw: malformed || malformed_hop || malformed_reach || malformed_unreach,
        next_hop,
        reach,
        unreach,
    })
}

/// Reads an attribute field (RFC 4271 section 4.3) by what was agreed with the peer.
///
/// `UpdateFault::Notify` comes exactly where some attribute is to be answered by a NOTIFICATION, with the
/// first sub code in the order of the bytes: 1 where an attribute passes the end of the field, where an MP attribute comes
/// twice or has a wrong length, 10 for a prefix that isn't whole, and 2 for an unknown attribute that isn't
/// optional. Of an attribute that comes twice the first copy counts.
#[tactic(auto, unfolding(crate::specs::Read::field_says))]
pub fn read_attrs(alloc: Global, enc: Encoding, bytes: &[u8]) -> Result<ReadAttrs, UpdateFault>
    ensures { Gives result (field_says enc bytes.now) }
{
    match cut_field(enc, bytes) {
        Err(sub) => Err(UpdateFault::Notify(sub)),
        Ok(field) => Ok(said(alloc, enc, &field)?),
    }
}
