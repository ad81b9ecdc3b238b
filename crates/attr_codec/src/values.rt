//! What the attributes of a field say, one function for each type.

ghost use Rattle.std.specs.Prelude.{◌≡◌, Option, IfOk};
ghost use Rattle.attr_codec.specs.Said.{or_malformed, or_dropped};
ghost use Rattle.attr_codec.specs.Values.{origin_of, origin_said, path_said, number_of, number_said, next_hop_said, med_said, local_pref_said, atomic_said, aggregator_of, aggregator_said, as4_aggregator_said, as4_path_said, ignores_as4, joined_aggregators};

use crate::cut_field::CutField;
use crate::kind;
use crate::path::read_path;
use crate::said::{Flags, Said, bytes_said};
use attr_model::Path;
use bgp_wire::AS_TRANS;
use byteorder::{BigEndian, ByteOrder};
use net_base::NoMemory;
use std::alloc::Global;

/// ORIGIN: one byte, 0 to 2.
#[tactic(auto, unfolding(crate::specs::Values::origin_said))]
pub(crate) fn origin(field: &CutField<'_>) -> Said<u8>
    ensures { result ≡ origin_said field.now }
{
    match bytes_said(field, kind::ORIGIN, Flags::WellKnown) {
        Said::Nothing => Said::Nothing,
        Said::Malformed => Said::Malformed,
        Said::Value(value) => Said::or_malformed(origin_in(value)),
    }
}

fn origin_in(value: &[u8]) -> Option<u8>
    ensures { result ≡ origin_of value.now }
{
    match value {
        [origin] if *origin <= 2 => Some(*origin),
        _ => None,
    }
}

/// AS_PATH.
#[tactic(auto, unfolding(crate::specs::Values::path_said))]
pub(crate) fn path(alloc: Global, as4: bool, field: &CutField<'_>) -> Result<Said<Path>, NoMemory>
    ensures { IfOk result (λ said. said ≡ path_said as4 field.now) }
{
    match bytes_said(field, kind::AS_PATH, Flags::WellKnown) {
        Said::Nothing => Ok(Said::Nothing),
        Said::Malformed => Ok(Said::Malformed),
        Said::Value(value) => Ok(Said::or_malformed(read_path(alloc, as4, value)?)),
    }
}

/// A number of four bytes: NEXT_HOP, MULTI_EXIT_DISC or LOCAL_PREF.
#[tactic(auto, unfolding(crate::specs::Values::number_said))]
pub(crate) fn number(field: &CutField<'_>, kind: u8, flags: Flags) -> Said<u32>
    ensures { result ≡ number_said flags kind field.now }
{
    match bytes_said(field, kind, flags) {
        Said::Nothing => Said::Nothing,
        Said::Malformed => Said::Malformed,
        Said::Value(value) => Said::or_malformed(number_in(value)),
    }
}

fn number_in(value: &[u8]) -> Option<u32>
    ensures { result ≡ number_of value.now }
{
    if value.len() == 4 {
        Some(BigEndian::read_u32(value))
    } else {
        None
    }
}

/// LOCAL_PREF, which an external peer doesn't send: there it is dropped unread.
pub(crate) fn local_pref(external: bool, field: &CutField<'_>) -> Said<u32>
    ensures { result ≡ local_pref_said external field.now }
{
    if external {
        Said::Nothing
    } else {
        number(field, kind::LOCAL_PREF, Flags::WellKnown)
    }
}

/// ATOMIC_AGGREGATE, which is empty.
#[tactic(auto, unfolding(crate::specs::Values::atomic_said))]
pub(crate) fn atomic(field: &CutField<'_>) -> Said<bool>
    ensures { result ≡ atomic_said field.now }
{
    match bytes_said(field, kind::ATOMIC_AGGREGATE, Flags::WellKnown) {
        Said::Nothing => Said::Nothing,
        Said::Malformed => Said::Malformed,
        Said::Value([]) => Said::Value(true),
        Said::Value(_) => Said::Nothing,
    }
}

/// AGGREGATOR, its AS number in four bytes or in two.
#[tactic(auto, unfolding(crate::specs::Values::aggregator_said))]
pub(crate) fn aggregator(as4: bool, field: &CutField<'_>) -> Said<(u32, u32)>
    ensures { result ≡ aggregator_said as4 field.now }
{
    match bytes_said(field, kind::AGGREGATOR, Flags::OptionalTransitive) {
        Said::Nothing => Said::Nothing,
        Said::Malformed => Said::Malformed,
        Said::Value(value) => Said::or_dropped(aggregator_in(as4, value)),
    }
}

fn aggregator_in(as4: bool, value: &[u8]) -> Option<(u32, u32)>
    ensures { result ≡ aggregator_of as4 value.now }
{
    if as4 && value.len() == 8 {
        let (asn, address) = value.split_at(4);
        return Some((BigEndian::read_u32(asn), BigEndian::read_u32(address)));
    }
    if !as4 && value.len() == 6 {
        let (asn, address) = value.split_at(2);
        return Some((
            u32::from(BigEndian::read_u16(asn)),
            BigEndian::read_u32(address),
        ));
    }
    None
}

/// AS4_AGGREGATOR, which a peer of four-octet numbers doesn't send: there it is dropped unread.
#[tactic(auto, unfolding(crate::specs::Values::as4_aggregator_said))]
pub(crate) fn as4_aggregator(as4: bool, field: &CutField<'_>) -> Said<(u32, u32)>
    ensures { result ≡ as4_aggregator_said as4 field.now }
{
    if as4 {
        return Said::Nothing;
    }
    match bytes_said(field, kind::AS4_AGGREGATOR, Flags::OptionalTransitive) {
        Said::Nothing => Said::Nothing,
        Said::Malformed => Said::Malformed,
        Said::Value(value) => Said::or_dropped(aggregator_in(true, value)),
    }
}

/// AS4_PATH, which a peer of four-octet numbers doesn't send: there it is dropped unread.
#[tactic(auto, unfolding(crate::specs::Values::as4_path_said))]
pub(crate) fn as4_path(
    alloc: Global,
    as4: bool,
    field: &CutField<'_>,
) -> Result<Said<Path>, NoMemory>
    ensures { IfOk result (λ said. said ≡ as4_path_said as4 field.now) }
{
    if as4 {
        return Ok(Said::Nothing);
    }
    match bytes_said(field, kind::AS4_PATH, Flags::OptionalTransitive) {
        Said::Nothing => Ok(Said::Nothing),
        Said::Malformed => Ok(Said::Malformed),
        Said::Value(value) => Ok(Said::or_dropped(read_path(alloc, true, value)?)),
    }
}

/// Whether AS4_PATH and AS4_AGGREGATOR are ignored (RFC 6793 section 4.2.3).
pub(crate) fn is_as4_ignored(
    aggregator: Option<(u32, u32)>,
    as4_aggregator: Option<(u32, u32)>,
) -> bool
    ensures { result ≡ ignores_as4 aggregator as4_aggregator }
{
    match (aggregator, as4_aggregator) {
        (Some((asn, _)), Some(_)) => asn != u32::from(AS_TRANS),
        _ => false,
    }
}

/// The aggregator that AGGREGATOR and AS4_AGGREGATOR give together (RFC 6793 section 4.2.3).
pub(crate) fn join_aggregators(
    aggregator: Option<(u32, u32)>,
    as4_aggregator: Option<(u32, u32)>,
) -> Option<(u32, u32)>
    ensures { result ≡ joined_aggregators aggregator as4_aggregator }
{
    match (aggregator, as4_aggregator) {
        (Some((asn, _)), Some(whole)) if asn == u32::from(AS_TRANS) => Some(whole),
        _ => aggregator,
    }
}
