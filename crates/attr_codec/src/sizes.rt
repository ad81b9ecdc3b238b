//! How many bytes attributes have. Each answer is at most the greatest usize.

ghost use Rattle.std.specs.Prelude.{◌≡◌, ◌+◌, ◌∷◌, [], ◌++◌, Some, None, length, flat_map, option_map};
ghost use Rattle.byteorder.specs.Endian.{big_bytes};
ghost use Rattle.attr_codec.specs.Path.{as_bytes, segment_bytes, path_bytes};
ghost use Rattle.attr_codec.specs.Written.{row, row_bytes, rows_bytes, next_hop_value, atomic_value, aggregator_bytes, large_bytes, list_value, as4_path_value, as4_aggregator_value, unknown_rows, route_rows, number_rows, list_rows, as4_rows, large_rows, low_rows, high_rows, attrs_bytes};
ghost use Rattle.attr_codec.specs.Size.{attribute_size, nlri_size, announced_size, update_size, capped};

use crate::put_path::{exceeds, path_exceeds};
use attr_model::{Attrs, Segment};
use bgp_wire::Encoding;
use net_base::{Addr, Bytes, Family};

#[tactic(auto, using(crate::proofs::Lengths::segment_size))]
fn segment(as4: bool, segment: &Segment) -> usize
    ensures { result ≡ capped (length (segment_bytes as4 segment.now)) }
{
    let size = if as4 { 4 } else { 2 };
    segment
        .numbers()
        .len()
        .saturating_mul(size)
        .saturating_add(2)
}

/// The value of an AS_PATH.
pub(crate) fn path(as4: bool, path: &[Segment]) -> usize
    ensures { result ≡ capped (length (path_bytes as4 path.now)) }
{
    let mut total: usize = 0;
    for it in path {
        total = total.saturating_add(segment(as4, it));
    }
    total
}

/// The value of a COMMUNITIES.
#[tactic(auto, using(crate::proofs::Lengths::u32s_size))]
pub(crate) fn u32s(numbers: &[u32]) -> usize
    ensures { result ≡ capped (length (flat_map (big_bytes 4) numbers.now)) }
{
    numbers.len().saturating_mul(4)
}

/// The value of a LARGE_COMMUNITY.
#[tactic(auto, using(crate::proofs::Lengths::larges_size))]
pub(crate) fn larges(larges: &[(u32, u32, u32)]) -> usize
    ensures { result ≡ capped (length (flat_map large_bytes larges.now)) }
{
    larges.len().saturating_mul(12)
}

// An attribute with a value of so many bytes.
fn attribute(size: usize) -> usize
    ensures { result ≡ capped (attribute_size size) }
{
    if size > 255 {
        size.saturating_add(4)
    } else {
        size + 3
    }
}

// A number of four bytes, where it is there.
fn number(number: Option<u32>) -> usize
    ensures { result ≡ length (row_bytes (row 128 4 (option_map (big_bytes 4) number))) }
{
    if number.is_some() { 7 } else { 0 }
}

// ORIGIN, AS_PATH and NEXT_HOP.
fn route(enc: Encoding, attrs: &Attrs, hop: Addr) -> usize
    ensures { result ≡ capped (length (rows_bytes (route_rows enc (record attrs.now { hop = hop })))) }
{
    let next_hop = match hop.family {
        Family::V4 => 7,
        Family::V6 => 0,
    };
    attribute(path(enc.as4, attrs.path.as_slice())).saturating_add(4 + next_hop)
}

// MULTI_EXIT_DISC, LOCAL_PREF and ATOMIC_AGGREGATE.
fn numbers(attrs: &Attrs) -> usize
    ensures { result ≡ length (rows_bytes (number_rows attrs.now)) }
{
    number(attrs.med) + number(attrs.local_pref) + if attrs.atomic { 3 } else { 0 }
}

fn communities(communities: &[u32]) -> usize
    ensures { result ≡ capped (length (row_bytes (row 192 8 (list_value (big_bytes 4) communities.now)))) }
{
    if communities.is_empty() {
        return 0;
    }
    attribute(u32s(communities))
}

fn large_communities(communities: &[(u32, u32, u32)]) -> usize
    ensures { result ≡ capped (length (row_bytes (row 192 32 (list_value large_bytes communities.now)))) }
{
    if communities.is_empty() {
        return 0;
    }
    attribute(larges(communities))
}

fn aggregator(as4: bool, aggregator: Option<(u32, u32)>) -> usize
    ensures { result ≡ length (row_bytes (row 192 7 (option_map (aggregator_bytes as4) aggregator))) }
{
    match aggregator {
        None => 0,
        Some(_) if as4 => 11,
        Some(_) => 9,
    }
}

// AGGREGATOR and COMMUNITIES.
fn lists(enc: Encoding, attrs: &Attrs) -> usize
    ensures { result ≡ capped (length (rows_bytes (list_rows enc attrs.now))) }
{
    communities(attrs.communities.as_slice()).saturating_add(aggregator(enc.as4, attrs.aggregator))
}

// AS4_PATH.
fn as4_path(as4: bool, segments: &[Segment]) -> usize
    ensures { result ≡ capped (length (row_bytes (row 192 17 (as4_path_value as4 segments.now)))) }
{
    if !as4 && path_exceeds(segments) {
        attribute(path(true, segments))
    } else {
        0
    }
}

// AS4_AGGREGATOR.
fn as4_aggregator(as4: bool, aggregator: Option<(u32, u32)>) -> usize
    ensures { result ≡ length (row_bytes (row 192 18 (as4_aggregator_value as4 aggregator))) }
{
    match aggregator {
        Some((asn, _)) if !as4 && exceeds(asn) => 11,
        _ => 0,
    }
}

// AS4_PATH and AS4_AGGREGATOR.
fn as4(enc: Encoding, attrs: &Attrs) -> usize
    ensures { result ≡ capped (length (rows_bytes (as4_rows enc attrs.now))) }
{
    as4_path(enc.as4, attrs.path.as_slice()).saturating_add(as4_aggregator(
        enc.as4,
        attrs.aggregator,
    ))
}

// An attribute of an unknown type, where the type is one of these.
fn between(low: u8, high: u8, kind: u8, value: &[u8]) -> usize
    ensures { result ≡ capped (length (rows_bytes (unknown_rows low high ((kind, value.now) ∷ [])))) }
{
    if low <= kind && kind <= high {
        attribute(value.len())
    } else {
        0
    }
}

// The attributes of unknown types from a type to another.
fn unknown(low: u8, high: u8, unknown: &[(u8, Bytes)]) -> usize
    ensures { result ≡ capped (length (rows_bytes (unknown_rows low high unknown.now))) }
{
    let mut total: usize = 0;
    for (kind, value) in unknown {
        total = total.saturating_add(between(low, high, *kind, value.as_slice()));
    }
    total
}

// The attributes of types up to 8.
fn low(enc: Encoding, attrs: &Attrs, hop: Addr) -> usize
    ensures { result ≡ capped (length (rows_bytes (low_rows enc (record attrs.now { hop = hop })))) }
{
    unknown(0, 0, attrs.unknown.as_slice())
        .saturating_add(route(enc, attrs, hop))
        .saturating_add(numbers(attrs))
        .saturating_add(lists(enc, attrs))
}

// The attributes of types above 8.
fn high(enc: Encoding, attrs: &Attrs) -> usize
    ensures { result ≡ capped (length (rows_bytes (high_rows enc attrs.now))) }
{
    let others = attrs.unknown.as_slice();
    unknown(9, 16, others)
        .saturating_add(as4(enc, attrs))
        .saturating_add(unknown(19, 31, others))
        .saturating_add(large_communities(attrs.large.as_slice()))
        .saturating_add(unknown(33, 255, others))
}

/// How many bytes the attributes have that `write_attrs` writes, or the greatest usize where that is more.
pub fn attrs_size(enc: Encoding, attrs: &Attrs) -> usize
    ensures { result ≡ capped (length (attrs_bytes enc attrs.now)) }
{
    size_with(enc, attrs, attrs.hop)
}

/// The same of a route with this hop in the place of its own.
#[tactic(auto, unfolding(crate::specs::Written::attrs_bytes))]
pub(crate) fn size_with(enc: Encoding, attrs: &Attrs, hop: Addr) -> usize
    ensures { result ≡ capped (length (attrs_bytes enc (record attrs.now { hop = hop }))) }
{
    low(enc, attrs, hop).saturating_add(high(enc, attrs))
}

// The prefixes, with the attribute that they stand in where they are of IPv6.
fn nlri_bytes(family: Family, nlri: usize) -> usize
    ensures { result ≡ capped (nlri_size family nlri) }
{
    match family {
        Family::V4 => nlri,
        Family::V6 => attribute(nlri.saturating_add(21)),
    }
}

/// How many bytes the UPDATE has that announces prefixes of `nlri` bytes with these attributes, its header of 19 bytes included, or
/// the greatest usize where that is more. The family of the prefixes is that of the hop.
pub fn size(enc: Encoding, attrs: &Attrs, nlri: usize) -> usize
    ensures { result ≡ capped (update_size enc attrs.now nlri) }
{
    announced_size(attrs.hop.family, attrs_size(enc, attrs), nlri)
}

/// The same for prefixes of this family where the attributes have so many bytes, as `attrs_size` says. So the attributes are
/// measured once for all lists of prefixes that are announced with them.
pub fn announced_size(family: Family, attributes: usize, nlri: usize) -> usize
    ensures { result ≡ capped (announced_size family attributes nlri) }
{
    attributes
        .saturating_add(nlri_bytes(family, nlri))
        .saturating_add(23)
}
