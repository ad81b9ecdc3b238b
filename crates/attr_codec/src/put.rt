//! Attributes written one by one. Each stands behind what `out` holds; where memory is refused, `out` may hold a part of it.

ghost use Rattle.std.specs.Prelude.{◌≡◌, ◌≤◌, ◌<◌, ◌+◌, ◌++◌, ◌∷◌, [], Some, None, length, flat_map, map, option_map, OnOk, OnErr, IfSome};
ghost use Rattle.std.specs.List.{AllByRecursion};
ghost use Rattle.byteorder.specs.Endian.{big_bytes};
ghost use Rattle.bgp_wire.specs.Written.{Keeps};
ghost use Rattle.attr_model.specs.Valid.{IsPath};
ghost use Rattle.attr_codec.specs.Path.{path_bytes};
ghost use Rattle.attr_codec.specs.Written.{row, header_bytes, row_bytes, rows_bytes, next_hop_value, atomic_value, aggregator_bytes, large_bytes, list_value, unknown_rows, IsShort, IsShortOne};
ghost use Rattle.attr_codec.specs.Width.{IsNumber, AreNumbers, AreSegments, IsAggregator, IsLarge, IsUnknown};

use crate::put_path::{put_as, put_segments};
use crate::sizes;
use attr_model::Segment;
use net_base::{Addr, Bytes, Family, NoMemory};
use wire_buf::Pipe;

/// The flag bit that says that the length has two bytes (RFC 4271 section 4.3).
const LONG_LENGTH: u8 = 0x10;

/// Puts the header of an attribute: its flags, its type and the length of its value.
pub(crate) fn put_header(flags: u8, kind: u8, size: usize, out: &mut Pipe) -> Result<(), NoMemory>
    requires flags { flags + 16 < 256 }
    requires size { size ≤ 65535 }
    ensures ok { OnOk result (out.new ≡ out.old ++ header_bytes flags kind size) }
    ensures err { OnErr result (Keeps out.old out.new) }
{
    if size > 255 {
        out.push(&[flags + LONG_LENGTH, kind])?;
        out.put_u16(size as u16)
    } else {
        out.push(&[flags, kind, size as u8])
    }
}

/// Puts an attribute with this value.
pub(crate) fn put_value(flags: u8, kind: u8, value: &[u8], out: &mut Pipe) -> Result<(), NoMemory>
    requires flags { flags + 16 < 256 }
    requires size { IsShort value.now }
    ensures ok { OnOk result (out.new ≡ out.old ++ row_bytes (row flags kind (Some value.now))) }
    ensures err { OnErr result (Keeps out.old out.new) }
{
    put_header(flags, kind, value.len(), out)?;
    out.push(value)
}

/// Puts an attribute that is a number of four bytes, where it is there.
pub(crate) fn put_number(
    flags: u8,
    kind: u8,
    number: Option<u32>,
    out: &mut Pipe,
) -> Result<(), NoMemory>
    requires { flags + 16 < 256 }
    ensures ok { OnOk result (out.new ≡ out.old ++ row_bytes (row flags kind (option_map (big_bytes 4) number))) }
    ensures err { OnErr result (Keeps out.old out.new) }
    ensures width { OnOk result (IfSome number IsNumber) }
{
    match number {
        None => Ok(()),
        Some(number) => {
            put_header(flags, kind, 4, out)?;
            out.put_u32(number)
        }
    }
}

/// Puts AS_PATH or AS4_PATH.
pub(crate) fn put_path(
    flags: u8,
    kind: u8,
    as4: bool,
    path: &[Segment],
    out: &mut Pipe,
) -> Result<(), NoMemory>
    requires flags { flags + 16 < 256 }
    requires path { IsPath path.now }
    requires size { IsShort (path_bytes as4 path.now) }
    ensures ok { OnOk result (out.new ≡ out.old ++ row_bytes (row flags kind (Some (path_bytes as4 path.now)))) }
    ensures err { OnErr result (Keeps out.old out.new) }
    ensures width { OnOk result (AreSegments path.now) }
{
    put_header(flags, kind, sizes::path(as4, path), out)?;
    put_segments(as4, path, out)
}

/// Puts NEXT_HOP, where the hop is of IPv4.
pub(crate) fn put_next_hop(hop: Addr, out: &mut Pipe) -> Result<(), NoMemory>
    ensures ok { OnOk result (out.new ≡ out.old ++ row_bytes (row 64 3 (next_hop_value hop.family hop.bits))) }
    ensures err { OnErr result (Keeps out.old out.new) }
{
    match hop.family {
        Family::V4 => put_number(0x40, 3, Some(hop.bits as u32), out),
        Family::V6 => Ok(()),
    }
}

/// Puts ATOMIC_AGGREGATE, where it is there.
pub(crate) fn put_atomic(is_there: bool, out: &mut Pipe) -> Result<(), NoMemory>
    ensures ok { OnOk result (out.new ≡ out.old ++ row_bytes (row 64 6 (atomic_value is_there))) }
    ensures err { OnErr result (Keeps out.old out.new) }
{
    if is_there {
        put_value(0x40, 6, &[], out)
    } else {
        Ok(())
    }
}

/// Puts AGGREGATOR or AS4_AGGREGATOR, where it is there.
pub(crate) fn put_aggregator(
    flags: u8,
    kind: u8,
    as4: bool,
    aggregator: Option<(u32, u32)>,
    out: &mut Pipe,
) -> Result<(), NoMemory>
    requires { flags + 16 < 256 }
    ensures ok { OnOk result (out.new ≡ out.old ++ row_bytes (row flags kind (option_map (aggregator_bytes as4) aggregator))) }
    ensures err { OnErr result (Keeps out.old out.new) }
    ensures width { OnOk result (IfSome aggregator IsAggregator) }
{
    match aggregator {
        None => Ok(()),
        Some((asn, address)) => {
            put_header(flags, kind, if as4 { 8 } else { 6 }, out)?;
            put_as(as4, asn, out)?;
            out.put_u32(address)
        }
    }
}

fn put_u32s(numbers: &[u32], out: &mut Pipe) -> Result<(), NoMemory>
    ensures ok { OnOk result (out.new ≡ out.old ++ flat_map (big_bytes 4) numbers.now) }
    ensures err { OnErr result (Keeps out.old out.new) }
    ensures width { OnOk result (AreNumbers numbers.now) }
{
    for number in numbers {
        out.put_u32(*number)?;
    }
    Ok(())
}

/// Puts COMMUNITIES, where there are some.
pub(crate) fn put_communities(
    flags: u8,
    communities: &[u32],
    out: &mut Pipe,
) -> Result<(), NoMemory>
    requires flags { flags + 16 < 256 }
    requires size { IsShort (flat_map (big_bytes 4) communities.now) }
    ensures ok { OnOk result (out.new ≡ out.old ++ row_bytes (row flags 8 (list_value (big_bytes 4) communities.now))) }
    ensures err { OnErr result (Keeps out.old out.new) }
    ensures width { OnOk result (AreNumbers communities.now) }
{
    if communities.is_empty() {
        return Ok(());
    }
    put_header(flags, 8, sizes::u32s(communities), out)?;
    put_u32s(communities, out)
}

fn put_large(large: (u32, u32, u32), out: &mut Pipe) -> Result<(), NoMemory>
    ensures ok { OnOk result (out.new ≡ out.old ++ large_bytes large) }
    ensures err { OnErr result (Keeps out.old out.new) }
    ensures width { OnOk result (IsLarge large) }
{
    let (administrator, first, second) = large;
    out.put_u32(administrator)?;
    out.put_u32(first)?;
    out.put_u32(second)?;
    Ok(())
}

fn put_larges(larges: &[(u32, u32, u32)], out: &mut Pipe) -> Result<(), NoMemory>
    ensures ok { OnOk result (out.new ≡ out.old ++ flat_map large_bytes larges.now) }
    ensures err { OnErr result (Keeps out.old out.new) }
    ensures width { OnOk result (AllByRecursion IsLarge larges.now) }
{
    for large in larges {
        put_large(*large, out)?;
    }
    Ok(())
}

/// Puts LARGE_COMMUNITY, where there are some.
pub(crate) fn put_large_communities(
    flags: u8,
    larges: &[(u32, u32, u32)],
    out: &mut Pipe,
) -> Result<(), NoMemory>
    requires flags { flags + 16 < 256 }
    requires size { IsShort (flat_map large_bytes larges.now) }
    ensures ok { OnOk result (out.new ≡ out.old ++ row_bytes (row flags 32 (list_value large_bytes larges.now))) }
    ensures err { OnErr result (Keeps out.old out.new) }
    ensures width { OnOk result (AllByRecursion IsLarge larges.now) }
{
    if larges.is_empty() {
        return Ok(());
    }
    put_header(flags, 32, sizes::larges(larges), out)?;
    put_larges(larges, out)
}

// Puts an attribute of an unknown type, where the type is one of these.
fn put_between(low: u8, high: u8, kind: u8, value: &[u8], out: &mut Pipe) -> Result<(), NoMemory>
    requires { IsShort value.now }
    ensures ok { OnOk result (out.new ≡ out.old ++ rows_bytes (unknown_rows low high ((kind, value.now) ∷ []))) }
    ensures err { OnErr result (Keeps out.old out.new) }
    ensures width { OnOk result (IsUnknown (kind, value.now)) }
{
    if low <= kind && kind <= high {
        put_value(0xe0, kind, value, out)
    } else {
        Ok(())
    }
}

/// Puts the attributes of unknown types from a type to another.
pub(crate) fn put_unknown(
    low: u8,
    high: u8,
    unknown: &[(u8, Bytes)],
    out: &mut Pipe,
) -> Result<(), NoMemory>
    requires { AllByRecursion IsShortOne unknown.now }
    ensures ok { OnOk result (out.new ≡ out.old ++ rows_bytes (unknown_rows low high unknown.now)) }
    ensures err { OnErr result (Keeps out.old out.new) }
    ensures width { OnOk result (AllByRecursion IsUnknown unknown.now) }
{
    for (kind, value) in unknown {
        put_between(low, high, *kind, value.as_slice(), out)?;
    }
    Ok(())
}
