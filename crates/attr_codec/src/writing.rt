//! Writing the attributes of a route.

ghost use Rattle.std.specs.Prelude.{◌≡◌, ◌≤◌, ◌++◌, length, flat_map, OnOk, OnErr, IfSome};
ghost use Rattle.std.specs.List.{AllByRecursion};
ghost use Rattle.byteorder.specs.Endian.{big_bytes};
ghost use Rattle.bgp_wire.specs.Written.{Keeps};
ghost use Rattle.attr_model.specs.Valid.{IsPath, IsValid};
ghost use Rattle.attr_codec.specs.Written.{kept_flags, row, row_bytes, rows_bytes, as4_path_value, as4_aggregator_value, large_bytes, route_rows, number_rows, list_rows, as4_rows, large_rows, low_rows, high_rows, attrs_bytes, IsShort, HaveShortValues};
ghost use Rattle.attr_codec.specs.Width.{IsNumber, AreNumbers, AreSegments, IsAggregator, IsLarge, IsUnknown, HaveWidth};

use crate::flag::{OPTIONAL_TRANSITIVE, PARTIAL};
use crate::put::{
    put_aggregator, put_atomic, put_communities, put_large_communities, put_next_hop, put_number,
    put_path, put_unknown, put_value,
};
use crate::put_path::{exceeds, path_exceeds};
use attr_model::{Attrs, Segment};
use bgp_wire::Encoding;
use net_base::{Addr, NoMemory};
use wire_buf::Pipe;

// The flags of an optional transitive attribute, with its partial bit as it was kept.
fn kept_flags(bits: u8, bit: u8) -> u8
    ensures flags { result ≡ kept_flags bits bit }
    ensures small { result ≤ 224 }
{
    if bits & bit == 0 {
        OPTIONAL_TRANSITIVE
    } else {
        OPTIONAL_TRANSITIVE | PARTIAL
    }
}

// ORIGIN, AS_PATH and NEXT_HOP.
fn put_route(enc: Encoding, attrs: &Attrs, hop: Addr, out: &mut Pipe) -> Result<(), NoMemory>
    requires path { IsPath attrs.now.path }
    requires size { HaveShortValues enc attrs.now }
    ensures ok { OnOk result (out.new ≡ out.old ++ rows_bytes (route_rows enc (record attrs.now { hop = hop }))) }
    ensures err { OnErr result (Keeps out.old out.new) }
    ensures width { OnOk result (AreSegments attrs.now.path) }
{
    put_value(0x40, 1, &[attrs.origin], out)?;
    put_path(0x40, 2, enc.as4, attrs.path.as_slice(), out)?;
    put_next_hop(hop, out)
}

// MULTI_EXIT_DISC, LOCAL_PREF and ATOMIC_AGGREGATE.
fn put_numbers(attrs: &Attrs, out: &mut Pipe) -> Result<(), NoMemory>
    ensures ok { OnOk result (out.new ≡ out.old ++ rows_bytes (number_rows attrs.now)) }
    ensures err { OnErr result (Keeps out.old out.new) }
    ensures med { OnOk result (IfSome attrs.now.med IsNumber) }
    ensures local_pref { OnOk result (IfSome attrs.now.local_pref IsNumber) }
{
    put_number(0x80, 4, attrs.med, out)?;
    put_number(0x40, 5, attrs.local_pref, out)?;
    put_atomic(attrs.atomic, out)
}

// AGGREGATOR and COMMUNITIES.
fn put_lists(enc: Encoding, attrs: &Attrs, out: &mut Pipe) -> Result<(), NoMemory>
    requires { HaveShortValues enc attrs.now }
    ensures ok { OnOk result (out.new ≡ out.old ++ rows_bytes (list_rows enc attrs.now)) }
    ensures err { OnErr result (Keeps out.old out.new) }
    ensures aggregator { OnOk result (IfSome attrs.now.aggregator IsAggregator) }
    ensures communities { OnOk result (AreNumbers attrs.now.communities) }
{
    put_aggregator(
        kept_flags(attrs.partial, 1),
        7,
        enc.as4,
        attrs.aggregator,
        out,
    )?;
    put_communities(
        kept_flags(attrs.partial, 2),
        attrs.communities.as_slice(),
        out,
    )
}

// AS4_PATH, where it is sent.
fn put_as4_path(as4: bool, path: &[Segment], out: &mut Pipe) -> Result<(), NoMemory>
    requires path { IsPath path.now }
    requires size { IfSome (as4_path_value as4 path.now) IsShort }
    ensures ok { OnOk result (out.new ≡ out.old ++ row_bytes (row 192 17 (as4_path_value as4 path.now))) }
    ensures err { OnErr result (Keeps out.old out.new) }
{
    if !as4 && path_exceeds(path) {
        put_path(OPTIONAL_TRANSITIVE, 17, true, path, out)
    } else {
        Ok(())
    }
}

// AS4_AGGREGATOR, where it is sent.
fn put_as4_aggregator(
    as4: bool,
    aggregator: Option<(u32, u32)>,
    out: &mut Pipe,
) -> Result<(), NoMemory>
    ensures ok { OnOk result (out.new ≡ out.old ++ row_bytes (row 192 18 (as4_aggregator_value as4 aggregator))) }
    ensures err { OnErr result (Keeps out.old out.new) }
{
    match aggregator {
        Some((asn, address)) if !as4 && exceeds(asn) => {
            put_aggregator(OPTIONAL_TRANSITIVE, 18, true, Some((asn, address)), out)
        }
        _ => Ok(()),
    }
}

// AS4_PATH and AS4_AGGREGATOR.
fn put_as4(enc: Encoding, attrs: &Attrs, out: &mut Pipe) -> Result<(), NoMemory>
    requires path { IsPath attrs.now.path }
    requires size { HaveShortValues enc attrs.now }
    ensures ok { OnOk result (out.new ≡ out.old ++ rows_bytes (as4_rows enc attrs.now)) }
    ensures err { OnErr result (Keeps out.old out.new) }
{
    put_as4_path(enc.as4, attrs.path.as_slice(), out)?;
    put_as4_aggregator(enc.as4, attrs.aggregator, out)
}

// LARGE_COMMUNITY.
fn put_large(attrs: &Attrs, out: &mut Pipe) -> Result<(), NoMemory>
    requires { IsShort (flat_map large_bytes attrs.now.large) }
    ensures ok { OnOk result (out.new ≡ out.old ++ rows_bytes (large_rows attrs.now)) }
    ensures err { OnErr result (Keeps out.old out.new) }
    ensures width { OnOk result (AllByRecursion IsLarge attrs.now.large) }
{
    put_large_communities(kept_flags(attrs.partial, 4), attrs.large.as_slice(), out)
}

// The attributes of types up to 8.
fn put_low(enc: Encoding, attrs: &Attrs, hop: Addr, out: &mut Pipe) -> Result<(), NoMemory>
    requires path { IsPath attrs.now.path }
    requires size { HaveShortValues enc attrs.now }
    ensures ok { OnOk result (out.new ≡ out.old ++ rows_bytes (low_rows enc (record attrs.now { hop = hop }))) }
    ensures err { OnErr result (Keeps out.old out.new) }
    ensures path { OnOk result (AreSegments attrs.now.path) }
    ensures med { OnOk result (IfSome attrs.now.med IsNumber) }
    ensures local_pref { OnOk result (IfSome attrs.now.local_pref IsNumber) }
    ensures aggregator { OnOk result (IfSome attrs.now.aggregator IsAggregator) }
    ensures communities { OnOk result (AreNumbers attrs.now.communities) }
{
    put_unknown(0, 0, attrs.unknown.as_slice(), out)?;
    put_route(enc, attrs, hop, out)?;
    put_numbers(attrs, out)?;
    put_lists(enc, attrs, out)
}

// The attributes of types above 8.
fn put_high(enc: Encoding, attrs: &Attrs, out: &mut Pipe) -> Result<(), NoMemory>
    requires path { IsPath attrs.now.path }
    requires size { HaveShortValues enc attrs.now }
    ensures ok { OnOk result (out.new ≡ out.old ++ rows_bytes (high_rows enc attrs.now)) }
    ensures err { OnErr result (Keeps out.old out.new) }
    ensures large { OnOk result (AllByRecursion IsLarge attrs.now.large) }
    ensures unknown { OnOk result (AllByRecursion IsUnknown attrs.now.unknown) }
{
    let unknown = attrs.unknown.as_slice();
    put_unknown(9, 16, unknown, out)?;
    put_as4(enc, attrs, out)?;
    put_unknown(19, 31, unknown, out)?;
    put_large(attrs, out)?;
    put_unknown(33, 255, unknown, out)
}

/// Puts the attributes of a route with this hop in the place of its own. Where memory is refused, `out` may hold a part of them.
#[tactic(auto, unfolding(crate::specs::Written::attrs_bytes))]
pub(crate) fn put_attrs(
    enc: Encoding,
    attrs: &Attrs,
    hop: Addr,
    out: &mut Pipe,
) -> Result<(), NoMemory>
    requires valid { IsValid attrs.now }
    requires size { HaveShortValues enc attrs.now }
    ensures ok { OnOk result (out.new ≡ out.old ++ attrs_bytes enc (record attrs.now { hop = hop })) }
    ensures err { OnErr result (Keeps out.old out.new) }
    ensures width { OnOk result (HaveWidth attrs.now) }
{
    put_low(enc, attrs, hop, out)?;
    put_high(enc, attrs, out)
}

/// Writes the attributes of a route behind what `out` holds (RFC 4271 section 4.3), with ascending types.
///
/// NEXT_HOP is that of an IPv4 hop, and a hop of IPv6 isn't written. MULTI_EXIT_DISC and LOCAL_PREF are written where they are
/// there. To a peer of two-octet numbers 23456 stands for each AS number above 65535, and AS4_PATH and AS4_AGGREGATOR have the
/// whole path and the aggregator where such a number is among theirs (RFC 6793 section 4.2.2). Attributes of unknown types are
/// sent on with the partial bit. Where memory is refused, `out` holds what it held.
pub fn write_attrs(enc: Encoding, attrs: &Attrs, out: &mut Pipe) -> Result<(), NoMemory>
    requires valid { IsValid attrs.now }
    requires size { HaveShortValues enc attrs.now }
    ensures ok { OnOk result (out.new ≡ out.old ++ attrs_bytes enc attrs.now) }
    ensures err { OnErr result (out.new ≡ out.old) }
    ensures width { OnOk result (HaveWidth attrs.now) }
{
    let held = out.len();
    let written = put_attrs(enc, attrs, attrs.hop, out);
    out.keep_on_err(held, written)
}
