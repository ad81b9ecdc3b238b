//! Prefixes, and the attributes of IPv6 routes, written.

ghost use Rattle.std.specs.Prelude.{[], ◌∷◌, ◌≡◌, ◌≤◌, ◌<◌, ◌+◌, ◌/◌, ◌^◌, ◌++◌, Some, length, take, OnOk, OnErr};
ghost use Rattle.byteorder.specs.Endian.{big_bytes};
ghost use Rattle.bgp_wire.specs.Written.{Keeps};
ghost use Rattle.net_base.specs.declared.addr.Family.TheVariants.{V6};
ghost use Rattle.net_base.specs.Width.{width_of};
ghost use Rattle.attr_codec.specs.Prefixes.{octet_count, addr_bytes, prefix_bytes, prefixes_bytes};
ghost use Rattle.attr_codec.specs.Written.{row_bytes, reach_row, unreach_row};
ghost use Rattle.attr_codec.specs.Size.{capped};

use crate::put::put_header;
use net_base::{Addr, Family, NoMemory, Prefix};
use wire_buf::Pipe;

// The octets that hold the first `len` bits of an address.
fn put_octets(family: Family, bits: u128, len: u8, out: &mut Pipe) -> Result<(), NoMemory>
    requires len { len ≤ width_of family }
    requires bits { bits < 2 ^ width_of family }
    ensures ok { OnOk result (out.new ≡ out.old ++ take ((len + 7) / 8) (addr_bytes family bits)) }
    ensures err { OnErr result (Keeps out.old out.new) }
{
    let count = (usize::from(len) + 7) / 8;
    match family {
        Family::V4 => out.push(&(bits as u32).to_be_bytes()[..count]),
        Family::V6 => out.push(&bits.to_be_bytes()[..count]),
    }
}

fn put_prefix(prefix: Prefix, out: &mut Pipe) -> Result<(), NoMemory>
    ensures ok { OnOk result (out.new ≡ out.old ++ prefix_bytes prefix) }
    ensures err { OnErr result (Keeps out.old out.new) }
{
    out.push(&[prefix.len])?;
    put_octets(prefix.family, prefix.bits, prefix.len, out)
}

/// Writes prefixes behind what `out` holds, each as its length in bits and then the least octets that hold them (RFC 4271
/// section 4.3). Where memory is refused, `out` begins with what it held.
pub fn write_prefixes(prefixes: &[Prefix], out: &mut Pipe) -> Result<(), NoMemory>
    ensures ok { OnOk result (out.new ≡ out.old ++ prefixes_bytes prefixes.now) }
    ensures err { OnErr result (Keeps out.old out.new) }
{
    for prefix in prefixes {
        put_prefix(*prefix, out)?;
    }
    Ok(())
}

fn prefix_size(prefix: Prefix) -> usize
    ensures { result ≡ length (prefix_bytes prefix) }
{
    1 + (usize::from(prefix.len) + 7) / 8
}

/// Writes MP_REACH_NLRI of IPv6 unicast prefixes (RFC 4760 section 3, RFC 2545 section 3) behind what `out` holds. Where memory
/// is refused, `out` begins with what it held.
pub fn write_reach(hop: Addr, prefixes: &[Prefix], out: &mut Pipe) -> Result<(), NoMemory>
    requires { 21 + length (prefixes_bytes prefixes.now) ≤ 65535 }
    ensures ok { OnOk result (out.new ≡ out.old ++ row_bytes (reach_row hop.bits prefixes.now)) }
    ensures err { OnErr result (Keeps out.old out.new) }
{
    put_header(0x80, 14, 21 + prefixes_size(prefixes), out)?;
    put_hop(hop, out)?;
    put_reserved(prefixes, out)
}

// The family, and a hop of 16 bytes.
fn put_hop(hop: Addr, out: &mut Pipe) -> Result<(), NoMemory>
    ensures ok { OnOk result (out.new ≡ out.old ++ ((0 ∷ 2 ∷ 1 ∷ 16 ∷ []) ++ big_bytes 16 hop.bits)) }
    ensures err { OnErr result (Keeps out.old out.new) }
{
    out.push(&[0, 2, 1, 16])?;
    out.push(&hop.bits.to_be_bytes())?;
    Ok(())
}

// The reserved byte, and the prefixes.
fn put_reserved(prefixes: &[Prefix], out: &mut Pipe) -> Result<(), NoMemory>
    ensures ok { OnOk result (out.new ≡ out.old ++ ((0 ∷ []) ++ prefixes_bytes prefixes.now)) }
    ensures err { OnErr result (Keeps out.old out.new) }
{
    out.push(&[0])?;
    write_prefixes(prefixes, out)
}

/// Writes MP_UNREACH_NLRI of IPv6 unicast prefixes (RFC 4760 section 4) behind what `out` holds. Where memory is refused,
/// `out` begins with what it held.
pub fn write_unreach(prefixes: &[Prefix], out: &mut Pipe) -> Result<(), NoMemory>
    requires { 3 + length (prefixes_bytes prefixes.now) ≤ 65535 }
    ensures ok { OnOk result (out.new ≡ out.old ++ row_bytes (unreach_row prefixes.now)) }
    ensures err { OnErr result (Keeps out.old out.new) }
{
    put_header(0x80, 15, 3 + prefixes_size(prefixes), out)?;
    out.push(&[0, 2, 1])?;
    write_prefixes(prefixes, out)
}

/// How many bytes prefixes have, or the greatest usize where that is more.
pub fn prefixes_size(prefixes: &[Prefix]) -> usize
    ensures { result ≡ capped (length (prefixes_bytes prefixes.now)) }
{
    let mut total: usize = 0;
    for prefix in prefixes {
        total = total.saturating_add(prefix_size(*prefix));
    }
    total
}
