ghost use Rattle.std.specs.Prelude.{◌≡◌, ◌<◌, ◌++◌, [], flat_map, length, OnOk, OnErr, nat_lt, if◌then◌else◌};
ghost use Rattle.bgp_wire.specs.Message.{message_bytes, message_header, IsMessage};
ghost use Rattle.bgp_wire.specs.Entries.{entry_bytes};
ghost use Rattle.bgp_wire.specs.Open.{answer_to, open_of};
ghost use Rattle.bgp_wire.specs.Written.{announced, capabilities_by, optional_by, fixed_by, open_by, notification, keepalive, refresh_of, refreshed_family, IsAcceptable, RulesHaveWidth, facts_by, Keeps};

use crate::kind::{KEEPALIVE, NOTIFICATION, OPEN, ROUTE_REFRESH};
use crate::open::VERSION;
use crate::{OpenRules, hearing};
use byteorder::{BigEndian, ByteOrder};
use net_base::{Family, NoMemory};
use wire_buf::Pipe;

/// The AS number that stands for one without two octets (RFC 6793, section 9).
pub const AS_TRANS: u16 = 23456;

/// Writes the own OPEN (RFC 4271, section 4.2) behind what `out` holds.
///
/// It has one parameter with the capabilities that are announced, or none. My AS is 23456 for an AS number
/// above 65535. Where memory is refused, `out` holds what it held.
pub fn write_open(mine: &OpenRules, out: &mut Pipe) -> Result<(), NoMemory>
    ensures ok { OnOk result (out.new ≡ out.old ++ message_bytes (open_by mine.now)) }
    ensures err { OnErr result (out.new ≡ out.old) }
    ensures whole { IsMessage (open_by mine.now) }
    // The other side reads from it what these rules say.
    ensures reads_back { OnOk result ((theirs : OpenRules) → IsAcceptable mine.now theirs →
        answer_to (open_of (open_by mine.now).body) theirs ≡ Ok (facts_by mine.now theirs)) }
{
    let held = out.len();
    let written = put_open(mine, out);
    out.keep_on_err(held, written)
}

/// Writes a NOTIFICATION without data (RFC 4271, section 4.5) behind what `out` holds. Where memory is
/// refused, `out` holds what it held.
pub fn write_notification(code: u8, sub: u8, out: &mut Pipe) -> Result<(), NoMemory>
    ensures ok { OnOk result (out.new ≡ out.old ++ message_bytes (notification code sub)) }
    ensures err { OnErr result (out.new ≡ out.old) }
    ensures whole { IsMessage (notification code sub) }
{
    write_message(NOTIFICATION, &[code, sub], out)
}

/// Writes a KEEPALIVE (RFC 4271, section 4.4) behind what `out` holds. Where memory is refused, `out` holds
/// what it held.
pub fn write_keepalive(out: &mut Pipe) -> Result<(), NoMemory>
    ensures ok { OnOk result (out.new ≡ out.old ++ message_bytes keepalive) }
    ensures err { OnErr result (out.new ≡ out.old) }
    ensures whole { IsMessage keepalive }
{
    write_message(KEEPALIVE, &[], out)
}

/// Writes a ROUTE-REFRESH for the unicast prefixes of a family (RFC 2918, section 3) behind what `out`
/// holds. Where memory is refused, `out` holds what it held.
pub fn write_refresh(family: Family, out: &mut Pipe) -> Result<(), NoMemory>
    ensures ok { OnOk result (out.new ≡ out.old ++ message_bytes (refresh_of family)) }
    ensures err { OnErr result (out.new ≡ out.old) }
    ensures whole { IsMessage (refresh_of family) }
    ensures reads_back { refreshed_family (refresh_of family).body ≡ Some family }
{
    match family {
        Family::V4 => write_message(ROUTE_REFRESH, &[0, 1, 0, 1], out),
        Family::V6 => write_message(ROUTE_REFRESH, &[0, 2, 0, 1], out),
    }
}

// Writes a message of this type and body.
fn write_message(kind: u8, body: &[u8], out: &mut Pipe) -> Result<(), NoMemory>
    requires { length body.now < 4096 }
    ensures ok { OnOk result (out.new ≡ out.old ++ message_bytes (record { kind = kind; body = body.now })) }
    ensures err { OnErr result (out.new ≡ out.old) }
{
    let held = out.len();
    let written = put_message(kind, body, out);
    out.keep_on_err(held, written)
}

fn put_message(kind: u8, body: &[u8], out: &mut Pipe) -> Result<(), NoMemory>
    requires { length body.now < 4096 }
    ensures ok { OnOk result (out.new ≡ out.old ++ message_bytes (record { kind = kind; body = body.now })) }
    ensures err { OnErr result (Keeps out.old out.new) }
{
    put_header(kind, 19 + body.len() as u16, out)?;
    out.push(body)
}

/// Puts the header of a message of so many bytes behind what `out` holds (RFC 4271, section 4.1). Where memory is refused, `out`
/// begins with what it held.
pub fn put_header(kind: u8, size: u16, out: &mut Pipe) -> Result<(), NoMemory>
    ensures ok { OnOk result (out.new ≡ out.old ++ message_header kind size) }
    ensures err { OnErr result (Keeps out.old out.new) }
{
    out.push(&[0xff; 16])?;
    out.put_u16(size)?;
    out.put_u8(kind)
}

fn put_open(mine: &OpenRules, out: &mut Pipe) -> Result<(), NoMemory>
    ensures width { OnOk result (RulesHaveWidth mine.now) }
    ensures ok { OnOk result (out.new ≡ out.old ++ message_bytes (open_by mine.now)) }
    ensures err { OnErr result (Keeps out.old out.new) }
{
    let optional = optional_length(mine);
    put_header(OPEN, 29 + u16::from(optional), out)?;
    put_open_body(mine, optional, out)?;
    Ok(())
}

// The body of an OPEN, whose optional parameters have so many bytes.
fn put_open_body(mine: &OpenRules, optional: u8, out: &mut Pipe) -> Result<(), NoMemory>
    requires { optional ≡ length (optional_by mine.now) }
    ensures width { OnOk result (RulesHaveWidth mine.now) }
    ensures ok { OnOk result (out.new ≡ out.old ++ (open_by mine.now).body) }
    ensures err { OnErr result (Keeps out.old out.new) }
{
    put_fixed(mine, out)?;
    out.put_u8(optional)?;
    put_optional(mine, out)
}

// The fields of an OPEN before its optional parameters.
fn put_fixed(mine: &OpenRules, out: &mut Pipe) -> Result<(), NoMemory>
    ensures width { OnOk result (RulesHaveWidth mine.now) }
    ensures ok { OnOk result (out.new ≡ out.old ++ fixed_by mine.now) }
    ensures err { OnErr result (Keeps out.old out.new) }
{
    let OpenRules {
        asn,
        hold,
        router_id,
        ..
    } = *mine;
    out.put_u8(VERSION)?;
    out.put_u16(my_as(asn))?;
    out.put_u16(hold)?;
    out.put_u32(router_id)?;
    Ok(())
}

// The AS number in two octets.
fn my_as(asn: u32) -> u16
    ensures { result ≡ (if nat_lt asn 65536 then asn else 23456) }
{
    u16::try_from(asn).unwrap_or(AS_TRANS)
}

// How many bytes the optional parameters have.
fn optional_length(mine: &OpenRules) -> u8
    ensures { result ≡ length (optional_by mine.now) }
{
    let capabilities = capabilities_length(mine);
    if capabilities == 0 {
        0
    } else {
        2 + capabilities
    }
}

// How many bytes the capabilities have.
fn capabilities_length(mine: &OpenRules) -> u8
    ensures length { result ≡ length (flat_map entry_bytes (capabilities_by mine.now)) }
    ensures few { result < 21 }
{
    announced_length(mine.v4, 6)
        + announced_length(mine.v6, 6)
        + announced_length(mine.refresh, 2)
        + announced_length(mine.as4, 6)
}

fn announced_length(announced: bool, length: u8) -> u8
    ensures { result ≡ (if announced then length else 0) }
{
    if announced { length } else { 0 }
}

// The optional parameters of an OPEN.
fn put_optional(mine: &OpenRules, out: &mut Pipe) -> Result<(), NoMemory>
    ensures ok { OnOk result (out.new ≡ out.old ++ optional_by mine.now) }
    ensures err { OnErr result (Keeps out.old out.new) }
{
    let capabilities = capabilities_length(mine);
    if capabilities == 0 {
        return Ok(());
    }
    out.push(&[hearing::CAPABILITIES, capabilities])?;
    put_capabilities(mine, out)
}

fn put_capabilities(mine: &OpenRules, out: &mut Pipe) -> Result<(), NoMemory>
    ensures ok { OnOk result (out.new ≡ out.old ++ flat_map entry_bytes (capabilities_by mine.now)) }
    ensures err { OnErr result (Keeps out.old out.new) }
{
    put_announced(mine.v4, hearing::MULTIPROTOCOL, &[0, 1, 0, 1], out)?;
    put_announced(mine.v6, hearing::MULTIPROTOCOL, &[0, 2, 0, 1], out)?;
    put_announced(mine.refresh, hearing::ROUTE_REFRESH, &[], out)?;
    let mut asn = [0; 4];
    BigEndian::write_u32(&mut asn, mine.asn);
    put_announced(mine.as4, hearing::FOUR_OCTET_AS, &asn, out)
}

// A capability, where it is announced.
fn put_announced(is_announced: bool, code: u8, value: &[u8], out: &mut Pipe) -> Result<(), NoMemory>
    requires { length value.now < 256 }
    ensures ok { OnOk result (out.new ≡ out.old ++ flat_map entry_bytes (announced is_announced code value.now)) }
    ensures err { OnErr result (Keeps out.old out.new) }
{
    if !is_announced {
        return Ok(());
    }
    out.push(&[code, value.len() as u8])?;
    out.push(value)
}
