//! Writing an UPDATE.

ghost use Rattle.std.specs.Prelude.{◌≡◌, ◌≤◌, ◌↔◌, IsTrue, ◌+◌, ◌++◌, ◌∷◌, [], Ok, length, OnOk, OnErr};
ghost use Rattle.bgp_wire.specs.Message.{message_header, message_bytes, IsMessage};
ghost use Rattle.bgp_wire.specs.Written.{Keeps};
ghost use Rattle.net_base.specs.declared.addr.Family.TheVariants.{V4, V6};
ghost use Rattle.attr_model.specs.Valid.{IsValid};
ghost use Rattle.attr_codec.specs.Prefixes.{prefixes_bytes};
ghost use Rattle.attr_codec.specs.Written.{attrs_bytes};
ghost use Rattle.attr_codec.specs.ReadBack.{reach_bytes};
ghost use Rattle.attr_codec.specs.Size.{attribute_size, update_size, capped};
ghost use Rattle.attr_codec.specs.Width.{HaveWidth};
ghost use Rattle.update_codec.specs.Update.{update_says};
ghost use Rattle.update_codec.specs.Written.{family_of, sized, withdraw_body, announce_body, update_body, update_message, withdraw_size, message_size, read_by_peer, ArePrefixes, MayBeSent, IsWritable, Fits, FitsSize, HasWidth};

use crate::out_update::OutUpdate;
use attr_codec::{prefixes_size, size, write_attrs, write_prefixes, write_reach, write_unreach};
use attr_model::Attrs;
use bgp_wire::{Encoding, LONGEST, kind, put_header};
use net_base::{Family, NoMemory, Prefix};
use wire_buf::Pipe;

// The family of prefixes, read_by_peer by the first.
fn family_of(prefixes: &[Prefix]) -> Family
    ensures { result ≡ family_of prefixes.now }
{
    match prefixes {
        [] => Family::V4,
        [first, ..] => first.family,
    }
}

// How many bytes an UPDATE has that withdraws prefixes of `nlri` bytes.
fn withdrawing_size(family: Family, nlri: usize) -> usize
    ensures { result ≡ capped (withdraw_size family nlri) }
{
    match family {
        Family::V4 => nlri.saturating_add(23),
        Family::V6 if nlri > 252 => nlri.saturating_add(30),
        Family::V6 => nlri + 29,
    }
}

// How many bytes the whole message has.
fn size_of(enc: Encoding, update: &OutUpdate) -> usize
    ensures { result ≡ capped (message_size enc update.now) }
{
    match update {
        OutUpdate::Withdraw(prefixes) => {
            let prefixes = prefixes.as_slice();
            withdrawing_size(family_of(prefixes), prefixes_size(prefixes))
        }
        OutUpdate::Announce(attrs, prefixes) => {
            size(enc, attrs, prefixes_size(prefixes.as_slice()))
        }
    }
}

/// Whether the whole message has at most 4096 bytes, its header of 19 bytes included.
#[tactic(auto, using(crate::proofs::Bytes::whole_size))]
pub fn fits(enc: Encoding, update: &OutUpdate) -> bool
    ensures { IsTrue result ↔ Fits enc update.now }
{
    size_of(enc, update) <= LONGEST
}

// The withdrawn field, and no attributes.
fn put_plain_withdrawal(prefixes: &[Prefix], out: &mut Pipe) -> Result<(), NoMemory>
    requires { length (prefixes_bytes prefixes.now) ≤ 65535 }
    ensures ok { OnOk result (out.new ≡ out.old ++ withdraw_body V4 prefixes.now) }
    ensures err { OnErr result (Keeps out.old out.new) }
{
    out.put_u16(prefixes_size(prefixes) as u16)?;
    write_prefixes(prefixes, out)?;
    out.push(&[0, 0])
}

// MP_UNREACH_NLRI alone.
fn put_mp_withdrawal(prefixes: &[Prefix], out: &mut Pipe) -> Result<(), NoMemory>
    requires { 7 + length (prefixes_bytes prefixes.now) ≤ 65535 }
    ensures ok { OnOk result (out.new ≡ out.old ++ withdraw_body V6 prefixes.now) }
    ensures err { OnErr result (Keeps out.old out.new) }
{
    let size = withdrawing_size(Family::V6, prefixes_size(prefixes)) - 23;
    out.push(&[0, 0])?;
    out.put_u16(size as u16)?;
    write_unreach(prefixes, out)
}

fn put_withdrawal(prefixes: &[Prefix], out: &mut Pipe) -> Result<(), NoMemory>
    requires { 7 + length (prefixes_bytes prefixes.now) ≤ 65535 }
    ensures ok { OnOk result (out.new ≡ out.old ++ withdraw_body (family_of prefixes.now) prefixes.now) }
    ensures err { OnErr result (Keeps out.old out.new) }
{
    match family_of(prefixes) {
        Family::V4 => put_plain_withdrawal(prefixes, out),
        Family::V6 => put_mp_withdrawal(prefixes, out),
    }
}

// The attributes behind their length, and the plain field.
fn put_plain_announcement(
    enc: Encoding,
    attrs: &Attrs,
    field: usize,
    prefixes: &[Prefix],
    out: &mut Pipe,
) -> Result<(), NoMemory>
    requires valid { IsValid attrs.now }
    requires field { field ≡ length (attrs_bytes enc attrs.now) }
    requires size { length (attrs_bytes enc attrs.now) ≤ 65535 }
    ensures ok { OnOk result (out.new ≡ out.old ++ (sized (attrs_bytes enc attrs.now) ++ prefixes_bytes prefixes.now)) }
    ensures err { OnErr result (Keeps out.old out.new) }
    ensures width { OnOk result (HaveWidth attrs.now) }
{
    out.put_u16(field as u16)?;
    write_attrs(enc, attrs, out)?;
    write_prefixes(prefixes, out)
}

// The attributes behind their length, MP_REACH_NLRI in front.
fn put_mp_announcement(
    enc: Encoding,
    attrs: &Attrs,
    prefixes: &[Prefix],
    out: &mut Pipe,
) -> Result<(), NoMemory>
    requires valid { IsValid attrs.now }
    requires family { attrs.now.hop.family ≡ V6 }
    requires size { length (reach_bytes enc attrs.now prefixes.now) ≤ 65535 }
    ensures ok { OnOk result (out.new ≡ out.old ++ sized (reach_bytes enc attrs.now prefixes.now)) }
    ensures err { OnErr result (Keeps out.old out.new) }
    ensures width { OnOk result (HaveWidth attrs.now) }
{
    let size = size(enc, attrs, prefixes_size(prefixes)) - 23;
    out.put_u16(size as u16)?;
    write_reach(attrs.hop, prefixes, out)?;
    write_attrs(enc, attrs, out)
}

fn put_announcement(
    enc: Encoding,
    attrs: &Attrs,
    prefixes: &[Prefix],
    whole: usize,
    out: &mut Pipe,
) -> Result<(), NoMemory>
    requires valid { IsValid attrs.now }
    requires whole { whole ≡ update_size enc attrs.now (length (prefixes_bytes prefixes.now)) }
    requires size { length (announce_body enc attrs.now attrs.now.hop.family prefixes.now) ≤ 65535 }
    ensures ok { OnOk result (out.new ≡ out.old ++ announce_body enc attrs.now attrs.now.hop.family prefixes.now) }
    ensures err { OnErr result (Keeps out.old out.new) }
    ensures width { OnOk result (HaveWidth attrs.now) }
{
    out.push(&[0, 0])?;
    match attrs.hop.family {
        Family::V4 => {
            let field = whole - 23 - prefixes_size(prefixes);
            put_plain_announcement(enc, attrs, field, prefixes, out)
        }
        Family::V6 => put_mp_announcement(enc, attrs, prefixes, out),
    }
}

fn put_body(enc: Encoding, update: &OutUpdate, whole: usize, out: &mut Pipe) -> Result<(), NoMemory>
    requires writable { IsWritable enc update.now }
    requires whole { whole ≡ message_size enc update.now }
    requires fits { FitsSize enc update.now }
    ensures ok { OnOk result (out.new ≡ out.old ++ update_body enc update.now) }
    ensures err { OnErr result (Keeps out.old out.new) }
    ensures width { OnOk result (HasWidth update.now) }
{
    match update {
        OutUpdate::Withdraw(prefixes) => put_withdrawal(prefixes.as_slice(), out),
        OutUpdate::Announce(attrs, prefixes) => {
            put_announcement(enc, attrs, prefixes.as_slice(), whole, out)
        }
    }
}

fn put_update(enc: Encoding, update: &OutUpdate, out: &mut Pipe) -> Result<(), NoMemory>
    requires writable { IsWritable enc update.now }
    requires fits { FitsSize enc update.now }
    ensures ok { OnOk result (out.new ≡ out.old ++ message_bytes (update_message enc update.now)) }
    ensures err { OnErr result (Keeps out.old out.new) }
    ensures width { OnOk result (HasWidth update.now) }
{
    let size = size_of(enc, update);
    put_header(kind::UPDATE, size as u16, out)?;
    put_body(enc, update, size, out)?;
    Ok(())
}

/// Writes an UPDATE behind what `out` holds (RFC 4271 section 4.3): IPv4 prefixes in the plain fields, IPv6 prefixes in
/// MP_REACH_NLRI and MP_UNREACH_NLRI (RFC 4760). Where memory is refused, `out` holds what it held.
///
/// The prefixes are of one family that was agreed with the peer, and the whole message has at most 4096 bytes, as `fits` says.
/// Attributes have no weight, and LOCAL_PREF exactly towards an internal peer.
pub fn write_update(enc: Encoding, update: &OutUpdate, out: &mut Pipe) -> Result<(), NoMemory>
    requires writable { IsWritable enc update.now }
    requires fits { Fits enc update.now }
    ensures ok { OnOk result (out.new ≡ out.old ++ message_bytes (update_message enc update.now)) }
    ensures err { OnErr result (out.new ≡ out.old) }
    ensures size { length (message_bytes (update_message enc update.now)) ≡ message_size enc update.now }
    ensures whole { IsMessage (update_message enc update.now) }
    // The peer reads the update from it.
    ensures reads_back { OnOk result (update_says enc (update_message enc update.now).body ≡ Ok (read_by_peer update.now)) }
{
    let held = out.len();
    let written = put_update(enc, update, out);
    out.keep_on_err(held, written)
}
