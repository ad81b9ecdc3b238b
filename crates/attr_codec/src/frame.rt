//! The attributes of a route in a frame between the parts of the speaker: as to an internal peer of four-octet AS numbers, and
//! without NEXT_HOP.

ghost use Rattle.std.specs.Prelude.{◌≡◌, ◌≤◌, ◌++◌, nat_eq, length, Ok, IsTrue, IfOk, IfSome, OnOk, OnErr, Some};
ghost use Rattle.std.specs.Cmp.Lexicographic.{pointwise};
ghost use Rattle.net_base.specs.declared.addr.Family.TheVariants.{V6};
ghost use Rattle.net_base.specs.Bits.{addr_of};
ghost use Rattle.bgp_wire.specs.Written.{Keeps};
ghost use Rattle.attr_model.specs.Valid.{IsValid};
ghost use Rattle.attr_codec.specs.Size.{capped};
ghost use Rattle.attr_codec.specs.Width.{HaveWidth};
ghost use Rattle.attr_codec.specs.Read.{field_says};
ghost use Rattle.attr_codec.specs.Frame.{attrs_beside, inner, frame_attrs_bytes, frame_attrs_of};

use crate::outcome::ReadAttrs;
use crate::reading::read_attrs;
use crate::sizes::size_with;
use crate::update_fault::UpdateFault;
use crate::writing::put_attrs;
use attr_model::Attrs;
use bgp_wire::Encoding;
use net_base::{Addr, Family, NoMemory};
use std::alloc::{AllocError, Global};
use wire_buf::Pipe;

/// As an internal peer of four-octet AS numbers gets attributes. No family is agreed, since the prefixes stand elsewhere.
const INNER: Encoding = Encoding {
    v4: false,
    v6: false,
    as4: true,
    refresh: false,
    external: false,
};

/// The most bytes that the attributes of a frame have.
const LONGEST: usize = 65535;

/// Writes the attributes of a route behind what `out` holds, as a frame carries them: without NEXT_HOP and weight, and LOCAL_PREF
/// where it is there. Where memory is refused, `out` holds what it held.
pub fn write_frame_attrs(attrs: &Attrs, out: &mut Pipe) -> Result<(), NoMemory>
    requires valid { IsValid attrs.now }
    requires short { length (frame_attrs_bytes attrs.now) ≤ 65535 }
    ensures ok { OnOk result (out.new ≡ out.old ++ frame_attrs_bytes attrs.now) }
    ensures err { OnErr result (out.new ≡ out.old) }
    ensures width { OnOk result (HaveWidth attrs.now) }
    // They are read from it.
    ensures reads_back { OnOk result (
        frame_attrs_of attrs.now.hop attrs.now.weight (frame_attrs_bytes attrs.now) ≡ Some attrs.now) }
{
    let held = out.len();
    let written = put_attrs(INNER, attrs, Addr::unspecified(Family::V6), out);
    out.keep_on_err(held, written)
}

/// How many bytes `write_frame_attrs` writes, or the greatest usize where that is more.
pub fn frame_attrs_size(attrs: &Attrs) -> usize
    ensures { result ≡ capped (length (frame_attrs_bytes attrs.now)) }
{
    size_with(INNER, attrs, Addr::unspecified(Family::V6))
}

/// Reads the attributes that a frame carries, with the hop and the weight that stand beside them. None comes exactly where the
/// bytes are not what `write_frame_attrs` writes for some valid attributes.
#[tactic(auto, unfolding(crate::specs::Frame::frame_attrs_of))]
pub fn read_frame_attrs(
    alloc: Global,
    hop: Addr,
    weight: u32,
    bytes: &[u8],
) -> Result<Option<Attrs>, NoMemory>
    ensures attrs { IfOk result (λ found. found ≡ frame_attrs_of hop weight bytes.now) }
    ensures valid { IfOk result (λ found. IfSome found IsValid) }
    ensures width { IfOk result (λ found. IfSome found HaveWidth) }
{
    if bytes.len() > LONGEST {
        return Ok(None);
    }
    let Some(attrs) = attrs_in(alloc, hop, weight, bytes)? else {
        return Ok(None);
    };
    if is_written_as(alloc, &attrs, bytes)? {
        Ok(Some(attrs))
    } else {
        Ok(None)
    }
}

/// What the bytes say, however they are written.
fn attrs_in(alloc: Global, hop: Addr, weight: u32, bytes: &[u8]) -> Result<Option<Attrs>, NoMemory>
    ensures attrs { IfOk result (λ found. found ≡ attrs_beside hop weight (field_says inner bytes.now)) }
    ensures valid { IfOk result (λ found. IfSome found IsValid) }
{
    match read_attrs(alloc, INNER, bytes) {
        Ok(said) => Ok(beside(hop, weight, said)),
        Err(UpdateFault::Notify(_)) => Ok(None),
        Err(UpdateFault::NoMemory) => Err(AllocError),
    }
}

/// The attributes that were read, with the hop and the weight that stand beside them.
fn beside(hop: Addr, weight: u32, said: ReadAttrs) -> Option<Attrs>
    ensures { result ≡ attrs_beside hop weight (Ok said) }
{
    let mut attrs = said.attrs?;
    attrs.hop = hop;
    attrs.weight = weight;
    Some(attrs)
}

/// Whether bytes are these attributes as they are written. It needs memory for a copy of them.
fn is_written_as(alloc: Global, attrs: &Attrs, bytes: &[u8]) -> Result<bool, NoMemory>
    requires valid { IsValid attrs.now }
    requires few { length bytes.now ≤ 65535 }
    ensures same { IfOk result (λ same. same ≡ pointwise nat_eq bytes.now (frame_attrs_bytes attrs.now)) }
    ensures width { IfOk result (λ same. IsTrue same → HaveWidth attrs.now) }
{
    if frame_attrs_size(attrs) != bytes.len() {
        return Ok(false);
    }
    let mut out = Pipe::new(alloc);
    write_frame_attrs(attrs, &mut out)?;
    Ok(bytes == out.peek())
}
