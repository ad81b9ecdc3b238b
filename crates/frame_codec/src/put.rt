//! Parts of payloads, put behind what a pipe holds. Where memory is refused, it may hold a part of them.

ghost use Rattle.std.specs.Prelude.{◌≡◌, ◌≤◌, ◌<◌, ◌^◌, ◌++◌, length, OnOk};
ghost use Rattle.attr_codec.specs.Frame.{frame_attrs_bytes};
ghost use Rattle.attr_model.specs.Valid.{IsValid};
ghost use Rattle.frame_codec.specs.Fields.{addr_bytes, family_byte, prefixes_bytes, truth_byte};
ghost use Rattle.frame_codec.specs.Grammar as bits;
ghost use Rattle.frame_codec.specs.Grammar.{IsCarried, agreed_bytes, agreed_bits, attrs_bytes, placed_bytes};

use attr_codec::{frame_attrs_size, write_frame_attrs, write_prefixes};
use attr_model::Attrs;
use core_msgs::Agreed;
use net_base::{Addr, Family, NoMemory, Prefix};
use wire_buf::Pipe;

/// Puts a family.
pub(crate) fn put_family(family: Family, out: &mut Pipe) -> Result<(), NoMemory>
    ensures { OnOk result (out.new ≡ out.old ++ family_byte family) }
{
    match family {
        Family::V4 => out.push(&[1]),
        Family::V6 => out.push(&[2]),
    }
}

/// Puts a truth value.
pub(crate) fn put_truth(value: bool, out: &mut Pipe) -> Result<(), NoMemory>
    ensures { OnOk result (out.new ≡ out.old ++ truth_byte value) }
{
    if value {
        out.push(&[1])
    } else {
        out.push(&[0])
    }
}

/// Puts an address.
pub(crate) fn put_addr(addr: Addr, out: &mut Pipe) -> Result<(), NoMemory>
    ensures { OnOk result (out.new ≡ out.old ++ addr_bytes addr) }
{
    put_family(addr.family, out)?;
    match addr.family {
        Family::V4 => out.push(&(addr.bits as u32).to_be_bytes()),
        Family::V6 => out.push(&addr.bits.to_be_bytes()),
    }
}

/// Puts a prefix behind its family.
pub(crate) fn put_placed(prefix: Prefix, out: &mut Pipe) -> Result<(), NoMemory>
    ensures { OnOk result (out.new ≡ out.old ++ placed_bytes prefix) }
{
    put_family(prefix.family, out)?;
    write_prefixes(&[prefix], out)?;
    Ok(())
}

/// Puts prefixes behind their count.
pub(crate) fn put_prefixes(prefixes: &[Prefix], out: &mut Pipe) -> Result<(), NoMemory>
    requires { length prefixes.now < 256 ^ 2 }
    ensures { OnOk result (out.new ≡ out.old ++ prefixes_bytes prefixes.now) }
{
    out.put_u16(prefixes.len() as u16)?;
    write_prefixes(prefixes, out)?;
    Ok(())
}

/// Puts what a session exchanges.
pub(crate) fn put_agreed(agreed: Agreed, out: &mut Pipe) -> Result<(), NoMemory>
    ensures { OnOk result (out.new ≡ out.old ++ agreed_bytes agreed) }
{
    out.push(&[bits_of(agreed)])
}

fn bits_of(agreed: Agreed) -> u8
    ensures { result ≡ agreed_bits agreed }
{
    bit_if(agreed.v4, 1) + bit_if(agreed.v6, 2) + bit_if(agreed.as4, 4) + bit_if(agreed.refresh, 8)
}

fn bit_if(is_there: bool, bit: u8) -> u8
    ensures { result ≡ bits.bit_if is_there bit }
{
    if is_there { bit } else { 0 }
}

/// Puts attributes behind their weight, their next hop and their length.
#[tactic(auto, unfolding(crate::specs::Grammar::attrs_bytes))]
pub(crate) fn put_attrs(attrs: &Attrs, out: &mut Pipe) -> Result<(), NoMemory>
    requires valid { IsValid attrs.now }
    requires short { length (frame_attrs_bytes attrs.now) ≤ 65535 }
    ensures ok { OnOk result (out.new ≡ out.old ++ attrs_bytes attrs.now) }
    ensures carried { OnOk result (IsCarried attrs.now) }
{
    out.put_u32(attrs.weight)?;
    put_addr(attrs.hop, out)?;
    out.put_u32(frame_attrs_size(attrs) as u32)?;
    write_frame_attrs(attrs, out)?;
    Ok(())
}
