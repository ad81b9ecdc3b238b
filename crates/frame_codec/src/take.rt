//! Parts of payloads, taken from the front of a cursor.

ghost use Rattle.std.specs.Prelude.{[], ◌≡◌};
ghost use Rattle.wire_buf.specs.Field.{number_at};
ghost use Rattle.net_base.specs.declared.addr.Family.TheVariants.{V4, V6};
ghost use Rattle.net_base.specs.Bits.{addr_of};
ghost use Rattle.net_base.specs.Order.{same_family};
ghost use Rattle.frame_codec.specs.Fields.{ReadsField, mapped, addr_at, exact_prefix_at, family_at, items_at, prefixes_at, truth_at};
ghost use Rattle.frame_codec.specs.Grammar.{agreed_at, agreed_of, attrs_at, hop_at, placed_at, some_at};

use crate::FrameFault;
use attr_codec::{addr_in, read_frame_attrs};
use attr_model::Attrs;
use byteorder::{BigEndian, ByteOrder};
use core_msgs::Agreed;
use net_base::{Addr, Family, Items, Prefix, PrefixList};
use std::alloc::Global;
use wire_buf::Cursor;

/// Takes a number of eight bytes.
pub(crate) fn take_u64(left: &mut Cursor<'_>) -> Result<u64, FrameFault>
    ensures { ReadsField (number_at 8) left.old left.new result }
{
    Ok(BigEndian::read_u64(left.bytes(8)?))
}

/// Takes a truth value.
pub(crate) fn take_truth(left: &mut Cursor<'_>) -> Result<bool, FrameFault>
    ensures { ReadsField truth_at left.old left.new result }
{
    let code = left.u8()?;
    if code == 0 {
        return Ok(false);
    }
    if code == 1 {
        return Ok(true);
    }
    Err(FrameFault::BadFrame)
}

/// Takes a family.
pub(crate) fn take_family(left: &mut Cursor<'_>) -> Result<Family, FrameFault>
    ensures { ReadsField family_at left.old left.new result }
{
    let code = left.u8()?;
    if code == 1 {
        return Ok(Family::V4);
    }
    if code == 2 {
        return Ok(Family::V6);
    }
    Err(FrameFault::BadFrame)
}

/// Takes an address.
#[tactic(auto, unfolding(crate::specs::Fields::addr_at))]
pub(crate) fn take_addr(left: &mut Cursor<'_>) -> Result<Addr, FrameFault>
    ensures { ReadsField addr_at left.old left.new result }
{
    let family = take_family(left)?;
    match family {
        Family::V4 => take_v4(left),
        Family::V6 => take_v6(left),
    }
}

// Takes the octets of an IPv4 address.
fn take_v4(left: &mut Cursor<'_>) -> Result<Addr, FrameFault>
    ensures { ReadsField (mapped (addr_of V4) (number_at 4)) left.old left.new result }
{
    let bits = left.u32()?;
    Ok(Addr {
        family: Family::V4,
        bits: u128::from(bits),
    })
}

// Takes the octets of an IPv6 address.
fn take_v6(left: &mut Cursor<'_>) -> Result<Addr, FrameFault>
    ensures { ReadsField (mapped (addr_of V6) (number_at 16)) left.old left.new result }
{
    let bits = take_u128(left)?;
    Ok(Addr {
        family: Family::V6,
        bits,
    })
}

// Takes a number of sixteen bytes.
fn take_u128(left: &mut Cursor<'_>) -> Result<u128, FrameFault>
    ensures { ReadsField (number_at 16) left.old left.new result }
{
    Ok(BigEndian::read_u128(left.bytes(16)?))
}

/// Takes a prefix of this family, behind whose length no bit is set.
#[tactic(auto, unfolding(crate::specs::Fields::exact_prefix_at))]
pub(crate) fn take_prefix(family: Family, left: &mut Cursor<'_>) -> Result<Prefix, FrameFault>
    ensures { ReadsField (exact_prefix_at family) left.old left.new result }
{
    let len = left.u8()?;
    if len > family.width() {
        return Err(FrameFault::BadFrame);
    }
    let addr = addr_in(family, left.bytes((usize::from(len) + 7) / 8)?);
    let prefix = Prefix::new(addr, len);
    if prefix.bits != addr.bits {
        return Err(FrameFault::BadFrame);
    }
    Ok(prefix)
}

/// Takes a prefix behind its family.
#[tactic(auto, unfolding(crate::specs::Grammar::placed_at))]
pub(crate) fn take_placed(left: &mut Cursor<'_>) -> Result<Prefix, FrameFault>
    ensures { ReadsField placed_at left.old left.new result }
{
    let family = take_family(left)?;
    take_prefix(family, left)
}

/// Takes a number of four bytes that isn't 0.
#[tactic(auto, unfolding(crate::specs::Grammar::some_at))]
pub(crate) fn take_some(left: &mut Cursor<'_>) -> Result<u32, FrameFault>
    ensures { ReadsField some_at left.old left.new result }
{
    let number = left.u32()?;
    if number == 0 {
        return Err(FrameFault::BadFrame);
    }
    Ok(number)
}

/// Takes what a session exchanges.
pub(crate) fn take_agreed(left: &mut Cursor<'_>) -> Result<Agreed, FrameFault>
    ensures { ReadsField agreed_at left.old left.new result }
{
    let bits = left.u8()?;
    if bits > 15 {
        return Err(FrameFault::BadFrame);
    }
    Ok(Agreed {
        v4: bits % 2 == 1,
        v6: bits / 2 % 2 == 1,
        as4: bits / 4 % 2 == 1,
        refresh: bits / 8 % 2 == 1,
    })
}

/// Takes so many prefixes of a family as their count says.
#[tactic(auto, unfolding(crate::specs::Fields::prefixes_at))]
pub(crate) fn take_prefixes(
    alloc: Global,
    family: Family,
    left: &mut Cursor<'_>,
) -> Result<PrefixList, FrameFault>
    ensures { ReadsField (prefixes_at family) left.old left.new result }
{
    let count = left.u16()?;
    take_counted(alloc, family, count, left)
}

// Takes so many prefixes.
fn take_counted(
    alloc: Global,
    family: Family,
    count: u16,
    left: &mut Cursor<'_>,
) -> Result<PrefixList, FrameFault>
    ensures { ReadsField (items_at (exact_prefix_at family) count) left.old left.new result }
{
    let mut prefixes = Items::new(alloc);
    for i in 0..count {
        let prefix = take_prefix(family, left)?;
        prefixes.push(prefix)?;
    }
    Ok(prefixes)
}

/// Takes attributes behind their weight, their next hop and their length.
#[tactic(auto, unfolding(crate::specs::Grammar::attrs_at))]
pub(crate) fn take_attrs(
    alloc: Global,
    family: Family,
    left: &mut Cursor<'_>,
) -> Result<Attrs, FrameFault>
    ensures { ReadsField (attrs_at family) left.old left.new result }
{
    let weight = left.u32()?;
    let hop = take_hop(family, left)?;
    let size = left.u32()?;
    let field = left.bytes(size as usize)?;
    match read_frame_attrs(alloc, hop, weight, field)? {
        Some(attrs) => Ok(attrs),
        None => Err(FrameFault::BadFrame),
    }
}

// Takes an address of this family.
#[tactic(auto, unfolding(crate::specs::Grammar::hop_at))]
fn take_hop(family: Family, left: &mut Cursor<'_>) -> Result<Addr, FrameFault>
    ensures { ReadsField (hop_at family) left.old left.new result }
{
    let hop = take_addr(left)?;
    if is_same(hop.family, family) {
        Ok(hop)
    } else {
        Err(FrameFault::BadFrame)
    }
}

fn is_same(one: Family, other: Family) -> bool
    ensures { result ≡ same_family one other }
{
    one == other
}

/// Takes all that is left.
pub(crate) fn take_rest<'a>(left: &mut Cursor<'a>) -> &'a [u8]
    ensures all { result.now ≡ left.old }
    ensures none { left.new ≡ [] }
{
    let rest = left.rest();
    *left = Cursor::new(&[]);
    rest
}
