ghost use Rattle.std.specs.Prelude.{◌≡◌, Some, None, IfOk};
ghost use Rattle.std.specs.Str.{is_utf8};
ghost use Rattle.frame_codec.specs.declared.kind.Kind.TheVariants as kinds;
ghost use Rattle.frame_codec.specs.Fields.{ReadsField};
ghost use Rattle.frame_codec.specs.Grammar.{Fits, announced_at, field_of, frame_of, is_piece, rest_if, routes_at};

use crate::fitting::{is_part, is_text};
use crate::take::{
    take_addr, take_agreed, take_attrs, take_family, take_placed, take_prefixes, take_rest,
    take_some, take_truth, take_u64,
};
use crate::{FrameFault, Kind};
use attr_model::Attrs;
use core_msgs::Frame;
use imsg_wire::{LONGEST_PAYLOAD, Raw};
use net_base::{Bytes, Family, PrefixList};
use std::alloc::Global;
use std::str;
use wire_buf::Cursor;

/// Reads a frame, which fits. `BadFrame` comes exactly where the payload isn't what is written for some frame of its kind.
pub fn read(alloc: Global, raw: &Raw) -> Result<Frame, FrameFault>
    ensures frame { IfOk result (λ frame. frame_of raw.now.kind raw.now.peer raw.now.payload ≡ Some frame) }
    ensures fits { IfOk result Fits }
    ensures bad { result ≡ Err FrameFault.BadFrame → frame_of raw.now.kind raw.now.peer raw.now.payload ≡ None }
{
    read_payload(alloc, raw.kind, raw.peer, raw.payload.as_slice())
}

// Reads the payload of a kind with this number, and says that the frame fits.
fn read_payload(
    alloc: Global,
    number: u32,
    session: u32,
    payload: &[u8],
) -> Result<Frame, FrameFault>
    ensures frame { IfOk result (λ frame. frame_of number session payload.now ≡ Some frame) }
    ensures fits { IfOk result Fits }
    ensures bad { result ≡ Err FrameFault.BadFrame → frame_of number session payload.now ≡ None }
{
    read_frame(alloc, number, session, payload)
}

// Reads the payload of a kind with this number.
#[tactic(auto, unfolding(crate::specs::Grammar::frame_of))]
fn read_frame(alloc: Global, number: u32, session: u32, payload: &[u8]) -> Result<Frame, FrameFault>
    ensures frame { IfOk result (λ frame. frame_of number session payload.now ≡ Some frame) }
    ensures bad { result ≡ Err FrameFault.BadFrame → frame_of number session payload.now ≡ None }
{
    let Some(kind) = Kind::numbered(number) else {
        return Err(FrameFault::BadFrame);
    };
    if payload.len() > LONGEST_PAYLOAD {
        return Err(FrameFault::BadFrame);
    }
    let mut left = Cursor::new(payload);
    let frame = read_kind(alloc, kind, session, &mut left)?;
    if left.is_empty() {
        Ok(frame)
    } else {
        Err(FrameFault::BadFrame)
    }
}

// Reads a frame of this kind.
fn read_kind(
    alloc: Global,
    kind: Kind,
    session: u32,
    left: &mut Cursor<'_>,
) -> Result<Frame, FrameFault>
    ensures { ReadsField (field_of kind session) left.old left.new result }
{
    match kind {
        Kind::Begin => read_begin(left),
        Kind::Piece => Ok(Frame::Piece(read_piece(alloc, left)?)),
        Kind::Commit => Ok(Frame::Commit(left.u32()?)),
        Kind::Ack => Ok(Frame::Ack(left.u32()?)),
        Kind::Up => read_up(session, left),
        Kind::Down => Ok(Frame::Down { session }),
        Kind::Routes => read_routes(alloc, session, left),
        Kind::Credit => read_credit(session, left),
        Kind::Refresh => read_refresh(session, left),
        Kind::Close => read_close(session, left),
        Kind::Track => Ok(Frame::Track(take_addr(left)?)),
        Kind::Untrack => Ok(Frame::Untrack(take_addr(left)?)),
        Kind::Nexthop => read_nexthop(left),
        Kind::FibSet => read_row(left),
        Kind::FibDel => read_gone(left),
        Kind::Couple => read_couple(left),
        Kind::CtlWords => Ok(Frame::CtlWords(read_text(alloc, left)?)),
        Kind::CtlText => Ok(Frame::CtlText(read_text(alloc, left)?)),
        Kind::CtlEnd => Ok(Frame::CtlEnd(left.u8()?)),
    }
}

fn read_begin(left: &mut Cursor<'_>) -> Result<Frame, FrameFault>
    ensures { ReadsField (field_of kinds.Begin 0) left.old left.new result }
{
    let generation = left.u32()?;
    let length = left.u32()?;
    Ok(Frame::Begin { generation, length })
}

fn read_up(session: u32, left: &mut Cursor<'_>) -> Result<Frame, FrameFault>
    ensures { ReadsField (field_of kinds.Up session) left.old left.new result }
{
    let peer = take_addr(left)?;
    let asn = left.u32()?;
    let id = left.u32()?;
    let agreed = take_agreed(left)?;
    Ok(Frame::Up {
        session,
        peer,
        asn,
        id,
        agreed,
    })
}

fn read_credit(session: u32, left: &mut Cursor<'_>) -> Result<Frame, FrameFault>
    ensures { ReadsField (field_of kinds.Credit session) left.old left.new result }
{
    let messages = take_some(left)?;
    Ok(Frame::Credit { session, messages })
}

fn read_refresh(session: u32, left: &mut Cursor<'_>) -> Result<Frame, FrameFault>
    ensures { ReadsField (field_of kinds.Refresh session) left.old left.new result }
{
    let family = take_family(left)?;
    Ok(Frame::Refresh { session, family })
}

fn read_close(session: u32, left: &mut Cursor<'_>) -> Result<Frame, FrameFault>
    ensures { ReadsField (field_of kinds.Close session) left.old left.new result }
{
    let code = left.u8()?;
    let sub = left.u8()?;
    let held = take_u64(left)?;
    let most = left.u32()?;
    Ok(Frame::Close {
        session,
        code,
        sub,
        held,
        most,
    })
}

fn read_nexthop(left: &mut Cursor<'_>) -> Result<Frame, FrameFault>
    ensures { ReadsField (field_of kinds.Nexthop 0) left.old left.new result }
{
    let hop = take_addr(left)?;
    let valid = take_truth(left)?;
    Ok(Frame::Nexthop { hop, valid })
}

fn read_row(left: &mut Cursor<'_>) -> Result<Frame, FrameFault>
    ensures { ReadsField (field_of kinds.FibSet 0) left.old left.new result }
{
    let table = left.u32()?;
    let prefix = take_placed(left)?;
    let hop = take_addr(left)?;
    Ok(Frame::FibSet { table, prefix, hop })
}

fn read_gone(left: &mut Cursor<'_>) -> Result<Frame, FrameFault>
    ensures { ReadsField (field_of kinds.FibDel 0) left.old left.new result }
{
    let table = left.u32()?;
    let prefix = take_placed(left)?;
    Ok(Frame::FibDel { table, prefix })
}

fn read_couple(left: &mut Cursor<'_>) -> Result<Frame, FrameFault>
    ensures { ReadsField (field_of kinds.Couple 0) left.old left.new result }
{
    let table = left.u32()?;
    let on = take_truth(left)?;
    Ok(Frame::Couple { table, on })
}

// The bytes of a part of a text.
fn read_piece(alloc: Global, left: &mut Cursor<'_>) -> Result<Bytes, FrameFault>
    ensures { ReadsField (rest_if is_piece) left.old left.new result }
{
    let bytes = take_rest(left);
    if !is_part(bytes) {
        return Err(FrameFault::BadFrame);
    }
    Ok(Bytes::from_slice(alloc, bytes)?)
}

// A text in UTF-8.
fn read_text(alloc: Global, left: &mut Cursor<'_>) -> Result<Bytes, FrameFault>
    ensures { ReadsField (rest_if is_utf8) left.old left.new result }
{
    let bytes = take_rest(left);
    if !is_text(bytes) {
        return Err(FrameFault::BadFrame);
    }
    Ok(Bytes::from_slice(alloc, bytes)?)
}

#[tactic(auto, unfolding(crate::specs::Grammar::routes_at))]
fn read_routes(alloc: Global, session: u32, left: &mut Cursor<'_>) -> Result<Frame, FrameFault>
    ensures { ReadsField (routes_at session) left.old left.new result }
{
    let family = take_family(left)?;
    let withdrawn = take_prefixes(alloc, family, left)?;
    let announced = read_announced(alloc, family, left)?;
    Ok(Frame::Routes {
        session,
        family,
        withdrawn,
        announced,
    })
}

// Nothing, or attributes and the prefixes that have them.
#[tactic(auto, unfolding(crate::specs::Grammar::announced_at))]
fn read_announced(
    alloc: Global,
    family: Family,
    left: &mut Cursor<'_>,
) -> Result<Option<(Attrs, PrefixList)>, FrameFault>
    ensures { ReadsField (announced_at family) left.old left.new result }
{
    if left.is_empty() {
        return Ok(None);
    }
    let attrs = take_attrs(alloc, family, left)?;
    let prefixes = take_prefixes(alloc, family, left)?;
    Ok(Some((attrs, prefixes)))
}
