ghost use Rattle.std.specs.Prelude.{◌≡◌, ◌++◌, OnOk, OnErr, Some};
ghost use Rattle.byteorder.specs.Endian.{big_bytes};
ghost use Rattle.core_msgs.specs.declared.frame.Frame.TheVariants as frames;
ghost use Rattle.imsg_wire.specs.Frame.{IsFrame, frame_bytes};
ghost use Rattle.frame_codec.specs.Grammar.{AreParts, AreWritableParts, Fits, IsAnnounced, IsWritableAnnounced, announced_bytes, frame_of, kind_of, number_of, payload_of, raw_of, session_of};

use crate::fitting::are_parts;
use crate::put::{
    put_addr, put_agreed, put_attrs, put_family, put_placed, put_prefixes, put_truth,
};
use crate::{FrameFault, Kind};
use attr_model::Attrs;
use core_msgs::Frame;
use imsg_wire::LONGEST_PAYLOAD;
use net_base::{Family, NoMemory, PrefixList};
use std::alloc::Global;
use wire_buf::Pipe;

/// Writes a frame behind what `out` holds. `pid` says who writes it. Where it fails, `out` holds what it held. `BadFrame` comes
/// exactly where the frame doesn't fit, unless memory is refused first. A frame doesn't fit where it has one of these:
///
/// - a payload of more bytes than a frame holds,
/// - a list of prefixes with one of another family, or with more than 65535,
/// - attributes that aren't valid, that have more than 65535 bytes, or whose hop is of another family,
/// - a part of a text with no byte, or with more than 16000,
/// - a text that isn't UTF-8,
/// - a credit of no message.
pub fn write(alloc: Global, frame: &Frame, pid: u32, out: &mut Pipe) -> Result<(), FrameFault>
    ensures ok { OnOk result (out.new ≡ out.old ++ frame_bytes (raw_of frame.now pid)) }
    ensures fits { OnOk result (Fits frame.now) }
    ensures bad { result ≡ Err FrameFault.BadFrame → Fits frame.now → ⊥ }
    ensures err { OnErr result (out.new ≡ out.old) }
    // What is written is a frame, and is read as this one.
    ensures whole { OnOk result (IsFrame (raw_of frame.now pid)) }
    ensures reads_back { OnOk result (
        frame_of (number_of (kind_of frame.now)) (session_of frame.now) (payload_of frame.now) ≡ Some frame.now) }
{
    if !are_parts(frame) {
        return Err(FrameFault::BadFrame);
    }
    let mut payload = Pipe::new(alloc);
    put_payload(frame, &mut payload)?;
    if payload.len() > LONGEST_PAYLOAD {
        return Err(FrameFault::BadFrame);
    }
    let number = kind(frame).number();
    imsg_wire::frame(number, session(frame), pid, payload.peek(), out)?;
    Ok(())
}

// The kind of a frame.
fn kind(frame: &Frame) -> Kind
    ensures { result ≡ kind_of frame.now }
{
    match frame {
        Frame::Begin { .. } => Kind::Begin,
        Frame::Piece(_) => Kind::Piece,
        Frame::Commit(_) => Kind::Commit,
        Frame::Ack(_) => Kind::Ack,
        Frame::Up { .. } => Kind::Up,
        Frame::Down { .. } => Kind::Down,
        Frame::Routes { .. } => Kind::Routes,
        Frame::Credit { .. } => Kind::Credit,
        Frame::Refresh { .. } => Kind::Refresh,
        Frame::Close { .. } => Kind::Close,
        Frame::Track(_) => Kind::Track,
        Frame::Untrack(_) => Kind::Untrack,
        Frame::Nexthop { .. } => Kind::Nexthop,
        Frame::FibSet { .. } => Kind::FibSet,
        Frame::FibDel { .. } => Kind::FibDel,
        Frame::Couple { .. } => Kind::Couple,
        Frame::CtlWords(_) => Kind::CtlWords,
        Frame::CtlText(_) => Kind::CtlText,
        Frame::CtlEnd(_) => Kind::CtlEnd,
    }
}

// The session that a frame speaks of, 0 for none.
fn session(frame: &Frame) -> u32
    ensures { result ≡ session_of frame.now }
{
    match frame {
        Frame::Up { session, .. } => *session,
        Frame::Down { session } => *session,
        Frame::Routes { session, .. } => *session,
        Frame::Credit { session, .. } => *session,
        Frame::Refresh { session, .. } => *session,
        Frame::Close { session, .. } => *session,
        Frame::Begin { .. } => 0,
        Frame::Piece(_) => 0,
        Frame::Commit(_) => 0,
        Frame::Ack(_) => 0,
        Frame::Track(_) => 0,
        Frame::Untrack(_) => 0,
        Frame::Nexthop { .. } => 0,
        Frame::FibSet { .. } => 0,
        Frame::FibDel { .. } => 0,
        Frame::Couple { .. } => 0,
        Frame::CtlWords(_) => 0,
        Frame::CtlText(_) => 0,
        Frame::CtlEnd(_) => 0,
    }
}

// Puts what stands behind the header.
fn put_payload(frame: &Frame, out: &mut Pipe) -> Result<(), NoMemory>
    requires { AreWritableParts frame.now }
    ensures ok { OnOk result (out.new ≡ out.old ++ payload_of frame.now) }
    ensures parts { OnOk result (AreParts frame.now) }
{
    match frame {
        Frame::Begin { generation, length } => put_two(*generation, *length, out),
        Frame::Piece(bytes) => out.push(bytes.as_slice()),
        Frame::Commit(generation) => out.put_u32(*generation),
        Frame::Ack(generation) => out.put_u32(*generation),
        Frame::Up {
            peer,
            asn,
            id,
            agreed,
            ..
        } => {
            put_addr(*peer, out)?;
            put_two(*asn, *id, out)?;
            put_agreed(*agreed, out)
        }
        Frame::Down { .. } => Ok(()),
        Frame::Routes {
            family,
            withdrawn,
            announced,
            ..
        } => {
            put_family(*family, out)?;
            put_prefixes(withdrawn.as_slice(), out)?;
            put_announced(*family, announced, out)
        }
        Frame::Credit { messages, .. } => out.put_u32(*messages),
        Frame::Refresh { family, .. } => put_family(*family, out),
        Frame::Close {
            code,
            sub,
            held,
            most,
            ..
        } => put_close(*code, *sub, *held, *most, out),
        Frame::Track(hop) => put_addr(*hop, out),
        Frame::Untrack(hop) => put_addr(*hop, out),
        Frame::Nexthop { hop, valid } => {
            put_addr(*hop, out)?;
            put_truth(*valid, out)
        }
        Frame::FibSet { table, prefix, hop } => {
            out.put_u32(*table)?;
            put_placed(*prefix, out)?;
            put_addr(*hop, out)
        }
        Frame::FibDel { table, prefix } => {
            out.put_u32(*table)?;
            put_placed(*prefix, out)
        }
        Frame::Couple { table, on } => {
            out.put_u32(*table)?;
            put_truth(*on, out)
        }
        Frame::CtlWords(text) => out.push(text.as_slice()),
        Frame::CtlText(text) => out.push(text.as_slice()),
        Frame::CtlEnd(status) => out.put_u8(*status),
    }
}

// Puts two numbers.
fn put_two(one: u32, other: u32, out: &mut Pipe) -> Result<(), NoMemory>
    ensures { OnOk result (out.new ≡ out.old ++ (big_bytes 4 one ++ big_bytes 4 other)) }
{
    out.put_u32(one)?;
    out.put_u32(other)?;
    Ok(())
}

// Puts the two codes of a NOTIFICATION, how many routes there are and how many there may be.
fn put_close(code: u8, sub: u8, held: u64, most: u32, out: &mut Pipe) -> Result<(), NoMemory>
    ensures { OnOk result (out.new ≡ out.old ++ payload_of (frames.Close 0 code sub held most)) }
{
    out.put_u8(code)?;
    out.put_u8(sub)?;
    put_u64(held, out)?;
    out.put_u32(most)?;
    Ok(())
}

// Puts a number of eight bytes.
fn put_u64(number: u64, out: &mut Pipe) -> Result<(), NoMemory>
    ensures { OnOk result (out.new ≡ out.old ++ big_bytes 8 number) }
{
    out.push(&number.to_be_bytes())
}

// Puts the routes that are announced.
fn put_announced(
    family: Family,
    announced: &Option<(Attrs, PrefixList)>,
    out: &mut Pipe,
) -> Result<(), NoMemory>
    requires { IsWritableAnnounced family announced.now }
    ensures ok { OnOk result (out.new ≡ out.old ++ announced_bytes announced.now) }
    ensures parts { OnOk result (IsAnnounced family announced.now) }
{
    match announced {
        None => Ok(()),
        Some((attrs, prefixes)) => {
            put_attrs(attrs, out)?;
            put_prefixes(prefixes.as_slice(), out)?;
            Ok(())
        }
    }
}
