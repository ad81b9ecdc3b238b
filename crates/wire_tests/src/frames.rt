use attr_model::{Attrs, Path, Segment};
use core_msgs::Frame;
use frame_codec::*;
use imsg_wire::{Raw, Reader};
use net_base::{Addr, Bytes, Family, Items, Prefix, PrefixList};
use std::alloc::Global;
use std::test::*;
use wire_buf::Pipe;

/// The first route of session 1: a frame of 51 bytes.
const ROUTES: [u8; 51] = [
    7, 0, 0, 0, 0x33, 0, 0, 0, 1, 0, 0, 0, 2, 0, 0, 0, 1, 0, 0, 0, 0, 0, 0, 1, 10, 0, 0, 2, 0, 0,
    0, 13, 0x40, 1, 1, 0, 0x40, 2, 6, 2, 1, 0, 0, 0xfd, 0xea, 0, 1, 0x18, 0xc0, 0, 2,
];
/// A configuration of 133 bytes begins, of generation 1.
const BEGIN: [u8; 24] = [
    1, 0, 0, 0, 0x18, 0, 0, 0, 0, 0, 0, 0, 1, 0, 0, 0, 0, 0, 0, 1, 0, 0, 0, 0x85,
];
/// Session 3 comes up, with a peer of IPv6.
const UP: [u8; 42] = [
    5, 0, 0, 0, 42, 0, 0, 0, 3, 0, 0, 0, 2, 0, 0, 0, 2, 0x20, 1, 0x0d, 0xb8, 0, 0, 0, 0, 0, 0, 0,
    0, 0, 0, 0, 1, 0, 0, 0xfd, 0xea, 10, 0, 0, 2, 13,
];

/// Reads the first frame of some bytes and writes it again.
fn again(alloc: Global, bytes: &[u8]) -> Result<Pipe, Fail> {
    let mut reader = Reader::new(alloc);
    reader.feed(bytes)?;
    let raw = reader.next()?.ok_or("no frame")?;
    let frame = read(alloc, &raw)?;
    let mut out = Pipe::new(alloc);
    write(alloc, &frame, raw.pid, &mut out)?;
    Ok(out)
}

fn is_bad(alloc: Global, kind: u32, payload: &[u8]) -> Result<bool, Fail> {
    let raw = Raw {
        kind,
        peer: 1,
        pid: 2,
        payload: Bytes::from_slice(alloc, payload)?,
    };
    Ok(matches!(read(alloc, &raw), Err(FrameFault::BadFrame)))
}

#[test]
fn frames_are_read_and_written(rt: HostRuntime) -> Result<(), Fail> {
    assert_eq!(rt; again(rt.alloc(), &BEGIN)?.peek(), BEGIN.as_slice());
    assert_eq!(rt; again(rt.alloc(), &UP)?.peek(), UP.as_slice());
    assert_eq!(rt; again(rt.alloc(), &ROUTES)?.peek(), ROUTES.as_slice());
    Ok(())
}

#[test]
fn payloads_outside_the_grammar(rt: HostRuntime) -> Result<(), Fail> {
    assert!(rt; is_bad(rt.alloc(), 20, &[])?);
    assert!(rt; is_bad(rt.alloc(), 6, &[0])?);
    assert!(rt; is_bad(rt.alloc(), 8, &[0; 4])?);
    assert!(rt; is_bad(rt.alloc(), 15, &[0, 0, 0, 0, 1, 23, 10, 0, 1])?);
    Ok(())
}

/// Whether a frame is refused, and the pipe is left as it was.
fn is_refused(alloc: Global, frame: &Frame) -> Result<bool, Fail> {
    let mut out = Pipe::new(alloc);
    out.push(&[7])?;
    let written = write(alloc, frame, 2, &mut out);
    Ok(written == Err(FrameFault::BadFrame) && out.peek() == [7].as_slice())
}

fn credit(messages: u32) -> Frame {
    Frame::Credit {
        session: 1,
        messages,
    }
}

fn piece(alloc: Global, length: usize) -> Result<Frame, Fail> {
    Ok(Frame::Piece(Items::from_vec(vec![in alloc; 65; length]?)))
}

/// Routes of IPv4.
fn routes(withdrawn: PrefixList, announced: Option<(Attrs, PrefixList)>) -> Frame {
    Frame::Routes {
        session: 1,
        family: Family::V4,
        withdrawn,
        announced,
    }
}

fn announced(alloc: Global, attrs: Attrs) -> Frame {
    routes(Items::new(alloc), Some((attrs, Items::new(alloc))))
}

fn attrs(alloc: Global) -> Attrs {
    Attrs {
        origin: 0,
        path: Path::new(alloc),
        hop: Addr::unspecified(Family::V4),
        med: None,
        local_pref: None,
        atomic: false,
        aggregator: None,
        communities: Items::new(alloc),
        large: Items::new(alloc),
        unknown: Items::new(alloc),
        partial: 0,
        weight: 0,
    }
}

#[test]
fn frames_that_do_not_fit(rt: HostRuntime) -> Result<(), Fail> {
    let alloc = rt.alloc();
    let none = Prefix::new(Addr::unspecified(Family::V6), 0);
    let other = Items::from_slice(alloc, &[none])?;
    let mut unordered = attrs(alloc);
    unordered.communities = Items::from_slice(alloc, &[2, 1])?;
    let mut of_no_number = attrs(alloc);
    of_no_number.path.push(Segment::Set(Items::new(alloc)))?;
    let mut of_origin_3 = attrs(alloc);
    of_origin_3.origin = 3;

    assert!(rt; is_refused(alloc, &credit(0))?);
    assert!(rt; !is_refused(alloc, &credit(1))?);
    assert!(rt; is_refused(alloc, &piece(alloc, 0)?)?);
    assert!(rt; !is_refused(alloc, &piece(alloc, 16000)?)?);
    assert!(rt; is_refused(alloc, &piece(alloc, 16001)?)?);
    assert!(rt; is_refused(alloc, &routes(other, None))?);
    assert!(rt; !is_refused(alloc, &announced(alloc, attrs(alloc)))?);
    assert!(rt; is_refused(alloc, &announced(alloc, unordered))?);
    assert!(rt; is_refused(alloc, &announced(alloc, of_no_number))?);
    assert!(rt; is_refused(alloc, &announced(alloc, of_origin_3))?);
    Ok(())
}
