use imsg_wire::*;
use net_base::Bytes;
use std::alloc::Global;
use std::test::*;
use wire_buf::Pipe;

/// A session's first route, as a frame of 51 bytes.
const ROUTES: [u8; 51] = [
    7, 0, 0, 0, 0x33, 0, 0, 0, 1, 0, 0, 0, 2, 0, 0, 0, 1, 0, 0, 0, 0, 0, 0, 1, 10, 0, 0, 2, 0, 0,
    0, 13, 0x40, 1, 1, 0, 0x40, 2, 6, 2, 1, 0, 0, 0xfd, 0xea, 0, 1, 0x18, 0xc0, 0, 2,
];
/// A frame of 20 bytes, whose flags aren't 0.
const COMMIT: [u8; 20] = [3, 0, 0, 0, 20, 0, 9, 9, 0, 0, 0, 0, 1, 0, 0, 0, 0, 0, 0, 1];

fn routes(alloc: Global) -> Result<Raw, Fail> {
    Ok(Raw {
        kind: 7,
        peer: 1,
        pid: 2,
        payload: Bytes::from_slice(alloc, &ROUTES[16..])?,
    })
}

#[test]
fn a_frame_as_bytes(rt: HostRuntime) -> Result<(), Fail> {
    let mut out = Pipe::new(rt.alloc());
    frame(7, 1, 2, &ROUTES[16..], &mut out)?;
    assert_eq!(rt; out.peek(), ROUTES.as_slice());
    Ok(())
}

#[test]
fn a_frame_comes_with_its_last_byte(rt: HostRuntime) -> Result<(), Fail> {
    let mut reader = Reader::new(rt.alloc());
    for byte in &ROUTES[..50] {
        reader.feed(&[*byte])?;
        assert_eq!(rt; reader.next()?, None);
    }
    reader.feed(&ROUTES[50..])?;
    reader.feed(&COMMIT)?;
    assert_eq!(rt; reader.next()?, Some(routes(rt.alloc())?));
    let commit = reader.next()?.ok_or("no frame")?;
    assert_eq!(rt; (commit.kind, commit.peer, commit.pid), (3, 0, 1));
    assert_eq!(rt; commit.payload.as_slice(), [0, 0, 0, 1].as_slice());
    assert_eq!(rt; reader.next()?, None);
    Ok(())
}

#[test]
fn a_bad_length_stays(rt: HostRuntime) -> Result<(), Fail> {
    let mut reader = Reader::new(rt.alloc());
    reader.feed(&[3, 0, 0, 0, 15, 0, 0, 0, 0, 0, 0, 0, 0, 0, 0])?;
    assert_eq!(rt; reader.next(), Ok(None));
    reader.feed(&[0])?;
    assert_eq!(rt; reader.next(), Err(ImsgFault::BadLength(15)));
    reader.feed(&COMMIT)?;
    assert_eq!(rt; reader.next(), Err(ImsgFault::BadLength(15)));
    Ok(())
}

#[test]
fn a_link_moves_what_it_is_told(rt: HostRuntime) -> Result<(), Fail> {
    let mut link = Link::new(rt.alloc());
    link.push(7, 1, 2, &ROUTES[16..])?;
    link.deliver(50)?;
    assert_eq!(rt; link.next()?, None);
    assert_eq!(rt; link.coming.peek(), [2].as_slice());
    link.deliver(50)?;
    assert_eq!(rt; link.next()?, Some(routes(rt.alloc())?));
    Ok(())
}
