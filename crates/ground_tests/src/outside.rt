ghost use Rattle.std.specs.Prelude.{◌≡◌, None, IfOk};

use io_edge::{
    Clock, CtlPort, Failed, Failures, FileFault, Files, HostClock, HostFiles, LineFault, Lines,
    MemoryClock, MemoryFile, MemoryFiles, MemoryNet, MemoryPort, MemorySink, MemorySource,
    NetEvent, PeerNet, ReaderSource, Sink, Source, WriterSink, read_line,
};
use net_base::{Addr, Bytes, Family, Items, Prefix, Way};
use std::alloc::{AllocError, Global};
use std::test::Fail;

fn bytes_of(alloc: Global, text: &[u8]) -> Result<Bytes, AllocError>
    ensures { IfOk result (λ bytes. bytes ≡ text.now) }
{
    Bytes::from_slice(alloc, text)
}

// The lines of a source, each behind `[` and before `]`, and how the reading ended.
fn lines_of<S: Source>(
    alloc: Global,
    source: &mut S,
) -> Result<(Vec<u8>, Option<LineFault>), AllocError> {
    let mut lines = Lines::new(alloc)?;
    let mut text = Vec::new(alloc);
    for _ in 0..300_000u32 {
        if lines.spent() {
            break;
        }
        match read_line(&mut lines, source) {
            Ok(Some(line)) => {
                text.push(b'[')?;
                text.extend_from_slice(line.as_slice())?;
                text.push(b']')?;
            }
            Ok(None) => return Ok((text, None)),
            Err(fault) => return Ok((text, Some(fault))),
        }
    }
    Ok((text, None))
}

#[test]
fn lines_end_at_their_lf(rt: HostRuntime) -> Result<(), Fail> {
    let alloc = rt.alloc();
    let rows: [(&[u8], &[u8]); 6] = [
        (b"", b""),
        (b"a", b"[a]"),
        (b"\n", b"[]"),
        (b"ab\ncd\n", b"[ab][cd]"),
        (b"ab\n\ncd", b"[ab][][cd]"),
        (b"a\r\n", b"[a\r]"),
    ];
    for (text, want) in rows {
        for most in [1usize, 2, 65536] {
            let mut source = MemorySource::new(bytes_of(alloc, text)?, most, Items::new(alloc));
            let (lines, fault) = lines_of(alloc, &mut source)?;
            assert_eq!(rt; lines.as_slice(), want);
            assert_eq!(rt; fault, None);
        }
    }
    Ok(())
}

#[test]
fn a_line_has_131072_bytes_at_most(rt: HostRuntime) -> Result<(), Fail> {
    let alloc = rt.alloc();
    let mut text = vec![in alloc; b'x'; 131072]?;
    text.extend_from_slice(b"\nlast")?;
    let longest = Bytes::from_slice(alloc, text.as_slice())?;
    let (lines, fault) = lines_of(
        alloc,
        &mut MemorySource::new(longest, 65536, Items::new(alloc)),
    )?;
    assert_eq!(rt; lines.len(), 131072 + 8);
    assert_eq!(rt; fault, None);

    let mut text = vec![in alloc; b'x'; 131073]?;
    text.extend_from_slice(b"\nlast")?;
    let longer = Bytes::from_slice(alloc, text.as_slice())?;
    let (lines, fault) = lines_of(
        alloc,
        &mut MemorySource::new(longer, 65536, Items::new(alloc)),
    )?;
    assert_eq!(rt; lines.len(), 0);
    assert_eq!(rt; fault, Some(LineFault::LineTooLong));
    Ok(())
}

// A source without an end: 1023 times `x` and an LF, again and again. It is asked for 65536 bytes at once.
#[derive(Drop)]
struct Endless<'a>(&'a [u8]);

impl Source for Endless<'_> {
    ghost left = { λ _. None };

    ghost faults = { λ _. 0 };

    fn read(&mut self, buf: &mut [u8]) -> Result<usize, Failed> {
        let count = self.0.len().min(buf.len());
        buf[..count].copy_from_slice(&self.0[..count]);
        Ok(count)
    }

    fn faults(&self) -> u64 {
        0
    }
}

#[test]
fn a_file_has_268435456_bytes_at_most(rt: HostRuntime) -> Result<(), Fail> {
    let alloc = rt.alloc();
    let mut block = Vec::new(alloc);
    for at in 0..65536u32 {
        block.push(if at % 1024 == 1023 { b'\n' } else { b'x' })?;
    }
    let mut source = Endless(block.as_slice());
    let mut lines = Lines::new(alloc)?;
    let mut count = 0u32;
    let mut fault = None;
    for _ in 0..300_000u32 {
        if lines.spent() {
            break;
        }
        match read_line(&mut lines, &mut source) {
            Ok(_) => count = count.saturating_add(1),
            Err(met) => fault = Some(met),
        }
    }
    assert_eq!(rt; count, 262144);
    assert_eq!(rt; fault, Some(LineFault::FileTooLong));
    Ok(())
}

#[test]
fn a_read_that_fails_is_no_end(rt: HostRuntime) -> Result<(), Fail> {
    let alloc = rt.alloc();
    let mut source = MemorySource::new(
        bytes_of(alloc, b"ab\ncd\n")?,
        3,
        Items::from_slice(alloc, &[2])?,
    );
    let (lines, fault) = lines_of(alloc, &mut source)?;
    assert_eq!(rt; lines.as_slice(), b"[ab]".as_slice());
    assert_eq!(rt; fault, Some(LineFault::ReadFault));
    assert_eq!(rt; Source::faults(&source), 1);
    Ok(())
}

#[test]
fn readers_and_writers_of_std(rt: HostRuntime) -> Result<(), Fail> {
    let alloc = rt.alloc();
    let mut source = ReaderSource::new(b"ab\ncd".as_slice());
    let (lines, fault) = lines_of(alloc, &mut source)?;
    assert_eq!(rt; lines.as_slice(), b"[ab][cd]".as_slice());
    assert_eq!(rt; fault, None);
    let mut sink = WriterSink::new(rt.stdout());
    assert_eq!(rt; sink.write(b""), Ok(()));
    assert_eq!(rt; sink.faults(), 0);
    Ok(())
}

#[test]
fn a_write_that_fails_keeps_a_prefix(rt: HostRuntime) -> Result<(), Fail> {
    let alloc = rt.alloc();
    let mut sink = MemorySink::new(alloc, Items::from_slice(alloc, &[2])?, 1);
    assert_eq!(rt; sink.write(b"ab"), Ok(()));
    assert_eq!(rt; sink.write(b"cd"), Err(Failed));
    assert_eq!(rt; sink.write(b"ef"), Ok(()));
    assert_eq!(rt; sink.written(), b"abcef".as_slice());
    assert_eq!(rt; sink.faults(), 1);
    Ok(())
}

#[test]
fn files_are_read_up_to_a_limit(rt: HostRuntime) -> Result<(), Fail> {
    let alloc = rt.alloc();
    let mut list = Items::new(alloc);
    list.push(MemoryFile {
        name: bytes_of(alloc, b"a.conf")?,
        content: bytes_of(alloc, b"AS 65001")?,
    })?;
    let mut files = MemoryFiles::new(alloc, list, Failures::new(Items::from_slice(alloc, &[3])?));
    assert_eq!(rt;
        files.read(alloc, "a.conf", 2)?.as_slice(),
        b"AS".as_slice()
    );
    assert_eq!(rt;
        files.read(alloc, "b.conf", 2).err(),
        Some(FileFault::Failed)
    );
    assert_eq!(rt;
        files.read(alloc, "a.conf", 2).err(),
        Some(FileFault::Failed)
    );
    assert_eq!(rt;
        files.read(alloc, "a.conf", 99)?.as_slice(),
        b"AS 65001".as_slice()
    );
    assert_eq!(rt; files.faults(), 2);

    let mut host = HostFiles::new(&rt);
    assert_eq!(rt;
        host.read(alloc, "no such file", 2).err(),
        Some(FileFault::Failed)
    );
    assert_eq!(rt; host.faults(), 1);
    Ok(())
}

#[test]
fn moments_never_go_back(rt: HostRuntime) -> Result<(), Fail> {
    let mut clock = MemoryClock::new(Items::from_slice(rt.alloc(), &[5, 5, 9])?);
    for want in [5u64, 5, 9, 9] {
        assert_eq!(rt; clock.now(), want);
    }
    let mut host = HostClock::new(&rt);
    assert!(rt; 0 < host.now());
    Ok(())
}

#[test]
fn a_net_holds_one_connection_for_each_peer(rt: HostRuntime) -> Result<(), Fail> {
    let alloc = rt.alloc();
    let peer = Addr {
        family: Family::V4,
        bits: 9,
    };
    let mut events = Items::new(alloc);
    events.push(NetEvent::Data(peer, bytes_of(alloc, b"early")?))?;
    events.push(NetEvent::Opened(peer, Way::In))?;
    events.push(NetEvent::Opened(peer, Way::Out))?;
    events.push(NetEvent::Data(peer, bytes_of(alloc, b"hello")?))?;
    events.push(NetEvent::Lost(peer))?;
    let mut net = MemoryNet::new(alloc, events, 2, Items::from_slice(alloc, &[1])?);
    assert_eq!(rt; net.listen(peer, 179), Err(Failed));
    assert!(rt; matches!(&net.next(alloc)?, NetEvent::Nothing));
    assert!(rt; matches!(&net.next(alloc)?, NetEvent::Opened(_, Way::In)));
    assert!(rt; matches!(&net.next(alloc)?, NetEvent::Nothing));
    assert!(rt; matches!(&net.next(alloc)?, NetEvent::Data(_, _)));
    assert_eq!(rt; net.write(peer, b"abc"), 2);
    assert!(rt; matches!(&net.next(alloc)?, NetEvent::Lost(_)));
    assert!(rt; matches!(&net.next(alloc)?, NetEvent::Nothing));
    net.write_last(peer, b"bye");
    net.connect(peer, 179);
    net.reply(4, b"ok");
    assert_eq!(rt; net.faults(), 1);
    assert_eq!(rt; net.calls().map(|calls| calls.len()), Some(11));
    Ok(())
}

#[test]
fn a_port_reads_and_sends(rt: HostRuntime) -> Result<(), Fail> {
    let alloc = rt.alloc();
    let mut port = MemoryPort::new(
        alloc,
        bytes_of(alloc, b"ok")?,
        1,
        Items::from_slice(alloc, &[3])?,
    );
    let mut buf = [0u8; 4];
    assert_eq!(rt; port.connect("bgpd.sock"), Ok(()));
    assert_eq!(rt; port.send(b"show"), Ok(()));
    assert_eq!(rt; port.read(&mut buf), Err(Failed));
    assert_eq!(rt; port.read(&mut buf), Ok(1));
    assert_eq!(rt; port.read(&mut buf), Ok(1));
    assert_eq!(rt; port.read(&mut buf), Ok(0));
    assert_eq!(rt; port.sent(), b"show".as_slice());
    assert_eq!(rt; CtlPort::faults(&port), 1);
    Ok(())
}
