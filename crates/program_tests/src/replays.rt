use bgpd_top::bgpd_main;
use io_edge::{CallList, Failures, MemoryClock, MemoryFiles, MemoryNet, MemorySink, MemorySource};
use kroute::TableMemory;
use net_base::{Bytes, Items};
use std::alloc::{AllocError, Global};
use std::test::Fail;

/// What a run of the program left: its status, and what stands on standard output and standard error.
#[derive(Drop)]
struct Ran {
    status: u8,
    out: Vec<u8>,
    err: Vec<u8>,
}

/// Runs the program over objects in memory. The source moves a few bytes at a time.
fn run(
    alloc: Global,
    words: &[&str],
    input: &[u8],
    failing_reads: CallList,
    failing_writes: CallList,
) -> Result<Ran, AllocError> {
    let words = words
        .iter()
        .map(|word| String::from_str(alloc, word))
        .try_collect(alloc)?;
    let mut source = MemorySource::new(Bytes::from_slice(alloc, input)?, 1000, failing_reads);
    let mut out = MemorySink::new(alloc, failing_writes, 3);
    let mut err = MemorySink::new(alloc, Items::new(alloc), 0);
    let status = over_memory(alloc, &words, &mut source, &mut out, &mut err);
    Ok(Ran {
        status,
        out: out.written().to_vec(alloc)?,
        err: err.written().to_vec(alloc)?,
    })
}

fn over_memory(
    alloc: Global,
    words: &Vec<String>,
    source: &mut MemorySource,
    out: &mut MemorySink,
    err: &mut MemorySink,
) -> u8 {
    bgpd_main(
        alloc,
        words.as_slice(),
        &mut MemoryFiles::new(alloc, Items::new(alloc), Failures::new(Items::new(alloc))),
        source,
        out,
        err,
        &mut MemoryNet::new(alloc, Items::new(alloc), 0, Items::new(alloc)),
        &mut MemoryNet::new(alloc, Items::new(alloc), 0, Items::new(alloc)),
        &mut TableMemory::new(alloc),
        &mut MemoryClock::new(Items::new(alloc)),
    )
}

fn replay(alloc: Global, input: &[u8]) -> Result<Ran, AllocError> {
    run(
        alloc,
        &["replay"],
        input,
        Items::new(alloc),
        Items::new(alloc),
    )
}

#[test]
fn event_files_give_their_transcripts(rt: HostRuntime) -> Result<(), Fail> {
    let alloc = rt.alloc();
    let rows: [(&[u8], &[u8], u8, &[u8]); 16] = [
        (b"", b"", 0, b""),
        (b"# nothing\n\n", b"", 0, b""),
        (
            b"reload\nAS 65001\nrouter-id 10.0.0.1\nnetwork 192.0.2.0/24\n.\nsettle\nctl show rib\n",
            b"ok 1\napplied s 1\napplied r 1\nreloaded 1\nquiet\n> 192.0.2.0/24 from local nexthop 0.0.0.0 lp 100 med 0 weight 0 origin igp path -\nok\n",
            0,
            b"",
        ),
        (
            b"reload\nrouter-id 10.0.0.1\n\tnetwork  2001:db8::/32\nnetwork 10.9.9.9/8\nAS 1\nAS 2\n.\nctl show rib\nreload\n.\nsettle\nctl show rib",
            b"ok 1\npending reload\nrefused UnderWay 1\napplied s 1\napplied r 1\nreloaded 1\nquiet\n> 10.0.0.0/8 from local nexthop 0.0.0.0 lp 100 med 0 weight 0 origin igp path -\n> 2001:db8::/32 from local nexthop :: lp 100 med 0 weight 0 origin igp path -\nok\n",
            0,
            b"",
        ),
        (
            b"open 10.0.0.2 in\nctl\nctl show  rib\ntime 5\n",
            b"refused NotBuilt\nrefused NotBuilt\nrefused NotBuilt\nrefused NotBuilt\n",
            0,
            b"",
        ),
        (
            b"reload\nAS 1\n.\nreload\nAS 0\n.\nreload\n.\nctl show rib\n",
            b"refused 0 NoRouterId\nrefused 1 NumberRange\nrefused 0 NoAs\nok\n",
            0,
            b"",
        ),
        (
            b"time 9223372036854775807\nopen 2001:DB8:0::2 out\nbytes 10.0.0.2 00fF\nclose 10.0.0.2\nkroute 192.0.2.9/24 up\nkroute ::/0 down\n",
            b"refused NotBuilt\nrefused NotBuilt\nrefused NotBuilt\nrefused NotBuilt\nrefused NotBuilt\nrefused NotBuilt\n",
            0,
            b"",
        ),
        (
            b"deliver sr 4294967295\nwork 0\nwrite 10.0.0.2 16\nstall 10.0.0.2\nflow 10.0.0.2\nturn 1\ncut ps\nkfail 0 1\n",
            b"refused NotBuilt\nrefused NotBuilt\nrefused NotBuilt\nrefused NotBuilt\nrefused NotBuilt\nrefused NotBuilt\nrefused NotBuilt\nrefused NotBuilt\n",
            0,
            b"",
        ),
        (b"settle\nsettle \n", b"quiet\n", 3, b"line 2: bad event\n"),
        (b"settle\nsettles\n", b"quiet\n", 3, b"line 2: bad event\n"),
        (b"settle\ntime x\n", b"quiet\n", 3, b"line 2: bad event\n"),
        (b"open\n", b"", 3, b"line 1: bad event\n"),
        (b"reload 1\n.\n", b"", 3, b"line 1: bad event\n"),
        (b"reload\nAS 65001\n", b"", 3, b"line 2: bad event\n"),
        (b"# a\nreload", b"", 3, b"line 2: bad event\n"),
        (b"ctl \xff\n", b"", 3, b"line 1: bad event\n"),
    ];
    for (input, out, status, err) in rows {
        let ran = replay(alloc, input)?;
        assert_eq!(rt; ran.status, status);
        assert_eq!(rt; ran.out.as_slice(), out);
        assert_eq!(rt; ran.err.as_slice(), err);
    }
    Ok(())
}

#[test]
fn lines_outside_the_grammar(rt: HostRuntime) -> Result<(), Fail> {
    let alloc = rt.alloc();
    let lines: [&[u8]; 15] = [
        b"frobnicate",
        b"time 9223372036854775808",
        b"time 01",
        b"open 10.0.0.2",
        b"open 10.0.0.2 up",
        b"bytes 10.0.0.2 0",
        b"bytes 10.0.0.2 ",
        b"kroute 192.0.2.0/33 up",
        b"deliver rr 1",
        b"work 4294967296",
        b"kfail 0 0",
        b"stop  now",
        b"reload now",
        b"ctls",
        b"time\t1",
    ];
    for line in lines {
        let ran = replay(alloc, line)?;
        assert_eq!(rt; ran.status, 3);
        assert_eq!(rt; ran.err.as_slice(), b"line 1: bad event\n".as_slice());
    }
    Ok(())
}

#[test]
fn a_file_cut_at_each_byte(rt: HostRuntime) -> Result<(), Fail> {
    let alloc = rt.alloc();
    let whole: &[u8] = b"settle\nreload\n.\n";
    let none: &[u8] = b"";
    let quiet: &[u8] = b"quiet\n";
    let both: &[u8] = b"quiet\nrefused 0 NoAs\n";
    let first: &[u8] = b"line 1: bad event\n";
    let second: &[u8] = b"line 2: bad event\n";
    let rows: [(usize, usize, u8, &[u8], &[u8]); 6] = [
        (0, 1, 0, none, none),
        (1, 6, 3, none, first),
        (6, 8, 0, quiet, none),
        (8, 13, 3, quiet, second),
        (13, 15, 3, quiet, second),
        (15, 17, 0, both, none),
    ];
    for (from, to, status, out, err) in rows {
        for length in from..to {
            let ran = replay(alloc, whole.get(..length).unwrap_or(whole))?;
            assert_eq!(rt; ran.status, status);
            assert_eq!(rt; ran.out.as_slice(), out);
            assert_eq!(rt; ran.err.as_slice(), err);
        }
    }
    Ok(())
}

#[test]
fn a_line_at_its_limit_and_past_it(rt: HostRuntime) -> Result<(), Fail> {
    let alloc = rt.alloc();
    let mut input = vec![in alloc; b'#'; 131072]?;
    assert_eq!(rt; replay(alloc, input.as_slice())?.status, 0);
    input.push(b'#')?;
    let ran = replay(alloc, input.as_slice())?;
    assert_eq!(rt; ran.status, 8);
    assert_eq!(rt; ran.err.as_slice(), b"too long\n".as_slice());
    Ok(())
}

/// A reload of so many networks, the last of them twice, and the padding of a line of blanks.
fn reload_of(alloc: Global, networks: u32, blanks: usize) -> Result<Vec<u8>, AllocError> {
    let mut text = String::from_str(alloc, "reload\nAS 65001\nrouter-id 10.0.0.1\n")?;
    for i in 0..networks {
        text.push_str(format!(in alloc;
            "network 10.{}.{}.0/24\n",
            i / 256 % 256,
            i % 256
        )?.as_str())?;
    }
    let mut input = text.into_bytes();
    input.extend_from_slice(vec![in alloc; b' '; blanks]?.as_slice())?;
    input.extend_from_slice(b"\n.\n")?;
    Ok(input)
}

#[test]
fn a_text_at_its_limits_and_past_them(rt: HostRuntime) -> Result<(), Fail> {
    let alloc = rt.alloc();
    let rows: [(u32, usize, &[u8]); 3] = [
        (4096, 0, b"ok 1\n"),
        (4097, 0, b"refused 4099 TooMany networks\n"),
        (0, 100000, b"ok 1\n"),
    ];
    for (networks, blanks, out) in rows {
        let ran = replay(alloc, reload_of(alloc, networks, blanks)?.as_slice())?;
        assert_eq!(rt; ran.status, 0);
        assert_eq!(rt; ran.out.as_slice(), out);
    }
    Ok(())
}

/// A reload whose text has 1048533 bytes and so many more.
fn long_reload(alloc: Global, more: usize) -> Result<Vec<u8>, AllocError> {
    let mut input = Vec::from_slice(alloc, b"reload\nAS 65001\nrouter-id 10.0.0.1\n")?;
    let line = vec![in alloc; b' '; 131071]?;
    for _ in 0..7u8 {
        input.extend_from_slice(line.as_slice())?;
        input.push(b'\n')?;
    }
    input.extend_from_slice(vec![in alloc; b' '; 131000]?.as_slice())?;
    input.extend_from_slice(vec![in alloc; b' '; more]?.as_slice())?;
    input.extend_from_slice(b"\n.\n")?;
    Ok(input)
}

#[test]
fn a_text_of_1048576_bytes_and_one_more(rt: HostRuntime) -> Result<(), Fail> {
    let alloc = rt.alloc();
    let met = replay(alloc, long_reload(alloc, 43)?.as_slice())?;
    assert_eq!(rt; met.out.as_slice(), b"ok 1\n".as_slice());
    let passed = replay(alloc, long_reload(alloc, 44)?.as_slice())?;
    assert_eq!(rt; passed.out.as_slice(), b"refused 10 TooLong\n".as_slice());
    Ok(())
}

#[test]
fn faults_of_the_source_and_the_sinks(rt: HostRuntime) -> Result<(), Fail> {
    let alloc = rt.alloc();
    let mut second = Items::new(alloc);
    second.push(2)?;
    let ran = run(
        alloc,
        &["replay"],
        b"settle\nsettle\n",
        second,
        Items::new(alloc),
    )?;
    assert_eq!(rt; ran.status, 4);
    assert_eq!(rt; ran.out.as_slice(), b"quiet\nquiet\n".as_slice());
    assert_eq!(rt; ran.err.as_slice(), b"read fault\n".as_slice());

    let mut first = Items::new(alloc);
    first.push(1)?;
    let ran = run(alloc, &["replay"], b"settle\n", Items::new(alloc), first)?;
    assert_eq!(rt; ran.status, 5);
    assert_eq!(rt; ran.out.as_slice(), b"qui".as_slice());
    assert_eq!(rt; ran.err.as_slice(), b"write fault\n".as_slice());
    Ok(())
}

#[test]
fn words_of_the_command_line(rt: HostRuntime) -> Result<(), Fail> {
    let alloc = rt.alloc();
    let rows: [(&[&str], u8, bool); 10] = [
        (&["replay"], 0, true),
        (&["--help"], 0, true),
        (&["--version"], 0, true),
        (&[], 2, false),
        (&["replay", "more"], 2, false),
        (&["load"], 2, false),
        (&["-n", "-f"], 2, false),
        (&["-n", "F"], 2, false),
        (&["-f", "F", "-n"], 2, false),
        (&["-v", "-n", "-f", "F"], 2, false),
    ];
    for (words, status, silent) in rows {
        let ran = run(alloc, words, b"", Items::new(alloc), Items::new(alloc))?;
        assert_eq!(rt; ran.status, status);
        assert_eq!(rt; ran.err.is_empty(), silent);
    }
    Ok(())
}
