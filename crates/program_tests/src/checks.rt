//! The check of configuration files, over files in memory.

use bgpd_top::bgpd_main;
use io_edge::{
    CallList, Failures, MemoryClock, MemoryFile, MemoryFiles, MemoryNet, MemorySink, MemorySource,
};
use kroute::TableMemory;
use net_base::{Bytes, Items};
use std::alloc::{AllocError, Global};
use std::test::Fail;

/// What a check left: its status, and what stands on standard output and standard error.
#[derive(Drop)]
struct Checked {
    status: u8,
    out: Vec<u8>,
    err: Vec<u8>,
}

/// One file, named `F`, with this text.
fn one_file(alloc: Global, text: &[u8]) -> Result<Items<MemoryFile>, AllocError> {
    let mut files = Items::new(alloc);
    files.push(MemoryFile {
        name: Bytes::from_slice(alloc, b"F")?,
        content: Bytes::from_slice(alloc, text)?,
    })?;
    Ok(files)
}

/// Runs the program with these words, over a file with this text.
fn run(
    alloc: Global,
    words: &[&str],
    text: &[u8],
    failing_reads: CallList,
    failing_writes: CallList,
) -> Result<Checked, AllocError> {
    let words = words
        .iter()
        .map(|word| String::from_str(alloc, word))
        .try_collect(alloc)?;
    let mut files = MemoryFiles::new(alloc, one_file(alloc, text)?, Failures::new(failing_reads));
    let mut out = MemorySink::new(alloc, failing_writes, 3);
    let mut err = MemorySink::new(alloc, Items::new(alloc), 0);
    let status = over_memory(alloc, &words, &mut files, &mut out, &mut err);
    Ok(Checked {
        status,
        out: out.written().to_vec(alloc)?,
        err: err.written().to_vec(alloc)?,
    })
}

fn over_memory(
    alloc: Global,
    words: &Vec<String>,
    files: &mut MemoryFiles,
    out: &mut MemorySink,
    err: &mut MemorySink,
) -> u8 {
    bgpd_main(
        alloc,
        words.as_slice(),
        files,
        &mut MemorySource::new(Items::new(alloc), 1000, Items::new(alloc)),
        out,
        err,
        &mut MemoryNet::new(alloc, Items::new(alloc), 0, Items::new(alloc)),
        &mut MemoryNet::new(alloc, Items::new(alloc), 0, Items::new(alloc)),
        &mut TableMemory::new(alloc),
        &mut MemoryClock::new(Items::new(alloc)),
    )
}

fn check(alloc: Global, text: &[u8]) -> Result<Checked, AllocError> {
    run(
        alloc,
        &["-n", "-f", "F"],
        text,
        Items::new(alloc),
        Items::new(alloc),
    )
}

/// The first row whose text isn't refused with what it says of standard error, status 1 and nothing on standard output.
fn first_not_refused(alloc: Global, rows: &[(&[u8], &[u8])]) -> Result<Option<usize>, AllocError> {
    for (place, (text, err)) in rows.iter().enumerate() {
        let checked = check(alloc, text)?;
        let silent = checked.out.is_empty() && checked.status == 1;
        if !silent || checked.err.as_slice() != *err {
            return Ok(Some(place));
        }
    }
    Ok(None)
}

/// What stands on standard error for these lines behind an own AS and an identifier.
fn told(alloc: Global, lines: &[u8]) -> Result<Vec<u8>, AllocError> {
    let mut text = Vec::from_slice(alloc, b"AS 1\nrouter-id 1.1.1.1\n")?;
    text.extend_from_slice(lines)?;
    Ok(check(alloc, text.as_slice())?.err)
}

/// The first row whose lines, behind an own AS and an identifier, aren't told what the row says.
fn first_not_told(alloc: Global, rows: &[(&[u8], &[u8])]) -> Result<Option<usize>, AllocError> {
    for (place, (lines, err)) in rows.iter().enumerate() {
        if told(alloc, lines)?.as_slice() != *err {
            return Ok(Some(place));
        }
    }
    Ok(None)
}

/// The first of these lines that aren't good behind an own AS and an identifier.
fn first_not_good(alloc: Global, rows: &[&[u8]]) -> Result<Option<usize>, AllocError> {
    for (place, lines) in rows.iter().enumerate() {
        if !told(alloc, lines)?.is_empty() {
            return Ok(Some(place));
        }
    }
    Ok(None)
}

#[test]
fn faults_of_tokens_and_statements(rt: HostRuntime) -> Result<(), Fail> {
    let rows: &[(&[u8], &[u8])] = &[
        (b"AS 1\nrouter-id \x80\n", b"F:2: BadByte\n"),
        (b"AS 1\\\nsocket \"x\n", b"F:2: OpenQuote\n"),
        (b"AS $x\nx = 1\n", b"F:1: UnknownMacro\n"),
        (b"AS 1.1\n", b"F:1: NotInProfile\n"),
        (b"include \"x\"\n", b"F:1: NotInProfile\n"),
        (b"AS 1\nneighbor 10.0.0.0/24 {\n}\n", b"F:2: NotInProfile\n"),
    ];
    assert_eq!(rt; first_not_refused(rt.alloc(), rows)?, None);
    Ok(())
}

#[test]
fn faults_of_statements_and_checks(rt: HostRuntime) -> Result<(), Fail> {
    let rows: &[(&[u8], &[u8])] = &[
        (b"AS 1\n\nfrobnicate\n", b"F:3: UnexpectedWord\n"),
        (b"AS\n", b"F:1: UnexpectedWord\n"),
        (b"AS \\\n\n", b"F:2: UnexpectedWord\n"),
        (b"as-set x { 1\n", b"F:2: UnexpectedWord\n"),
        (b"AS 0\n", b"F:1: NumberRange\n"),
        (
            b"prefix-set x { 10.0.0.0/8 prefixlen 7-9 }\n",
            b"F:1: NumberRange\n",
        ),
    ];
    assert_eq!(rt; first_not_refused(rt.alloc(), rows)?, None);
    Ok(())
}

#[test]
fn faults_of_checks(rt: HostRuntime) -> Result<(), Fail> {
    let rows: &[(&[u8], &[u8])] = &[
        (b"", b"F:0: NoAs\n"),
        (b"AS 1\n", b"F:0: NoRouterId\n"),
        (
            b"AS 1\nrouter-id 10.0.0.1\nneighbor 10.0.0.2 {\n}\n",
            b"F:3: NoAs\n",
        ),
        (
            b"AS 1\nrouter-id 10.0.0.1\nas-set x {}\nas-set \"x\" {}\n",
            b"F:4: DoubleName\n",
        ),
        (
            b"AS 1\nrouter-id 10.0.0.1\nrde rib Loc-RIB\n",
            b"F:3: DoubleName\n",
        ),
        (
            b"AS 1\nrouter-id 10.0.0.1\nneighbor ::1 { remote-as 2 }\ngroup \"g\" {\nneighbor 0:0::1 { remote-as 2 }\n}\n",
            b"F:5: DoubleNeighbour\n",
        ),
    ];
    assert_eq!(rt; first_not_refused(rt.alloc(), rows)?, None);
    Ok(())
}

#[test]
fn faults_of_the_first_part_that_has_one(rt: HostRuntime) -> Result<(), Fail> {
    let rows: &[(&[u8], &[u8])] = &[
        (
            b"AS 1\nrouter-id 10.0.0.1\nallow from group x\n",
            b"F:3: UnknownName\n",
        ),
        (
            b"AS 1\nrouter-id 10.0.0.1\ngroup x {\n}\nallow from group x\n",
            b"F:5: UnknownName\n",
        ),
        (
            b"AS 1\nrouter-id 10.0.0.1\nneighbor 10.0.0.2 {\nremote-as 2\nlocal-address ::1\n}\n",
            b"F:3: FamilyMismatch\n",
        ),
        (b"socket \"x\nAS 0\n", b"F:1: OpenQuote\n"),
        (b"AS 0\nsocket \"x\n", b"F:2: OpenQuote\n"),
        (b"rde rib Loc-RIB\nAS 1\n", b"F:0: NoRouterId\n"),
    ];
    assert_eq!(rt; first_not_refused(rt.alloc(), rows)?, None);
    Ok(())
}

/// A text of so many times one piece, each with its number where `#` stands.
fn times(alloc: Global, count: u32, piece: &str) -> Result<String, AllocError> {
    let mut text = String::new(alloc);
    for i in 0..count {
        text.push_str(piece)?;
        text.push_str(format!(in alloc; "{i}\n")?.as_str())?;
    }
    Ok(text)
}

#[test]
fn each_limit_met_and_passed_by_one(rt: HostRuntime) -> Result<(), Fail> {
    let alloc = rt.alloc();
    let rows: [(u32, &str, &[u8]); 5] = [
        (8, "listen on 10.0.0.1 port 1", b"F:11: TooMany listens\n"),
        (15, "rde rib r", b"F:18: TooMany ribs\n"),
        (64, "group g { descr \"x\" } # ", b"F:67: TooMany groups\n"),
        (4096, "deny from AS 1", b"F:4099: TooMany rules\n"),
        (
            256,
            "neighbor 2001:db8::1 { remote-as 2 } # ",
            b"F:259: TooMany neighbours\n",
        ),
    ];
    for (most, piece, err) in rows {
        for (count, passed) in [(most, false), (most + 1, true)] {
            let mut text = String::from_str(alloc, "AS 65001\nrouter-id 10.0.0.1\n")?;
            text.push_str(times(alloc, count, piece)?.as_str())?;
            let checked = check(alloc, text.as_bytes())?;
            assert_eq!(rt; checked.err.as_slice() == err, passed);
        }
    }
    Ok(())
}

#[test]
fn what_else_there_may_be_too_many_of(rt: HostRuntime) -> Result<(), Fail> {
    let alloc = rt.alloc();
    let rows: [(&[u8], &[u8]); 6] = [
        (
            b"AS 1\nrouter-id 1.1.1.1\nmatch from any inet inet inet inet inet inet inet inet inet inet inet inet inet inet inet inet\n",
            b"",
        ),
        (
            b"AS 1\nrouter-id 1.1.1.1\nmatch from any inet inet inet inet inet inet inet inet inet inet inet inet inet inet inet inet inet6\n",
            b"F:3: TooMany conditions\n",
        ),
        (
            b"AS 1\nrouter-id 1.1.1.1\nnetwork 10.0.0.0/8 set { med 1 med 1 med 1 med 1 med 1 med 1 med 1 med 1\nmed 1 med 1 med 1 med 1 med 1 med 1 med 1 med 1\nmetric 1 }\n",
            b"F:5: TooMany items\n",
        ),
        (
            b"AS 1\nrouter-id 1.1.1.1\nas-set abcdefghijklmnopqrstuvwxyzabcde {}\n",
            b"",
        ),
        (
            b"AS 1\nrouter-id 1.1.1.1\nas-set abcdefghijklmnopqrstuvwxyzabcdef {}\n",
            b"F:3: TooMany names\n",
        ),
        (
            b"AS 1\nrouter-id 1.1.1.1\nas-set abcdefghijklmnopqrstuvwxyzabcde_.f {}\n",
            b"F:3: UnexpectedWord\n",
        ),
    ];
    for (text, err) in rows {
        let checked = check(alloc, text)?;
        assert_eq!(rt; checked.err.as_slice(), err);
        assert_eq!(rt; checked.status, u8::from(!err.is_empty()));
    }
    Ok(())
}

#[test]
fn networks_and_entries_at_their_limits(rt: HostRuntime) -> Result<(), Fail> {
    let alloc = rt.alloc();
    for (count, err) in [
        (4096u32, b"".as_slice()),
        (4097, b"F:4099: TooMany networks\n"),
    ] {
        let mut text = String::from_str(alloc, "AS 65001\nrouter-id 10.0.0.1\n")?;
        text.push_str(times(alloc, count, "network 10.0.0.0/8 # ")?.as_str())?;
        assert_eq!(rt; check(alloc, text.as_bytes())?.err.as_slice(), err);
    }
    for (count, err) in [
        (262144u32, b"".as_slice()),
        (262145, b"F:3: TooMany entries\n"),
    ] {
        let mut text = String::from_str(alloc, "AS 65001\nrouter-id 10.0.0.1\nas-set x {")?;
        for _ in 0..count {
            text.push_str(" 1")?;
        }
        text.push_str(" }\n")?;
        assert_eq!(rt; check(alloc, text.as_bytes())?.err.as_slice(), err);
    }
    Ok(())
}

#[test]
fn the_limit_of_a_text_and_of_replacements(rt: HostRuntime) -> Result<(), Fail> {
    let alloc = rt.alloc();
    for (length, err) in [(1048576usize, b"".as_slice()), (1048577, b"F:3: TooLong\n")] {
        let mut text = Vec::from_slice(alloc, b"AS 65001\nrouter-id 10.0.0.1\n#")?;
        let comment = length.saturating_sub(text.len());
        text.extend_from_slice(vec![in alloc; b'x'; comment]?.as_slice())?;
        assert_eq!(rt; check(alloc, text.as_slice())?.err.as_slice(), err);
    }
    // A macro of 1024 bytes, 1024 times: with one byte more in a second macro the limit is passed.
    for (more, err) in [("", b"".as_slice()), (" $b", b"F:5: TooLong\n")] {
        let mut text = String::from_str(alloc, "AS 65001\nrouter-id 10.0.0.1\nb = 1\na =")?;
        for _ in 0..1024u32 {
            text.push_str(" 1")?;
        }
        text.push_str("\nas-set x {")?;
        for _ in 0..1024u32 {
            text.push_str(" $a")?;
        }
        text.push_str(more)?;
        text.push_str(" }\n")?;
        let found = check(alloc, text.as_bytes())?;
        // The entries are too many for one configuration; that is found behind the tokens.
        if more.is_empty() {
            assert_eq!(rt; found.err.as_slice(), b"F:5: TooMany entries\n".as_slice());
        } else {
            assert_eq!(rt; found.err.as_slice(), err);
        }
    }
    Ok(())
}

#[test]
fn the_canonical_text_of_a_network(rt: HostRuntime) -> Result<(), Fail> {
    let alloc = rt.alloc();
    let checked = run(
        alloc,
        &["-n", "-v", "-f", "F"],
        b"AS 65001\nrouter-id 10.0.0.1\nnetwork 192.0.2.0/24\n",
        Items::new(alloc),
        Items::new(alloc),
    )?;
    assert_eq!(rt;
        checked.out.as_slice(),
        b"AS 65001\nrouter-id 10.0.0.1\nholdtime 90\nholdtime min 3\nfib-update yes\nrde med compare strict\nsocket \"bgpd.sock\"\nnetwork 192.0.2.0/24\nconfiguration OK\n".as_slice()
    );
    assert_eq!(rt; checked.status, 0);
    assert!(rt; checked.err.is_empty());
    Ok(())
}

#[test]
fn an_ordinary_configuration(rt: HostRuntime) -> Result<(), Fail> {
    let alloc = rt.alloc();
    let text: &[u8] =
        b"ASN=\"65001\"\npeer1=\"10.0.0.2\"\nAS $ASN\nrouter-id 10.0.0.1\nlisten on 127.0.0.1 port 1790\nprefix-set mynetworks { 198.51.100.0/24 }\nnetwork 198.51.100.0/24\nrde rib mirror rtable 2\ngroup \"transit\" {\n\tremote-as 65002\n\tlocal-address 10.0.0.1\n\tneighbor $peer1 {\n\t\tdescr \"upstream\"\n\t\tmax-prefix 500000\n\t}\n}\nallow from group transit\nmatch from ebgp set { localpref 200 large-community $ASN:1:1 }\ndeny quick from any prefix 10.0.0.0/8 or-longer\nallow to ebgp prefix-set mynetworks\n";
    let checked = check(alloc, text)?;
    assert_eq!(rt; checked.err.as_slice(), b"".as_slice());
    assert_eq!(rt; checked.out.as_slice(), b"configuration OK\n".as_slice());
    assert_eq!(rt; checked.status, 0);
    Ok(())
}

#[test]
fn faults_of_the_file_and_of_standard_output(rt: HostRuntime) -> Result<(), Fail> {
    let alloc = rt.alloc();
    let words: [&str; 3] = ["-n", "-f", "F"];
    let text: &[u8] = b"AS 65001\nrouter-id 10.0.0.1\n";
    let mut first = Items::new(alloc);
    first.push(1)?;
    let unread = run(alloc, &words, text, first, Items::new(alloc))?;
    assert_eq!(rt; unread.status, 4);
    assert_eq!(rt; unread.err.as_slice(), b"read fault\n".as_slice());
    assert!(rt; unread.out.is_empty());
    let mut first = Items::new(alloc);
    first.push(1)?;
    let unwritten = run(alloc, &words, text, Items::new(alloc), first)?;
    assert_eq!(rt; unwritten.status, 5);
    assert_eq!(rt; unwritten.err.as_slice(), b"write fault\n".as_slice());
    let missing: [&str; 3] = ["-n", "-f", "G"];
    let missed = run(alloc, &missing, text, Items::new(alloc), Items::new(alloc))?;
    assert_eq!(rt; missed.status, 4);
    Ok(())
}

#[test]
fn unexpected_values(rt: HostRuntime) -> Result<(), Fail> {
    let rows: &[(&[u8], &[u8])] = &[
        (b"as-set x { 007 }\n", b"F:3: UnexpectedWord\n"),
        (b"AS \"1\"\n", b"F:3: UnexpectedWord\n"),
        (b"listen on 10.0.0.256\n", b"F:3: UnexpectedWord\n"),
        (b"network 10.0.0.0/33\n", b"F:3: UnexpectedWord\n"),
        (b"router-id ::1\n", b"F:3: UnexpectedWord\n"),
        (b"socket bgpd.sock\n", b"F:3: UnexpectedWord\n"),
    ];
    assert_eq!(rt; first_not_told(rt.alloc(), rows)?, None);
    Ok(())
}

#[test]
fn unexpected_conditions_and_items(rt: HostRuntime) -> Result<(), Fail> {
    let rows: &[(&[u8], &[u8])] = &[
        (
            b"match from any community 1:2:3\n",
            b"F:3: UnexpectedWord\n",
        ),
        (
            b"match from any set community *:1\n",
            b"F:3: UnexpectedWord\n",
        ),
        (
            b"match from any large-community NO_EXPORT\n",
            b"F:3: UnexpectedWord\n",
        ),
        (
            b"match from any set localpref + 5\n",
            b"F:3: UnexpectedWord\n",
        ),
        (b"match from any nexthop self\n", b"F:3: UnexpectedWord\n"),
        (b"match from any set { }\n", b"F:3: UnexpectedWord\n"),
    ];
    assert_eq!(rt; first_not_told(rt.alloc(), rows)?, None);
    Ok(())
}

#[test]
fn unexpected_members(rt: HostRuntime) -> Result<(), Fail> {
    let rows: &[(&[u8], &[u8])] = &[
        (b"match from any set med 1 inet\n", b"F:3: UnexpectedWord\n"),
        (
            b"prefix-set x { 10.0.0.0/8 prefixlen 8 -9 }\n",
            b"F:3: UnexpectedWord\n",
        ),
        (
            b"prefix-set x { 10.0.0.0/8\nor-longer }\n",
            b"F:4: UnexpectedWord\n",
        ),
        (
            b"prefix-set x { 10.0.0.0/8 maxlen\n9 }\n",
            b"F:3: UnexpectedWord\n",
        ),
        (
            b"neighbor 10.0.0.2 { remote-as 5 passive }\n",
            b"F:3: UnexpectedWord\n",
        ),
        (
            b"neighbor 10.0.0.2 {\nremote-as 5,\n}\n",
            b"F:4: UnexpectedWord\n",
        ),
    ];
    assert_eq!(rt; first_not_told(rt.alloc(), rows)?, None);
    Ok(())
}

#[test]
fn unexpected_options(rt: HostRuntime) -> Result<(), Fail> {
    let rows: &[(&[u8], &[u8])] = &[
        (
            b"neighbor 10.0.0.2 {\nremote-as 5\nannounce IPv4 vpn\n}\n",
            b"F:5: UnexpectedWord\n",
        ),
        (
            b"neighbor 10.0.0.2 {\nannounce\n}\n",
            b"F:4: UnexpectedWord\n",
        ),
        (
            b"neighbor 10.0.0.2 {\ninclude\n}\n",
            b"F:4: UnexpectedWord\n",
        ),
        (b"as-set x { } AS 1\n", b"F:3: UnexpectedWord\n"),
        (b"allow from { , }\n", b"F:3: UnexpectedWord\n"),
        (
            b"match from any prefix { 10.0.0.0/8 } prefix { 11.0.0.0/8 }\n",
            b"F:3: UnexpectedWord\n",
        ),
    ];
    assert_eq!(rt; first_not_told(rt.alloc(), rows)?, None);
    Ok(())
}

#[test]
fn unexpected_lists(rt: HostRuntime) -> Result<(), Fail> {
    let rows: &[(&[u8], &[u8])] = &[
        (
            b"match from any AS { 1 } peer-as { 2 }\n",
            b"F:3: UnexpectedWord\n",
        ),
        (b"allow rib x to any\n", b"F:3: UnexpectedWord\n"),
        (b"rde rib x rtable 1 rtable 2\n", b"F:3: UnexpectedWord\n"),
        (b"x = 1, 2\n", b"F:3: UnexpectedWord\n"),
    ];
    assert_eq!(rt; first_not_told(rt.alloc(), rows)?, None);
    Ok(())
}

#[test]
fn numbers_out_of_range(rt: HostRuntime) -> Result<(), Fail> {
    let rows: &[(&[u8], &[u8])] = &[
        (b"match from any community 1:70000\n", b"F:3: NumberRange\n"),
        (b"match from any AS 0\n", b"F:3: NumberRange\n"),
        (
            b"match from any set med 4294967296\n",
            b"F:3: NumberRange\n",
        ),
        (b"match from any max-as-len 1024\n", b"F:3: NumberRange\n"),
        (b"holdtime 2\n", b"F:3: NumberRange\n"),
    ];
    assert_eq!(rt; first_not_told(rt.alloc(), rows)?, None);
    Ok(())
}

#[test]
fn ranges_and_names_left_out(rt: HostRuntime) -> Result<(), Fail> {
    let rows: &[(&[u8], &[u8])] = &[
        (b"holdtime min 0\n", b"F:3: NumberRange\n"),
        (b"rde rib x rtable 256\n", b"F:3: NumberRange\n"),
        (
            b"origin-set x { 10.0.0.0/8 maxlen 7 source-as 1 }\n",
            b"F:3: NumberRange\n",
        ),
        (
            b"match from any community no_export\n",
            b"F:3: NotInProfile\n",
        ),
        (b"match from any community delete\n", b"F:3: NotInProfile\n"),
    ];
    assert_eq!(rt; first_not_told(rt.alloc(), rows)?, None);
    Ok(())
}

#[test]
fn items_and_options_left_out(rt: HostRuntime) -> Result<(), Fail> {
    let rows: &[(&[u8], &[u8])] = &[
        (
            b"match from any nexthop blackhole\n",
            b"F:3: NotInProfile\n",
        ),
        (b"match from any set nexthop self\n", b"F:3: NotInProfile\n"),
        (
            b"network 10.0.0.0/8 set prepend-neighbor 1\n",
            b"F:3: NotInProfile\n",
        ),
        (
            b"neighbor 10.0.0.2 {\nmax-prefix 1 restart 5\n}\n",
            b"F:4: NotInProfile\n",
        ),
        (
            b"neighbor 10.0.0.2 {\nannounce extended yes\n}\n",
            b"F:4: NotInProfile\n",
        ),
    ];
    assert_eq!(rt; first_not_told(rt.alloc(), rows)?, None);
    Ok(())
}

#[test]
fn statements_and_entries_left_out(rt: HostRuntime) -> Result<(), Fail> {
    let rows: &[(&[u8], &[u8])] = &[
        (b"nexthop qualify via bgp\n", b"F:3: NotInProfile\n"),
        (b"rde route-age evaluate\n", b"F:3: NotInProfile\n"),
        (b"network inet static\n", b"F:3: NotInProfile\n"),
        (b"as-set x { 1 expires 5 }\n", b"F:3: NotInProfile\n"),
        (
            b"origin-set x { 10.0.0.0/8 expires 5 }\n",
            b"F:3: NotInProfile\n",
        ),
    ];
    assert_eq!(rt; first_not_told(rt.alloc(), rows)?, None);
    Ok(())
}

#[test]
fn good_rules(rt: HostRuntime) -> Result<(), Fail> {
    let rows: &[&[u8]] = &[
        b"match from any set community delete *:1\n",
        b"match from any community NO_EXPORT\n",
        b"match from any set { localpref +0, med -0\nmetric 4294967295 }\n",
        b"match from any source-as 0\n",
        b"match from any AS { 1 2 } prefix { 10.0.0.0/8, 11.0.0.0/8 maxlen 9 } inet6\n",
    ];
    assert_eq!(rt; first_not_good(rt.alloc(), rows)?, None);
    Ok(())
}

#[test]
fn good_sets_and_neighbours(rt: HostRuntime) -> Result<(), Fail> {
    let rows: &[&[u8]] = &[
        b"match to any set nexthop no-modify\n",
        b"prefix-set x { 10.0.0.0/8 prefixlen 8-9\n10.0.0.0/8 prefixlen 9 - 8,, 10.0.0.0/8 prefixlen>=9 }\n",
        b"origin-set x { 10.0.0.0/8 source-as 0 }\n",
        b"neighbor 10.0.0.2 { remote-as 5 }\n",
        b"group \"a b\" { remote-as 2\nneighbor 10.0.0.2 {\n} }\nallow from group \"a b\"\n",
    ];
    assert_eq!(rt; first_not_good(rt.alloc(), rows)?, None);
    Ok(())
}

#[test]
fn good_statements(rt: HostRuntime) -> Result<(), Fail> {
    let rows: &[&[u8]] = &[
        b"rde rib\"y\"rtable 5\n",
        b"holdtime 0\nholdtime min 3\nfib-update no\nnexthop qualify via default\nrde med compare always\n",
        b"router-id 0.0.0.0\nneighbor 0.0.0.0 {\nremote-as 4294967295\ndescr \"\"\n}\n",
    ];
    assert_eq!(rt; first_not_good(rt.alloc(), rows)?, None);
    Ok(())
}
