use core_msgs::{CtlCommand, Row, State, WordList};
use ctl_show::*;
use net_base::{Addr, Items};
use std::alloc::Global;
use std::test::Fail;

/// Words that are no command, and the first that can't follow or is missing, counted from 1.
const BAD: [(&str, u32); 15] = [
    ("", 1),
    ("dump", 1),
    ("show", 2),
    ("show  rib", 2),
    ("show summary now", 3),
    ("show rib next", 3),
    ("show rib table", 4),
    ("show rib table 1x", 4),
    ("show rib table abcdefghijklmnopqrstuvwxyzabcdef", 4),
    ("show fib table 4294967296", 4),
    ("fib table 0", 4),
    ("fib table 0 up", 4),
    ("neighbor 10.0.0.256 up", 2),
    ("neighbor 10.0.0.2", 3),
    ("neighbor 10.0.0.2 up now", 4),
];

fn words_of(alloc: Global, text: &str) -> Result<WordList, Fail> {
    let mut words = Items::new(alloc);
    for word in text.split(' ') {
        words.push(Items::from_slice(alloc, word.as_bytes())?)?;
    }
    Ok(words)
}

/// The first word that can't follow or is missing, where the words are no command.
fn bad_word(alloc: Global, text: &str) -> Result<Option<u32>, Fail> {
    let words = words_of(alloc, text)?;
    match read_ctl(alloc, &words) {
        Err(CtlFault::BadWord(position)) => Ok(Some(position)),
        _ => Ok(None),
    }
}

#[test]
fn bad_words_are_told(rt: HostRuntime) -> Result<(), Fail> {
    for (text, position) in BAD.iter() {
        assert_eq!(rt; bad_word(rt.alloc(), text)?, Some(*position));
    }
    Ok(())
}

#[test]
fn commands_are_read(rt: HostRuntime) -> Result<(), Fail> {
    let all = read_ctl(rt.alloc(), &words_of(rt.alloc(), "show rib")?)?;
    assert!(rt; matches!(all, CtlCommand::ShowRib(None)));
    let named = read_ctl(rt.alloc(), &words_of(rt.alloc(), "show rib table Loc-RIB")?)?;
    assert!(rt; matches!(named, CtlCommand::ShowRib(Some(_))));
    let couple = read_ctl(rt.alloc(), &words_of(rt.alloc(), "fib table 7 decouple")?)?;
    assert!(rt; matches!(couple, CtlCommand::Couple(Some(7), false)));
    Ok(())
}

#[test]
fn rows_are_shown(rt: HostRuntime) -> Result<(), Fail> {
    let mut rows = Items::new(rt.alloc());
    rows.push(Row::Neighbour {
        peer: Addr::read_bytes(b"10.0.0.3")?,
        asn: 65003,
        state: State::Established,
        hold: 90,
        outbox: 880,
    })?;
    let one = show(rt.alloc(), &rows, &CtlCommand::ShowNeighbour(None))?;
    assert_eq!(rt;
        one.as_slice(),
        b"10.0.0.3 AS 65003 Established hold 90 outbox 880\n".as_slice()
    );
    let line = show(rt.alloc(), &rows, &CtlCommand::ShowSummary)?;
    assert_eq!(rt;
        line.as_slice(),
        b"10.0.0.3 AS 65003 Established\n".as_slice()
    );
    Ok(())
}
