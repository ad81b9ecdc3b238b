use bgp_wire::OpenRules;
use core_msgs::{Done, Frame, Line};
use net_base::{Addr, Items, NoMemory};
use peer_session::*;
use std::alloc::Global;
use std::test::*;

/// What happens to the neighbour.
enum Step {
    Comes,
    Opened,
    Bytes(&'static [&'static [u8]]),
    Lost,
    Time(u64),
    Write(usize),
    Stall,
    Down(bool),
    Clear,
    Refresh,
    Close,
    Hold(u16),
    Leave,
}

const MARKER: &[u8] = &[0xff; 16];
/// The OPEN of AS 65002 with identifier 10.0.0.2 and a hold time of 90 seconds, behind its marker.
const OPEN: &[u8] = &[
    0, 45, 1, 4, 0xfd, 0xea, 0, 90, 10, 0, 0, 2, 16, 2, 14, 1, 4, 0, 1, 0, 1, 2, 0, 65, 4, 0, 0,
    0xfd, 0xea,
];
/// The marker without its first byte.
const MARKER_REST: &[u8] = &[0xff; 15];

const KEEPALIVE: &[u8] = &[0, 19, 4];
/// ORIGIN IGP, path 65002, hop 10.0.0.2, and 192.0.2.0/24.
const UPDATE: &[u8] = &[
    0, 47, 2, 0, 0, 0, 20, 0x40, 1, 1, 0, 0x40, 2, 6, 2, 1, 0, 0, 0xfd, 0xea, 0x40, 3, 4, 10, 0, 0,
    2, 24, 192, 0, 2,
];
/// The same with a prefix of 33 bits.
const BAD_UPDATE: &[u8] = &[
    0, 49, 2, 0, 0, 0, 20, 0x40, 1, 1, 0, 0x40, 2, 6, 2, 1, 0, 0, 0xfd, 0xea, 0x40, 3, 4, 10, 0, 0,
    2, 33, 192, 0, 2, 1, 0,
];
/// A hold time of 2 seconds, and one of none.
const OPEN_HOLD_2: &[u8] = &[0, 29, 1, 4, 0xfd, 0xea, 0, 2, 10, 0, 0, 2, 0];

const OPEN_HOLD_0: &[u8] = &[0, 29, 1, 4, 0xfd, 0xea, 0, 0, 10, 0, 0, 2, 0];

const NOTIFICATION: &[u8] = &[0, 21, 3, 6, 4];

const REFRESH: &[u8] = &[0, 23, 5, 0, 1, 0, 1];

const REFRESH_V6: &[u8] = &[0, 23, 5, 0, 2, 0, 1];

const BAD_MARKER: &[u8] = &[
    0xff, 0xff, 0xff, 0xff, 0xff, 0xff, 0xff, 0xff, 0xff, 0xff, 0xff, 0xff, 0xff, 0xff, 0xff, 0xfe,
];

/// Both OPENs are good, and the session comes up.
const UP: (Step, &str) = (Step::Bytes(&[MARKER, OPEN, MARKER, KEEPALIVE]), "up;Up 7;");

/// Steps, each with what it is answered: a refusal, or the lines and then the frames. Of bytes their number and the last ones
/// are told, of frames the session, and of routes how many prefixes are withdrawn and announced.
const ROWS: &[&[(Step, &str)]] = &[
    // A peer that can't be reached is tried again after 30 seconds.
    &[
        (Step::Comes, "connect;"),
        (Step::Lost, ""),
        (Step::Lost, "NoConnection"),
        (Step::Time(29), ""),
        (Step::Time(30), "connect;"),
        (Step::Bytes(&[&[0]]), "NoConnection"),
        (Step::Write(1), "NoConnection"),
        (Step::Stall, "NoConnection"),
        (Step::Clear, "NoConnection"),
        (Step::Refresh, "NoRefresh"),
        (Step::Close, ""),
        (Step::Down(true), ""),
        (Step::Opened, "AdminDown"),
        (Step::Down(false), "connect;"),
        (Step::Leave, ""),
    ],
    // Headers with a length of 18, one of 4097, and a bit of the marker that isn't set.
    &[
        (Step::Opened, ""),
        (Step::Opened, "AlreadyOpen"),
        (
            Step::Bytes(&[MARKER, &[0, 18, 4]]),
            "last 21 03 01 02;down 1 2;",
        ),
        (Step::Opened, ""),
        (
            Step::Bytes(&[MARKER, &[16, 1, 2]]),
            "last 21 03 01 02;down 1 2;",
        ),
        (Step::Opened, ""),
        (
            Step::Bytes(&[BAD_MARKER, &[0, 19, 4]]),
            "last 21 03 01 01;down 1 1;",
        ),
    ],
    // A session comes up, and what it says comes in pieces;then its deadlines.
    &[
        (Step::Opened, ""),
        (Step::Bytes(&[MARKER, OPEN]), ""),
        (Step::Bytes(&[MARKER, KEEPALIVE, &[0xff]]), "up;Up 7;"),
        (Step::Write(60), "sent 60 ff ff ff;"),
        (Step::Write(60), "sent 4 00 13 04;"),
        (Step::Write(60), ""),
        (Step::Bytes(&[MARKER_REST, UPDATE]), "Routes 7 0 1;"),
        (
            Step::Bytes(&[MARKER, REFRESH, MARKER, REFRESH_V6]),
            "Refresh 7;",
        ),
        (Step::Refresh, ""),
        (Step::Time(29), ""),
        (Step::Time(30), ""),
        (Step::Write(25), "sent 25 01 ff ff;"),
        (Step::Time(89), ""),
        (Step::Time(90), "last 38 03 04 00;down 4 0;Down 7;"),
        (Step::Time(119), ""),
        (Step::Time(120), "connect;"),
    ],
    // Ends of connections: lost, by the peer, by a bad UPDATE, by an operator, by a configuration, by too many prefixes.
    &[
        (Step::Opened, ""),
        UP,
        (Step::Stall, ""),
        (Step::Lost, "lost;Down 7;"),
        (Step::Opened, ""),
        (
            Step::Bytes(&[
                MARKER,
                OPEN,
                MARKER,
                KEEPALIVE,
                MARKER,
                NOTIFICATION,
                MARKER,
                OPEN,
            ]),
            "up;received 6 4;Up 7;Down 7;",
        ),
        (Step::Opened, ""),
        UP,
        (
            Step::Bytes(&[MARKER, BAD_UPDATE]),
            "last 21 03 03 0a;down 3 10;Down 7;",
        ),
        (Step::Opened, ""),
        UP,
        (Step::Clear, "last 21 03 06 04;down 6 4;Down 7;"),
        (Step::Opened, ""),
        UP,
        (Step::Hold(90), ""),
        (Step::Hold(60), "last 21 03 06 06;down 6 6;Down 7;"),
        (Step::Opened, ""),
        UP,
        (Step::Close, "last 21 03 06 01;held 2 1;Down 7;"),
        (Step::Opened, ""),
        (
            Step::Bytes(&[MARKER, OPEN_HOLD_2]),
            "last 21 03 02 06;down 2 6;",
        ),
        (Step::Opened, ""),
        (Step::Bytes(&[MARKER, OPEN_HOLD_0]), ""),
        (Step::Time(1_000_000), ""),
        (Step::Bytes(&[MARKER, UPDATE]), "last 21 03 05 00;down 5 0;"),
        (Step::Opened, ""),
        (Step::Down(true), "last 21 03 06 02;down 6 2;"),
    ],
];

/// Puts the number of some bytes and the last three behind a text.
fn put_bytes(word: &str, bytes: &[u8], text: &mut String) -> Result<(), Fail> {
    write!(text, "{word} {}", bytes.len())?;
    for byte in &bytes[bytes.len().saturating_sub(3)..] {
        write!(text, " {byte:02x}")?;
    }
    write!(text, ";")?;
    Ok(())
}

fn put_line(line: &Line, text: &mut String) -> Result<(), Fail> {
    match line {
        Line::Up(_) => write!(text, "up;")?,
        Line::Connect(_) => write!(text, "connect;")?,
        Line::DownLost(_) => write!(text, "lost;")?,
        Line::Down(_, code, sub) => write!(text, "down {code} {sub};")?,
        Line::DownReceived(_, code, sub) => write!(text, "received {code} {sub};")?,
        Line::DownMaxPrefix { held, most, .. } => write!(text, "held {held} {most};")?,
        Line::Sent(_, bytes) => put_bytes("sent", bytes.as_slice(), text)?,
        Line::Last(_, bytes) => put_bytes("last", bytes.as_slice(), text)?,
        _ => write!(text, "another line;")?,
    }
    Ok(())
}

fn put_frame(frame: &Frame, text: &mut String) -> Result<(), Fail> {
    match frame {
        Frame::Up { session, .. } => write!(text, "Up {session};")?,
        Frame::Down { session } => write!(text, "Down {session};")?,
        Frame::Refresh { session, .. } => write!(text, "Refresh {session};")?,
        Frame::Routes {
            session,
            withdrawn,
            announced,
            ..
        } => {
            let announced = announced.as_ref().map_or(0, |group| group.1.len());
            write!(text, "Routes {session} {} {announced};", withdrawn.len())?;
        }
        _ => write!(text, "another frame;")?,
    }
    Ok(())
}

/// The words for what was reported and written.
fn words(alloc: Global, done: &Done) -> Result<String, Fail> {
    let mut text = String::new(alloc);
    for line in &done.lines {
        put_line(line, &mut text)?;
    }
    for (_, frame) in &done.frames {
        put_frame(frame, &mut text)?;
    }
    Ok(text)
}

fn settings(hold: u16, down: bool) -> Settings {
    let rules = OpenRules {
        asn: 65001,
        remote_as: 65002,
        router_id: 0x0a00_0001,
        hold,
        hold_min: 3,
        v4: true,
        v6: false,
        refresh: true,
        as4: true,
    };
    Settings {
        rules,
        passive: false,
        down,
    }
}

fn joined(alloc: Global, parts: &[&[u8]]) -> Result<Vec<u8>, NoMemory> {
    let mut piece = Vec::new(alloc);
    for part in parts {
        piece.extend_from_slice(part)?;
    }
    Ok(piece)
}

fn take(
    alloc: Global,
    session: &mut NeighbourSession,
    step: &Step,
    now: &mut u64,
    done: &mut Done,
) -> Result<(), SessionRefusal> {
    match step {
        Step::Comes => session.comes(*now, done)?,
        Step::Opened => session.opened(*now, done)?,
        Step::Bytes(parts) => session.bytes(&joined(alloc, parts)?, 7, *now, done)?,
        Step::Lost => session.lost(*now, done)?,
        Step::Time(moment) => {
            *now = *moment;
            session.time(*now, done)?;
        }
        Step::Write(n) => session.write(*n, done)?,
        Step::Stall => session.stall(true)?,
        Step::Down(down) => session.set_down(*down, *now, done)?,
        Step::Clear => session.clear(*now, done)?,
        Step::Refresh => session.refresh()?,
        Step::Close => session.close(2, 1, *now, done)?,
        Step::Hold(hold) => session.configure(settings(*hold, false), *now, done)?,
        Step::Leave => session.leave(*now, done)?,
    }
    Ok(())
}

/// What a step is answered, in words.
fn answer(
    alloc: Global,
    session: &mut NeighbourSession,
    step: &Step,
    now: &mut u64,
) -> Result<String, Fail> {
    let mut done = Done {
        lines: Items::new(alloc),
        frames: Items::new(alloc),
    };
    match take(alloc, session, step, now, &mut done) {
        Ok(()) => words(alloc, &done),
        Err(refusal) => Ok(format!(in alloc; "{refusal:?}")?),
    }
}

#[test]
fn each_step_is_answered(rt: HostRuntime) -> Result<(), Fail> {
    for (row, steps) in ROWS.iter().enumerate() {
        let peer = Addr::of_v4(0x0a00_0002);
        let mut session = NeighbourSession::new(rt.alloc(), peer, settings(90, false));
        let mut now = 0;
        for (place, (step, wanted)) in steps.iter().enumerate() {
            let found = answer(rt.alloc(), &mut session, step, &mut now)?;
            assert_eq!(rt; found.as_str(), *wanted, "row {row}, step {place}");
        }
    }
    Ok(())
}
