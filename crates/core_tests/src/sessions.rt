use core_msgs::{CtlCommand, Done, Frame, Line, Row, SessionAction};
use net_base::{Addr, Items, NoMemory, Way};
use session_core::*;
use std::alloc::Global;
use std::test::*;

/// What happens to the session core.
enum Step {
    /// The configuration with this text and generation comes, as frames.
    Conf(&'static [u8], u32),
    Opened,
    Bytes(&'static [&'static [u8]]),
    Lost,
    Time(u64),
    Write(usize),
    Stall,
    Flow,
    Close(u32),
    Summary,
    Operator(SessionAction),
    Stop,
}

/// A neighbour of AS 65002 at 10.0.0.2, and none.
const CONF: &[u8] = b"AS 65001\nrouter-id 10.0.0.1\nneighbor 10.0.0.2 {\n\tremote-as 65002\n}\n";

const CONF_ALONE: &[u8] = b"AS 65001\nrouter-id 10.0.0.1\n";

const MARKER: &[u8] = &[0xff; 16];

/// The OPEN of AS 65002 with identifier 10.0.0.2 and a hold time of 90 seconds, behind its marker.
const OPEN: &[u8] = &[
    0, 45, 1, 4, 0xfd, 0xea, 0, 90, 10, 0, 0, 2, 16, 2, 14, 1, 4, 0, 1, 0, 1, 2, 0, 65, 4, 0, 0,
    0xfd, 0xea,
];

const KEEPALIVE: &[u8] = &[0, 19, 4];

const UP: Step = Step::Bytes(&[MARKER, OPEN, MARKER, KEEPALIVE]);

/// Steps, each with what it is answered: a refusal, or the lines and then the frames, and whether the neighbour is stalled.
const ROWS: &[&[(Step, &str)]] = &[
    // Without a configuration there is no neighbour.
    &[
        (Step::Opened, "UnknownNeighbour"),
        (Step::Bytes(&[MARKER]), "NoConnection"),
        (Step::Stall, "UnknownNeighbour"),
        (Step::Operator(SessionAction::Clear), "UnknownNeighbour"),
        (Step::Time(7), ""),
        (Step::Time(6), "TimeBack(7)"),
    ],
    // A neighbour comes, and its session comes up twice, each time with a new number.
    &[
        (Step::Conf(CONF, 1), "connect;applied 1;Ack 1;"),
        (Step::Write(1), "NoConnection"),
        (Step::Opened, ""),
        (Step::Opened, "AlreadyOpen"),
        (UP, "up;Up 1;"),
        (Step::Summary, "row;"),
        (Step::Stall, "stalled;"),
        (Step::Flow, ""),
        (Step::Write(1), "sent 1;"),
        (Step::Lost, "lost;Down 1;"),
        (Step::Lost, "NoConnection"),
        (Step::Opened, ""),
        (UP, "up;Up 2;"),
        (Step::Close(1), ""),
        (Step::Close(2), "last 21;held 2 1;Down 2;"),
        (Step::Operator(SessionAction::Refresh), "NoRefresh"),
    ],
    // An operator takes a session down; a configuration without the neighbour ends it.
    &[
        (Step::Conf(CONF, 1), "connect;applied 1;Ack 1;"),
        (Step::Operator(SessionAction::Down), ""),
        (Step::Opened, "AdminDown"),
        (Step::Operator(SessionAction::Up), "connect;"),
        (Step::Opened, ""),
        (UP, "up;Up 1;"),
        (
            Step::Conf(CONF_ALONE, 2),
            "last 21;down 6 3;applied 2;Down 1;Ack 2;",
        ),
        (Step::Opened, "UnknownNeighbour"),
    ],
    &[
        (Step::Conf(CONF, 1), "connect;applied 1;Ack 1;"),
        (Step::Opened, ""),
        (UP, "up;Up 1;"),
        (Step::Stop, "last 21;down 6 2;Down 1;"),
    ],
];

fn put_line(line: &Line, text: &mut String) -> Result<(), Fail> {
    match line {
        Line::Up(_) => write!(text, "up;")?,
        Line::Connect(_) => write!(text, "connect;")?,
        Line::DownLost(_) => write!(text, "lost;")?,
        Line::Down(_, code, sub) => write!(text, "down {code} {sub};")?,
        Line::DownMaxPrefix { held, most, .. } => write!(text, "held {held} {most};")?,
        Line::Sent(_, bytes) => write!(text, "sent {};", bytes.len())?,
        Line::Last(_, bytes) => write!(text, "last {};", bytes.len())?,
        Line::AppliedSession(generation) => write!(text, "applied {generation};")?,
        Line::Row(Row::Summary { .. }) => write!(text, "row;")?,
        _ => write!(text, "another line;")?,
    }
    Ok(())
}

fn put_frame(frame: &Frame, text: &mut String) -> Result<(), Fail> {
    match frame {
        Frame::Up { session, .. } => write!(text, "Up {session};")?,
        Frame::Down { session } => write!(text, "Down {session};")?,
        Frame::Ack(generation) => write!(text, "Ack {generation};")?,
        _ => write!(text, "another frame;")?,
    }
    Ok(())
}

/// The words for what was reported and written.
fn put_done(done: &Done, text: &mut String) -> Result<(), Fail> {
    for line in &done.lines {
        put_line(line, text)?;
    }
    for (_, frame) in &done.frames {
        put_frame(frame, text)?;
    }
    Ok(())
}

fn joined(alloc: Global, parts: &[&[u8]]) -> Result<Vec<u8>, NoMemory> {
    let mut piece = Vec::new(alloc);
    for part in parts {
        piece.extend_from_slice(part)?;
    }
    Ok(piece)
}

/// Takes the bytes of the neighbour, where another session may come up.
fn hear(core: &mut Session, peer: Addr, piece: &[u8]) -> Result<Done, SessionRefusal> {
    if core.ups() == u32::MAX {
        return Err(SessionRefusal::Spent);
    }
    core.bytes(peer, piece)
}

/// The frames of a configuration; the last of them has the answer.
fn stage(
    alloc: Global,
    core: &mut Session,
    text: &[u8],
    generation: u32,
) -> Result<Done, SessionRefusal> {
    core.frame(Frame::Begin {
        generation,
        length: u32::try_from(text.len()).unwrap_or(0),
    })?;
    core.frame(Frame::Piece(Items::from_slice(alloc, text)?))?;
    core.frame(Frame::Commit(generation))
}

fn take(
    alloc: Global,
    core: &mut Session,
    peer: Addr,
    step: &Step,
) -> Result<Done, SessionRefusal> {
    match step {
        Step::Conf(text, generation) => stage(alloc, core, text, *generation),
        Step::Opened => core.opened(peer, Way::In),
        Step::Bytes(parts) => {
            let piece = joined(alloc, parts)?;
            hear(core, peer, &piece)
        }
        Step::Lost => core.lost(peer),
        Step::Time(moment) => core.time(*moment),
        Step::Write(n) => core.write(peer, *n),
        Step::Stall => core.stall(peer),
        Step::Flow => core.flow(peer),
        Step::Close(session) => core.frame(Frame::Close {
            session: *session,
            code: 6,
            sub: 1,
            held: 2,
            most: 1,
        }),
        Step::Summary => core.command(&CtlCommand::ShowSummary),
        Step::Operator(action) => core.command(&CtlCommand::Neighbour(peer, *action)),
        Step::Stop => core.stop(),
    }
}

/// What a step is answered, in words.
fn answer(alloc: Global, core: &mut Session, peer: Addr, step: &Step) -> Result<String, Fail> {
    let mut text = String::new(alloc);
    match take(alloc, core, peer, step) {
        Ok(done) => put_done(&done, &mut text)?,
        Err(refusal) => write!(text, "{refusal:?}")?,
    }
    if core.stalled(peer) {
        write!(text, "stalled;")?;
    }
    Ok(text)
}

#[test]
fn each_step_is_answered(rt: HostRuntime) -> Result<(), Fail> {
    for (row, steps) in ROWS.iter().enumerate() {
        let peer = Addr::of_v4(0x0a00_0002);
        let mut core = Session::new(rt.alloc())?;
        for (place, (step, wanted)) in steps.iter().enumerate() {
            let found = answer(rt.alloc(), &mut core, peer, step)?;
            assert_eq!(rt; found.as_str(), *wanted, "row {row}, step {place}");
        }
    }
    Ok(())
}
