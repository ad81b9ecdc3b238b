//! The rows and frames with which the session core answers control commands by itself.

ghost use Rattle.std.specs.Prelude.{◌≡◌, ◌++◌, ◌∷◌, [], OnOk};
ghost use Rattle.peer_session.specs.Calls.{Refuses};
ghost use Rattle.session_core.specs.Shows.{couple_frames, neighbour_row, rib_refusal, shown_state, summary_row, table_refusal};

use conf_shows::{couple_all, has_rib, has_table, push_couple};
use conf_tree::{Conf, Text};
use core_msgs::{Line, LineList, Row, SendList, State};
use net_base::{Addr, NoMemory};
use peer_session::{NeighbourSession, SessionRefusal};

/// Refuses a number that no kernel table of the configuration has.
pub(crate) fn refuse_table(conf: &Conf, table: Option<u32>) -> Result<(), SessionRefusal>
    ensures { Refuses (table_refusal conf.now table) (Unit {0}) result }
{
    match table {
        Some(table) if !has_table(conf, table) => Err(SessionRefusal::UnknownTable),
        _ => Ok(()),
    }
}

/// Refuses a name that no RIB of the configuration has.
pub(crate) fn refuse_rib(conf: &Conf, name: &Option<Text>) -> Result<(), SessionRefusal>
    ensures { Refuses (rib_refusal conf.now name.now) (Unit {0}) result }
{
    match name {
        Some(name) if !has_rib(conf, name) => Err(SessionRefusal::UnknownRib),
        _ => Ok(()),
    }
}

/// Writes a frame for a kernel table, or for each of the configuration by number, that couples or decouples it.
pub(crate) fn couple(
    conf: &Conf,
    table: Option<u32>,
    on: bool,
    frames: &mut SendList,
) -> Result<(), SessionRefusal>
    ensures ok { OnOk result (frames.new ≡ frames.old ++ couple_frames conf.now table on) }
    ensures refused { Refuses (table_refusal conf.now table) (frames.new ≡ frames.old) result }
{
    refuse_table(conf, table)?;
    match table {
        Some(table) => Ok(push_couple(table, on, frames)?),
        None => Ok(couple_all(conf, on, frames)?),
    }
}

/// A neighbour in one line: its AS number and the state of its session.
pub(crate) fn push_summary(
    peer: Addr,
    neighbour: &NeighbourSession,
    lines: &mut LineList,
) -> Result<(), NoMemory>
    ensures { OnOk result (lines.new ≡ lines.old ++ summary_row (peer, neighbour.now) ∷ []) }
{
    let row = Row::Summary {
        peer,
        asn: neighbour.asn(),
        state: state_of(neighbour),
    };
    lines.push(Line::Row(row))
}

/// The same with its hold time and the length of its outbox.
pub(crate) fn push_row(neighbour: &NeighbourSession, lines: &mut LineList) -> Result<(), NoMemory>
    ensures { OnOk result (lines.new ≡ lines.old ++ neighbour_row neighbour.now ∷ []) }
{
    let row = Row::Neighbour {
        peer: neighbour.peer(),
        asn: neighbour.asn(),
        state: state_of(neighbour),
        hold: neighbour.hold(),
        outbox: neighbour.outbox().len() as u64,
    };
    lines.push(Line::Row(row))
}

fn state_of(neighbour: &NeighbourSession) -> State
    ensures { result ≡ shown_state neighbour.now.fsm.state }
{
    match neighbour.state() {
        session_fsm::State::Down => State::Down,
        session_fsm::State::Idle => State::Idle,
        session_fsm::State::Connect => State::Connect,
        session_fsm::State::Active => State::Active,
        session_fsm::State::OpenSent => State::OpenSent,
        session_fsm::State::OpenConfirm => State::OpenConfirm,
        session_fsm::State::Established => State::Established,
    }
}
