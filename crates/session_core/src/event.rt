//! What happens to one neighbour.

ghost use Rattle.peer_session.specs.Neighbour.{Does};
ghost use Rattle.peer_session.specs.Calls.{IsSame, Refuses};
ghost use Rattle.std.specs.Prelude.{◌≡◌, Some, OnOk};
ghost use Rattle.session_core.specs.declared.event.PeerEvent.TheVariants as peer;
ghost use Rattle.session_core.specs.Events.{CanHappen, action_refusal, event_refusal, happens, operates, unknown_refusal};

use attr_model::Attrs;
use core_msgs::{Done, SessionAction};
use net_base::{NoMemory, PrefixList};
use peer_session::{NeighbourSession, SessionRefusal};

/// What happens to all neighbours.
#[derive(Clone, Copy, Debug, PartialEq, Eq)]
pub(crate) enum AllEvent {
    /// The time is told.
    Deadline,
    /// All sessions end.
    Stop,
}

impl AllEvent {
    /// It happens to one neighbour. Only memory can stop it.
    pub(crate) fn happen(
        self,
        neighbour: &mut NeighbourSession,
        now: u64,
        done: &mut Done,
    ) -> Result<(), NoMemory>
        ensures { OnOk result (Does (happens (peer.All self) now) neighbour.old neighbour.new done.old done.new) }
    {
        match self {
            AllEvent::Deadline => neighbour.time(now, done),
            AllEvent::Stop => neighbour.set_down(true, now, done),
        }
    }
}

/// What happens to a neighbour beside the bytes that it sends.
#[derive(Debug, Drop)]
pub(crate) enum PeerEvent {
    /// A connection stands.
    Opened,
    /// The connection is lost, or couldn't be made.
    Lost,
    /// What happens to all neighbours.
    All(AllEvent),
    /// So many bytes at most are sent.
    Write(usize),
    /// It takes no bytes for now, or takes them again.
    Stall(bool),
    /// An operator does something to its session.
    Operator(SessionAction),
    /// Its session is to end, since so many prefixes are held where so many may be.
    Close {
        held: u64,
        most: u32,
    },
    /// Routes for it, as one UPDATE.
    Routes {
        withdrawn: PrefixList,
        announced: Option<(Attrs, PrefixList)>,
    },
}

impl PeerEvent {
    /// Why it is refused for a neighbour that isn't there. What isn't refused is passed over.
    pub(crate) fn unknown_refusal(&self) -> Option<SessionRefusal>
        ensures { result ≡ unknown_refusal self.now }
    {
        match self {
            PeerEvent::Opened | PeerEvent::Write(_) => Some(SessionRefusal::UnknownNeighbour),
            PeerEvent::Stall(_) | PeerEvent::Operator(_) => Some(SessionRefusal::UnknownNeighbour),
            PeerEvent::Lost => Some(SessionRefusal::NoConnection),
            PeerEvent::All(_) | PeerEvent::Close { .. } | PeerEvent::Routes { .. } => None,
        }
    }

    /// It happens to a neighbour.
    pub(crate) fn happen(
        self,
        neighbour: &mut NeighbourSession,
        now: u64,
        done: &mut Done,
    ) -> Result<(), SessionRefusal>
        requires { CanHappen self }
        ensures ok { OnOk result (Does (happens self now) neighbour.old neighbour.new done.old done.new) }
        ensures refused { Refuses (event_refusal self neighbour.old) (IsSame neighbour.old neighbour.new done.old done.new) result }
    {
        match self {
            PeerEvent::Opened => neighbour.opened(now, done),
            PeerEvent::Lost => neighbour.lost(now, done),
            PeerEvent::All(event) => Ok(event.happen(neighbour, now, done)?),
            PeerEvent::Write(n) => neighbour.write(n, done),
            PeerEvent::Stall(stalled) => neighbour.stall(stalled),
            PeerEvent::Operator(action) => operate(neighbour, action, now, done),
            PeerEvent::Close { held, most } => Ok(neighbour.close(held, most, now, done)?),
            PeerEvent::Routes {
                withdrawn,
                announced,
            } => Ok(neighbour.routes(withdrawn, announced, done)?),
        }
    }
}

fn operate(
    neighbour: &mut NeighbourSession,
    action: SessionAction,
    now: u64,
    done: &mut Done,
) -> Result<(), SessionRefusal>
    ensures ok { OnOk result (Does (operates action now) neighbour.old neighbour.new done.old done.new) }
    ensures refused { Refuses (action_refusal action neighbour.old) (IsSame neighbour.old neighbour.new done.old done.new) result }
{
    match action {
        SessionAction::Up => Ok(neighbour.set_down(false, now, done)?),
        SessionAction::Down => Ok(neighbour.set_down(true, now, done)?),
        SessionAction::Clear => neighbour.clear(now, done),
        SessionAction::Refresh => neighbour.refresh(),
    }
}
