// The connections of the peers and of the control socket.
ghost use Rattle.std.specs.Prelude.{◌≡◌, ◌≤◌, ℕ, Bool, true, false, List, Option, None, Some, length, take, is_ok, OnOk, OnErr};
ghost use Rattle.net_base.specs.declared.addr.Addr.{Addr};
ghost use Rattle.io_edge.specs.declared.net.NetCall.{NetCall};
ghost use Rattle.io_edge.specs.declared.net.NetCall.TheVariants.{Listen, Connect, Write, WriteLast, Reply};
ghost use Rattle.io_edge.specs.Faults.{CountsFailure};
ghost use Rattle.io_edge.specs.Told.{StillTells};
ghost use Rattle.io_edge.specs.Net.{SetsHeld, AnswersNext, NotesNext, CountsNext};

use crate::Failed;
pub use memory::{EventList, MemoryNet, NetRecord};
use net_base::{Addr, Bytes, Way};
use std::alloc::{AllocError, Global};
use thiserror::Error;

mod memory;

/// What came from the net. Bytes are 1 to 16384 in number.
#[derive(Debug, Drop)]
pub enum NetEvent {
    /// A connection with this peer was opened, by the peer or by this speaker.
    Opened(Addr, Way),
    /// The peer sent these bytes.
    Data(Addr, Bytes),
    /// The connection with this peer is gone, or none came about.
    Lost(Addr),
    /// A control connection sent these bytes. No second connection gets its number.
    Words(u32, Bytes),
    /// Nothing came.
    Nothing,
}

/// Why no event was answered.
#[derive(Clone, Copy, Debug, PartialEq, Eq, Error)]
pub enum NetFault {
    /// A listen or an accept failed.
    #[error("the outside failed")]
    Failed,
    /// Memory was refused.
    #[error("out of memory")]
    NoMemory,
}

impl From<AllocError> for NetFault {
    ghost use Rattle.io_edge.specs.declared.net.NetFault.TheVariants.{NoMemory};

    ghost from_gives = { λ _ fault. fault ≡ NoMemory };

    fn from(_: AllocError) -> Self {
        NetFault::NoMemory
    }
}

/// A call of the net with what it was handed and what it answered.
#[derive(Debug, Drop)]
pub enum NetCall {
    /// The address, the port, and whether it went well.
    Listen(Addr, u16, bool),
    Connect(Addr, u16),
    Next(Result<NetEvent, NetFault>),
    /// The bytes that were taken.
    Write(Addr, Bytes),
    WriteLast(Addr, Bytes),
    Reply(u32, Bytes),
}

/// The net: connections with peers, at most one for each address, and control connections, by number.
///
/// A further connection of an address is closed without an event. A lost connection is an event and no fault.
pub trait PeerNet {
    /// Whether a connection with the peer is held.
    ghost held: { Self → Addr → Bool };

    /// All calls in order, where they are told; `None` claims nothing.
    ghost calls: { Self → Option (List NetCall) };

    /// How many faults there were. The count stands still at the last value of a u64.
    ghost faults: { Self → ℕ };

    /// Listens for connections. Failed comes only where the count of faults rose.
    fn listen(&mut self, addr: Addr, port: u16) -> Result<(), Failed>
        ensures held { held self.new ≡ held self.old }
        ensures calls { StillTells (calls self.old) (calls self.new) (Listen addr port (is_ok result)) }
        ensures count { CountsFailure (faults self.old) (faults self.new) result };

    /// Begins to open a connection. Where it comes to none, a Lost of its address comes; where one of that address is
    /// held, nothing comes.
    fn connect(&mut self, peer: Addr, port: u16)
        ensures held { held self.new ≡ held self.old }
        ensures calls { StillTells (calls self.old) (calls self.new) (Connect peer port) }
        ensures count { faults self.new ≡ faults self.old };

    /// The next event. Failed comes only where the count of faults rose, and says that a listen or an accept failed.
    /// After NoMemory nothing has changed.
    fn next(&mut self, alloc: Global) -> Result<NetEvent, NetFault>
        ensures event { AnswersNext ⟦<Addr as Ord>⟧.cmp (held self.old) (held self.new) result }
        ensures calls { NotesNext (calls self.old) (calls self.new) result }
        ensures count { CountsNext (faults self.old) (faults self.new) result };

    /// Writes to the peer, and answers how many first bytes were taken.
    fn write(&mut self, peer: Addr, bytes: &[u8]) -> usize
        ensures within { result ≤ length bytes.now }
        ensures held { held self.new ≡ held self.old }
        ensures calls { StillTells (calls self.old) (calls self.new) (Write peer (take result bytes.now)) }
        ensures count { faults self.new ≡ faults self.old };

    /// Writes what it can to the peer and closes the connection. No event of it comes afterwards.
    fn write_last(&mut self, peer: Addr, bytes: &[u8])
        ensures held { SetsHeld ⟦<Addr as Ord>⟧.cmp (held self.old) (held self.new) peer false }
        ensures calls { StillTells (calls self.old) (calls self.new) (WriteLast peer bytes.now) }
        ensures count { faults self.new ≡ faults self.old };

    /// Writes to the control connection of that number.
    fn reply(&mut self, conn: u32, bytes: &[u8])
        ensures held { held self.new ≡ held self.old }
        ensures calls { StillTells (calls self.old) (calls self.new) (Reply conn bytes.now) }
        ensures count { faults self.new ≡ faults self.old };

    /// The count of faults.
    fn faults(&self) -> u64
        ensures { result ≡ faults self.now };
}
