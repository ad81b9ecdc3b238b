use crate::{PartName, Row};
use net_base::{Addr, Bytes, ConfFault, Items};

/// Why an event was refused, where no line of a text is at fault.
#[derive(Clone, Copy, Debug, PartialEq, Eq)]
pub enum Refusal {
    /// The address is that of no neighbour.
    UnknownNeighbour,
    /// No RIB has a kernel table of this number.
    UnknownTable,
    /// No RIB has this name.
    UnknownRib,
    /// The neighbour is administratively down.
    AdminDown,
    /// The neighbour has a connection already.
    AlreadyOpen,
    /// The neighbour has no connection.
    NoConnection,
    /// The session isn't established, or route refresh wasn't agreed.
    NoRefresh,
    /// The word of a control command with this number, counted from 1, can't follow those before it.
    BadWord(u32),
    /// The reload of this generation was accepted, and isn't done yet.
    UnderWay(u32),
    /// The moment lies before this one, which was told already.
    TimeBack(u64),
    /// The event, or this form of it, is of the language, and isn't built yet.
    NotBuilt,
    /// Memory ran out while a reload was read. Nothing has changed.
    NoMemory,
}

/// A line of an answer.
#[derive(Debug, Drop)]
pub enum Line {
    /// The session with this neighbour is established.
    Up(Addr),
    /// The session ended with a NOTIFICATION of this code and subcode.
    Down(Addr, u8, u8),
    /// The session ended since the neighbour announced more prefixes than it may: so many were held, so many it may.
    DownMaxPrefix { peer: Addr, held: u64, most: u32 },
    /// The connection was lost.
    DownLost(Addr),
    /// The neighbour sent a NOTIFICATION of this code and subcode.
    DownReceived(Addr, u8, u8),
    /// These bytes were sent to the neighbour.
    Sent(Addr, Bytes),
    /// These bytes are the last of a connection that ends.
    Last(Addr, Bytes),
    /// A connection to the neighbour is to be made.
    Connect(Addr),
    /// The session core took up the configuration of this generation.
    AppliedSession(u32),
    /// The decision core took up the configuration of this generation.
    AppliedDecision(u32),
    /// The reload of this generation is done.
    Reloaded(u32),
    /// A call of the kernel on the table of this number failed.
    KernelLost(u32),
    /// A row of a show.
    Row(Row),
    /// The event was done.
    Ok,
    /// The reload was accepted, and its configuration has this generation.
    OkGeneration(u32),
    /// The text of a reload has a fault.
    RefusedText(ConfFault),
    /// The event was refused.
    Refused(Refusal),
    /// Nothing is left to do.
    Quiet,
    /// Nothing is left to do but for these neighbours, which are stalled.
    QuietExcept(AddrList),
    /// Something is left to do, this part first.
    Pending(PartName),
}

/// Addresses in order.
pub type AddrList = Items<Addr>;

/// Lines in the order in which they are told.
pub type LineList = Items<Line>;

/// What an event is answered: report lines, and then the one line that ends the answer.
#[derive(Debug, Drop)]
pub struct Answer {
    pub lines: LineList,
    pub last: Line,
}
