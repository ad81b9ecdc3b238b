use conf_tree::Text;
use net_base::Addr;

/// The three cores of the speaker.
#[derive(Clone, Copy, Debug, PartialEq, Eq)]
pub enum Core {
    /// The parent: configurations, kernel routes and kernel tables.
    Parent,
    /// The session core: the connections of the neighbours.
    Session,
    /// The decision core: routes, policy and the choice.
    Decision,
}

/// A link between two cores, named by its ends: from the first to the second.
#[derive(Clone, Copy, Debug, PartialEq, Eq)]
pub enum LinkName {
    /// From the parent to the session core.
    Ps,
    /// From the session core to the parent.
    Sp,
    /// From the parent to the decision core.
    Pr,
    /// From the decision core to the parent.
    Rp,
    /// From the session core to the decision core.
    Sr,
    /// From the decision core to the session core.
    Rs,
}

/// A part of the speaker that has something to do.
#[derive(Clone, Copy, Debug, PartialEq, Eq)]
pub enum Part {
    /// Bytes stand in this link or in its reader.
    Link(LinkName),
    /// A reload is accepted, and isn't done yet.
    Reload,
    /// A prefix is marked in the RIB of this number.
    Rib(u8),
    /// The kernel table of this number has a call to make.
    Kernel(u32),
    /// A prefix is queued for the session of this neighbour.
    Queue(Addr),
    /// Bytes wait to be sent to this neighbour.
    Outbox(Addr),
}

/// A part as a line tells it: a RIB by its name.
#[derive(Debug, Drop)]
pub enum PartName {
    /// Bytes stand in this link or in its reader.
    Link(LinkName),
    /// A reload is accepted, and isn't done yet.
    Reload,
    /// A prefix is marked in the RIB of this name.
    Rib(Text),
    /// The kernel table of this number has a call to make.
    Kernel(u32),
    /// A prefix is queued for the session of this neighbour.
    Queue(Addr),
    /// Bytes wait to be sent to this neighbour.
    Outbox(Addr),
}
