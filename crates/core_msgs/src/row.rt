use attr_model::RouteRow;
use conf_tree::{SetKind, Text};
use net_base::{Addr, Items, Prefix};

/// The state of a session (RFC 4271 section 8.2.2), and Down for one that is administratively down.
#[derive(Clone, Copy, Debug, PartialEq, Eq)]
pub enum State {
    Down,
    Idle,
    Connect,
    Active,
    OpenSent,
    OpenConfirm,
    Established,
}

/// Whether routes go into a kernel table.
#[derive(Clone, Copy, Debug, PartialEq, Eq)]
pub enum Coupling {
    /// They do.
    Coupled,
    /// They don't.
    Decoupled,
    /// They did, until a call of the kernel failed.
    Lost,
}

/// A row of a show.
#[derive(Debug, Drop)]
pub enum Row {
    /// A route of a RIB, or one that a neighbour announced.
    Route(RouteRow),
    /// A route as a neighbour was told it.
    Told(RouteRow),
    /// A neighbour in one line.
    Summary {
        peer: Addr,
        /// Its AS number.
        asn: u32,
        state: State,
    },
    /// A neighbour with its session.
    Neighbour {
        peer: Addr,
        /// Its AS number.
        asn: u32,
        state: State,
        /// The hold time in seconds, as agreed where a connection agreed one and as configured otherwise.
        hold: u16,
        /// How many bytes wait to be sent.
        outbox: u64,
    },
    /// A set of the configuration.
    Set {
        kind: SetKind,
        name: Text,
        /// How many entries it has.
        count: u32,
    },
    /// The `roa-set`, by the number of its entries.
    RoaSet(u32),
    /// A kernel table.
    KernelTable {
        number: u32,
        /// The name of the RIB whose routes it takes.
        rib: Text,
        state: Coupling,
    },
    /// The table of which the rows behind this one are.
    FibTable(u32),
    /// A route of a kernel table: its next hop.
    FibRow(Prefix, Addr),
    /// A next hop, and whether it is valid.
    Nexthop(Addr, bool),
    /// How many different attributes are held.
    Distinct(u64),
}

/// Rows in the order in which they are shown.
pub type RowList = Items<Row>;

/// What the decision core tells rows of.
#[derive(Clone, Copy, Debug, PartialEq, Eq)]
pub enum Table {
    /// The RIB of this number.
    Rib(u8),
    /// The routes that the neighbours announced.
    Held,
    /// The routes that the neighbours were told.
    Told,
    /// The next hops of the candidates.
    Nexthops,
    /// How many different attributes are held.
    Distinct,
}
