use conf_tree::Text;
use net_base::Addr;

/// What is done to the session of a neighbour.
#[derive(Clone, Copy, Debug, PartialEq, Eq)]
pub enum SessionAction {
    /// It is no longer administratively down.
    Up,
    /// It ends, and is administratively down.
    Down,
    /// It ends, and may come again.
    Clear,
    /// The neighbour is asked for its routes (RFC 2918).
    Refresh,
}

/// A control command (bgpctl(8)).
#[derive(Debug, Drop)]
pub enum CtlCommand {
    /// `show summary`: each neighbour in a line.
    ShowSummary,
    /// `show neighbor [PEER]`: the sessions, or that of one neighbour.
    ShowNeighbour(Option<Addr>),
    /// `show sets`.
    ShowSets,
    /// `show tables`: the kernel tables.
    ShowTables,
    /// `show rib [table NAME]`: the routes of Loc-RIB, or of the RIB of this name.
    ShowRib(Option<Text>),
    /// `show rib in`: the routes that the neighbours announced.
    ShowRibIn,
    /// `show rib out`: the routes that the neighbours were told.
    ShowRibOut,
    /// `show rib memory`: how many different attributes are held.
    ShowRibMemory,
    /// `show fib [table N]`: the routes of the coupled kernel tables, or of one.
    ShowFib(Option<u32>),
    /// `show nexthop`: the next hops.
    ShowNexthop,
    /// `fib [table N] couple|decouple`: whether routes go into the kernel tables, or into one.
    Couple(Option<u32>, bool),
    /// `neighbor PEER up|down|clear|refresh`.
    Neighbour(Addr, SessionAction),
}
