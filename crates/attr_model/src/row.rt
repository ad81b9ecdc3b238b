use crate::Attrs;
use net_base::{Addr, Items, Prefix};

/// What became of a route.
#[derive(Clone, Copy, Debug, PartialEq, Eq, Hash)]
pub enum Flag {
    /// The best of its prefix.
    Best,
    /// It may be chosen, and another one is better.
    Eligible,
    /// It may not be chosen.
    Not,
    /// It is shown as it was received or sent, whatever the choice.
    Held,
}

/// A route as it is shown.
#[derive(Clone, Debug, PartialEq, Eq, Hash, Drop)]
pub struct RouteRow {
    pub flag: Flag,
    pub prefix: Prefix,
    /// The neighbour that the route came from, or None for a network of this speaker.
    pub who: Option<Addr>,
    pub attrs: Attrs,
}

/// Routes in the order in which they are shown.
pub type RouteList = Items<RouteRow>;
