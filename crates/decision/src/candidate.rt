use attr_model::{AttrRef, Attrs};
use net_base::{Addr, Items};

/// Where a route came from.
#[derive(Clone, Copy, Debug, PartialEq, Eq, Hash)]
pub enum Origin {
    /// A network of this speaker.
    Local,
    /// The external neighbour with this address.
    External(Addr),
    /// The internal neighbour with this address.
    Internal(Addr),
}

/// A route to a prefix, as it stands for the choice. Two of one table of attributes are equal where all their parts are,
/// the attributes by number.
#[derive(Debug, PartialEq, Eq, Hash, Drop)]
pub struct Candidate {
    /// Where it came from. No two candidates of one prefix have the same.
    pub from: Origin,
    /// Its attributes behind import.
    pub attrs: AttrRef,
    /// Whether it may be chosen at all.
    pub eligible: bool,
    /// The BGP identifier of its neighbour, or the own router-id for a network.
    pub bgp_id: u32,
    /// The own AS number, which stands for the neighbour AS where the path is empty.
    pub own_as: u32,
}

/// A candidate of a prefix whose attributes have no number yet.
#[derive(Drop)]
pub struct Found {
    /// Where it came from.
    pub from: Origin,
    /// Its attributes behind import.
    pub attrs: Attrs,
    /// Whether it may be chosen.
    pub eligible: bool,
    /// The BGP identifier of its neighbour, or the own router-id for a network.
    pub bgp_id: u32,
    /// The own AS number.
    pub own_as: u32,
}

/// The candidates of one prefix in their order.
pub type FoundList = Items<Found>;
