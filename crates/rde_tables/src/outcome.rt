use attr_model::Attrs;
use net_base::{Addr, Items, Prefix, PrefixList};

/// What a refresh changed.
#[derive(Clone, Copy, Debug, PartialEq, Eq)]
pub struct Outcome {
    /// Whether another candidate is the best, or the best has other attributes.
    pub changed: bool,
    /// The next hop of the best, where that came from a neighbour.
    pub hop: Option<Addr>,
}

/// What a session is to be told of a queued prefix.
#[derive(Drop)]
pub struct Want {
    /// The prefix.
    pub prefix: Prefix,
    /// The attributes that it is to be announced with, or None where it is to be withdrawn.
    pub attrs: Option<Attrs>,
}

/// What a session is to be told, in order of prefix.
pub type WantList = Items<Want>;

/// A message to a session. Its prefixes are of one family, in order.
#[derive(Drop)]
pub enum Told {
    /// These prefixes are withdrawn.
    Withdraw(PrefixList),
    /// These prefixes are announced with the attributes.
    Announce(Attrs, PrefixList),
}
