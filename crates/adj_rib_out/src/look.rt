use attr_model::AttrRef;
use net_base::{Items, Prefix, PrefixList};

/// What a session is to be told of a queued prefix.
#[derive(Drop)]
pub struct Look {
    /// The prefix.
    pub prefix: Prefix,
    /// The attributes that it is to be announced with, or None where it is to be withdrawn.
    pub wanted: Option<AttrRef>,
}

/// Looks in order of prefix.
pub type LookList = Items<Look>;

/// The message that a build made. Its prefixes are of one family, in order.
#[derive(Drop)]
pub enum Built {
    /// These prefixes are withdrawn.
    Withdraw(PrefixList),
    /// These prefixes are announced with the attributes, which are a use of its own.
    Announce(AttrRef, PrefixList),
}
