use crate::{Items, Prefix};

/// A route origin authorization: the AS `source` may originate this prefix, and longer ones up to `maxlen`.
/// An AS of 0 authorizes nobody (RFC 6483, section 4).
#[derive(Clone, Copy, Debug, PartialEq, Eq, PartialOrd, Ord, Hash)]
pub struct Roa {
    pub prefix: Prefix,
    pub maxlen: u8,
    pub source: u32,
}

/// Authorizations in the order in which they came.
pub type RoaList = Items<Roa>;

/// What origin validation says of a route (RFC 6811, section 2).
#[derive(Clone, Copy, Debug, PartialEq, Eq, PartialOrd, Ord, Hash)]
pub enum Ovs {
    Valid,
    Invalid,
    NotFound,
}
