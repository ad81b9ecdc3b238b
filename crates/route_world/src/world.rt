use attr_model::RouteTable;
use bgp_wire::OpenFacts;
use conf_tree::Conf;
use net_base::{Addr, Items, PrefixList};

/// A session that is up.
#[derive(Drop)]
pub struct Session {
    /// The neighbour's address. No two sessions of a world have the same.
    pub peer: Addr,
    /// What its OPEN said, and what was agreed.
    pub facts: OpenFacts,
    /// The routes that it announced, by prefix (RFC 4271 section 3.2, Adj-RIB-In).
    pub held: RouteTable,
}

/// Sessions, each neighbour once.
pub type SessionList = Items<Session>;

/// Addresses, each with the answer whether it is valid as a next hop, or None where none came yet.
pub type AnswerList = Items<(Addr, Option<bool>)>;

/// What says which next hops are valid.
#[derive(Drop)]
pub enum Hops {
    /// The prefixes of the kernel's routes that aren't BGP's.
    Routed(PrefixList),
    /// The next hops that were asked for, with their answers.
    Answered(AnswerList),
}

/// What a speaker has configured and was told, from which all its tables follow.
#[derive(Drop)]
pub struct World {
    pub conf: Conf,
    pub sessions: SessionList,
    pub hops: Hops,
}
