use crate::{PrefixRange, SetId, Text};
use net_base::{Addr, Family, Items, Ovs};

/// What a filter rule does with a route that matches it (bgpd.conf(5), FILTER).
#[derive(Clone, Copy, Debug, PartialEq, Eq)]
pub enum Action {
    /// The route passes, unless a later rule denies it.
    Allow,
    /// The route is stopped, unless a later rule allows it.
    Deny,
    /// Only the rule's set applies; it decides nothing.
    Match,
}

/// Which way the routes of a rule go.
#[derive(Clone, Copy, Debug, PartialEq, Eq)]
pub enum Direction {
    /// Routes that neighbours send.
    From,
    /// Routes that are sent to neighbours.
    To,
}

/// The neighbours that a rule speaks of.
#[derive(Clone, Debug, PartialEq, Eq, Drop)]
pub enum Peer {
    Any,
    /// Neighbours of another AS.
    Ebgp,
    /// Neighbours of the own AS.
    Ibgp,
    /// The neighbour of this address.
    Address(Addr),
    /// The neighbours of the group of this name.
    Group(Text),
    /// The neighbours of this AS.
    As(u32),
}

/// Which numbers of an AS path a condition looks at.
#[derive(Clone, Copy, Debug, PartialEq, Eq)]
pub enum PathPart {
    /// `AS`: each number.
    Any,
    /// `source-as`: the last number.
    Source,
    /// `transit-as`: each number but the last.
    Transit,
    /// `peer-as`: the first number.
    Peer,
}

/// Communities (RFC 1997) by their two halves; a half that is None agrees with every number.
#[derive(Clone, Copy, Debug, PartialEq, Eq)]
pub struct CommunityPattern {
    pub high: Option<u16>,
    pub low: Option<u16>,
}

/// Large communities (RFC 8092) by their three parts; a part that is None agrees with every number.
#[derive(Clone, Copy, Debug, PartialEq, Eq)]
pub struct LargePattern {
    pub global: Option<u32>,
    pub first: Option<u32>,
    pub second: Option<u32>,
}

/// One condition of a rule, all of which must hold.
#[derive(Clone, Copy, Debug, PartialEq, Eq)]
pub enum Condition {
    /// The prefix is one of these.
    Prefix(PrefixRange),
    /// The prefix is in this prefix-set.
    PrefixSet(SetId),
    /// The prefix is in this prefix-set, each entry with all longer prefixes below it.
    PrefixSetOrLonger(SetId),
    /// The number stands in that part of the path.
    PathNumber(PathPart, u32),
    /// Some number of this as-set stands in that part of the path.
    PathSet(PathPart, SetId),
    /// An entry of this origin-set matches the route.
    OriginSet(SetId),
    /// Origin validation against the roa-set says so (RFC 6811).
    Ovs(Ovs),
    /// Some community agrees.
    Community(CommunityPattern),
    /// Some large community agrees.
    LargeCommunity(LargePattern),
    /// The path is longer than this, from 0 to 1023.
    MaxAsLen(u16),
    /// The next hop is this address.
    NextHop(Addr),
    /// The prefix is of this family: `inet` or `inet6`.
    Family(Family),
}

/// Conditions in the order of the text, at most 16.
pub type ConditionList = Items<Condition>;

/// How a number of a route is changed.
#[derive(Clone, Copy, Debug, PartialEq, Eq)]
pub enum Change {
    /// It becomes this number.
    Set(u32),
    /// It rises by this number, and stops at 4294967295.
    Add(u32),
    /// It falls by this number, and stops at 0.
    Subtract(u32),
}

/// ORIGIN (RFC 4271 section 5.1.1).
#[derive(Clone, Copy, Debug, PartialEq, Eq)]
pub enum RouteOrigin {
    Igp,
    Egp,
    Incomplete,
}

/// The next hop that an item asks for.
#[derive(Clone, Copy, Debug, PartialEq, Eq)]
pub enum NextHop {
    Address(Addr),
    /// `self`: the own address of the session.
    Own,
    /// `no-modify`: the next hop stays as it is.
    NoModify,
}

/// One change of a `set` (bgpd.conf(5), ATTRIBUTE SET).
#[derive(Clone, Copy, Debug, PartialEq, Eq)]
pub enum Item {
    LocalPref(Change),
    /// `med`, or `metric`.
    Med(Change),
    Weight(Change),
    /// The own AS in front of the path, 1 to 128 times.
    PrependSelf(u8),
    /// The neighbour's AS in front of the path, 1 to 128 times.
    PrependNeighbor(u8),
    Origin(RouteOrigin),
    /// Adds a community, given as one number.
    Community(u32),
    /// Takes away each community that agrees.
    DeleteCommunity(CommunityPattern),
    /// Adds a large community.
    LargeCommunity(u32, u32, u32),
    /// Takes away each large community that agrees.
    DeleteLargeCommunity(LargePattern),
    NextHop(NextHop),
}

/// Items in the order of the text, at most 16. Where a set may be missing, no items mean that there is none.
pub type ItemList = Items<Item>;

/// One filter rule, for one peer.
#[derive(Clone, Debug, PartialEq, Eq, Drop)]
pub struct Rule {
    pub action: Action,
    /// Whether the rule ends the evaluation where it matches.
    pub quick: bool,
    /// The number of the only RIB that the rule holds for; `from` rules alone have one.
    pub rib: Option<u8>,
    pub direction: Direction,
    pub peer: Peer,
    pub conditions: ConditionList,
    pub set: ItemList,
}

/// Rules in the order in which they are read, at most 4096.
pub type RuleList = Items<Rule>;
