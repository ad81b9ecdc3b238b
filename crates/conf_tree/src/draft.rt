use crate::{
    Action, AsNumberList, CommunityPattern, Direction, ItemList, LargePattern, Listen, PathPart,
    Peer, PrefixRange, PrefixRangeList, Text,
};
use net_base::{Addr, Family, Items, Ovs, Prefix, RoaList};

/// One option of a neighbour or a group (bgpd.conf(5), NEIGHBORS AND GROUPS), as it is written.
#[derive(Clone, Debug, PartialEq, Eq, Drop)]
pub enum NeighbourOption {
    RemoteAs(u32),
    LocalAddress(Addr),
    Description(Text),
    Port(u16),
    Passive,
    Down,
    Multihop(u8),
    /// `holdtime N`.
    Hold(u16),
    /// `holdtime min N`.
    HoldMin(u16),
    /// `announce IPv4` or `announce IPv6`: whether unicast of that family is announced.
    Announce(Family, bool),
    /// `announce refresh`.
    AnnounceRefresh(bool),
    /// `announce as-4byte`.
    AnnounceAs4Byte(bool),
    MaxPrefix(u32),
    /// `rib NAME`.
    Rib(Text),
    Set(ItemList),
}

/// An option, and the line on which it begins.
#[derive(Clone, Debug, PartialEq, Eq, Drop)]
pub struct OptionLine {
    pub line: u32,
    pub option: NeighbourOption,
}

/// Options in the order of the text.
pub type OptionList = Items<OptionLine>;

/// A `neighbor` block, as it is written.
#[derive(Clone, Debug, PartialEq, Eq, Drop)]
pub struct NeighbourBlock {
    /// The line of the word `neighbor`.
    pub line: u32,
    pub address: Addr,
    pub options: OptionList,
}

/// Blocks in the order of the text.
pub type NeighbourBlockList = Items<NeighbourBlock>;

/// A `group` block, as it is written.
#[derive(Clone, Debug, PartialEq, Eq, Drop)]
pub struct GroupBlock {
    pub name: Text,
    pub options: OptionList,
    pub neighbours: NeighbourBlockList,
}

/// One condition of a rule as it is written: sets by name, and a brace list as the list of its members.
#[derive(Clone, Debug, PartialEq, Eq, Drop)]
pub enum ConditionBlock {
    /// `prefix` with one or several of them.
    Prefixes(PrefixRangeList),
    /// `prefix-set NAME`.
    PrefixSet(Text),
    /// `prefix-set NAME or-longer`.
    PrefixSetOrLonger(Text),
    /// `AS` and its like with one or several numbers.
    PathNumbers(PathPart, AsNumberList),
    /// `AS as-set NAME` and its like.
    PathSet(PathPart, Text),
    /// `origin-set NAME`.
    OriginSet(Text),
    Ovs(Ovs),
    Community(CommunityPattern),
    LargeCommunity(LargePattern),
    MaxAsLen(u16),
    NextHop(Addr),
    Family(Family),
}

/// Conditions in the order of the text.
pub type ConditionBlockList = Items<ConditionBlock>;

/// Peers in the order of the text.
pub type PeerList = Items<Peer>;

/// Where a `set` stands.
#[derive(Clone, Copy, Debug, PartialEq, Eq)]
pub enum SetPlace {
    FromRule,
    ToRule,
    /// Among the options of a neighbour or a group.
    Neighbour,
    Network,
}

/// A rule as it is written. It stands for one rule for each choice of members of its lists.
#[derive(Clone, Debug, PartialEq, Eq, Drop)]
pub struct RuleBlock {
    pub action: Action,
    pub quick: bool,
    /// The name of the only RIB that the rule holds for; `from` rules alone have one.
    pub rib: Option<Text>,
    pub direction: Direction,
    pub peers: PeerList,
    pub conditions: ConditionBlockList,
    pub set: ItemList,
}

/// One statement of a configuration text (bgpd.conf(5)), as it is written.
#[derive(Clone, Debug, PartialEq, Eq, Drop)]
pub enum Statement {
    /// `AS N`: the own AS number, from 1 on.
    As(u32),
    /// `router-id A`: the own BGP identifier, an IPv4 address as a number.
    RouterId(u32),
    /// `holdtime N`, in seconds.
    Hold(u16),
    /// `holdtime min N`, in seconds.
    HoldMin(u16),
    /// `fib-update yes` or `fib-update no`.
    FibUpdate(bool),
    /// `nexthop qualify via default`.
    QualifyDefault,
    /// `rde med compare always`, which is true, or `rde med compare strict`.
    MedCompare(bool),
    /// `socket "PATH"`.
    Socket(Text),
    /// `listen on A port N`.
    Listen(Listen),
    /// `rde rib NAME`, with its kernel table where `rtable N` stands behind it.
    Rib(Text, Option<u8>),
    PrefixSet(Text, PrefixRangeList),
    AsSet(Text, AsNumberList),
    OriginSet(Text, RoaList),
    RoaSet(RoaList),
    /// `network P`, with what is set on its route.
    Network(Prefix, ItemList),
    Neighbour(NeighbourBlock),
    Group(GroupBlock),
    Rule(RuleBlock),
}

/// A statement, and the line on which it begins.
#[derive(Clone, Debug, PartialEq, Eq, Drop)]
pub struct StatementLine {
    pub line: u32,
    pub statement: Statement,
}

/// Statements in the order of the text.
pub type StatementList = Items<StatementLine>;

/// A configuration as it is written, before names are looked up and groups and brace lists are expanded.
#[derive(Clone, Debug, PartialEq, Eq, Drop)]
pub struct Draft {
    pub statements: StatementList,
}
