//! The configuration of a speaker as a tree, and what a text of the configuration language says.
#![tactic(auto)]

mod conf;
mod draft;
mod members;
mod neighbour;
mod room;
mod rule;
mod sets;
mod text;
mod token;

pub use conf::{Conf, Listen, ListenList, Network, NetworkList, Rib, RibList};
pub use draft::{
    ConditionBlock, ConditionBlockList, Draft, GroupBlock, NeighbourBlock, NeighbourBlockList,
    NeighbourOption, OptionLine, OptionList, PeerList, RuleBlock, SetPlace, Statement,
    StatementLine, StatementList,
};
pub use members::Members;
pub use neighbour::{Neighbour, NeighbourList};
pub use room::{Lists, Room};
pub use rule::{
    Action, Change, CommunityPattern, Condition, ConditionList, Direction, Item, ItemList,
    LargePattern, NextHop, PathPart, Peer, RouteOrigin, Rule, RuleList,
};
pub use sets::{
    AsNumberList, AsSetConf, AsSetConfList, OriginSetConf, OriginSetConfList, PrefixRange,
    PrefixRangeList, PrefixSetConf, PrefixSetConfList, SetId, SetKind,
};
pub use text::Text;
pub use token::{Token, TokenKind, TokenList};
