use crate::Text;
use net_base::{Items, Prefix, RoaList};

/// A prefix and the lengths that are meant: the prefixes that it covers with a length from `low` to `high`.
/// Where `low` is the greater, it holds none.
#[derive(Clone, Copy, Debug, PartialEq, Eq, PartialOrd, Ord)]
pub struct PrefixRange {
    pub prefix: Prefix,
    pub low: u8,
    pub high: u8,
}

/// The entries of a prefix-set, ascending and without repeats.
pub type PrefixRangeList = Items<PrefixRange>;

/// AS numbers; those of an as-set ascend without repeats.
pub type AsNumberList = Items<u32>;

/// A `prefix-set`.
#[derive(Clone, Debug, PartialEq, Eq, Drop)]
pub struct PrefixSetConf {
    pub name: Text,
    pub entries: PrefixRangeList,
}

/// Prefix-sets by name.
pub type PrefixSetConfList = Items<PrefixSetConf>;

/// An `as-set`.
#[derive(Clone, Debug, PartialEq, Eq, Drop)]
pub struct AsSetConf {
    pub name: Text,
    pub numbers: AsNumberList,
}

/// As-sets by name.
pub type AsSetConfList = Items<AsSetConf>;

/// An `origin-set`: prefixes with the AS in which their routes begin.
#[derive(Clone, Debug, PartialEq, Eq, Drop)]
pub struct OriginSetConf {
    pub name: Text,
    /// By prefix, greatest length and AS, without repeats.
    pub entries: RoaList,
}

/// Origin-sets by name.
pub type OriginSetConfList = Items<OriginSetConf>;

/// The kinds of sets that a rule can name.
#[derive(Clone, Copy, Debug, PartialEq, Eq)]
pub enum SetKind {
    Prefix,
    As,
    Origin,
}

/// A set of a configuration: its kind, and its place in the list of that kind, counted from 0.
#[derive(Clone, Copy, Debug, PartialEq, Eq)]
pub struct SetId {
    pub kind: SetKind,
    pub at: u32,
}
