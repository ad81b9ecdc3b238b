//! Parts of what an attribute field says.

use attr_model::{CommunityList, LargeList, Path, UnknownList};

/// MULTI_EXIT_DISC, LOCAL_PREF and ATOMIC_AGGREGATE.
#[derive(Clone, Copy)]
pub(crate) struct Numbers {
    pub med: Option<u32>,
    pub local_pref: Option<u32>,
    pub atomic: bool,
    /// One of them is malformed.
    pub malformed: bool,
}

/// The path and the aggregator, those of four octets put in their places.
#[derive(Drop)]
pub(crate) struct Paths {
    /// None where AS_PATH is missing or malformed.
    pub path: Option<Path>,
    pub aggregator: Option<(u32, u32)>,
    /// One of the four is malformed.
    pub malformed: bool,
}

/// The lists.
#[derive(Drop)]
pub(crate) struct Lists {
    pub communities: CommunityList,
    pub large: LargeList,
    pub unknown: UnknownList,
    /// One of them is malformed.
    pub malformed: bool,
}
