ghost use Rattle.std.specs.Prelude.{◌≡◌};

use crate::Path;
use net_base::{Addr, Bytes, Items, NoMemory};

/// Communities (RFC 1997), each as one number.
pub type CommunityList = Items<u32>;

/// Large communities (RFC 8092): the global administrator, and two numbers of its own.
pub type LargeList = Items<(u32, u32, u32)>;

/// Attributes of types that are not known here, by type, each with its value.
pub type UnknownList = Items<(u8, Bytes)>;

/// The path attributes of a route (RFC 4271 section 4.3).
#[derive(Debug, PartialEq, Eq, Hash, Drop)]
pub struct Attrs {
    /// ORIGIN: 0 for IGP, 1 for EGP, 2 for INCOMPLETE.
    pub origin: u8,
    /// AS_PATH.
    pub path: Path,
    /// The next hop, of NEXT_HOP or of MP_REACH_NLRI.
    pub hop: Addr,
    /// MULTI_EXIT_DISC, where it is there.
    pub med: Option<u32>,
    /// LOCAL_PREF, where it is there.
    pub local_pref: Option<u32>,
    /// Whether ATOMIC_AGGREGATE is there.
    pub atomic: bool,
    /// AGGREGATOR, where it is there: the AS number, and the address of the speaker as a number.
    pub aggregator: Option<(u32, u32)>,
    /// COMMUNITIES, ascending and without repeats; an empty list is no attribute.
    pub communities: CommunityList,
    /// LARGE_COMMUNITY, ascending and without repeats; an empty list is no attribute.
    pub large: LargeList,
    /// The transitive attributes of unknown types, ascending by type.
    pub unknown: UnknownList,
    /// The partial bits as they came: 1 for AGGREGATOR, 2 for COMMUNITIES and 4 for LARGE_COMMUNITY, each
    /// only where that attribute is there.
    pub partial: u8,
    /// A preference of this speaker alone, which is never sent.
    pub weight: u32,
}

/// Equal attributes. It needs memory.
impl Clone for Attrs {
    ghost is_clone = { λ attrs copy. copy ≡ attrs };

    fn clone(&self) -> Result<Self, NoMemory> {
        Ok(Attrs {
            origin: self.origin,
            path: self.path.clone()?,
            hop: self.hop,
            med: self.med,
            local_pref: self.local_pref,
            atomic: self.atomic,
            aggregator: self.aggregator,
            communities: self.communities.clone()?,
            large: self.large.clone()?,
            unknown: self.unknown.clone()?,
            partial: self.partial,
            weight: self.weight,
        })
    }
}
