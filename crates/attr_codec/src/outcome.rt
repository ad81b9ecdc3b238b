use attr_model::Attrs;
use net_base::{Addr, Family, PrefixList};

/// What an attribute field says.
#[derive(Debug, Drop)]
pub struct ReadAttrs {
    /// The attributes of the announced routes, or None where ORIGIN or AS_PATH is missing or malformed. Their hop is that
    /// of NEXT_HOP, otherwise that of MP_REACH_NLRI, otherwise 0.0.0.0.
    pub attrs: Option<Attrs>,
    /// Whether some attribute is malformed in a way that makes the announced prefixes count as withdrawn (RFC 7606
    /// section 2).
    pub withdraw: bool,
    /// NEXT_HOP, where it is there and good.
    pub next_hop: Option<Addr>,
    /// What MP_REACH_NLRI announces, where its family is agreed: the family, the hop and the prefixes.
    pub reach: Option<(Family, Addr, PrefixList)>,
    /// What MP_UNREACH_NLRI withdraws, where its family is agreed.
    pub unreach: Option<(Family, PrefixList)>,
}
