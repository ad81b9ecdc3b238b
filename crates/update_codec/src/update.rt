use attr_model::Attrs;
use net_base::{Items, PrefixList};

/// Attributes, each with the prefixes that are announced with them.
pub type GroupList = Items<(Attrs, PrefixList)>;

/// What an UPDATE says.
#[derive(Debug, Drop)]
pub struct Update {
    /// The prefixes that are withdrawn, or count as withdrawn, in the order of the message: the field of withdrawn
    /// routes, MP_UNREACH_NLRI, the plain field, MP_REACH_NLRI. Repeated ones stay repeated.
    pub withdrawn: PrefixList,
    /// The groups that are announced: that of the plain field, then that of MP_REACH_NLRI. None is without prefixes.
    pub announced: GroupList,
}
