use attr_model::Attrs;
use net_base::PrefixList;

/// An UPDATE that is sent. Its prefixes are of one family.
#[derive(Debug, PartialEq, Eq, Drop)]
pub enum OutUpdate {
    /// These prefixes are withdrawn.
    Withdraw(PrefixList),
    /// These prefixes are announced with the attributes, and are of the family of their hop.
    Announce(Attrs, PrefixList),
}
