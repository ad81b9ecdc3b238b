use attr_model::Attrs;
use net_base::Addr;

/// The next hop that rules chose for a route.
#[derive(Clone, Copy, Debug, PartialEq, Eq)]
pub enum Hop {
    /// None was chosen.
    Unset,
    /// The own address of the session.
    SelfHop,
    /// The next hop stays as it is.
    NoModify,
    /// This address.
    Given(Addr),
}

/// What rules decided of a route.
#[derive(Debug, PartialEq, Eq, Drop)]
pub enum Verdict {
    /// The route doesn't pass.
    Deny,
    /// It passes with the attributes that it had.
    Same(Hop),
    /// It passes with these attributes, which are others.
    Changed(Attrs, Hop),
}
