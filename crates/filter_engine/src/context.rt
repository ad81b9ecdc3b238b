use conf_tree::Text;
use net_base::{Addr, Prefix};

/// For which neighbour, RIB and prefix rules are evaluated.
#[derive(Clone, Debug, PartialEq, Eq, Drop)]
pub struct Context {
    /// Whether the route goes to the neighbour; otherwise it comes from there.
    pub to: bool,
    /// The number of the RIB.
    pub rib: u8,
    /// The address of the neighbour.
    pub peer: Addr,
    /// The AS of the neighbour.
    pub peer_as: u32,
    /// The group of the neighbour, if it stands in one.
    pub group: Option<Text>,
    /// Whether the session is external.
    pub external: bool,
    /// The own AS.
    pub own_as: u32,
    /// The prefix of the route.
    pub prefix: Prefix,
}
