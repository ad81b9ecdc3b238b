ghost use Rattle.std.specs.Prelude.{◌≡◌};

use crate::{
    AsSetConfList, ItemList, NeighbourList, OriginSetConfList, PrefixSetConfList, RuleList, Text,
};
use net_base::{Addr, Items, Prefix, RoaList};
use std::alloc::Global;

/// A network that the speaker announces.
#[derive(Clone, Debug, PartialEq, Eq, Drop)]
pub struct Network {
    pub prefix: Prefix,
    /// What is set on its route; empty where nothing is.
    pub set: ItemList,
}

/// Networks in the order of their prefixes, no prefix twice.
pub type NetworkList = Items<Network>;

/// An address and a TCP port, from 1 on, where connections are taken.
#[derive(Clone, Copy, Debug, PartialEq, Eq)]
pub struct Listen {
    pub address: Addr,
    pub port: u16,
}

/// Listening addresses in the order of the text, at most 8.
pub type ListenList = Items<Listen>;

/// A RIB beside Loc-RIB.
#[derive(Clone, Debug, PartialEq, Eq, Drop)]
pub struct Rib {
    pub name: Text,
    /// The kernel table of its routes, from 1 to 255, if it has one.
    pub table: Option<u8>,
}

/// The RIBs from number 1 on, at most 15. Loc-RIB is number 0 with kernel table 0, and stands in no list.
pub type RibList = Items<Rib>;

/// A configuration: every value that holds, with the defaults filled in (bgpd.conf(5)).
#[derive(Debug, PartialEq, Eq, Drop)]
pub struct Conf {
    /// The own AS number; 0 in the empty configuration alone.
    pub asn: u32,
    /// The own BGP identifier, an IPv4 address as a number.
    pub router_id: u32,
    /// The hold time in seconds of neighbours that have none of their own: 0, or from 3 on.
    pub hold: u16,
    /// The least hold time in seconds, likewise, from 3 on.
    pub hold_min: u16,
    /// Whether routes go into the kernel tables.
    pub fib_update: bool,
    /// Whether a default route makes a next hop valid.
    pub qualify_default: bool,
    /// Whether MEDs of different neighbour ASes are compared.
    pub med_always: bool,
    /// The path of the control socket.
    pub socket: Text,
    pub listen: ListenList,
    pub ribs: RibList,
    pub prefix_sets: PrefixSetConfList,
    pub as_sets: AsSetConfList,
    pub origin_sets: OriginSetConfList,
    /// The `roa-set`, by prefix, greatest length and AS, without repeats.
    pub roas: RoaList,
    /// The networks by prefix, no prefix twice.
    pub networks: NetworkList,
    /// The neighbours by address, no address twice.
    pub neighbours: NeighbourList,
    pub rules: RuleList,
}

impl Conf {
    ghost use Rattle.conf_tree.specs.Empty.{empty_conf};

    /// The empty configuration, which a speaker has before its first reload.
    pub fn empty(alloc: Global) -> Self
        ensures { result ≡ empty_conf }
    {
        Conf {
            asn: 0,
            router_id: 0,
            hold: 90,
            hold_min: 3,
            fib_update: true,
            qualify_default: false,
            med_always: false,
            socket: Items::new(alloc),
            listen: Items::new(alloc),
            ribs: Items::new(alloc),
            prefix_sets: Items::new(alloc),
            as_sets: Items::new(alloc),
            origin_sets: Items::new(alloc),
            roas: Items::new(alloc),
            networks: Items::new(alloc),
            neighbours: Items::new(alloc),
            rules: Items::new(alloc),
        }
    }
}
