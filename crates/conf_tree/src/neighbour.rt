use crate::{ItemList, Text};
use net_base::{Addr, Items};

/// A neighbour with all its options, those of its group and the defaults filled in (bgpd.conf(5), NEIGHBORS AND GROUPS).
#[derive(Clone, Debug, PartialEq, Eq, Drop)]
pub struct Neighbour {
    pub address: Addr,
    /// The name of its group, if it stands in one.
    pub group: Option<Text>,
    /// Its AS number, from 1 on.
    pub remote_as: u32,
    /// The own address of the session.
    pub local_address: Option<Addr>,
    pub description: Option<Text>,
    /// Its TCP port, from 1 on.
    pub port: u16,
    /// Whether the connection is left to the neighbour.
    pub passive: bool,
    /// Whether the session is administratively down.
    pub down: bool,
    /// How many hops away it may be, from 1 on. It is kept, without effect.
    pub multihop: Option<u8>,
    /// The hold time in seconds that is offered: 0, or from 3 on.
    pub hold: u16,
    /// The least hold time in seconds that is taken, from 3 on.
    pub hold_min: u16,
    /// Whether IPv4 unicast is announced.
    pub announce_v4: bool,
    /// Whether IPv6 unicast is announced.
    pub announce_v6: bool,
    /// Whether route refresh is announced (RFC 2918).
    pub announce_refresh: bool,
    /// Whether four-octet AS numbers are announced (RFC 6793).
    pub announce_as_4byte: bool,
    /// The most prefixes that it may announce, from 1 on.
    pub max_prefix: Option<u32>,
    /// The number of its RIB.
    pub rib: u8,
    /// What is set on each route that it sends; empty where nothing is.
    pub set: ItemList,
}

/// Neighbours by address.
pub type NeighbourList = Items<Neighbour>;
