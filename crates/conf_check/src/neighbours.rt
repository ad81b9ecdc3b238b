//! The flat neighbours: options with their defaults, RIBs by number, in the order of the addresses.
ghost use Rattle.std.specs.Prelude.{◌≡◌, IfOk, OnOk, option_and_then, option_copied, unwrap_or};
ghost use Rattle.std.specs.BTreeMap.{insert_entry};
ghost use Rattle.net_base.specs.Order.{addr_cmp};
ghost use Rattle.conf_tree.specs.Flat.{rib_number};
ghost use Rattle.conf_check.specs.Neighbours.{neighbour_with, neighbours_by_address, neighbours_with};

use crate::names::rib_number;
use crate::options::Settings;
use crate::placed::PlacedNeighbour;
use conf_tree::{Conf, Neighbour, NeighbourList, Rib, Text};
use net_base::{Addr, Family, Items, NoMemory};
use std::alloc::Global;
use std::collections::BTreeMap;

/// The neighbours by address.
pub(crate) fn neighbours(
    alloc: Global,
    conf: &Conf,
    all: Vec<PlacedNeighbour>,
) -> Result<NeighbourList, NoMemory>
    ensures { IfOk result (λ list. list ≡ neighbours_with conf.now all.items) }
{
    let by_address = neighbours_by_address(alloc, conf, all)?;
    let neighbours = by_address.into_values().collect(alloc)?;
    Ok(Items::from_vec(neighbours))
}

fn neighbours_by_address(
    alloc: Global,
    conf: &Conf,
    all: Vec<PlacedNeighbour>,
) -> Result<BTreeMap<Addr, Neighbour>, NoMemory>
    ensures { IfOk result (λ map. map.entries ≡ neighbours_by_address conf.now all.items) }
{
    let mut by_address = BTreeMap::new(alloc);
    for placed in all {
        let address = placed.address;
        let neighbour = neighbour(alloc, conf, placed);
        put(&mut by_address, address, neighbour)?;
    }
    Ok(by_address)
}

#[tactic(auto, using(crate::proofs::Orders::derived_addr_order))]
fn put(
    by_address: &mut BTreeMap<Addr, Neighbour>,
    address: Addr,
    neighbour: Neighbour,
) -> Result<(), NoMemory>
    ensures { OnOk result (by_address.new.entries ≡ insert_entry addr_cmp by_address.old.entries address neighbour) }
{
    by_address.insert(address, neighbour)?;
    Ok(())
}

/// A neighbour with the options that hold for it, and the defaults where it has none.
#[tactic(auto, unfolding(crate::specs::Neighbours::neighbour_with))]
fn neighbour(alloc: Global, conf: &Conf, placed: PlacedNeighbour) -> Neighbour
    ensures { result ≡ neighbour_with conf.now placed }
{
    let PlacedNeighbour {
        line: _,
        address,
        group,
        settings,
    } = placed;
    let Settings {
        plain,
        description,
        rib,
        set,
    } = settings;
    Neighbour {
        address,
        group,
        remote_as: plain.remote_as.unwrap_or(0),
        local_address: plain.local_address,
        description,
        port: plain.port.unwrap_or(179),
        passive: plain.passive.unwrap_or(false),
        down: plain.down.unwrap_or(false),
        multihop: plain.multihop,
        hold: plain.hold.unwrap_or(conf.hold),
        hold_min: plain.hold_min.unwrap_or(conf.hold_min),
        announce_v4: plain.announce_v4.unwrap_or(address.family == Family::V4),
        announce_v6: plain.announce_v6.unwrap_or(address.family == Family::V6),
        announce_refresh: plain.announce_refresh.unwrap_or(true),
        announce_as_4byte: plain.announce_as_4byte.unwrap_or(true),
        max_prefix: plain.max_prefix,
        rib: rib_of(conf.ribs.as_slice(), rib.as_ref()),
        set: set.unwrap_or(Items::new(alloc)),
    }
}

/// The number of the RIB of a name, and Loc-RIB where there is none.
fn rib_of(ribs: &[Rib], name: Option<&Text>) -> u8
    ensures { result ≡ unwrap_or (option_and_then (rib_number ribs.now) (option_copied name.entry)) 0 }
{
    match name {
        Some(name) => rib_number(ribs, name).unwrap_or(0),
        None => 0,
    }
}
