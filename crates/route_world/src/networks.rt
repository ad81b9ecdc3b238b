//! The routes of the networks alone, as they are shown.

ghost use Rattle.std.specs.Prelude.{◌≡◌, map, IfOk};
ghost use Rattle.route_world.specs.Networks.{network_row, network_rows};

use crate::importing::network_with_set;
use attr_model::{Flag, RouteList, RouteRow};
use conf_tree::{Conf, Network};
use net_base::{Items, NoMemory};
use std::alloc::Global;

/// The routes of the networks by prefix, each with its set and as the best of its prefix.
pub fn network_rows(alloc: Global, conf: &Conf) -> Result<RouteList, NoMemory>
    ensures { IfOk result (λ rows. rows ≡ network_rows conf.now) }
{
    let mut rows = Items::new(alloc);
    for network in conf.networks.as_slice() {
        rows.push(network_row(alloc, conf, network)?)?;
    }
    Ok(rows)
}

fn network_row(alloc: Global, conf: &Conf, network: &Network) -> Result<RouteRow, NoMemory>
    ensures { IfOk result (λ row. row ≡ network_row conf.now network.now) }
{
    Ok(RouteRow {
        flag: Flag::Best,
        prefix: network.prefix,
        who: None,
        attrs: network_with_set(alloc, conf, network)?,
    })
}
