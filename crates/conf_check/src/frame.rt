//! The configuration of a text without its neighbours and rules.
ghost use Rattle.std.specs.Prelude.{◌≡◌, IfOk, unwrap_or};
ghost use Rattle.conf_tree.specs.Said.{last_said, socket_of};
ghost use Rattle.conf_tree.specs.Flat.{default_socket, frame_of};

use crate::globals::{Globals, socket};
use crate::lists::{as_sets, listen, networks, origin_sets, prefix_sets, ribs};
use crate::ordered::roas;
use conf_tree::{Conf, StatementLine, Text};
use net_base::{Items, NoMemory};
use std::alloc::Global;

/// The configuration of a text without its neighbours and rules.
#[tactic(auto, unfolding(conf_tree::specs::Flat::frame_of))]
pub(crate) fn frame(alloc: Global, lines: &[StatementLine]) -> Result<Conf, NoMemory>
    ensures { IfOk result (λ conf. conf ≡ frame_of lines.now) }
{
    let globals = Globals::of(lines);
    let socket = socket_path(alloc, lines)?;
    let listen = listen(alloc, lines)?;
    let ribs = ribs(alloc, lines)?;
    let prefix_sets = prefix_sets(alloc, lines)?;
    let as_sets = as_sets(alloc, lines)?;
    let origin_sets = origin_sets(alloc, lines)?;
    let roas = roas(alloc, lines)?;
    let networks = networks(alloc, lines)?;
    Ok(Conf {
        asn: globals.asn.unwrap_or(0),
        router_id: globals.router_id.unwrap_or(0),
        hold: globals.hold.unwrap_or(90),
        hold_min: globals.hold_min.unwrap_or(3),
        fib_update: globals.fib_update.unwrap_or(true),
        qualify_default: globals.qualify_default.unwrap_or(false),
        med_always: globals.med_always.unwrap_or(false),
        socket,
        listen,
        ribs,
        prefix_sets,
        as_sets,
        origin_sets,
        roas,
        networks,
        neighbours: Items::new(alloc),
        rules: Items::new(alloc),
    })
}

fn socket_path(alloc: Global, lines: &[StatementLine]) -> Result<Text, NoMemory>
    ensures { IfOk result (λ path. path ≡ unwrap_or (last_said socket_of lines.now) default_socket) }
{
    match socket(lines) {
        Some(path) => Items::from_slice(alloc, path.as_slice()),
        None => Items::from_slice(alloc, b"bgpd.sock".as_slice()),
    }
}
