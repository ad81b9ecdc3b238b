//! How many more there may be of what a configuration counts.

ghost use Rattle.std.specs.Prelude.{◌≡◌, ◌-◌, length};
ghost use Rattle.conf_tree.specs.StatementReading.{all_room, room_behind};

use crate::rules::flat_rules_of;
use conf_tree::{GroupBlock, Room, Statement};

/// The room of a whole configuration. Loc-RIB is the sixteenth RIB.
pub(crate) fn all_room() -> Room
    ensures { result ≡ all_room }
{
    Room {
        neighbours: 256,
        groups: 64,
        ribs: 15,
        rules: 4096,
        networks: 4096,
        entries: 262_144,
        listens: 8,
    }
}

/// What a statement leaves of the room.
#[tactic(auto, unfolding(conf_tree::specs::StatementReading::room_behind))]
pub(crate) fn room_behind(room: Room, statement: &Statement) -> Room
    ensures { result ≡ room_behind room statement.now }
{
    match statement {
        Statement::Listen(_) => Room {
            listens: room.listens.saturating_sub(1),
            ..room
        },
        Statement::Rib(_, _) => Room {
            ribs: room.ribs.saturating_sub(1),
            ..room
        },
        Statement::PrefixSet(_, entries) => behind_entries(room, entries.len()),
        Statement::AsSet(_, numbers) => behind_entries(room, numbers.len()),
        Statement::OriginSet(_, entries) => behind_entries(room, entries.len()),
        Statement::RoaSet(entries) => behind_entries(room, entries.len()),
        Statement::Network(_, _) => Room {
            networks: room.networks.saturating_sub(1),
            ..room
        },
        Statement::Neighbour(_) => Room {
            neighbours: room.neighbours.saturating_sub(1),
            ..room
        },
        Statement::Group(group) => behind_group(room, group),
        Statement::Rule(rule) => Room {
            rules: room.rules.saturating_sub(flat_rules_of(rule)),
            ..room
        },
        _ => room,
    }
}

/// What the entries of a set leave.
fn behind_entries(room: Room, entries: usize) -> Room
    ensures { result ≡ record room { entries = room.entries - entries } }
{
    Room {
        entries: room.entries.saturating_sub(entries),
        ..room
    }
}

/// What a group with its neighbours leaves.
fn behind_group(room: Room, group: &GroupBlock) -> Room
    ensures { result ≡ record room { groups = room.groups - 1; neighbours = room.neighbours - length group.now.neighbours } }
{
    Room {
        groups: room.groups.saturating_sub(1),
        neighbours: room.neighbours.saturating_sub(group.neighbours.len()),
        ..room
    }
}
