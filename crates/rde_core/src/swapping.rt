//! The swap of a configuration.

use crate::hops::{HopUses, Place};
use crate::refreshing::hops_of;
use crate::sending::to_parent;
use crate::tables::Tables;
use crate::taking::check_limit;
use core_msgs::{Frame, SendList};
use net_base::{Addr, Items, NoMemory, Prefix, PrefixList};
use rde_view::View;
use rib_multi::{MOST_RIBS, RibMulti};
use std::alloc::Global;
use std::collections::BTreeSet;

/// What a view whose configuration was just swapped brings with it, of which `ribs` RIBs were there before. Every prefix that is known
/// before or behind the swap is marked in every RIB and queued for every session.
pub(crate) fn follow_swap(
    alloc: Global,
    view: &mut View,
    tables: &mut Tables,
    ribs: u8,
    frames: &mut SendList,
) -> Result<(), NoMemory> {
    let before = tables.known.to_list(alloc)?;
    leave_ribs(alloc, view, tables, ribs, &before, frames)?;
    let numbers = table_numbers(alloc, view)?;
    tables.fib.configure(numbers.as_slice())?;
    tables.note_all(view, before.as_slice())?;
    note_networks(view, tables)?;
    to_parent(frames, Frame::Ack(view.generation()))?;
    start(view, tables);
    mark_unknown(view, tables, before.as_slice())?;
    queue_all(view, tables)?;
    check_limits(view, tables, frames)
}

/// Drops what the RIBs keep that the configuration lacks, and the next hops that are used there alone.
fn leave_ribs(
    alloc: Global,
    view: &mut View,
    tables: &mut Tables,
    ribs: u8,
    known: &PrefixList,
    frames: &mut SendList,
) -> Result<(), NoMemory> {
    let mut gone = BTreeSet::new(alloc);
    for rib in view.ribs()..ribs {
        let kept = tables.routes.ribs();
        leave_rib(alloc, kept, &mut tables.hops, rib, known, &mut gone)?;
    }
    tables.routes.shrink(view.ribs());
    untrack_all(view, &gone, frames)
}

/// The candidates that are kept in a RIB use their next hops no more. Those that aren't used any more are added.
fn leave_rib(
    alloc: Global,
    kept: &RibMulti,
    uses: &mut HopUses,
    rib: u8,
    known: &PrefixList,
    gone: &mut BTreeSet<Addr>,
) -> Result<(), NoMemory> {
    for prefix in known.iter() {
        let place = Place {
            rib,
            prefix: *prefix,
        };
        leave(alloc, kept, uses, place, gone)?;
    }
    Ok(())
}

/// The same for those that are kept at one place.
fn leave(
    alloc: Global,
    kept: &RibMulti,
    uses: &mut HopUses,
    place: Place,
    gone: &mut BTreeSet<Addr>,
) -> Result<(), NoMemory> {
    let hops = hops_of(alloc, kept.kept(place.rib, place.prefix))?;
    for hop in hops.iter() {
        if uses.remove(*hop, place) {
            gone.insert(*hop)?;
        }
    }
    Ok(())
}

/// Next hops are no longer tracked.
fn untrack_all(
    view: &mut View,
    gone: &BTreeSet<Addr>,
    frames: &mut SendList,
) -> Result<(), NoMemory> {
    for hop in gone.iter() {
        view.untrack(*hop);
        to_parent(frames, Frame::Untrack(*hop))?;
    }
    Ok(())
}

/// The numbers of the kernel tables that the configuration has.
fn table_numbers(alloc: Global, view: &View) -> Result<Items<u32>, NoMemory> {
    let mut numbers = Items::new(alloc);
    for rib in 0..view.ribs() {
        if let Some(table) = view.table_of(rib) {
            numbers.push(table)?;
        }
    }
    Ok(numbers)
}

/// The networks of the configuration are known.
fn note_networks(view: &View, tables: &mut Tables) -> Result<(), NoMemory> {
    for network in view.conf().networks.iter() {
        tables.known.add(network.prefix)?;
    }
    Ok(())
}

/// Marks every known prefix in every RIB.
fn start(view: &View, tables: &mut Tables) {
    for rib in 0..view.ribs().min(MOST_RIBS) {
        tables.routes.start(rib);
    }
}

/// Marks the prefixes that were known before and aren't now, in every RIB, and queues them for every session.
fn mark_unknown(view: &View, tables: &mut Tables, before: &[Prefix]) -> Result<(), NoMemory> {
    for prefix in before {
        if !tables.known.has(*prefix) {
            tables.mark(view, *prefix)?;
            queue_for_all(view, tables, *prefix)?;
        }
    }
    Ok(())
}

/// Queues a prefix for every session.
fn queue_for_all(view: &View, tables: &mut Tables, prefix: Prefix) -> Result<(), NoMemory> {
    for (_, live) in view.sessions().iter() {
        tables.routes.queue(live.number, prefix, false)?;
    }
    Ok(())
}

/// Queues every known prefix for every session.
fn queue_all(view: &View, tables: &mut Tables) -> Result<(), NoMemory> {
    for (_, live) in view.sessions().iter() {
        tables.queue_known(live.number)?;
    }
    Ok(())
}

/// Writes Close for each session that holds more routes than its neighbour may announce, by address.
fn check_limits(view: &View, tables: &mut Tables, frames: &mut SendList) -> Result<(), NoMemory> {
    for (_, live) in view.sessions().iter() {
        check_limit(view, tables, *live, frames)?;
    }
    Ok(())
}
