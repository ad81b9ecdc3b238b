//! A refresh: a prefix of a RIB is gone over again.

ghost use Rattle.net_base.specs.PrefixSet.{IsLeastOf};
ghost use Rattle.rib_multi.specs.Rows.{is_marked_at};

use crate::hops::{HopUses, Place};
use crate::sending::to_parent;
use crate::tables::Tables;
use core_msgs::{Frame, SendList};
use decision::{Candidate, Found, Origin};
use filter_engine::Steps;
use net_base::{Addr, NoMemory, Prefix};
use rde_tables::Outcome;
use rde_view::{View, candidates};
use std::alloc::Global;
use std::collections::BTreeSet;
use std::sync::ledger::Ledger;

/// Goes over the least marked prefix of a RIB again, where there is one.
pub(crate) fn refresh<L: Ledger>(
    alloc: Global,
    view: &mut View,
    tables: &mut Tables,
    rib: u8,
    steps: &mut Steps<L>,
    frames: &mut SendList,
) -> Result<(), NoMemory> {
    match tables.routes.ribs().least(rib, &tables.known) {
        Some(prefix) => go_over(alloc, view, tables, Place { rib, prefix }, steps, frames),
        None => Ok(()),
    }
}

/// Goes over a prefix of a RIB again, which is the least marked one there.
fn go_over<L: Ledger>(
    alloc: Global,
    view: &mut View,
    tables: &mut Tables,
    place: Place,
    steps: &mut Steps<L>,
    frames: &mut SendList,
) -> Result<(), NoMemory>
    requires { IsLeastOf (is_marked_at tables.old.known tables.old.routes.ribs place.rib) place.prefix }
{
    let Place { rib, prefix } = place;
    let found = candidates(alloc, view, tables.routes.held(), rib, prefix, steps)?;
    let before = hops_of(alloc, tables.routes.ribs().kept(rib, prefix))?;
    let behind = hops_found(alloc, found.as_slice())?;
    track(view, &mut tables.hops, place, &behind, frames)?;
    untrack(view, &mut tables.hops, place, &before, &behind, frames)?;
    let always = view.conf().med_always;
    let outcome = tables
        .routes
        .refresh(&tables.known, rib, prefix, found, always)?;
    pass_on(view, tables, place, outcome, frames)
}

/// What a refresh changed goes on: to the queues of the sessions of the RIB, and to its kernel table.
fn pass_on(
    view: &View,
    tables: &mut Tables,
    place: Place,
    outcome: Outcome,
    frames: &mut SendList,
) -> Result<(), NoMemory> {
    if outcome.changed {
        queue_in_rib(view, tables, place)?;
    }
    tell_fib(view, tables, place, outcome, frames)?;
    tables.note(view, place.prefix)
}

/// The next hops of the candidates from neighbours.
pub(crate) fn hops_of(alloc: Global, candidates: &[Candidate]) -> Result<BTreeSet<Addr>, NoMemory> {
    let mut hops = BTreeSet::new(alloc);
    for candidate in candidates {
        if candidate.from != Origin::Local {
            hops.insert(candidate.attrs.hop)?;
        }
    }
    Ok(hops)
}

/// The next hops of what was found from neighbours.
fn hops_found(alloc: Global, found: &[Found]) -> Result<BTreeSet<Addr>, NoMemory> {
    let mut hops = BTreeSet::new(alloc);
    for one in found {
        if one.from != Origin::Local {
            hops.insert(one.attrs.hop)?;
        }
    }
    Ok(hops)
}

/// Next hops are used at a place. Those that aren't tracked are tracked from now on.
fn track(
    view: &mut View,
    uses: &mut HopUses,
    place: Place,
    hops: &BTreeSet<Addr>,
    frames: &mut SendList,
) -> Result<(), NoMemory> {
    for hop in hops.iter() {
        if uses.add(*hop, place)? {
            view.track(*hop)?;
            to_parent(frames, Frame::Track(*hop))?;
        }
    }
    Ok(())
}

/// Next hops are no longer used at a place, unless they are in `but`. Those that aren't used any more are no longer tracked.
fn untrack(
    view: &mut View,
    uses: &mut HopUses,
    place: Place,
    hops: &BTreeSet<Addr>,
    but: &BTreeSet<Addr>,
    frames: &mut SendList,
) -> Result<(), NoMemory> {
    for hop in hops.iter() {
        if !but.contains(hop) && uses.remove(*hop, place) {
            view.untrack(*hop);
            to_parent(frames, Frame::Untrack(*hop))?;
        }
    }
    Ok(())
}

/// Queues a prefix for the sessions of a RIB.
fn queue_in_rib(view: &View, tables: &mut Tables, place: Place) -> Result<(), NoMemory> {
    for (peer, live) in view.sessions().iter() {
        if view.rib_of(*peer) == place.rib {
            tables.routes.queue(live.number, place.prefix, false)?;
        }
    }
    Ok(())
}

/// Tells the kernel table of a RIB its row, where the best changed or the row isn't what the last frame said.
fn tell_fib(
    view: &View,
    tables: &mut Tables,
    place: Place,
    outcome: Outcome,
    frames: &mut SendList,
) -> Result<(), NoMemory> {
    let Place { rib, prefix } = place;
    let Outcome { changed, hop } = outcome;
    let Some(table) = view.table_of(rib) else {
        return Ok(());
    };
    if !changed && tables.fib.row(table, prefix) == hop {
        return Ok(());
    }
    tables.fib.tell(table, prefix, hop)?;
    to_parent(frames, row_frame(table, prefix, hop))
}

/// The frame that tells a kernel table its row of a prefix.
fn row_frame(table: u32, prefix: Prefix, hop: Option<Addr>) -> Frame {
    match hop {
        Some(hop) => Frame::FibSet { table, prefix, hop },
        None => Frame::FibDel { table, prefix },
    }
}
