//! What a session is told of the best route to a prefix.

ghost use Rattle.std.specs.Prelude.{◌≡◌, Option, option_and_then, option_copied, IfOk};
ghost use Rattle.adj_rib_out.specs.Message.{FitsAlone};
ghost use Rattle.rde_tables.specs.Wants.{look_of};
ghost use Rattle.route_world.specs.World.{neighbour_at};
ghost use Rattle.route_world.specs.Export.{export};
ghost use Rattle.rde_view.specs.View.{facts_of, told_by};

use crate::{Live, View};
use attr_model::Attrs;
use decision::Candidate;
use filter_engine::Steps;
use net_base::{NoMemory, Prefix};
use rde_tables::Want;
use route_world::export;
use std::alloc::Global;
use std::sync::ledger::Ledger;

/// What a session is to be told of a prefix by the best route to it. Nothing where there is none, or the configuration lacks its
/// neighbour.
pub fn want<L: Ledger>(
    alloc: Global,
    view: &View,
    live: &Live,
    prefix: Prefix,
    best: Option<&Candidate>,
    steps: &mut Steps<L>,
) -> Result<Want, NoMemory>
    ensures prefix { IfOk result (λ want. want.prefix ≡ prefix) }
    ensures told { IfOk result (λ want. want.attrs ≡ told_by view.now live.now prefix (option_copied best.entry)) }
    ensures alone { IfOk result (λ want. FitsAlone (facts_of view.now.conf.asn live.now).encoding (look_of want)) }
{
    let attrs = told_if(alloc, view, live, prefix, best, steps)?;
    Ok(Want { prefix, attrs })
}

/// What a session is told of a prefix by the best route to it, if there is one.
fn told_if<L: Ledger>(
    alloc: Global,
    view: &View,
    live: &Live,
    prefix: Prefix,
    best: Option<&Candidate>,
    steps: &mut Steps<L>,
) -> Result<Option<Attrs>, NoMemory>
    ensures { IfOk result (λ told. told ≡ told_by view.now live.now prefix (option_copied best.entry)) }
{
    match best {
        Some(best) => told(alloc, view, live, prefix, best, steps),
        None => Ok(None),
    }
}

/// What a session is told of the best route to a prefix.
fn told<L: Ledger>(
    alloc: Global,
    view: &View,
    live: &Live,
    prefix: Prefix,
    best: &Candidate,
    steps: &mut Steps<L>,
) -> Result<Option<Attrs>, NoMemory>
    ensures { IfOk result (λ told. told ≡ option_and_then
        (λ neighbour. export view.now.conf (facts_of view.now.conf.asn live.now) neighbour prefix best.now) (neighbour_at view.now.conf live.now.peer)) }
{
    let facts = live.facts(view.conf.asn);
    match view.neighbour(live.peer) {
        Some(neighbour) => export(
            alloc, &view.conf, &view.sets, &facts, neighbour, prefix, best, steps,
        ),
        None => Ok(None),
    }
}
