//! The routes of a RIB as they are shown.

ghost use Rattle.std.specs.Prelude.{◌≡◌, ◌≤◌, ◌++◌, IfOk, OnOk, length, map, option_and_then, option_map};
ghost use Rattle.conf_sets.specs.SameSets.{SameSets};
ghost use Rattle.decision.specs.Best.{best_of, peer_of};
ghost use Rattle.filter_engine.specs.Named.{AreNamed};
ghost use Rattle.route_world.specs.Loc.{same_who, is_of, flag_of, row_of, rows_of, loc_at, loc};

use crate::World;
use crate::importing::{CandidateList, candidates};
use crate::tables::known_prefixes;
use attr_model::{Attrs, Flag, RouteList, RouteRow};
use conf_tree::Members;
use decision::{Candidate, Origin, best};
use filter_engine::Steps;
use net_base::{Addr, Items, NoMemory, Prefix};
use std::alloc::Global;
use std::sync::ledger::Ledger;

/// The candidates of a RIB by prefix, in the order of `candidates`, each with what became of it.
#[tactic(auto, unfolding(crate::specs::Loc::loc))]
pub fn loc<M: Members, L: Ledger>(
    alloc: Global,
    world: &World,
    sets: &M,
    rib: u8,
    steps: &mut Steps<L>,
) -> Result<RouteList, NoMemory>
    requires same_sets { SameSets (M.conf_of sets.now) world.now.conf }
    requires named { AreNamed (M.conf_of sets.now) world.now.conf.rules }
    requires few { length (world.now.sessions) ≤ 256 }
    ensures { IfOk result (λ rows. rows ≡ loc world.now rib) }
{
    let known = known_prefixes(alloc, world)?.to_list(alloc)?;
    let mut rows = Items::new(alloc);
    for prefix in known.as_slice() {
        push_at(alloc, world, sets, rib, *prefix, steps, &mut rows)?;
    }
    Ok(rows)
}

/// Puts the rows of a prefix behind the others.
#[tactic(auto, using(crate::proofs::Few::few_candidates))]
fn push_at<M: Members, L: Ledger>(
    alloc: Global,
    world: &World,
    sets: &M,
    rib: u8,
    prefix: Prefix,
    steps: &mut Steps<L>,
    rows: &mut RouteList,
) -> Result<(), NoMemory>
    requires same_sets { SameSets (M.conf_of sets.now) world.now.conf }
    requires named { AreNamed (M.conf_of sets.now) world.now.conf.rules }
    requires few { length (world.now.sessions) ≤ 256 }
    ensures { OnOk result (rows.new ≡ rows.old ++ loc_at world.now rib prefix) }
{
    let found = candidates(alloc, world, sets, rib, prefix, steps)?;
    push_rows(&found, world.conf.med_always, prefix, rows)
}

/// Puts the rows of some candidates of a prefix behind the others.
fn push_rows(
    found: &CandidateList,
    med_always: bool,
    prefix: Prefix,
    rows: &mut RouteList,
) -> Result<(), NoMemory>
    requires { length found.now ≤ 257 }
    ensures { OnOk result (rows.new ≡ rows.old ++ rows_of med_always prefix found.now) }
{
    let best = origin_of_best(found, med_always);
    for candidate in found.as_slice() {
        rows.push(row_of(best, prefix, candidate)?)?;
    }
    Ok(())
}

/// Where the best of some candidates came from.
fn origin_of_best(found: &CandidateList, med_always: bool) -> Option<Origin>
    requires { length found.now ≤ 257 }
    ensures { result ≡ option_map (λ best. best.from) (best_of med_always found.now) }
{
    let found = found.as_slice();
    let at = best(found, med_always)?;
    Some(found[at].from)
}

fn row_of(best: Option<Origin>, prefix: Prefix, candidate: &Candidate) -> Result<RouteRow, NoMemory>
    ensures { IfOk result (λ row. row ≡ row_of best prefix candidate.now) }
{
    let attrs: &Attrs = &candidate.attrs;
    Ok(RouteRow {
        flag: flag_of(best, candidate),
        prefix,
        who: peer_of(candidate.from),
        attrs: attrs.clone()?,
    })
}

/// What became of a candidate of a prefix.
fn flag_of(best: Option<Origin>, candidate: &Candidate) -> Flag
    ensures { result ≡ flag_of best candidate.now }
{
    if is_of(best, candidate.from) {
        Flag::Best
    } else if candidate.eligible {
        Flag::Eligible
    } else {
        Flag::Not
    }
}

/// Whether the best came from there. No two candidates of a prefix come from one place.
fn is_of(best: Option<Origin>, from: Origin) -> bool
    ensures { result ≡ is_of best from }
{
    match best {
        None => false,
        Some(best) => same_who(peer_of(best), peer_of(from)),
    }
}

fn same_who(one: Option<Addr>, other: Option<Addr>) -> bool
    ensures { result ≡ same_who one other }
{
    match (one, other) {
        (None, None) => true,
        (Some(one), Some(other)) => one == other,
        _ => false,
    }
}

/// The neighbour that a route came from, or None for a network.
fn peer_of(from: Origin) -> Option<Addr>
    ensures { result ≡ peer_of from }
{
    match from {
        Origin::Local => None,
        Origin::External(peer) => Some(peer),
        Origin::Internal(peer) => Some(peer),
    }
}
