//! The tables that follow from a world.

ghost use Rattle.std.specs.Prelude.{◌≡◌, ◌<◌, ◌≤◌, ◌++◌, IfOk, OnOk, Option, List, fold, map, length, option_map, option_and_then, option_to_list, position, IfSome};
ghost use Rattle.std.specs.BTreeSet.{insert_key};
ghost use Rattle.net_base.specs.Order.{prefix_cmp};
ghost use Rattle.std.specs.List.{flat_map};
ghost use Rattle.decision.specs.Best.{best_of};
ghost use Rattle.conf_sets.specs.SameSets.{SameSets};
ghost use Rattle.filter_engine.specs.Named.{AreNamed};
ghost use Rattle.route_world.specs.World.{known_prefixes, neighbour_at, with_prefixes};
ghost use Rattle.route_world.specs.Export.{is_local};
ghost use Rattle.route_world.specs.Tables.{best_at, told_at, told_at_neighbour, entry_if, out, has_table, rib_of_table, hop_of, wanted_at, rows_of_rib, fib};

use crate::exporting::export;
use crate::importing::{CandidateList, candidates, neighbour_at};
use crate::{Session, World};
use attr_model::Attrs;
use conf_tree::{Conf, Members, Neighbour, Network, Rib};
use decision::{Candidate, Origin, best};
use filter_engine::Steps;
use net_base::{Addr, Items, NoMemory, Prefix, PrefixSet};
use std::alloc::Global;
use std::sync::ledger::Ledger;

/// Routes by prefix, as a session is told them.
pub type OutList = Items<(Prefix, Attrs)>;

/// Routes of a kernel table: prefixes with their next hops, by prefix.
pub type FibList = Items<(Prefix, Addr)>;

/// The prefixes of the held routes and of the networks, in order.
pub fn known_prefixes(alloc: Global, world: &World) -> Result<PrefixSet, NoMemory>
    ensures { IfOk result (λ known. known ≡ known_prefixes world.now) }
{
    let mut known = PrefixSet::new(alloc);
    add_held(&mut known, world.sessions.as_slice())?;
    add_networks(&mut known, world.conf.networks.as_slice())?;
    Ok(known)
}

/// Adds the prefixes that sessions hold routes of.
fn add_held(known: &mut PrefixSet, sessions: &[Session]) -> Result<(), NoMemory>
    ensures { OnOk result (known.new ≡ fold with_prefixes known.old sessions.now) }
{
    for session in sessions {
        session.held.add_prefixes(known)?;
    }
    Ok(())
}

/// Adds the prefixes of networks.
fn add_networks(known: &mut PrefixSet, networks: &[Network]) -> Result<(), NoMemory>
    ensures { OnOk result (known.new ≡ fold (insert_key prefix_cmp) known.old (map (λ network. network.prefix) networks.now)) }
{
    for network in networks {
        known.add(network.prefix)?;
    }
    Ok(())
}

/// The best route to a prefix in a RIB.
#[tactic(auto, using(crate::proofs::Few::few_candidates))]
pub fn best_at<M: Members, L: Ledger>(
    alloc: Global,
    world: &World,
    sets: &M,
    rib: u8,
    prefix: Prefix,
    steps: &mut Steps<L>,
) -> Result<Option<Candidate>, NoMemory>
    requires same_sets { SameSets (M.conf_of sets.now) world.now.conf }
    requires named { AreNamed (M.conf_of sets.now) world.now.conf.rules }
    requires few { length (world.now.sessions) ≤ 256 }
    ensures { IfOk result (λ found. found ≡ best_at world.now rib prefix) }
{
    let found = candidates(alloc, world, sets, rib, prefix, steps)?;
    Ok(best_of(found, world.conf.med_always))
}

/// The best of some candidates.
fn best_of(found: CandidateList, med_always: bool) -> Option<Candidate>
    requires { length found ≤ 257 }
    ensures { result ≡ best_of med_always found }
{
    let at = best(found.as_slice(), med_always)?;
    Some(found.into_vec().swap_remove(at))
}

/// What a session is told of a prefix: the best of its RIB, by the rules of export.
#[tactic(auto, unfolding(crate::specs::Tables::told_at))]
pub(crate) fn told_at<M: Members, L: Ledger>(
    alloc: Global,
    world: &World,
    sets: &M,
    session: &Session,
    prefix: Prefix,
    steps: &mut Steps<L>,
) -> Result<Option<Attrs>, NoMemory>
    requires same_sets { SameSets (M.conf_of sets.now) world.now.conf }
    requires named { AreNamed (M.conf_of sets.now) world.now.conf.rules }
    requires few { length (world.now.sessions) ≤ 256 }
    ensures { IfOk result (λ told. told ≡ told_at world.now session.now prefix) }
{
    match neighbour_at(&world.conf, session.peer) {
        None => Ok(None),
        Some(neighbour) => told_at_neighbour(alloc, world, sets, session, prefix, neighbour, steps),
    }
}

/// What a session with this neighbour is told of a prefix.
fn told_at_neighbour<M: Members, L: Ledger>(
    alloc: Global,
    world: &World,
    sets: &M,
    session: &Session,
    prefix: Prefix,
    neighbour: &Neighbour,
    steps: &mut Steps<L>,
) -> Result<Option<Attrs>, NoMemory>
    requires same_sets { SameSets (M.conf_of sets.now) world.now.conf }
    requires named { AreNamed (M.conf_of sets.now) world.now.conf.rules }
    requires few { length (world.now.sessions) ≤ 256 }
    ensures { IfOk result (λ told. told ≡ told_at_neighbour world.now session.now prefix neighbour.now) }
{
    match best_at(alloc, world, sets, neighbour.rib, prefix, steps)? {
        None => Ok(None),
        Some(best) => {
            let facts = &session.facts;
            export(
                alloc,
                &world.conf,
                sets,
                facts,
                neighbour,
                prefix,
                &best,
                steps,
            )
        }
    }
}

/// The routes that a session is told, by prefix (RFC 4271 section 3.2, Adj-RIB-Out).
#[tactic(auto, unfolding(crate::specs::Tables::out))]
pub fn out<M: Members, L: Ledger>(
    alloc: Global,
    world: &World,
    sets: &M,
    session: &Session,
    steps: &mut Steps<L>,
) -> Result<OutList, NoMemory>
    requires same_sets { SameSets (M.conf_of sets.now) world.now.conf }
    requires named { AreNamed (M.conf_of sets.now) world.now.conf.rules }
    requires few { length (world.now.sessions) ≤ 256 }
    ensures { IfOk result (λ routes. routes ≡ out world.now session.now) }
{
    let known = known_prefixes(alloc, world)?.to_list(alloc)?;
    let mut routes = Items::new(alloc);
    for prefix in known.as_slice() {
        let told = told_at(alloc, world, sets, session, *prefix, steps)?;
        push_if(&mut routes, *prefix, told)?;
    }
    Ok(routes)
}

/// Puts an entry for a prefix behind the others, where there is a value.
fn push_if<A: Drop>(
    entries: &mut Items<(Prefix, A)>,
    prefix: Prefix,
    found: Option<A>,
) -> Result<(), NoMemory>
    ensures { OnOk result (entries.new ≡ entries.old ++ option_to_list (option_map (λ one. (prefix, one)) found)) }
{
    if let Some(one) = found {
        entries.push((prefix, one))?;
    }
    Ok(())
}

/// The routes of a kernel table by prefix: the next hops of the best ones that came from a neighbour. A table that no RIB
/// has is empty; Loc-RIB has table 0.
#[tactic(auto, unfolding(crate::specs::Tables::fib))]
pub fn fib<M: Members, L: Ledger>(
    alloc: Global,
    world: &World,
    sets: &M,
    table: u8,
    steps: &mut Steps<L>,
) -> Result<FibList, NoMemory>
    requires same_sets { SameSets (M.conf_of sets.now) world.now.conf }
    requires named { AreNamed (M.conf_of sets.now) world.now.conf.rules }
    requires few { length (world.now.sessions) ≤ 256 }
    requires ribs { length (world.now.conf.ribs) < 256 }
    ensures { IfOk result (λ rows. rows ≡ fib world.now table) }
{
    match rib_of_table(&world.conf, table) {
        None => Ok(Items::new(alloc)),
        Some(rib) => rows_of_rib(alloc, world, sets, rib, steps),
    }
}

/// The number of the RIB whose routes a kernel table takes.
fn rib_of_table(conf: &Conf, table: u8) -> Option<u8>
    requires { length (conf.now.ribs) < 256 }
    ensures { result ≡ rib_of_table conf.now table }
{
    if table == 0 {
        return Some(0);
    }
    match place_of_table(conf.ribs.as_slice(), table) {
        None => None,
        Some(at) => Some(at as u8 + 1),
    }
}

/// The place of the RIB with a kernel table.
fn place_of_table(ribs: &[Rib], table: u8) -> Option<usize>
    ensures place { result ≡ position (λ rib. has_table table rib.table) ribs.now }
    ensures within { IfSome result (λ at. at < length ribs.now) }
{
    ribs.iter().position(|rib| has_table(table, rib.table))
}

fn has_table(table: u8, number: Option<u8>) -> bool
    ensures { result ≡ has_table table number }
{
    match number {
        None => false,
        Some(number) => number == table,
    }
}

fn rows_of_rib<M: Members, L: Ledger>(
    alloc: Global,
    world: &World,
    sets: &M,
    rib: u8,
    steps: &mut Steps<L>,
) -> Result<FibList, NoMemory>
    requires same_sets { SameSets (M.conf_of sets.now) world.now.conf }
    requires named { AreNamed (M.conf_of sets.now) world.now.conf.rules }
    requires few { length (world.now.sessions) ≤ 256 }
    ensures { IfOk result (λ rows. rows ≡ flat_map (entry_if (wanted_at world.now rib)) (known_prefixes world.now)) }
{
    let known = known_prefixes(alloc, world)?.to_list(alloc)?;
    let mut rows = Items::new(alloc);
    for prefix in known.as_slice() {
        let best = best_at(alloc, world, sets, rib, *prefix, steps)?;
        push_if(&mut rows, *prefix, hop_of_best(best))?;
    }
    Ok(rows)
}

fn hop_of_best(best: Option<Candidate>) -> Option<Addr>
    ensures { result ≡ option_and_then hop_of best }
{
    match best {
        None => None,
        Some(best) => hop_of(best),
    }
}

/// The next hop of the best, where that came from a neighbour.
fn hop_of(best: Candidate) -> Option<Addr>
    ensures { result ≡ hop_of best }
{
    match best.from {
        Origin::Local => None,
        _ => Some(best.attrs.hop),
    }
}
