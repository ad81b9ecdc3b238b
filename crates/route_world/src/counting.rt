//! How many different attributes the tables of a world hold.

ghost use Rattle.std.specs.Prelude.{◌≡◌, ◌<◌, ◌≤◌, ◌++◌, IfOk, OnOk, length, fold, map, option_to_list, [], option_copied};
ghost use Rattle.std.specs.List.{flat_map};
ghost use Rattle.conf_sets.specs.SameSets.{SameSets};
ghost use Rattle.filter_engine.specs.Named.{AreNamed};
ghost use Rattle.route_world.specs.World.{known_prefixes};
ghost use Rattle.route_world.specs.Loc.{held_at, rib_at, told_to, rib_numbers, attrs_at, is_seen, with_new, distinct};

use crate::importing::candidates;
use crate::tables::{known_prefixes, told_at};
use crate::{Session, World};
use attr_model::Attrs;
use conf_tree::Members;
use decision::Candidate;
use filter_engine::Steps;
use net_base::{Items, NoMemory, Prefix};
use std::alloc::Global;
use std::sync::ledger::Ledger;

/// Attributes one after the other.
type AttrList = Items<Attrs>;

/// How many different attributes the held routes of a world, the candidates of all its RIBs and the routes that its
/// sessions are told have.
#[tactic(auto, unfolding(crate::specs::Loc::distinct))]
pub fn distinct<M: Members, L: Ledger>(
    alloc: Global,
    world: &World,
    sets: &M,
    steps: &mut Steps<L>,
) -> Result<usize, NoMemory>
    requires same_sets { SameSets (M.conf_of sets.now) world.now.conf }
    requires named { AreNamed (M.conf_of sets.now) world.now.conf.rules }
    requires few { length (world.now.sessions) ≤ 256 }
    requires ribs { length (world.now.conf.ribs) < 256 }
    ensures { IfOk result (λ count. count ≡ distinct world.now) }
{
    let all = all_attrs(alloc, world, sets, steps)?;
    count_different(alloc, all.as_slice())
}

/// Those of all prefixes, in order.
fn all_attrs<M: Members, L: Ledger>(
    alloc: Global,
    world: &World,
    sets: &M,
    steps: &mut Steps<L>,
) -> Result<AttrList, NoMemory>
    requires same_sets { SameSets (M.conf_of sets.now) world.now.conf }
    requires named { AreNamed (M.conf_of sets.now) world.now.conf.rules }
    requires few { length (world.now.sessions) ≤ 256 }
    requires ribs { length (world.now.conf.ribs) < 256 }
    ensures { IfOk result (λ all. all ≡ flat_map (attrs_at world.now) (known_prefixes world.now)) }
{
    let known = known_prefixes(alloc, world)?.to_list(alloc)?;
    let mut all = Items::new(alloc);
    for prefix in known.as_slice() {
        push_at(alloc, world, sets, *prefix, steps, &mut all)?;
    }
    Ok(all)
}

/// Puts those of a prefix behind the others.
fn push_at<M: Members, L: Ledger>(
    alloc: Global,
    world: &World,
    sets: &M,
    prefix: Prefix,
    steps: &mut Steps<L>,
    all: &mut AttrList,
) -> Result<(), NoMemory>
    requires same_sets { SameSets (M.conf_of sets.now) world.now.conf }
    requires named { AreNamed (M.conf_of sets.now) world.now.conf.rules }
    requires few { length (world.now.sessions) ≤ 256 }
    requires ribs { length (world.now.conf.ribs) < 256 }
    ensures { OnOk result (all.new ≡ all.old ++ attrs_at world.now prefix) }
{
    push_held(world.sessions.as_slice(), prefix, all)?;
    push_ribs(alloc, world, sets, prefix, steps, all)?;
    push_told(alloc, world, sets, prefix, steps, all)
}

/// Puts those of the routes of a prefix that sessions hold behind the others.
fn push_held(sessions: &[Session], prefix: Prefix, all: &mut AttrList) -> Result<(), NoMemory>
    ensures { OnOk result (all.new ≡ all.old ++ flat_map (held_at prefix) sessions.now) }
{
    for session in sessions {
        push_if(session.held.get(prefix), all)?;
    }
    Ok(())
}

/// Puts those of the candidates of a prefix in each RIB behind the others.
fn push_ribs<M: Members, L: Ledger>(
    alloc: Global,
    world: &World,
    sets: &M,
    prefix: Prefix,
    steps: &mut Steps<L>,
    all: &mut AttrList,
) -> Result<(), NoMemory>
    requires same_sets { SameSets (M.conf_of sets.now) world.now.conf }
    requires named { AreNamed (M.conf_of sets.now) world.now.conf.rules }
    requires ribs { length (world.now.conf.ribs) < 256 }
    ensures { OnOk result (all.new ≡ all.old ++ flat_map (rib_at world.now prefix) (rib_numbers world.now.conf)) }
{
    for rib in 0..world.conf.ribs.len() + 1 {
        push_rib(alloc, world, sets, rib as u8, prefix, steps, all)?;
    }
    Ok(())
}

/// Puts those of the candidates of a prefix in a RIB behind the others.
fn push_rib<M: Members, L: Ledger>(
    alloc: Global,
    world: &World,
    sets: &M,
    rib: u8,
    prefix: Prefix,
    steps: &mut Steps<L>,
    all: &mut AttrList,
) -> Result<(), NoMemory>
    requires same_sets { SameSets (M.conf_of sets.now) world.now.conf }
    requires named { AreNamed (M.conf_of sets.now) world.now.conf.rules }
    ensures { OnOk result (all.new ≡ all.old ++ rib_at world.now prefix rib) }
{
    let found = candidates(alloc, world, sets, rib, prefix, steps)?;
    push_candidates(found.as_slice(), all)
}

/// Puts those of candidates behind the others.
fn push_candidates(found: &[Candidate], all: &mut AttrList) -> Result<(), NoMemory>
    ensures { OnOk result (all.new ≡ all.old ++ map (λ candidate. candidate.attrs.attrs) found.now) }
{
    for candidate in found {
        all.push(attrs_of(candidate)?)?;
    }
    Ok(())
}

fn attrs_of(candidate: &Candidate) -> Result<Attrs, NoMemory>
    ensures { IfOk result (λ attrs. attrs ≡ candidate.now.attrs.attrs) }
{
    let attrs: &Attrs = &candidate.attrs;
    attrs.clone()
}

/// Puts those of the routes of a prefix that sessions are told behind the others.
fn push_told<M: Members, L: Ledger>(
    alloc: Global,
    world: &World,
    sets: &M,
    prefix: Prefix,
    steps: &mut Steps<L>,
    all: &mut AttrList,
) -> Result<(), NoMemory>
    requires same_sets { SameSets (M.conf_of sets.now) world.now.conf }
    requires named { AreNamed (M.conf_of sets.now) world.now.conf.rules }
    requires few { length (world.now.sessions) ≤ 256 }
    ensures { OnOk result (all.new ≡ all.old ++ flat_map (told_to world.now prefix) world.now.sessions) }
{
    for session in world.sessions.as_slice() {
        let told = told_at(alloc, world, sets, session, prefix, steps)?;
        push_if(told.as_ref(), all)?;
    }
    Ok(())
}

/// Puts attributes behind the others, where there are some.
fn push_if(found: Option<&Attrs>, all: &mut AttrList) -> Result<(), NoMemory>
    ensures { OnOk result (all.new ≡ all.old ++ option_to_list (option_copied found.entry)) }
{
    if let Some(attrs) = found {
        all.push(attrs.clone()?)?;
    }
    Ok(())
}

/// How many different attributes there are among some.
fn count_different(alloc: Global, all: &[Attrs]) -> Result<usize, NoMemory>
    ensures { IfOk result (λ count. count ≡ length (fold with_new [] all.now)) }
{
    let mut seen = Items::new(alloc);
    for attrs in all {
        add(attrs, &mut seen)?;
    }
    Ok(seen.len())
}

/// Adds attributes, unless equal ones are there.
fn add(attrs: &Attrs, seen: &mut AttrList) -> Result<(), NoMemory>
    ensures { OnOk result (seen.new ≡ with_new seen.old attrs.now) }
{
    if is_seen(seen.as_slice(), attrs) {
        return Ok(());
    }
    seen.push(attrs.clone()?)
}

/// Whether equal attributes are among those that were seen.
fn is_seen(seen: &[Attrs], attrs: &Attrs) -> bool
    ensures { result ≡ is_seen seen.now attrs.now }
{
    seen.iter().any(|other| *other == *attrs)
}
