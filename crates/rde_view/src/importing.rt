//! How the routes to one prefix come into a RIB.

ghost use Rattle.std.specs.Prelude.{◌≡◌, ◌≤◌, ◌+◌, ◌++◌, ◌∷◌, [], ◌==◌, not, ◌&&◌, map, length, Option, option_map, option_copied, option_to_list, IfOk, OnOk};
ghost use Rattle.std.specs.List.{list_any};
ghost use Rattle.attr_model.specs.Valid.{numbers_of};
ghost use Rattle.std.specs.Prelude.{find};
ghost use Rattle.std.specs.List.Sorted.{IsStrictlySortedBy};
ghost use Rattle.std.specs.Map.{keys_of};
ghost use Rattle.net_base.specs.Order.{prefix_cmp};
ghost use Rattle.adj_rib_in.specs.Row.{attrs_of};
ghost use Rattle.adj_rib_in.specs.Held.{route_at};
ghost use Rattle.conf_sets.specs.SameSets.{SameSets};
ghost use Rattle.filter_engine.specs.Verdict.{verdict, Says};
ghost use Rattle.route_world.specs.World.{is_valid};
ghost use Rattle.route_world.specs.Import.{with_given, with_set, import_context, origin_at, has_number, imported, import_at, left_by, network_candidate, network_at, candidates};
ghost use Rattle.rde_view.specs.View.{facts_of, session_of, world_of};
ghost use Rattle.rde_view.specs.Import.{as_candidate, given};

use crate::{Live, View};
use adj_rib_in::{AdjRibIn, Entry};
use attr_model::{AttrRef, Attrs, Path, Segment};
use bgp_wire::OpenFacts;
use conf_tree::{Conf, ItemList, Neighbour, Network};
use decision::{Found, FoundList, Origin};
use filter_engine::{
    Context, Hop, Steps, Verdict, apply_set, choose_hop, evaluate_skipping, verdict_goes_by_sets,
};
use net_base::{Addr, Items, NoMemory, Prefix};
use route_world::network_candidate;
use std::alloc::Global;
use std::sync::ledger::Ledger;

/// The candidates of a prefix in a RIB: its network, then the routes of the sessions by address.
#[tactic(auto, unfolding(route_world::specs::Import::candidates))]
pub fn candidates<L: Ledger>(
    alloc: Global,
    view: &View,
    held: &AdjRibIn,
    rib: u8,
    prefix: Prefix,
    steps: &mut Steps<L>,
) -> Result<FoundList, NoMemory>
    ensures found { IfOk result (λ found. map as_candidate found ≡ candidates (world_of view.now held.now) rib prefix) }
    ensures few { IfOk result (λ found. length found ≤ 257) }
{
    let mut found = network_of(alloc, view, prefix)?;
    for (_, live) in view.sessions().iter() {
        let one = import(alloc, view, held, rib, live, prefix, steps)?;
        push_if(&mut found, one)?;
    }
    Ok(found)
}

/// Puts a candidate behind the others, where there is one.
fn push_if(found: &mut FoundList, one: Option<Found>) -> Result<(), NoMemory>
    ensures found { OnOk result (found.new ≡ found.old ++ option_to_list one) }
    ensures few { OnOk result (length found.new ≤ length found.old + 1) }
{
    if let Some(one) = one {
        found.push(one)?;
    }
    Ok(())
}

/// The network of a prefix as a list of at most one candidate.
fn network_of(alloc: Global, view: &View, prefix: Prefix) -> Result<FoundList, NoMemory>
    ensures found { IfOk result (λ found. map as_candidate found ≡ option_to_list (option_map (network_candidate view.now.conf) (network_at view.now.conf prefix))) }
{
    match view.network(prefix) {
        None => Ok(Items::new(alloc)),
        Some(network) => {
            let one = network_in(alloc, &view.conf, network)?;
            listed(alloc, one)
        }
    }
}

/// A list of one candidate.
fn listed(alloc: Global, one: Found) -> Result<FoundList, NoMemory>
    ensures { IfOk result (λ found. found ≡ one ∷ []) }
{
    let mut found = Items::new(alloc);
    found.push(one)?;
    Ok(found)
}

/// A network as a candidate.
fn network_in(alloc: Global, conf: &Conf, network: &Network) -> Result<Found, NoMemory>
    ensures found { IfOk result (λ found. as_candidate found ≡ network_candidate conf.now network.now) }
{
    let one = network_candidate(alloc, conf, network)?;
    let attrs: &Attrs = &one.attrs;
    Ok(Found {
        from: one.from,
        attrs: attrs.clone()?,
        eligible: one.eligible,
        bgp_id: one.bgp_id,
        own_as: one.own_as,
    })
}

/// The candidate that the route of a session is in a RIB. None where it holds none of the prefix, a rule denies it, or the
/// neighbour isn't in the configuration.
#[tactic(auto, unfolding(route_world::specs::Import::import_at), using(crate::proofs::Held::route_at_list))]
fn import<L: Ledger>(
    alloc: Global,
    view: &View,
    held: &AdjRibIn,
    rib: u8,
    live: &Live,
    prefix: Prefix,
    steps: &mut Steps<L>,
) -> Result<Option<Found>, NoMemory>
    ensures found { IfOk result (λ found. option_map as_candidate found ≡ import_at (world_of view.now held.now) rib (session_of view.now held.now live.now) prefix) }
{
    let Some(route) = route_of(held, live.number, prefix) else {
        return Ok(None);
    };
    let Some(neighbour) = view.neighbour(live.peer) else {
        return Ok(None);
    };
    import_from(alloc, view, rib, live, prefix, route, neighbour, steps)
}

/// The candidate that a held route of a neighbour is in a RIB, unless a rule denies it.
fn import_from<L: Ledger>(
    alloc: Global,
    view: &View,
    rib: u8,
    live: &Live,
    prefix: Prefix,
    route: &AttrRef,
    neighbour: &Neighbour,
    steps: &mut Steps<L>,
) -> Result<Option<Found>, NoMemory>
    ensures found { IfOk result (λ found. option_map as_candidate found
        ≡ imported (world_of view.now []) rib (session_of view.now [] live.now) prefix route.now.attrs neighbour.now) }
{
    let facts = live.facts(view.conf.asn);
    match passed(alloc, view, &facts, neighbour, rib, prefix, route, steps)? {
        None => Ok(None),
        Some((attrs, hop)) => {
            let attrs = with_given(attrs, hop);
            Ok(Some(found_of(view, live, &facts, route, attrs)))
        }
    }
}

/// The route to a prefix that the session of a number holds.
fn route_of(held: &AdjRibIn, number: u32, prefix: Prefix) -> Option<&AttrRef>
    ensures route { option_copied result ≡ route_at held.now prefix number }
    ensures by_prefix { IsStrictlySortedBy prefix_cmp (keys_of held.now) }
{
    route_in(held.of(prefix), number)
}

/// The route of a session among those to one prefix.
#[tactic(auto, using(crate::proofs::Held::attrs_found))]
fn route_in(entries: &[Entry], number: u32) -> Option<&AttrRef>
    ensures { option_copied result ≡ attrs_of number entries.now }
{
    match entry_of(entries, number) {
        Some(entry) => Some(&entry.attrs),
        None => None,
    }
}

/// The entry of a session.
fn entry_of(entries: &[Entry], number: u32) -> Option<&Entry>
    ensures { option_copied result ≡ find (λ entry. entry.session == number) entries.now }
{
    entries.iter().find(|entry| entry.session == number)
}

/// The attributes and the choice of the next hop behind the set of the neighbour and the rules, unless they deny the route.
#[tactic(auto, using(crate::proofs::Verdicts::said_is_left))]
fn passed<L: Ledger>(
    alloc: Global,
    view: &View,
    facts: &OpenFacts,
    neighbour: &Neighbour,
    rib: u8,
    prefix: Prefix,
    route: &AttrRef,
    steps: &mut Steps<L>,
) -> Result<Option<(Attrs, Hop)>, NoMemory>
    ensures { IfOk result (λ passed. passed ≡ verdict view.now.conf view.now.conf.rules
        (import_context view.now.conf facts.now neighbour.now rib prefix)
        (with_set (import_context view.now.conf facts.now neighbour.now rib prefix) neighbour.now.set route.now.attrs)) }
{
    let context = import_context(&view.conf, facts, neighbour, rib, prefix)?;
    let attrs: &Attrs = route;
    let set = with_set(alloc, &context, &neighbour.set, attrs.clone()?)?;
    let verdict = verdict_of(alloc, view, &context, &set, steps)?;
    Ok(left_by(set, verdict))
}

/// The verdict of the rules of the configuration.
fn verdict_of<L: Ledger>(
    alloc: Global,
    view: &View,
    context: &Context,
    route: &Attrs,
    steps: &mut Steps<L>,
) -> Result<Verdict, NoMemory>
    ensures { IfOk result (Says route.now (verdict view.now.conf view.now.conf.rules context.now route.now)) }
{
    verdict_goes_by_sets();
    let verdict = evaluate_skipping(
        alloc,
        &view.skips,
        &view.conf.rules,
        &view.sets,
        context,
        route,
        steps,
    )?;
    Ok(verdict)
}

/// What a verdict leaves of a route.
fn left_by(route: Attrs, verdict: Verdict) -> Option<(Attrs, Hop)>
    ensures { result ≡ left_by route verdict }
{
    match verdict {
        Verdict::Deny => None,
        Verdict::Same(hop) => Some((route, hop)),
        Verdict::Changed(attrs, hop) => Some((attrs, hop)),
    }
}

/// A route that passed the rules as a candidate.
fn found_of(view: &View, live: &Live, facts: &OpenFacts, route: &AttrRef, attrs: Attrs) -> Found
    ensures { as_candidate result ≡ record {
      from = origin_at facts.now.encoding.external live.now.peer;
      attrs = record { number = 0; attrs = attrs };
      eligible = not (has_number view.now.conf.asn route.now.attrs.path) && is_valid (world_of view.now []) attrs.hop;
      bgp_id = facts.now.id;
      own_as = view.now.conf.asn;
    } }
{
    let own_as = view.conf.asn;
    let eligible = !has_number(own_as, &route.path) && view.is_valid(attrs.hop);
    Found {
        from: origin_at(facts.encoding.external, live.peer),
        attrs,
        eligible,
        bgp_id: facts.id,
        own_as,
    }
}

fn origin_at(external: bool, peer: Addr) -> Origin
    ensures { result ≡ origin_at external peer }
{
    if external {
        Origin::External(peer)
    } else {
        Origin::Internal(peer)
    }
}

/// For which neighbour, RIB and prefix the rules `from` it are read.
fn import_context(
    conf: &Conf,
    facts: &OpenFacts,
    neighbour: &Neighbour,
    rib: u8,
    prefix: Prefix,
) -> Result<Context, NoMemory>
    ensures { IfOk result (λ context. context ≡ import_context conf.now facts.now neighbour.now rib prefix) }
{
    Ok(Context {
        to: false,
        rib,
        peer: neighbour.address,
        peer_as: facts.asn,
        group: neighbour.group.clone()?,
        external: facts.encoding.external,
        own_as: conf.asn,
        prefix,
    })
}

/// What the set of a neighbour makes of a route.
fn with_set(
    alloc: Global,
    context: &Context,
    set: &ItemList,
    route: Attrs,
) -> Result<Attrs, NoMemory>
    ensures { IfOk result (λ attrs. attrs ≡ with_set context.now set.now route) }
{
    let mut attrs = route;
    apply_set(alloc, set, context, &mut attrs)?;
    Ok(with_given(attrs, choose_hop(set, context, Hop::Unset)))
}

/// An address that was given becomes the next hop.
fn with_given(attrs: Attrs, hop: Hop) -> Attrs
    ensures { result ≡ with_given attrs hop }
{
    match hop {
        Hop::Given(address) => Attrs {
            hop: address,
            ..attrs
        },
        _ => attrs,
    }
}

/// Whether a path holds a number, in a set or a sequence (RFC 4271 section 9.1.2).
fn has_number(asn: u32, path: &Path) -> bool
    ensures { result ≡ has_number asn path.now }
{
    path.as_slice()
        .iter()
        .any(|segment| segment_has(asn, segment))
}

fn segment_has(asn: u32, segment: &Segment) -> bool
    ensures { result ≡ list_any (λ number. number == asn) (numbers_of segment.now) }
{
    match segment {
        Segment::Set(numbers) => numbers.iter().any(|number| *number == asn),
        Segment::Sequence(numbers) => numbers.iter().any(|number| *number == asn),
    }
}
