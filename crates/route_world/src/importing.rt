//! How routes come into a RIB.

ghost use Rattle.std.specs.Prelude.{◌≡◌, ◌++◌, IfOk, OnOk, Option, option_copied, option_map, option_to_list, ◌==◌, ◌&&◌};
ghost use Rattle.std.specs.List.{list_any};
ghost use Rattle.attr_model.specs.declared.attrs.Attrs.{Attrs};
ghost use Rattle.filter_engine.specs.declared.verdict.Hop.{Hop};
ghost use Rattle.attr_model.specs.Valid.{numbers_of};
ghost use Rattle.filter_engine.specs.Conditions.{same_address};
ghost use Rattle.conf_sets.specs.SameSets.{SameSets};
ghost use Rattle.filter_engine.specs.Named.{AreNamed};
ghost use Rattle.filter_engine.specs.Verdict.{Says, verdict};
ghost use Rattle.route_world.specs.World.{leads_to, is_yes, is_valid, neighbour_at};
ghost use Rattle.route_world.specs.Import.{with_given, with_set, import_context, origin_at, has_number, candidate_of, imported, import_at, left_by, network_attrs, network_context, network_candidate, network_at, candidates};

use crate::{AnswerList, Hops, Session, World};
use attr_model::{AttrRef, Attrs, Path, Segment};
use bgp_wire::OpenFacts;
use conf_tree::{Conf, ItemList, Members, Neighbour, Network};
use decision::{Candidate, Origin};
use filter_engine::{
    Context, Hop, Steps, Verdict, apply_set, choose_hop, evaluate, verdict_goes_by_sets,
};
use net_base::{Addr, Family, Items, NoMemory, Prefix, PrefixList};
use std::alloc::Global;
use std::rc::Rc;
use std::sync::ledger::Ledger;

/// Candidates of one prefix.
pub type CandidateList = Items<Candidate>;

/// The candidates of a prefix in a RIB: its network, then the routes of the sessions in their order.
#[tactic(auto, unfolding(crate::specs::Import::candidates))]
pub fn candidates<M: Members, L: Ledger>(
    alloc: Global,
    world: &World,
    sets: &M,
    rib: u8,
    prefix: Prefix,
    steps: &mut Steps<L>,
) -> Result<CandidateList, NoMemory>
    requires same_sets { SameSets (M.conf_of sets.now) world.now.conf }
    requires named { AreNamed (M.conf_of sets.now) world.now.conf.rules }
    ensures { IfOk result (λ found. found ≡ candidates world.now rib prefix) }
{
    let mut found = networks_of(alloc, &world.conf, prefix)?;
    for session in world.sessions.as_slice() {
        push_if(
            &mut found,
            import(alloc, world, sets, rib, session, prefix, steps)?,
        )?;
    }
    Ok(found)
}

/// Puts a candidate behind the others, where there is one.
fn push_if(found: &mut CandidateList, candidate: Option<Candidate>) -> Result<(), NoMemory>
    ensures { OnOk result (found.new ≡ found.old ++ option_to_list candidate) }
{
    if let Some(candidate) = candidate {
        found.push(candidate)?;
    }
    Ok(())
}

/// The candidate that the route of a session is in a RIB: by the set of its neighbour, and then by the rules `from` it.
/// None where it holds none of the prefix, a rule denies it, or the neighbour isn't in the configuration.
#[tactic(auto, unfolding(crate::specs::Import::import_at))]
pub fn import<M: Members, L: Ledger>(
    alloc: Global,
    world: &World,
    sets: &M,
    rib: u8,
    session: &Session,
    prefix: Prefix,
    steps: &mut Steps<L>,
) -> Result<Option<Candidate>, NoMemory>
    requires same_sets { SameSets (M.conf_of sets.now) world.now.conf }
    requires named { AreNamed (M.conf_of sets.now) world.now.conf.rules }
    ensures { IfOk result (λ found. found ≡ import_at world.now rib session.now prefix) }
{
    let Some(held) = session.held.get(prefix) else {
        return Ok(None);
    };
    let Some(neighbour) = neighbour_at(&world.conf, session.peer) else {
        return Ok(None);
    };
    import_from(
        alloc, world, sets, rib, session, prefix, held, neighbour, steps,
    )
}

/// The candidate that a held route of a neighbour is in a RIB, unless a rule denies it.
#[tactic(auto, using(crate::proofs::Verdicts::said_is_left))]
fn import_from<M: Members, L: Ledger>(
    alloc: Global,
    world: &World,
    sets: &M,
    rib: u8,
    session: &Session,
    prefix: Prefix,
    held: &Attrs,
    neighbour: &Neighbour,
    steps: &mut Steps<L>,
) -> Result<Option<Candidate>, NoMemory>
    requires same_sets { SameSets (M.conf_of sets.now) world.now.conf }
    requires named { AreNamed (M.conf_of sets.now) world.now.conf.rules }
    ensures { IfOk result (λ found. found ≡ imported world.now rib session.now prefix held.now neighbour.now) }
{
    let context = import_context(&world.conf, &session.facts, neighbour, rib, prefix)?;
    let route = with_set(alloc, &context, &neighbour.set, held.clone()?)?;
    let verdict = verdict_of(alloc, &world.conf, sets, &context, &route, steps)?;
    match passed(route, verdict) {
        None => Ok(None),
        Some((attrs, hop)) => Ok(Some(candidate_of(alloc, world, session, held, attrs, hop)?)),
    }
}

/// The verdict of the rules of a configuration, whose sets are at hand.
pub(crate) fn verdict_of<M: Members, L: Ledger>(
    alloc: Global,
    conf: &Conf,
    sets: &M,
    context: &Context,
    route: &Attrs,
    steps: &mut Steps<L>,
) -> Result<Verdict, NoMemory>
    requires same_sets { SameSets (M.conf_of sets.now) conf.now }
    requires named { AreNamed (M.conf_of sets.now) conf.now.rules }
    ensures { IfOk result (Says route.now (verdict conf.now conf.now.rules context.now route.now)) }
{
    verdict_goes_by_sets();
    let verdict = evaluate(alloc, &conf.rules, sets, context, route, steps)?;
    Ok(verdict)
}

/// The attributes and the choice of the next hop that a verdict leaves of a route, or None where it is denied.
pub(crate) fn passed(route: Attrs, verdict: Verdict) -> Option<(Attrs, Hop)>
    ensures { result ≡ left_by route verdict }
{
    match verdict {
        Verdict::Deny => None,
        Verdict::Same(hop) => Some((route, hop)),
        Verdict::Changed(attrs, hop) => Some((attrs, hop)),
    }
}

/// What a set of a neighbour or of a network makes of a route.
fn with_set(
    alloc: Global,
    context: &Context,
    set: &ItemList,
    route: Attrs,
) -> Result<Attrs, NoMemory>
    ensures { IfOk result (λ attrs. attrs ≡ with_set context.now set.now route) }
{
    let mut attrs = route;
    apply_set(alloc, set, context, &mut attrs)?;
    Ok(with_given(attrs, choose_hop(set, context, Hop::Unset)))
}

/// An address that was given becomes the next hop.
fn with_given(attrs: Attrs, hop: Hop) -> Attrs
    ensures { result ≡ with_given attrs hop }
{
    match hop {
        Hop::Given(address) => Attrs {
            hop: address,
            ..attrs
        },
        _ => attrs,
    }
}

/// For which neighbour, RIB and prefix the rules `from` it are read.
fn import_context(
    conf: &Conf,
    facts: &OpenFacts,
    neighbour: &Neighbour,
    rib: u8,
    prefix: Prefix,
) -> Result<Context, NoMemory>
    ensures { IfOk result (λ context. context ≡ import_context conf.now facts.now neighbour.now rib prefix) }
{
    Ok(Context {
        to: false,
        rib,
        peer: neighbour.address,
        peer_as: facts.asn,
        group: neighbour.group.clone()?,
        external: facts.encoding.external,
        own_as: conf.asn,
        prefix,
    })
}

/// A route that passed the rules as a candidate.
fn candidate_of(
    alloc: Global,
    world: &World,
    session: &Session,
    held: &Attrs,
    attrs: Attrs,
    hop: Hop,
) -> Result<Candidate, NoMemory>
    ensures { IfOk result (λ candidate. candidate ≡ candidate_of world.now session.now held.now (attrs, hop)) }
{
    let attrs = with_given(attrs, hop);
    let eligible = !has_number(world.conf.asn, &held.path) && is_valid(world, attrs.hop);
    Ok(Candidate {
        from: origin_at(session.facts.encoding.external, session.peer),
        attrs: unnumbered(alloc, attrs)?,
        eligible,
        bgp_id: session.facts.id,
        own_as: world.conf.asn,
    })
}

/// Attributes that stand in no table.
fn unnumbered(alloc: Global, attrs: Attrs) -> Result<AttrRef, NoMemory>
    ensures { IfOk result (λ one. one ≡ record { number = 0; attrs = attrs }) }
{
    Ok(AttrRef {
        number: 0,
        attrs: Rc::new(alloc, attrs)?,
    })
}

fn origin_at(external: bool, peer: Addr) -> Origin
    ensures { result ≡ origin_at external peer }
{
    if external {
        Origin::External(peer)
    } else {
        Origin::Internal(peer)
    }
}

/// Whether a path holds a number, in a set or a sequence.
fn has_number(asn: u32, path: &Path) -> bool
    ensures { result ≡ has_number asn path.now }
{
    path.as_slice()
        .iter()
        .any(|segment| segment_has(asn, segment))
}

fn segment_has(asn: u32, segment: &Segment) -> bool
    ensures { result ≡ list_any (λ number. number == asn) (numbers_of segment.now) }
{
    match segment {
        Segment::Set(numbers) => numbers.iter().any(|number| *number == asn),
        Segment::Sequence(numbers) => numbers.iter().any(|number| *number == asn),
    }
}

/// Whether an address is valid as a next hop.
fn is_valid(world: &World, addr: Addr) -> bool
    ensures { result ≡ is_valid world.now addr }
{
    match &world.hops {
        Hops::Routed(routes) => is_led_to(routes, world.conf.qualify_default, addr),
        Hops::Answered(answers) => is_answered(answers, addr),
    }
}

/// Whether a kernel route leads to an address.
fn is_led_to(routes: &PrefixList, by_default: bool, addr: Addr) -> bool
    ensures { result ≡ list_any (leads_to by_default addr) routes.now }
{
    routes
        .iter()
        .any(|route| leads_to(by_default, addr, *route))
}

fn leads_to(by_default: bool, addr: Addr, route: Prefix) -> bool
    ensures { result ≡ leads_to by_default addr route }
{
    route.covers(Prefix::host(addr)) && (by_default || 0 < route.len)
}

/// Whether an answer of an address is yes.
fn is_answered(answers: &AnswerList, addr: Addr) -> bool
    ensures { result ≡ list_any (λ entry. same_address entry.0 addr && is_yes entry.1) answers.now }
{
    answers
        .iter()
        .any(|entry| entry.0 == addr && entry.1 == Some(true))
}

/// The network of a prefix as a list of at most one candidate.
fn networks_of(alloc: Global, conf: &Conf, prefix: Prefix) -> Result<CandidateList, NoMemory>
    ensures { IfOk result (λ found. found ≡ option_to_list (option_map (network_candidate conf.now) (network_at conf.now prefix))) }
{
    let mut found = Items::new(alloc);
    if let Some(network) = network_at(conf, prefix) {
        found.push(network_candidate(alloc, conf, network)?)?;
    }
    Ok(found)
}

fn network_at(conf: &Conf, prefix: Prefix) -> Option<&Network>
    ensures { option_copied result ≡ network_at conf.now prefix }
{
    conf.networks
        .iter()
        .find(|network| network.prefix == prefix)
}

/// A network as a candidate: no rule is read for it, and it is always eligible.
pub fn network_candidate(
    alloc: Global,
    conf: &Conf,
    network: &Network,
) -> Result<Candidate, NoMemory>
    ensures { IfOk result (λ candidate. candidate ≡ network_candidate conf.now network.now) }
{
    let attrs = network_with_set(alloc, conf, network)?;
    Ok(Candidate {
        from: Origin::Local,
        attrs: unnumbered(alloc, attrs)?,
        eligible: true,
        bgp_id: conf.router_id,
        own_as: conf.asn,
    })
}

/// The attributes of a network with its set.
pub(crate) fn network_with_set(
    alloc: Global,
    conf: &Conf,
    network: &Network,
) -> Result<Attrs, NoMemory>
    ensures { IfOk result (λ attrs. attrs ≡ (network_candidate conf.now network.now).attrs.attrs) }
{
    let context = network_context(conf, network.prefix);
    let attrs = network_attrs(alloc, network.prefix.family);
    with_set(alloc, &context, &network.set, attrs)
}

/// The attributes with which a network enters every RIB (RFC 4271 section 5.1).
pub fn network_attrs(alloc: Global, family: Family) -> Attrs
    ensures { result ≡ network_attrs family }
{
    Attrs {
        origin: 0,
        path: Path::new(alloc),
        hop: Addr::unspecified(family),
        med: None,
        local_pref: None,
        atomic: false,
        aggregator: None,
        communities: Items::new(alloc),
        large: Items::new(alloc),
        unknown: Items::new(alloc),
        partial: 0,
        weight: 0,
    }
}

/// The set of a network speaks of the own AS alone.
fn network_context(conf: &Conf, prefix: Prefix) -> Context
    ensures { result ≡ network_context conf.now prefix }
{
    Context {
        to: false,
        rib: 0,
        peer: Addr::unspecified(prefix.family),
        peer_as: conf.asn,
        group: None,
        external: false,
        own_as: conf.asn,
        prefix,
    }
}

/// The neighbour of an address.
pub(crate) fn neighbour_at(conf: &Conf, peer: Addr) -> Option<&Neighbour>
    ensures { option_copied result ≡ neighbour_at conf.now peer }
{
    conf.neighbours
        .iter()
        .find(|neighbour| neighbour.address == peer)
}
