//! What sessions are told.

ghost use Rattle.std.specs.Prelude.{◌≡◌, ◌==◌, IfOk, Option, option_and_then};
ghost use Rattle.std.specs.List.{list_any};
ghost use Rattle.conf_sets.specs.SameSets.{SameSets};
ghost use Rattle.filter_engine.specs.Named.{AreNamed};
ghost use Rattle.route_world.specs.Import.{left_by};
ghost use Rattle.route_world.specs.Export.{came_from, is_internal, is_local, has_community, is_held_by_community, exchanges, is_kept_back, without_med, export_context, router_address, own_address_or, own_address, specified_or, told_hop, told_attrs, as_told, if_it_fits, told_if_it_fits, export};

use crate::importing::{passed, verdict_of};
use attr_codec::size;
use attr_model::Attrs;
use bgp_wire::{Encoding, OpenFacts};
use conf_tree::{Conf, Members, Neighbour};
use decision::{Candidate, Origin};
use filter_engine::{Context, Hop, Steps, Verdict};
use net_base::{Addr, Family, NoMemory, Prefix};
use std::alloc::Global;
use std::sync::ledger::Ledger;

/// The greatest length of a message in bytes (RFC 4271 section 4.1).
const MOST_MESSAGE_BYTES: usize = 4096;

/// RFC 1997: such a route goes to no other AS.
const NO_EXPORT: u32 = 0xffff_ff01;

/// RFC 1997: such a route goes to nobody.
const NO_ADVERTISE: u32 = 0xffff_ff02;

/// RFC 1997: such a route goes to no other AS.
const NO_EXPORT_SUBCONFED: u32 = 0xffff_ff03;

/// What a session with this neighbour is told of the best route to a prefix: None where it came from there, where it is internal
/// and so is the session, where a community or the agreed families keep it back, where a rule `to` the neighbour denies
/// it, where there is no next hop to tell, and where its UPDATE would be longer than a message may be.
#[tactic(auto, using(crate::proofs::Verdicts::said_is_left), unfolding(crate::specs::Export::export))]
pub fn export<M: Members, L: Ledger>(
    alloc: Global,
    conf: &Conf,
    sets: &M,
    facts: &OpenFacts,
    neighbour: &Neighbour,
    prefix: Prefix,
    best: &Candidate,
    steps: &mut Steps<L>,
) -> Result<Option<Attrs>, NoMemory>
    requires same_sets { SameSets (M.conf_of sets.now) conf.now }
    requires named { AreNamed (M.conf_of sets.now) conf.now.rules }
    ensures { IfOk result (λ told. told ≡ export conf.now facts.now neighbour.now prefix best.now) }
{
    if is_kept_back(facts.encoding, neighbour, prefix, best) {
        return Ok(None);
    }
    let context = export_context(conf, facts, neighbour, prefix)?;
    let attrs: &Attrs = &best.attrs;
    let route = without_med(facts.encoding.external, best.from, attrs.clone()?);
    let verdict = verdict_of(alloc, conf, sets, &context, &route, steps)?;
    let told = told_by(alloc, conf, facts, neighbour, prefix, route, verdict)?;
    Ok(told)
}

/// What is told of a route by a verdict.
fn told_by(
    alloc: Global,
    conf: &Conf,
    facts: &OpenFacts,
    neighbour: &Neighbour,
    prefix: Prefix,
    route: Attrs,
    verdict: Verdict,
) -> Result<Option<Attrs>, NoMemory>
    ensures { IfOk result (λ told. told ≡ option_and_then (told_if_it_fits conf.now facts.now neighbour.now prefix) (left_by route verdict)) }
{
    match passed(route, verdict) {
        None => Ok(None),
        Some((attrs, hop)) => told_if_it_fits(alloc, conf, facts, neighbour, prefix, attrs, hop),
    }
}

/// What is told of a route that passed the rules.
fn told_if_it_fits(
    alloc: Global,
    conf: &Conf,
    facts: &OpenFacts,
    neighbour: &Neighbour,
    prefix: Prefix,
    attrs: Attrs,
    choice: Hop,
) -> Result<Option<Attrs>, NoMemory>
    ensures { IfOk result (λ told. told ≡ told_if_it_fits conf.now facts.now neighbour.now prefix (attrs, choice)) }
{
    match as_told(alloc, conf, facts, neighbour, prefix, attrs, choice)? {
        None => Ok(None),
        Some(told) => Ok(if_it_fits(facts.encoding, prefix, told)),
    }
}

/// Whether something keeps a route back before any rule is read.
fn is_kept_back(enc: Encoding, neighbour: &Neighbour, prefix: Prefix, best: &Candidate) -> bool
    ensures { result ≡ is_kept_back enc neighbour.now prefix best.now }
{
    came_from(neighbour.address, best.from)
        || (is_internal(best.from) && !enc.external)
        || is_held_by_community(enc.external, &best.attrs)
        || !exchanges(enc, neighbour, prefix.family)
}

fn came_from(peer: Addr, from: Origin) -> bool
    ensures { result ≡ came_from peer from }
{
    match from {
        Origin::Local => false,
        Origin::External(address) | Origin::Internal(address) => address == peer,
    }
}

fn is_internal(from: Origin) -> bool
    ensures { result ≡ is_internal from }
{
    matches!(from, Origin::Internal(_))
}

fn is_local(from: Origin) -> bool
    ensures { result ≡ is_local from }
{
    matches!(from, Origin::Local)
}

fn has_community(community: u32, attrs: &Attrs) -> bool
    ensures { result ≡ has_community community attrs.now }
{
    attrs.communities.iter().any(|other| *other == community)
}

/// Whether a community keeps a route from a session.
fn is_held_by_community(external: bool, attrs: &Attrs) -> bool
    ensures { result ≡ is_held_by_community external attrs.now }
{
    has_community(NO_ADVERTISE, attrs)
        || (external
            && (has_community(NO_EXPORT, attrs) || has_community(NO_EXPORT_SUBCONFED, attrs)))
}

/// Whether the family is agreed, and announced by the neighbour's configuration.
fn exchanges(enc: Encoding, neighbour: &Neighbour, family: Family) -> bool
    ensures { result ≡ exchanges enc neighbour.now family }
{
    match family {
        Family::V4 => enc.v4 && neighbour.announce_v4,
        Family::V6 => enc.v6 && neighbour.announce_v6,
    }
}

/// A MED that came from a neighbour goes to no other AS.
fn without_med(external: bool, from: Origin, attrs: Attrs) -> Attrs
    ensures { result ≡ without_med external from attrs }
{
    if external && !is_local(from) {
        Attrs { med: None, ..attrs }
    } else {
        attrs
    }
}

/// For which neighbour and prefix the rules `to` it are read.
fn export_context(
    conf: &Conf,
    facts: &OpenFacts,
    neighbour: &Neighbour,
    prefix: Prefix,
) -> Result<Context, NoMemory>
    ensures { IfOk result (λ context. context ≡ export_context conf.now facts.now neighbour.now prefix) }
{
    Ok(Context {
        to: true,
        rib: neighbour.rib,
        peer: neighbour.address,
        peer_as: facts.asn,
        group: neighbour.group.clone()?,
        external: facts.encoding.external,
        own_as: conf.asn,
        prefix,
    })
}

/// The own address of a session for a family, where there is one.
fn own_address(conf: &Conf, neighbour: &Neighbour, family: Family) -> Option<Addr>
    ensures { result ≡ own_address conf.now neighbour.now family }
{
    match neighbour.local_address {
        Some(local) if local.family == family => Some(local),
        _ => router_address(conf, family),
    }
}

fn router_address(conf: &Conf, family: Family) -> Option<Addr>
    ensures { result ≡ router_address conf.now family }
{
    match family {
        Family::V4 => Some(Addr::of_v4(conf.router_id)),
        Family::V6 => None,
    }
}

/// An unspecified next hop becomes the own address.
fn specified_or(own: Option<Addr>, hop: Addr) -> Option<Addr>
    ensures { result ≡ specified_or own hop }
{
    if hop.bits == 0 { own } else { Some(hop) }
}

/// The next hop that is told, where there is one.
fn told_hop(own: Option<Addr>, external: bool, choice: Hop, hop: Addr) -> Option<Addr>
    ensures { result ≡ told_hop own external choice hop }
{
    match choice {
        Hop::SelfHop => own,
        Hop::NoModify => specified_or(own, hop),
        Hop::Given(address) => specified_or(own, address),
        Hop::Unset => {
            if external {
                own
            } else {
                specified_or(own, hop)
            }
        }
    }
}

/// The attributes behind the rules as they are told, unless there is no next hop to tell.
fn as_told(
    alloc: Global,
    conf: &Conf,
    facts: &OpenFacts,
    neighbour: &Neighbour,
    prefix: Prefix,
    attrs: Attrs,
    choice: Hop,
) -> Result<Option<Attrs>, NoMemory>
    ensures { IfOk result (λ told. told ≡ as_told conf.now facts.now neighbour.now prefix (attrs, choice)) }
{
    let own = own_address(conf, neighbour, prefix.family);
    match told_hop(own, facts.encoding.external, choice, attrs.hop) {
        None => Ok(None),
        Some(hop) => Ok(Some(told_attrs(alloc, conf, facts.encoding.external, attrs, hop)?)),
    }
}

fn told_attrs(
    alloc: Global,
    conf: &Conf,
    external: bool,
    attrs: Attrs,
    hop: Addr,
) -> Result<Attrs, NoMemory>
    ensures { IfOk result (λ told. told ≡ told_attrs conf.now external attrs hop) }
{
    let local_pref = if external {
        None
    } else {
        Some(attrs.local_pref.unwrap_or(100))
    };
    let mut told = Attrs {
        hop,
        weight: 0,
        local_pref,
        ..attrs
    };
    if external {
        told.path.prepend(alloc, conf.asn, 1)?;
    }
    Ok(told)
}

/// The attributes, unless their UPDATE would be too long with this prefix alone.
fn if_it_fits(enc: Encoding, prefix: Prefix, attrs: Attrs) -> Option<Attrs>
    ensures { result ≡ if_it_fits enc prefix attrs }
{
    let nlri = 1 + (prefix.len as usize + 7) / 8;
    if size(enc, &attrs, nlri) <= MOST_MESSAGE_BYTES {
        Some(attrs)
    } else {
        None
    }
}
