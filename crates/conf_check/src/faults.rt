//! The checks of a text in their order.
ghost use Rattle.std.specs.Prelude.{◌≡◌, IfOk, bytes_eq, option_copied};
ghost use Rattle.std.specs.List.{list_any};
ghost use Rattle.conf_tree.specs.Checks.{full_group, groups_of, has_unknown, is_unknown_peer, is_unknown_rib, is_unknown_rule, is_unknown_set, missing_global, unknown_rule};
ghost use Rattle.conf_check.specs.Names.{HasOrderedSets};
ghost use Rattle.conf_check.specs.Faults.{family_mismatch_in, first_fault_in, unknown_name_in, unknown_neighbour_in, without_as_in};

use crate::doubles::{double_name, double_neighbour, fault_at, first_line};
use crate::globals::Globals;
use crate::names::{as_set_id, origin_set_id, prefix_set_id, rib_number};
use crate::placed::PlacedNeighbour;
use conf_tree::{ConditionBlock, Conf, Peer, RuleBlock, Statement, StatementLine, Text};
use net_base::{ConfFault, ConfKind, Items, NoMemory};
use std::alloc::Global;

/// The fault of the first check that finds one, each over the whole text before the next.
#[tactic(auto, unfolding(crate::specs::Faults::first_fault_in))]
pub(crate) fn first_fault(
    alloc: Global,
    lines: &[StatementLine],
    conf: &Conf,
    all: &[PlacedNeighbour],
) -> Result<Option<ConfFault>, NoMemory>
    requires { HasOrderedSets conf.now }
    ensures { IfOk result (λ fault. fault ≡ first_fault_in lines.now conf.now all.now) }
{
    if let Some(fault) = missing_global(lines) {
        return Ok(Some(fault));
    }
    if let Some(fault) = double_name(alloc, lines)? {
        return Ok(Some(fault));
    }
    if let Some(fault) = double_neighbour(alloc, all)? {
        return Ok(Some(fault));
    }
    if let Some(fault) = without_as(all) {
        return Ok(Some(fault));
    }
    if let Some(fault) = unknown_name(alloc, lines, conf, all)? {
        return Ok(Some(fault));
    }
    Ok(family_mismatch(all))
}

/// `NoAs`, then `NoRouterId`, at line 0.
#[tactic(auto, unfolding(conf_tree::specs::Checks::missing_global))]
fn missing_global(lines: &[StatementLine]) -> Option<ConfFault>
    ensures { result ≡ missing_global lines.now }
{
    let globals = Globals::of(lines);
    if globals.asn.is_none() {
        return fault_at(ConfKind::NoAs, Some(0));
    }
    if globals.router_id.is_none() {
        return fault_at(ConfKind::NoRouterId, Some(0));
    }
    None
}

/// `NoAs` at the first neighbour without an AS, of its own or of its group.
#[tactic(auto, unfolding(crate::specs::Faults::without_as_in))]
fn without_as(all: &[PlacedNeighbour]) -> Option<ConfFault>
    ensures { result ≡ without_as_in all.now }
{
    for placed in all {
        if placed.settings.plain.remote_as.is_none() {
            return fault_at(ConfKind::NoAs, Some(placed.line));
        }
    }
    None
}

/// `FamilyMismatch` at the first neighbour with an own address of another family.
#[tactic(auto, unfolding(crate::specs::Faults::family_mismatch_in))]
fn family_mismatch(all: &[PlacedNeighbour]) -> Option<ConfFault>
    ensures { result ≡ family_mismatch_in all.now }
{
    for placed in all {
        if let Some(own) = placed.settings.plain.local_address
            && own.family != placed.address.family
        {
            return fault_at(ConfKind::FamilyMismatch, Some(placed.line));
        }
    }
    None
}

/// `UnknownName` at the first neighbour or rule that names something that there isn't.
#[tactic(auto, unfolding(crate::specs::Faults::unknown_name_in))]
fn unknown_name(
    alloc: Global,
    lines: &[StatementLine],
    conf: &Conf,
    all: &[PlacedNeighbour],
) -> Result<Option<ConfFault>, NoMemory>
    requires { HasOrderedSets conf.now }
    ensures { IfOk result (λ fault. fault ≡ unknown_name_in conf.now lines.now all.now) }
{
    let neighbour = unknown_neighbour(conf, all);
    let rule = unknown_rule(alloc, conf, lines)?;
    let line = first_line(neighbour, rule);
    Ok(fault_at(ConfKind::UnknownName, line))
}

#[tactic(auto, unfolding(crate::specs::Faults::unknown_neighbour_in))]
fn unknown_neighbour(conf: &Conf, all: &[PlacedNeighbour]) -> Option<u32>
    ensures { result ≡ unknown_neighbour_in conf.now all.now }
{
    for placed in all {
        if is_unknown_rib(conf, placed.settings.rib.as_ref()) {
            return Some(placed.line);
        }
    }
    None
}

fn is_unknown_rib(conf: &Conf, name: Option<&Text>) -> bool
    ensures { result ≡ is_unknown_rib conf.now (option_copied name.entry) }
{
    match name {
        Some(name) => rib_number(conf.ribs.as_slice(), name).is_none(),
        None => false,
    }
}

#[tactic(auto, unfolding(conf_tree::specs::Checks::unknown_rule))]
fn unknown_rule(
    alloc: Global,
    conf: &Conf,
    lines: &[StatementLine],
) -> Result<Option<u32>, NoMemory>
    requires { HasOrderedSets conf.now }
    ensures { IfOk result (λ line. line ≡ unknown_rule conf.now lines.now) }
{
    let groups = groups(alloc, lines)?;
    for line in lines {
        if is_unknown_rule(conf, &groups, &line.statement) {
            return Ok(Some(line.line));
        }
    }
    Ok(None)
}

/// The names of the groups that have neighbours.
fn groups(alloc: Global, lines: &[StatementLine]) -> Result<Vec<Text>, NoMemory>
    ensures { IfOk result (λ groups. groups.items ≡ groups_of lines.now) }
{
    let mut groups = Vec::new(alloc);
    for line in lines {
        if let Some(name) = full_group(&line.statement) {
            groups.push(Items::from_slice(alloc, name.as_slice())?)?;
        }
    }
    Ok(groups)
}

fn full_group(statement: &Statement) -> Option<&Text>
    ensures { option_copied result ≡ full_group statement.now }
{
    match statement {
        Statement::Group(group) => {
            if group.neighbours.is_empty() {
                None
            } else {
                Some(&group.name)
            }
        }
        _ => None,
    }
}

fn is_unknown_rule(conf: &Conf, groups: &[Text], statement: &Statement) -> bool
    requires { HasOrderedSets conf.now }
    ensures { result ≡ is_unknown_rule conf.now groups.now statement.now }
{
    match statement {
        Statement::Rule(rule) => has_unknown(conf, groups, rule),
        _ => false,
    }
}

/// Whether a rule names a RIB, a group or a set that there isn't.
#[tactic(auto, unfolding(conf_tree::specs::Checks::has_unknown))]
fn has_unknown(conf: &Conf, groups: &[Text], rule: &RuleBlock) -> bool
    requires { HasOrderedSets conf.now }
    ensures { result ≡ has_unknown conf.now groups.now rule.now }
{
    if is_unknown_rib(conf, rule.rib.as_ref()) {
        return true;
    }
    if has_unknown_peer(groups, rule.peers.as_slice()) {
        return true;
    }
    has_unknown_set(conf, rule.conditions.as_slice())
}

fn has_unknown_peer(groups: &[Text], peers: &[Peer]) -> bool
    ensures { result ≡ list_any (is_unknown_peer groups.now) peers.now }
{
    peers.iter().any(|peer| is_unknown_peer(groups, peer))
}

fn is_unknown_peer(groups: &[Text], peer: &Peer) -> bool
    ensures { result ≡ is_unknown_peer groups.now peer.now }
{
    match peer {
        Peer::Group(name) => !has_group(groups, name),
        _ => false,
    }
}

fn has_group(groups: &[Text], name: &Text) -> bool
    ensures { result ≡ list_any (bytes_eq name.now) groups.now }
{
    groups.iter().any(|group| name == group)
}

fn has_unknown_set(conf: &Conf, conditions: &[ConditionBlock]) -> bool
    requires { HasOrderedSets conf.now }
    ensures { result ≡ list_any (is_unknown_set conf.now) conditions.now }
{
    conditions
        .iter()
        .any(|condition| is_unknown_set(conf, condition))
}

fn is_unknown_set(conf: &Conf, condition: &ConditionBlock) -> bool
    requires { HasOrderedSets conf.now }
    ensures { result ≡ is_unknown_set conf.now condition.now }
{
    match condition {
        ConditionBlock::PrefixSet(name) => prefix_set_id(conf, name).is_none(),
        ConditionBlock::PrefixSetOrLonger(name) => prefix_set_id(conf, name).is_none(),
        ConditionBlock::PathSet(_, name) => as_set_id(conf, name).is_none(),
        ConditionBlock::OriginSet(name) => origin_set_id(conf, name).is_none(),
        _ => false,
    }
}
