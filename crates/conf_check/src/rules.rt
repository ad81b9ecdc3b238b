//! The flat rules, in the order of the text.
ghost use Rattle.std.specs.Prelude.{◌≡◌, ◌++◌, IfOk, OnOk, map, option_and_then, option_copied};
ghost use Rattle.conf_tree.specs.Flat.{flat_rules, rib_number, rule_with, rules_of};
ghost use Rattle.conf_check.specs.Names.{HasOrderedSets};

use crate::conditions::flat_conditions;
use crate::names::rib_number;
use conf_tree::{
    ConditionList, Conf, Peer, Rib, Rule, RuleBlock, RuleList, Statement, StatementLine, Text,
};
use net_base::{Items, NoMemory};
use std::alloc::Global;

/// The flat rules of a text, in its order.
#[tactic(auto, unfolding(conf_tree::specs::Flat::rules_of))]
pub(crate) fn rules(
    alloc: Global,
    conf: &Conf,
    lines: &[StatementLine],
) -> Result<RuleList, NoMemory>
    requires { HasOrderedSets conf.now }
    ensures { IfOk result (λ list. list ≡ rules_of conf.now lines.now) }
{
    let mut rules = Items::new(alloc);
    for line in lines {
        if let Statement::Rule(block) = &line.statement {
            add_rules(alloc, &mut rules, conf, block)?;
        }
    }
    Ok(rules)
}

/// Adds the flat rules of a rule, peers outermost.
#[tactic(auto, unfolding(conf_tree::specs::Flat::flat_rules))]
fn add_rules(
    alloc: Global,
    rules: &mut RuleList,
    conf: &Conf,
    block: &RuleBlock,
) -> Result<(), NoMemory>
    requires { HasOrderedSets conf.now }
    ensures { OnOk result (rules.new ≡ rules.old ++ flat_rules conf.now block.now) }
{
    let conditions = flat_conditions(alloc, conf, block.conditions.as_slice())?;
    for peer in block.peers.as_slice() {
        add_for_peer(alloc, rules, conf, block, peer, &conditions)?;
    }
    Ok(())
}

/// Adds the flat rules of a rule for one peer.
fn add_for_peer(
    alloc: Global,
    rules: &mut RuleList,
    conf: &Conf,
    block: &RuleBlock,
    peer: &Peer,
    conditions: &[ConditionList],
) -> Result<(), NoMemory>
    ensures { OnOk result (rules.new ≡ rules.old ++ map (rule_with conf.now block.now peer.now) conditions.now) }
{
    for list in conditions {
        let rule = rule_with(alloc, conf, block, peer, list)?;
        rules.push(rule)?;
    }
    Ok(())
}

#[tactic(auto, unfolding(conf_tree::specs::Flat::rule_with))]
fn rule_with(
    alloc: Global,
    conf: &Conf,
    block: &RuleBlock,
    peer: &Peer,
    conditions: &ConditionList,
) -> Result<Rule, NoMemory>
    ensures { IfOk result (λ rule. rule ≡ rule_with conf.now block.now peer.now conditions.now) }
{
    Ok(Rule {
        action: block.action,
        quick: block.quick,
        rib: rib_of(conf.ribs.as_slice(), block.rib.as_ref()),
        direction: block.direction,
        peer: peer_copy(alloc, peer)?,
        conditions: Items::from_slice(alloc, conditions.as_slice())?,
        set: Items::from_slice(alloc, block.set.as_slice())?,
    })
}

/// The number of a RIB, where one is named.
fn rib_of(ribs: &[Rib], name: Option<&Text>) -> Option<u8>
    ensures { result ≡ option_and_then (rib_number ribs.now) (option_copied name.entry) }
{
    match name {
        Some(name) => rib_number(ribs, name),
        None => None,
    }
}

fn peer_copy(alloc: Global, peer: &Peer) -> Result<Peer, NoMemory>
    ensures { IfOk result (λ copy. copy ≡ peer.now) }
{
    Ok(match peer {
        Peer::Any => Peer::Any,
        Peer::Ebgp => Peer::Ebgp,
        Peer::Ibgp => Peer::Ibgp,
        Peer::Address(address) => Peer::Address(*address),
        Peer::Group(name) => Peer::Group(Items::from_slice(alloc, name.as_slice())?),
        Peer::As(asn) => Peer::As(*asn),
    })
}
