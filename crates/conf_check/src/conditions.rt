//! The conditions of flat rules, with sets looked up and brace lists expanded.
ghost use Rattle.std.specs.Prelude.{◌≡◌, ◌∷◌, [], IfOk, OnOk, map, flat_map, option_to_list};
ghost use Rattle.conf_tree.specs.declared.rule.Condition.TheVariants as condition;
ghost use Rattle.conf_tree.specs.Flat.{ways, choices, flat_conditions};
ghost use Rattle.conf_check.specs.Names.{HasOrderedSets};

use crate::choices::choices;
use crate::names::{as_set_id, origin_set_id, prefix_set_id};
use conf_tree::{
    AsNumberList, Condition, ConditionBlock, ConditionList, Conf, PathPart, PrefixRangeList,
};
use net_base::{Items, NoMemory};
use std::alloc::Global;

/// The conditions of each flat rule of a rule: prefixes outermost, then AS numbers.
#[tactic(auto, unfolding(conf_tree::specs::Flat::flat_conditions))]
pub(crate) fn flat_conditions(
    alloc: Global,
    conf: &Conf,
    conditions: &[ConditionBlock],
) -> Result<Vec<ConditionList>, NoMemory>
    requires { HasOrderedSets conf.now }
    ensures { IfOk result (λ all. all.items ≡ flat_conditions conf.now conditions.now) }
{
    let ways = all_ways(alloc, conf, conditions)?;
    let apart = choices(alloc, &ways)?;
    all_choices(alloc, &apart)
}

fn all_ways(
    alloc: Global,
    conf: &Conf,
    conditions: &[ConditionBlock],
) -> Result<Vec<Items<ConditionList>>, NoMemory>
    requires { HasOrderedSets conf.now }
    ensures { IfOk result (λ all. all.items ≡ map (ways conf.now) conditions.now) }
{
    let mut all = Vec::new(alloc);
    for condition in conditions {
        let ways = ways(alloc, conf, condition)?;
        all.push(ways)?;
    }
    Ok(all)
}

fn all_choices(
    alloc: Global,
    apart: &[Items<ConditionList>],
) -> Result<Vec<ConditionList>, NoMemory>
    ensures { IfOk result (λ all. all.items ≡ flat_map choices apart.now) }
{
    let mut all = Vec::new(alloc);
    for lists in apart {
        let mut more = choices(alloc, lists.as_slice())?;
        all.append(&mut more)?;
    }
    Ok(all)
}

/// What a condition asks: lists of which one is chosen, and then a member of it.
#[tactic(auto, unfolding(conf_tree::specs::Flat::ways))]
fn ways(
    alloc: Global,
    conf: &Conf,
    block: &ConditionBlock,
) -> Result<Items<ConditionList>, NoMemory>
    requires { HasOrderedSets conf.now }
    ensures { IfOk result (λ all. all ≡ ways conf.now block.now) }
{
    match block {
        ConditionBlock::Prefixes(entries) => each_prefix(alloc, entries),
        ConditionBlock::PrefixSet(name) => {
            let set = prefix_set_id(conf, name).map(Condition::PrefixSet);
            way(alloc, set)
        }
        ConditionBlock::PrefixSetOrLonger(name) => {
            let set = prefix_set_id(conf, name).map(Condition::PrefixSetOrLonger);
            way(alloc, set)
        }
        ConditionBlock::PathNumbers(part, numbers) => one_of_numbers(alloc, *part, numbers),
        ConditionBlock::PathSet(part, name) => {
            let set = as_set_id(conf, name).map(|set| Condition::PathSet(*part, set));
            way(alloc, set)
        }
        ConditionBlock::OriginSet(name) => {
            let set = origin_set_id(conf, name).map(Condition::OriginSet);
            way(alloc, set)
        }
        ConditionBlock::Ovs(state) => way(alloc, Some(Condition::Ovs(*state))),
        ConditionBlock::Community(pattern) => way(alloc, Some(Condition::Community(*pattern))),
        ConditionBlock::LargeCommunity(pattern) => {
            way(alloc, Some(Condition::LargeCommunity(*pattern)))
        }
        ConditionBlock::MaxAsLen(most) => way(alloc, Some(Condition::MaxAsLen(*most))),
        ConditionBlock::NextHop(address) => way(alloc, Some(Condition::NextHop(*address))),
        ConditionBlock::Family(family) => way(alloc, Some(Condition::Family(*family))),
    }
}

/// One list, of the condition if there is one.
fn way(alloc: Global, condition: Option<Condition>) -> Result<Items<ConditionList>, NoMemory>
    ensures { IfOk result (λ all. all ≡ option_to_list condition ∷ []) }
{
    let mut members = Items::new(alloc);
    if let Some(condition) = condition {
        members.push(condition)?;
    }
    one_list(alloc, members)
}

fn one_list(alloc: Global, members: ConditionList) -> Result<Items<ConditionList>, NoMemory>
    ensures { IfOk result (λ all. all ≡ members ∷ []) }
{
    let mut all = Items::new(alloc);
    all.push(members)?;
    Ok(all)
}

/// A list for each prefix.
fn each_prefix(alloc: Global, entries: &PrefixRangeList) -> Result<Items<ConditionList>, NoMemory>
    ensures { IfOk result (λ all. all ≡ map (λ entry. condition.Prefix entry ∷ []) entries.now) }
{
    let mut all = Items::new(alloc);
    for entry in entries.as_slice() {
        let mut members = Items::new(alloc);
        members.push(Condition::Prefix(*entry))?;
        all.push(members)?;
    }
    Ok(all)
}

/// One list of the AS numbers.
fn one_of_numbers(
    alloc: Global,
    part: PathPart,
    numbers: &AsNumberList,
) -> Result<Items<ConditionList>, NoMemory>
    ensures { IfOk result (λ all. all ≡ map (condition.PathNumber part) numbers.now ∷ []) }
{
    let mut members = Items::new(alloc);
    for number in numbers.as_slice() {
        members.push(Condition::PathNumber(part, *number))?;
    }
    one_list(alloc, members)
}
