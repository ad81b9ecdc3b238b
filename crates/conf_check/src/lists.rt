//! The lists of a configuration: listening addresses, RIBs, sets, networks.
ghost use Rattle.std.specs.Prelude.{◌≡◌, IfOk, OnOk, map, option_copied};
ghost use Rattle.std.specs.BTreeMap.{insert_entry};
ghost use Rattle.net_base.specs.Order.{prefix_cmp};
ghost use Rattle.conf_tree.specs.Said.{said, listen_of, rib_of};
ghost use Rattle.conf_tree.specs.Flat.{text_cmp, prefix_sets_of, as_sets_of, origin_sets_of, networks_of};
ghost use Rattle.conf_check.specs.Lists.{prefix_sets_by_name, as_sets_by_name, origin_sets_by_name, networks_by_prefix};

use crate::ordered::{numbers_in_order, ranges_in_order, roas_in_order};
use conf_tree::{
    AsNumberList, AsSetConf, AsSetConfList, ItemList, ListenList, Network, NetworkList,
    OriginSetConf, OriginSetConfList, PrefixRangeList, PrefixSetConf, PrefixSetConfList, Rib,
    RibList, Statement, StatementLine, Text,
};
use net_base::{Items, NoMemory, Prefix, RoaList};
use std::alloc::Global;
use std::collections::BTreeMap;

/// The listening addresses in the order of the text.
pub(crate) fn listen(alloc: Global, lines: &[StatementLine]) -> Result<ListenList, NoMemory>
    ensures { IfOk result (λ list. list ≡ said listen_of lines.now) }
{
    let mut listen = Items::new(alloc);
    for line in lines {
        if let Statement::Listen(one) = line.statement {
            listen.push(one)?;
        }
    }
    Ok(listen)
}

/// The RIBs beside Loc-RIB in the order of the text.
pub(crate) fn ribs(alloc: Global, lines: &[StatementLine]) -> Result<RibList, NoMemory>
    ensures { IfOk result (λ list. list ≡ said rib_of lines.now) }
{
    let mut ribs = Items::new(alloc);
    for line in lines {
        if let Statement::Rib(name, table) = &line.statement {
            let name = Items::from_slice(alloc, name.as_slice())?;
            ribs.push(Rib {
                name,
                table: *table,
            })?;
        }
    }
    Ok(ribs)
}

/// The prefix-sets by name.
pub(crate) fn prefix_sets(
    alloc: Global,
    lines: &[StatementLine],
) -> Result<PrefixSetConfList, NoMemory>
    ensures { IfOk result (λ list. list ≡ prefix_sets_of lines.now) }
{
    let by_name = prefix_sets_by_name(alloc, lines)?;
    let sets = by_name
        .into_iter()
        .map(|(name, entries)| PrefixSetConf { name, entries })
        .collect(alloc)?;
    Ok(Items::from_vec(sets))
}

fn prefix_sets_by_name(
    alloc: Global,
    lines: &[StatementLine],
) -> Result<BTreeMap<Text, PrefixRangeList>, NoMemory>
    ensures { IfOk result (λ sets. sets.entries ≡ prefix_sets_by_name lines.now) }
{
    let mut sets = BTreeMap::new(alloc);
    for line in lines {
        if let Statement::PrefixSet(name, entries) = &line.statement {
            let entries = ranges_in_order(alloc, entries.as_slice())?;
            put(alloc, &mut sets, name, entries)?;
        }
    }
    Ok(sets)
}

/// The as-sets by name.
pub(crate) fn as_sets(alloc: Global, lines: &[StatementLine]) -> Result<AsSetConfList, NoMemory>
    ensures { IfOk result (λ list. list ≡ as_sets_of lines.now) }
{
    let by_name = as_sets_by_name(alloc, lines)?;
    let sets = by_name
        .into_iter()
        .map(|(name, numbers)| AsSetConf { name, numbers })
        .collect(alloc)?;
    Ok(Items::from_vec(sets))
}

fn as_sets_by_name(
    alloc: Global,
    lines: &[StatementLine],
) -> Result<BTreeMap<Text, AsNumberList>, NoMemory>
    ensures { IfOk result (λ sets. sets.entries ≡ as_sets_by_name lines.now) }
{
    let mut sets = BTreeMap::new(alloc);
    for line in lines {
        if let Statement::AsSet(name, numbers) = &line.statement {
            let numbers = numbers_in_order(alloc, numbers.as_slice())?;
            put(alloc, &mut sets, name, numbers)?;
        }
    }
    Ok(sets)
}

/// The origin-sets by name.
pub(crate) fn origin_sets(
    alloc: Global,
    lines: &[StatementLine],
) -> Result<OriginSetConfList, NoMemory>
    ensures { IfOk result (λ list. list ≡ origin_sets_of lines.now) }
{
    let by_name = origin_sets_by_name(alloc, lines)?;
    let sets = by_name
        .into_iter()
        .map(|(name, entries)| OriginSetConf { name, entries })
        .collect(alloc)?;
    Ok(Items::from_vec(sets))
}

fn origin_sets_by_name(
    alloc: Global,
    lines: &[StatementLine],
) -> Result<BTreeMap<Text, RoaList>, NoMemory>
    ensures { IfOk result (λ sets. sets.entries ≡ origin_sets_by_name lines.now) }
{
    let mut sets = BTreeMap::new(alloc);
    for line in lines {
        if let Statement::OriginSet(name, entries) = &line.statement {
            let entries = roas_in_order(alloc, entries.as_slice())?;
            put(alloc, &mut sets, name, entries)?;
        }
    }
    Ok(sets)
}

/// Puts a value under a name, in place of one that is there.
fn put<V: Drop>(
    alloc: Global,
    sets: &mut BTreeMap<Text, V>,
    name: &Text,
    value: V,
) -> Result<(), NoMemory>
    ensures { OnOk result (sets.new.entries ≡ insert_entry text_cmp sets.old.entries name.now value) }
{
    let name = Items::from_slice(alloc, name.as_slice())?;
    sets.insert(name, value)?;
    Ok(())
}

/// The networks by prefix; of two of one prefix the last holds.
pub(crate) fn networks(alloc: Global, lines: &[StatementLine]) -> Result<NetworkList, NoMemory>
    ensures { IfOk result (λ list. list ≡ networks_of lines.now) }
{
    let by_prefix = networks_by_prefix(alloc, lines)?;
    let networks = by_prefix
        .into_iter()
        .map(|(prefix, set)| Network { prefix, set })
        .collect(alloc)?;
    Ok(Items::from_vec(networks))
}

fn networks_by_prefix(
    alloc: Global,
    lines: &[StatementLine],
) -> Result<BTreeMap<Prefix, ItemList>, NoMemory>
    ensures { IfOk result (λ networks. networks.entries ≡ networks_by_prefix lines.now) }
{
    let mut networks = BTreeMap::new(alloc);
    for line in lines {
        if let Statement::Network(prefix, set) = &line.statement {
            put_network(alloc, &mut networks, *prefix, set)?;
        }
    }
    Ok(networks)
}

#[tactic(auto, using(crate::proofs::Orders::derived_prefix_order))]
fn put_network(
    alloc: Global,
    networks: &mut BTreeMap<Prefix, ItemList>,
    prefix: Prefix,
    set: &ItemList,
) -> Result<(), NoMemory>
    ensures { OnOk result (networks.new.entries ≡ insert_entry prefix_cmp networks.old.entries prefix set.now) }
{
    let set = Items::from_slice(alloc, set.as_slice())?;
    networks.insert(prefix, set)?;
    Ok(())
}
