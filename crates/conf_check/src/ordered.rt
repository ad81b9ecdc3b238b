//! Lists in order without repeats.
ghost use Rattle.std.specs.Prelude.{◌≡◌, IfOk, OnOk, fold};
ghost use Rattle.std.specs.BTreeSet.{insert_key};
ghost use Rattle.std.specs.Ordering.{nat_cmp};
ghost use Rattle.conf_tree.specs.Flat.{in_order, range_cmp, roa_cmp, roas_said};
ghost use Rattle.conf_tree.specs.Said.{roas_of};

use conf_tree::{AsNumberList, PrefixRange, PrefixRangeList, Statement, StatementLine};
use net_base::{Items, NoMemory, Roa, RoaList};
use std::alloc::Global;
use std::collections::BTreeSet;

/// The entries of a prefix-set in order, without repeats.
#[tactic(auto, using(crate::proofs::Orders::derived_range_cmp))]
pub(crate) fn ranges_in_order(
    alloc: Global,
    entries: &[PrefixRange],
) -> Result<PrefixRangeList, NoMemory>
    ensures { IfOk result (λ list. list ≡ in_order range_cmp entries.now) }
{
    in_order(alloc, entries)
}

/// The entries of an origin-set in order, without repeats.
#[tactic(auto, using(crate::proofs::Orders::derived_roa_cmp))]
pub(crate) fn roas_in_order(alloc: Global, entries: &[Roa]) -> Result<RoaList, NoMemory>
    ensures { IfOk result (λ list. list ≡ in_order roa_cmp entries.now) }
{
    in_order(alloc, entries)
}

/// The numbers in order, without repeats.
pub(crate) fn numbers_in_order(alloc: Global, numbers: &[u32]) -> Result<AsNumberList, NoMemory>
    ensures { IfOk result (λ list. list ≡ in_order nat_cmp numbers.now) }
{
    in_order(alloc, numbers)
}

/// The entries in order, without repeats.
fn in_order<T: Ord + Copy>(alloc: Global, entries: &[T]) -> Result<Items<T>, NoMemory>
    ensures { IfOk result (λ list. list ≡ in_order T.cmp entries.now) }
{
    let mut ordered = BTreeSet::new(alloc);
    add_all(&mut ordered, entries)?;
    listed(alloc, ordered)
}

/// Puts each entry in its place, if it isn't there.
fn add_all<T: Ord + Copy>(ordered: &mut BTreeSet<T>, entries: &[T]) -> Result<(), NoMemory>
    ensures { OnOk result (ordered.new.keys ≡ fold (insert_key T.cmp) ordered.old.keys entries.now) }
{
    for entry in entries {
        ordered.insert(*entry)?;
    }
    Ok(())
}

fn listed<T: Ord + Copy>(alloc: Global, ordered: BTreeSet<T>) -> Result<Items<T>, NoMemory>
    ensures { IfOk result (λ list. list ≡ ordered.keys) }
{
    let entries = ordered.into_iter().collect(alloc)?;
    Ok(Items::from_vec(entries))
}

/// The entries of all `roa-set`s, in order without repeats.
pub(crate) fn roas(alloc: Global, lines: &[StatementLine]) -> Result<RoaList, NoMemory>
    ensures { IfOk result (λ list. list ≡ roas_said lines.now) }
{
    let mut ordered = BTreeSet::new(alloc);
    for line in lines {
        add_all(&mut ordered, roas_of(&line.statement))?;
    }
    listed(alloc, ordered)
}

/// The entries of a `roa-set`, of which another statement has none.
fn roas_of(statement: &Statement) -> &[Roa]
    ensures { result.now ≡ roas_of statement.now }
{
    match statement {
        Statement::RoaSet(roas) => roas.as_slice(),
        _ => &[],
    }
}
