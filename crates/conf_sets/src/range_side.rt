ghost use Rattle.std.specs.Prelude.{◌≡◌, map, filter, IfOk, IsPermutation};
ghost use Rattle.std.specs.List.{list_any};
ghost use Rattle.net_base.specs.Prefix.{covers};
ghost use Rattle.conf_tree.specs.Membership.{holds};
ghost use Rattle.roa_check.specs.Index.{IsAscending};
ghost use Rattle.conf_sets.specs.Tables.{AreAllOf, is_of_family, range_slot};

use conf_tree::{PrefixRange, PrefixRangeList};
use net_base::{Family, Items, NoMemory, Prefix};
use roa_check::{CoverIndex, same_family, slot_of};
use std::alloc::Global;
use std::marker::Model;

/// The entries of one family of a prefix-set in order, beside their index. Contracts see the list of them.
#[derive(Debug, Drop)]
pub(crate) struct RangeSide {
    entries: PrefixRangeList,
    index: CoverIndex,
    ghost placed: { index ≡ map range_slot entries },
}

impl Model for RangeSide {
    ghost use Rattle.std.specs.Prelude.{List};
    ghost use Rattle.conf_tree.specs.declared.sets.PrefixRange.{PrefixRange};

    ghost Value = { List PrefixRange };

    ghost view = { λ side. side.entries };
}

impl RangeSide {
    /// Those of a family. It needs memory.
    pub(crate) fn build(
        alloc: Global,
        list: &[PrefixRange],
        family: Family,
    ) -> Result<Self, NoMemory>
        ensures { IfOk result (AreAllOf family list.now) }
    {
        let entries = ordered(alloc, list, family)?;
        let index = index_of(alloc, entries.as_slice())?;
        Ok(RangeSide {
            entries: Items::from_vec(entries),
            index,
        })
    }

    /// Whether some entry covers the prefix and has its length in its range.
    pub(crate) fn holds(&self, prefix: Prefix) -> bool
        ensures { result ≡ list_any (holds prefix) self.now }
    {
        let slot = slot_of(prefix);
        let mut at = self.index.nearest(slot);
        while let Some(place) = at {
            if holds(&self.entries.as_slice()[place], prefix) {
                return true;
            }
            at = self.index.above(slot, place);
        }
        false
    }

    /// Whether some entry covers the prefix.
    pub(crate) fn covers(&self, prefix: Prefix) -> bool
        ensures { result ≡ list_any (λ range. covers range.prefix prefix) self.now }
    {
        let slot = slot_of(prefix);
        let mut at = self.index.nearest(slot);
        while let Some(place) = at {
            if self.entries.as_slice()[place].prefix.covers(prefix) {
                return true;
            }
            at = self.index.above(slot, place);
        }
        false
    }
}

/// Whether an entry covers the prefix and has its length in its range.
fn holds(entry: &PrefixRange, prefix: Prefix) -> bool
    ensures { result ≡ holds prefix entry.now }
{
    entry.prefix.covers(prefix) && entry.low <= prefix.len && prefix.len <= entry.high
}

/// Those of a family in order.
fn ordered(
    alloc: Global,
    list: &[PrefixRange],
    family: Family,
) -> Result<Vec<PrefixRange>, NoMemory>
    ensures all { IfOk result (λ ranges. IsPermutation (filter (is_of_family family) list.now) ranges.items) }
    ensures order { IfOk result (λ ranges. IsAscending (map range_slot ranges.items)) }
{
    let mut ranges = of_family(alloc, list, family)?;
    ranges.sort_unstable();
    Ok(ranges)
}

/// Those of a family.
fn of_family(
    alloc: Global,
    list: &[PrefixRange],
    family: Family,
) -> Result<Vec<PrefixRange>, NoMemory>
    ensures { IfOk result (λ ranges. ranges.items ≡ filter (is_of_family family) list.now) }
{
    list.iter()
        .copied()
        .filter(|range| same_family(range.prefix.family, family))
        .collect(alloc)
}

/// The index of entries of one family in order.
fn index_of(alloc: Global, ranges: &[PrefixRange]) -> Result<CoverIndex, NoMemory>
    requires { IsAscending (map range_slot ranges.now) }
    ensures { IfOk result (λ index. index ≡ map range_slot ranges.now) }
{
    let mut index = CoverIndex::new(alloc);
    for range in ranges {
        index.push(slot_of(range.prefix))?;
    }
    Ok(index)
}
