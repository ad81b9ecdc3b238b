ghost use Rattle.std.specs.Prelude.{◌≡◌, IfOk};
ghost use Rattle.std.specs.List.{list_any};
ghost use Rattle.net_base.specs.declared.addr.Family.TheVariants.{V4, V6};
ghost use Rattle.net_base.specs.Prefix.{covers};
ghost use Rattle.conf_tree.specs.Membership.{holds};
ghost use Rattle.conf_sets.specs.Tables.{AreAllOf};

use crate::range_side::RangeSide;
use conf_tree::{PrefixRange, PrefixRangeList};
use net_base::{Family, Items, NoMemory, Prefix};
use std::alloc::Global;
use std::marker::Model;

/// The entries of a prefix-set, ready to be asked. Contracts see the list that the table was built of. Beside that list
/// stand those of each family in order, each with the nearest one that covers it.
#[derive(Debug, Drop)]
pub(crate) struct RangeTable {
    ranges: PrefixRangeList,
    v4: RangeSide,
    v6: RangeSide,
    ghost all_v4: { AreAllOf V4 ranges v4 },
    ghost all_v6: { AreAllOf V6 ranges v6 },
}

impl Model for RangeTable {
    ghost use Rattle.std.specs.Prelude.{List};
    ghost use Rattle.conf_tree.specs.declared.sets.PrefixRange.{PrefixRange};

    ghost Value = { List PrefixRange };

    ghost view = { λ table. table.ranges };
}

impl RangeTable {
    /// The table of these entries. It needs memory.
    pub(crate) fn build(alloc: Global, list: &[PrefixRange]) -> Result<RangeTable, NoMemory>
        ensures { IfOk result (λ table. table ≡ list.now) }
    {
        Ok(RangeTable {
            ranges: Items::from_slice(alloc, list)?,
            v4: RangeSide::build(alloc, list, Family::V4)?,
            v6: RangeSide::build(alloc, list, Family::V6)?,
        })
    }

    /// Whether some entry covers the prefix and has its length in its range. It takes a number of steps that grows with the
    /// logarithm of the entries and with those that cover.
    pub(crate) fn holds(&self, prefix: Prefix) -> bool
        ensures { result ≡ list_any (holds prefix) self.now }
    {
        match prefix.family {
            Family::V4 => self.v4.holds(prefix),
            Family::V6 => self.v6.holds(prefix),
        }
    }

    /// Whether some entry covers the prefix, at the same cost.
    pub(crate) fn covers(&self, prefix: Prefix) -> bool
        ensures { result ≡ list_any (λ range. covers range.prefix prefix) self.now }
    {
        match prefix.family {
            Family::V4 => self.v4.covers(prefix),
            Family::V6 => self.v6.covers(prefix),
        }
    }
}
