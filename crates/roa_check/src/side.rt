ghost use Rattle.std.specs.Prelude.{◌≡◌, map, filter, IfOk, IsPermutation};
ghost use Rattle.std.specs.List.{list_any};
ghost use Rattle.net_base.specs.Prefix.{covers};
ghost use Rattle.net_base.specs.Roa.{matches};
ghost use Rattle.roa_check.specs.Index.{IsAscending};
ghost use Rattle.roa_check.specs.Table.{AreAllOf, is_of_family, roa_slot};

use crate::CoverIndex;
use crate::slot::{same_family, slot_of};
use crate::table::matches_route;
use net_base::{Family, Items, NoMemory, Prefix, Roa, RoaList};
use std::alloc::Global;
use std::marker::Model;

/// The authorizations of one family in order, beside their index. Contracts see the list of them.
#[derive(Debug, Drop)]
pub(crate) struct RoaSide {
    entries: RoaList,
    index: CoverIndex,
    ghost placed: { index ≡ map roa_slot entries },
}

impl Model for RoaSide {
    ghost use Rattle.std.specs.Prelude.{List};
    ghost use Rattle.net_base.specs.declared.roa.Roa.{Roa};

    ghost Value = { List Roa };

    ghost view = { λ side. side.entries };
}

impl RoaSide {
    /// Those of a family. It needs memory.
    pub(crate) fn build(alloc: Global, list: &[Roa], family: Family) -> Result<Self, NoMemory>
        ensures { IfOk result (AreAllOf family list.now) }
    {
        let entries = ordered(alloc, list, family)?;
        let index = index_of(alloc, entries.as_slice())?;
        Ok(RoaSide {
            entries: Items::from_vec(entries),
            index,
        })
    }

    /// Whether some authorization matches.
    pub(crate) fn has_match(&self, prefix: Prefix, origin: Option<u32>) -> bool
        ensures { result ≡ list_any (matches prefix origin) self.now }
    {
        let slot = slot_of(prefix);
        let mut at = self.index.nearest(slot);
        while let Some(place) = at {
            if matches_route(&self.entries.as_slice()[place], prefix, origin) {
                return true;
            }
            at = self.index.above(slot, place);
        }
        false
    }

    /// Whether some authorization covers the prefix.
    pub(crate) fn has_cover(&self, prefix: Prefix) -> bool
        ensures { result ≡ list_any (λ roa. covers roa.prefix prefix) self.now }
    {
        let slot = slot_of(prefix);
        let mut at = self.index.nearest(slot);
        while let Some(place) = at {
            if self.entries.as_slice()[place].prefix.covers(prefix) {
                return true;
            }
            at = self.index.above(slot, place);
        }
        false
    }
}

/// Those of a family in order.
fn ordered(alloc: Global, list: &[Roa], family: Family) -> Result<Vec<Roa>, NoMemory>
    ensures all { IfOk result (λ roas. IsPermutation (filter (is_of_family family) list.now) roas.items) }
    ensures order { IfOk result (λ roas. IsAscending (map roa_slot roas.items)) }
{
    let mut roas = of_family(alloc, list, family)?;
    roas.sort_unstable();
    Ok(roas)
}

/// Those of a family.
fn of_family(alloc: Global, list: &[Roa], family: Family) -> Result<Vec<Roa>, NoMemory>
    ensures { IfOk result (λ roas. roas.items ≡ filter (is_of_family family) list.now) }
{
    list.iter()
        .copied()
        .filter(|roa| same_family(roa.prefix.family, family))
        .collect(alloc)
}

/// The index of authorizations of one family in order.
fn index_of(alloc: Global, roas: &[Roa]) -> Result<CoverIndex, NoMemory>
    requires { IsAscending (map roa_slot roas.now) }
    ensures { IfOk result (λ index. index ≡ map roa_slot roas.now) }
{
    let mut index = CoverIndex::new(alloc);
    for roa in roas {
        index.push(slot_of(roa.prefix))?;
    }
    Ok(index)
}
