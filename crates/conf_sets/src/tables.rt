ghost use Rattle.std.specs.Prelude.{◌≡◌, map, IfOk};

use crate::as_table::AsTable;
use crate::range_table::RangeTable;
use conf_tree::{
    AsSetConf, AsSetConfList, OriginSetConf, OriginSetConfList, PrefixSetConf, PrefixSetConfList,
};
use net_base::NoMemory;
use roa_check::RoaTable;
use std::alloc::Global;

/// The same prefix-sets.
pub(crate) fn copied_prefix_sets(list: &PrefixSetConfList) -> Result<PrefixSetConfList, NoMemory>
    ensures { IfOk result (λ copy. copy ≡ list.now) }
{
    list.clone()
}

/// The same as-sets.
pub(crate) fn copied_as_sets(list: &AsSetConfList) -> Result<AsSetConfList, NoMemory>
    ensures { IfOk result (λ copy. copy ≡ list.now) }
{
    list.clone()
}

/// The same origin-sets.
pub(crate) fn copied_origin_sets(list: &OriginSetConfList) -> Result<OriginSetConfList, NoMemory>
    ensures { IfOk result (λ copy. copy ≡ list.now) }
{
    list.clone()
}

/// A table of each prefix-set.
pub(crate) fn range_tables(
    alloc: Global,
    sets: &[PrefixSetConf],
) -> Result<Vec<RangeTable>, NoMemory>
    ensures { IfOk result (λ tables. tables.items ≡ map (λ set. set.entries) sets.now) }
{
    let mut tables = Vec::new(alloc);
    for set in sets {
        tables.push(RangeTable::build(alloc, set.entries.as_slice())?)?;
    }
    Ok(tables)
}

/// A table of each as-set.
pub(crate) fn as_tables(alloc: Global, sets: &[AsSetConf]) -> Result<Vec<AsTable>, NoMemory>
    ensures { IfOk result (λ tables. tables.items ≡ map (λ set. set.numbers) sets.now) }
{
    let mut tables = Vec::new(alloc);
    for set in sets {
        tables.push(AsTable::build(alloc, set.numbers.as_slice())?)?;
    }
    Ok(tables)
}

/// A table of each origin-set.
pub(crate) fn origin_tables(
    alloc: Global,
    sets: &[OriginSetConf],
) -> Result<Vec<RoaTable>, NoMemory>
    ensures { IfOk result (λ tables. tables.items ≡ map (λ set. set.entries) sets.now) }
{
    let mut tables = Vec::new(alloc);
    for set in sets {
        tables.push(RoaTable::build(alloc, &set.entries)?)?;
    }
    Ok(tables)
}
