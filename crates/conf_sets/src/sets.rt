ghost use Rattle.std.specs.Prelude.{◌≡◌, map};

use crate::as_table::AsTable;
use crate::range_table::RangeTable;
use crate::tables::{
    as_tables, copied_as_sets, copied_origin_sets, copied_prefix_sets, origin_tables, range_tables,
};
use conf_tree::{AsSetConfList, Conf, Members, OriginSetConfList, PrefixSetConfList, SetId};
use net_base::{NoMemory, Ovs, Prefix};
use roa_check::{RoaTable, ovs};
use std::alloc::Global;
use std::marker::Model;

/// The prefix-sets, as-sets and origin-sets of a configuration, and its `roa-set`. Contracts see a configuration that
/// has these, and else what the empty one has. Beside the sets stand their tables, which are asked.
#[derive(Debug, Drop)]
pub struct Sets {
    prefix_sets: PrefixSetConfList,
    as_sets: AsSetConfList,
    origin_sets: OriginSetConfList,
    ranges: Vec<RangeTable>,
    numbers: Vec<AsTable>,
    origins: Vec<RoaTable>,
    roas: RoaTable,
    ghost all_ranges: { ranges.items ≡ map (λ set. set.entries) prefix_sets },
    ghost all_numbers: { numbers.items ≡ map (λ set. set.numbers) as_sets },
    ghost all_origins: { origins.items ≡ map (λ set. set.entries) origin_sets },
}

impl Model for Sets {
    ghost use Rattle.conf_tree.specs.declared.conf.Conf.{Conf};
    ghost use Rattle.conf_tree.specs.Empty.{empty_conf};

    ghost Value = { Conf };

    ghost view = { λ sets. record empty_conf { prefix_sets = sets.prefix_sets; as_sets = sets.as_sets; origin_sets = sets.origin_sets; roas = sets.roas } };
}

impl Sets {
    ghost use Rattle.std.specs.Prelude.{IfOk};
    ghost use Rattle.conf_sets.specs.SameSets.{SameSets};

    /// The sets of this configuration. They need memory.
    pub fn build(alloc: Global, conf: &Conf) -> Result<Sets, NoMemory>
        ensures { IfOk result (λ sets. SameSets sets conf.now) }
    {
        let prefix_sets = copied_prefix_sets(&conf.prefix_sets)?;
        let as_sets = copied_as_sets(&conf.as_sets)?;
        let origin_sets = copied_origin_sets(&conf.origin_sets)?;
        let ranges = range_tables(alloc, prefix_sets.as_slice())?;
        let numbers = as_tables(alloc, as_sets.as_slice())?;
        let origins = origin_tables(alloc, origin_sets.as_slice())?;
        Ok(Sets {
            prefix_sets,
            as_sets,
            origin_sets,
            ranges,
            numbers,
            origins,
            roas: RoaTable::build(alloc, &conf.roas)?,
        })
    }
}

/// None of these takes memory. Each takes a number of steps that grows with the logarithm of the entries of one set, and with
/// those that cover the prefix.
impl Members for Sets {
    ghost use Rattle.std.specs.Prelude.{◌≡◌};
    ghost use Rattle.conf_tree.specs.declared.sets.SetKind.TheVariants as kinds;
    ghost use Rattle.conf_tree.specs.Membership.{Names, in_prefix_set, in_prefix_set_or_longer, in_as_set, in_origin_set};
    ghost use Rattle.net_base.specs.Roa.{origin_validation};

    ghost conf_of = { λ sets. sets };

    #[tactic(auto, unfolding(conf_tree::specs::Membership::in_prefix_set))]
    fn in_prefix_set(&self, set: SetId, prefix: Prefix) -> bool {
        match self.ranges.get(set.at as usize) {
            Some(table) => table.holds(prefix),
            None => false,
        }
    }

    #[tactic(auto, unfolding(conf_tree::specs::Membership::in_prefix_set_or_longer))]
    fn in_prefix_set_or_longer(&self, set: SetId, prefix: Prefix) -> bool {
        match self.ranges.get(set.at as usize) {
            Some(table) => table.covers(prefix),
            None => false,
        }
    }

    #[tactic(auto, unfolding(conf_tree::specs::Membership::in_as_set))]
    fn in_as_set(&self, set: SetId, asn: u32) -> bool {
        match self.numbers.get(set.at as usize) {
            Some(table) => table.has(asn),
            None => false,
        }
    }

    #[tactic(auto, unfolding(conf_tree::specs::Membership::in_origin_set))]
    fn in_origin_set(&self, set: SetId, prefix: Prefix, origin: Option<u32>) -> bool {
        match self.origins.get(set.at as usize) {
            Some(table) => table.has_match(prefix, origin),
            None => false,
        }
    }

    fn ovs(&self, prefix: Prefix, origin: Option<u32>) -> Ovs {
        ovs(&self.roas, prefix, origin)
    }
}
