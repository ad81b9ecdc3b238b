//! Prefixes and AS numbers as members of lists.

ghost use Rattle.std.specs.Prelude.{◌≡◌};
ghost use Rattle.conf_tree.specs.RuleReading.{counted_number_at, ranged_at, rule_number_at, rule_prefix_at};
ghost use Rattle.conf_parser.specs.Reads.{Reads};

use crate::cursor::{Cursor, too_many};
use crate::lists::ReadMember;
use conf_tree::PrefixRange;
use net_base::{ConfError, Counted};
use std::alloc::Global;

impl<'a> Cursor<'a> {
    /// A prefix with its lengths. The error at the prefix is `TooMany` where there is no room for it.
    #[tactic(auto, unfolding(conf_tree::specs::RuleReading::ranged_at, conf_tree::specs::Reading::unless_full))]
    pub(crate) fn ranged(&mut self, full: bool, counted: Counted) -> Result<PrefixRange, ConfError>
        ensures { Reads (ranged_at full counted) self.old self.new result }
    {
        let line = self.line();
        let prefix = self.prefix()?;
        if full {
            return Err(too_many(counted, line));
        }
        self.lengths(prefix)
    }

    /// An AS number from low on. The error at it is `TooMany` where there is no room for it.
    #[tactic(auto, unfolding(conf_tree::specs::RuleReading::counted_number_at, conf_tree::specs::Reading::unless_full))]
    pub(crate) fn counted_number(
        &mut self,
        low: u32,
        full: bool,
        counted: Counted,
    ) -> Result<u32, ConfError>
        ensures { Reads (counted_number_at low full counted) self.old self.new result }
    {
        let line = self.line();
        let asn = self.as_number(low)?;
        if full {
            return Err(too_many(counted, line));
        }
        Ok(asn)
    }
}

/// Reads the prefixes of a rule.
#[derive(Drop)]
pub(crate) struct RulePrefixes;

impl ReadMember for RulePrefixes {
    type Value = PrefixRange;

    ghost member = { λ reader. rule_prefix_at };

    #[tactic(auto, unfolding(conf_tree::specs::RuleReading::rule_prefix_at))]
    fn read<'a>(
        &self,
        _alloc: Global,
        full: bool,
        tokens: &mut Cursor<'a>,
    ) -> Result<PrefixRange, ConfError> {
        tokens.ranged(full, Counted::Rules)
    }
}

/// Reads the AS numbers of a rule, from `low` on.
#[derive(Drop)]
pub(crate) struct RuleNumbers {
    pub(crate) low: u32,
}

impl ReadMember for RuleNumbers {
    type Value = u32;

    ghost member = { λ reader. rule_number_at reader.low };

    #[tactic(auto, unfolding(conf_tree::specs::RuleReading::rule_number_at))]
    fn read<'a>(
        &self,
        _alloc: Global,
        full: bool,
        tokens: &mut Cursor<'a>,
    ) -> Result<u32, ConfError> {
        tokens.counted_number(self.low, full, Counted::Rules)
    }
}
