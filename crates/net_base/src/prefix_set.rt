ghost use Rattle.std.specs.Prelude.{◌≡◌, ℕ, List, [], OnOk, OnErr, IfOk, IsTrue, ◌↔◌, ◌&&◌, ◌||◌, not, Contains, find};
ghost use Rattle.std.specs.BTreeSet.{insert_key};
ghost use Rattle.std.specs.Set.{remove_key};
ghost use Rattle.std.specs.Ordering.{eq_by_cmp, is_eq, is_le, is_lt};
ghost use Rattle.net_base.specs.declared.prefix.Prefix.{Prefix};
ghost use Rattle.net_base.specs.Order.{prefix_cmp};
ghost use Rattle.net_base.specs.PrefixSet.{is_in, IsLeast};

use crate::{Items, Prefix, PrefixList};
use std::alloc::{AllocError, Global};
use std::collections::BTreeSet;
use std::marker::Model;
use std::ops::Bound;

/// Prefixes in order, each once.
#[derive(Drop)]
pub struct PrefixSet {
    prefixes: BTreeSet<Prefix>,
}

impl Model for PrefixSet {
    ghost use Rattle.std.specs.Prelude.{List};
    ghost use Rattle.net_base.specs.declared.prefix.Prefix.{Prefix};

    ghost Value = { List Prefix };

    ghost view = { λ s. s.prefixes.keys };
}

impl PrefixSet {
    /// A set without prefixes, which takes no memory.
    pub fn new(alloc: Global) -> Self
        ensures { result ≡ [] }
    {
        PrefixSet {
            prefixes: BTreeSet::new(alloc),
        }
    }

    /// Whether the prefix is in the set.
    pub fn has(&self, prefix: Prefix) -> bool
        ensures member { IsTrue result ↔ Contains self.now prefix }
        ensures value { result ≡ is_in self.now prefix }
    {
        self.prefixes.contains(&prefix)
    }

    /// The least prefix that is not below `from`.
    pub fn first_from(&self, from: Prefix) -> Option<Prefix>
        ensures { result ≡ find (λ p. is_le (prefix_cmp from p)) self.now }
    {
        self.prefixes.range(from..).next().copied()
    }

    /// The least prefix.
    pub fn first(&self) -> Option<Prefix>
        ensures { IsLeast (is_in self.now) result }
    {
        self.prefixes.first().copied()
    }

    /// The least prefix that is above `after`.
    pub fn first_after(&self, after: Prefix) -> Option<Prefix>
        ensures { IsLeast (λ p. is_in self.now p && is_lt (prefix_cmp after p)) result }
    {
        let above = (Bound::Excluded(after), Bound::Unbounded);
        self.prefixes.range(above).next().copied()
    }

    /// Puts a prefix into its place in the order, if it isn't there. Where memory is refused, the set is as it was.
    pub fn add(&mut self, prefix: Prefix) -> Result<(), AllocError>
        ensures ok { OnOk result (self.new ≡ insert_key prefix_cmp self.old prefix) }
        ensures members { OnOk result ((q : Prefix) →
            is_in self.new q ≡ (eq_by_cmp prefix_cmp q prefix || is_in self.old q)) }
        ensures err { OnErr result (self.new ≡ self.old) }
    {
        self.prefixes.insert(prefix)?;
        Ok(())
    }

    /// The prefixes in order.
    pub fn to_list(&self, alloc: Global) -> Result<PrefixList, AllocError>
        ensures { IfOk result (λ list. list ≡ self.now) }
    {
        let prefixes = self.prefixes.iter().copied().collect(alloc)?;
        Ok(Items::from_vec(prefixes))
    }

    /// The prefixes as a set in order, to be gone over.
    pub fn in_order(&self) -> &BTreeSet<Prefix>
        ensures { result.now.keys ≡ self.now }
    {
        &self.prefixes
    }

    /// Takes a prefix away, if it is there.
    pub fn remove(&mut self, prefix: Prefix)
        ensures prefixes { self.new ≡ remove_key (λ p. is_eq (prefix_cmp prefix p)) self.old }
        ensures members { (q : Prefix) →
            is_in self.new q ≡ (not (eq_by_cmp prefix_cmp q prefix) && is_in self.old q) }
    {
        self.prefixes.remove(&prefix);
    }

    /// Takes every prefix away.
    pub fn clear(&mut self)
        ensures { self.new ≡ [] }
    {
        self.prefixes.clear();
    }
}
