ghost use Rattle.std.specs.Prelude.{◌≡◌, ◌≢◌, ◌==◌, ◌<◌, ℕ, [], ◌∷◌, IfOk, OnOk, OnErr, IsSome, Some, None, option_map};
ghost use Rattle.attr_intern.specs.Table.{attrs_at, uses_at, shared_at, distinct_of, HasOneNumberEach, Hands, IsOf, TakesBack};
ghost use Rattle.attr_intern.specs.Kept.{Sets, first_of, one_less, one_more};

use crate::hashed::Hashed;
use attr_model::{AttrRef, Attrs};
use net_base::NoMemory;
use slab::Slab;
use std::alloc::{AllocError, Global};
use std::collections::HashMap;
use std::marker::Model;

/// Attributes that routes share, with the number of references that use them.
#[derive(Drop)]
pub struct Shared {
    pub(crate) attrs: Hashed,
    pub(crate) uses: usize,
}

/// A table of attributes: each is kept once, under a number that no others have while a reference uses it.
///
/// Contracts see what stands under each number: the attributes, and how many references use it.
#[derive(Drop)]
pub struct AttrTable {
    alloc: Global,
    slots: Slab<Shared>,
    numbers: HashMap<Hashed, usize>,
}

impl Model for AttrTable {
    ghost use Rattle.attr_intern.specs.Table.{Table};
    ghost use Rattle.attr_intern.specs.Kept.{IsKept};

    ghost Value = { Table };

    ghost view = { λ table. table.slots.slots };

    ghost invariant = { λ table. IsKept table.slots.slots table.numbers.entries };
}

impl AttrTable {
    /// A table without attributes.
    pub fn new(alloc: Global) -> Result<Self, NoMemory>
        ensures { IfOk result (λ table. table ≡ []) }
    {
        Ok(AttrTable {
            alloc,
            slots: Slab::new(alloc),
            numbers: HashMap::new(alloc),
        })
    }

    /// A reference to these attributes, which is one use more of the number that they have, or of a free number where
    /// none has them yet. They are hashed once.
    pub fn intern(&mut self, attrs: Attrs) -> Result<AttrRef, NoMemory>
        ensures attrs { IfOk result (λ one. one.attrs ≡ attrs) }
        ensures hands { IfOk result (λ one. Hands self.old self.new (one ∷ [])) }
        ensures shared { IfOk result (λ one. (number : ℕ) → attrs_at self.old number ≡ Some attrs → one.number ≡ number) }
        ensures err { OnErr result (self.new ≡ self.old) }
    {
        let hashed = Hashed::new(self.alloc, attrs)?;
        match self.numbers.get(&hashed).copied() {
            Some(number) => self.use_again(number),
            None => self.add(hashed),
        }
    }

    /// One reference more like the one given, which came from this table. It takes no look at the attributes.
    pub fn again(&mut self, one: &AttrRef) -> Result<AttrRef, NoMemory>
        requires { IsOf self.old one.now }
        ensures same { IfOk result (λ other. other ≡ one.now) }
        ensures hands { IfOk result (λ other. Hands self.old self.new (other ∷ [])) }
        ensures err { OnErr result (self.new ≡ self.old) }
    {
        self.use_again(one.number)
    }

    /// Takes a reference back that came from this table. Its number is free once no use is left.
    pub fn give_back(&mut self, one: AttrRef)
        requires { IsOf self.old one }
        ensures { TakesBack self.old self.new (one ∷ []) }
    {
        let _ = &self.slots;
        if self.has_one_use(one.number) {
            self.free(one.number);
        } else {
            self.use_less(one.number);
        }
    }

    /// How many different attributes are in use, which is how many numbers are.
    pub fn distinct(&self) -> usize
        ensures count { result ≡ distinct_of self.now }
        ensures one_each { HasOneNumberEach self.now }
        ensures in_use { (number : ℕ) → uses_at self.now number ≡ 0 → attrs_at self.now number ≡ None }
    {
        self.slots.len()
    }

    /// One use more of a number in use.
    fn use_again(&mut self, number: usize) -> Result<AttrRef, NoMemory>
        ensures number { IfOk result (λ one. one.number ≡ number) }
        ensures attrs { IfOk result (λ one. attrs_at self.old number ≡ Some one.attrs) }
        ensures one_more { OnOk result (Sets self.old self.new number (option_map one_more (shared_at self.old number))) }
        ensures err { OnErr result (self.new ≡ self.old) }
    {
        let shared = self.slots.get_mut(number).ok_or(AllocError)?;
        let uses = shared.uses.checked_add(1).ok_or(AllocError)?;
        let attrs = shared.attrs.attrs()?;
        shared.uses = uses;
        Ok(AttrRef { number, attrs })
    }

    /// The first use of attributes that have no number yet.
    fn add(&mut self, hashed: Hashed) -> Result<AttrRef, NoMemory>
        requires { (number : ℕ) → attrs_at self.old number ≢ Some hashed }
        ensures attrs { IfOk result (λ one. one.attrs ≡ hashed) }
        ensures free { IfOk result (λ one. shared_at self.old one.number ≡ None) }
        ensures first { IfOk result (λ one. Sets self.old self.new one.number (Some (first_of hashed))) }
        ensures err { OnErr result (self.new ≡ self.old) }
    {
        self.slots.reserve(1)?;
        let shared = Shared {
            attrs: hashed.share()?,
            uses: 1,
        };
        let attrs = hashed.attrs()?;
        self.numbers.insert(hashed, self.slots.vacant_key())?;
        let number = self.slots.insert_reserved(shared);
        Ok(AttrRef { number, attrs })
    }

    /// Whether a number has one use alone.
    fn has_one_use(&self, number: usize) -> bool
        ensures { result ≡ (uses_at self.now number == 1) }
    {
        self.slots
            .get(number)
            .is_some_and(|shared| shared.uses == 1)
    }

    /// One use less of a number that has more than one.
    fn use_less(&mut self, number: usize)
        requires { 1 < uses_at self.old number }
        ensures { Sets self.old self.new number (option_map one_less (shared_at self.old number)) }
    {
        let Some(shared) = self.slots.get_mut(number) else {
            return;
        };
        shared.uses -= 1;
    }

    /// Takes a number out of use.
    fn free(&mut self, number: usize)
        ensures { Sets self.old self.new number None }
    {
        if let Some(shared) = self.slots.try_remove(number) {
            self.numbers.remove(&shared.attrs);
        }
    }
}
