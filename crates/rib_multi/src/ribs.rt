ghost use Rattle.std.specs.Prelude.{◌≡◌, ◌≤◌, ◌<◌, ◌+◌, ◌↔◌, ℕ, List, Bool, true, not, ◌&&◌, ◌||◌, [], ◌++◌, length, is_some, option_copied, unwrap_or, IfOk, OnOk, OnErr, IsTrue};
ghost use Rattle.std.specs.List.{AllByRecursion};
ghost use Rattle.std.specs.Ordering.{eq_by_cmp};
ghost use Rattle.net_base.specs.declared.prefix.Prefix.{Prefix};
ghost use Rattle.net_base.specs.Order.{prefix_cmp};
ghost use Rattle.net_base.specs.PrefixSet.{is_in, IsLeast, IsLeastOf};
ghost use Rattle.sweep_jobs.specs.Marks.{is_marked};
ghost use Rattle.decision.specs.Best.{best_of};
ghost use Rattle.attr_intern.specs.Table.{Table, times, IsOf, CameFrom};
ghost use Rattle.rib_multi.specs.Rows.{empty_rib, rib_at, row_at, kept_at, best_at, is_marked_at, row_for, SetsRow, IsEmptyRib, KeepsOthers};
ghost use Rattle.rib_multi.specs.Uses.{refs_in, refs_of_rib, refs_of, refs_of_change, Moves};
ghost use Rattle.rib_multi.specs.Shown.{routes_in};

use crate::rib::Rib;
use crate::{CandidateList, Change};
use attr_intern::AttrTable;
use attr_model::RouteList;
use decision::{Candidate, MOST_CANDIDATES};
use net_base::{Items, NoMemory, Prefix, PrefixSet};
use std::alloc::Global;
use std::marker::Model;
use std::mem;

/// The most RIBs, which are numbered from 0.
pub const MOST_RIBS: u8 = 16;

/// The local RIBs by number. Contracts see what each keeps.
#[derive(Drop)]
pub struct RibMulti {
    alloc: Global,
    ribs: Vec<Rib>,
}

impl Model for RibMulti {
    ghost use Rattle.std.specs.Prelude.{◌≡◌, length};
    ghost use Rattle.rib_multi.specs.Rows.{Ribs};

    ghost Value = { Ribs };

    ghost view = { λ table. table.ribs.items };

    ghost invariant = { λ table. length table.ribs.items ≡ 16 };
}

impl RibMulti {
    /// RIBs that keep nothing, in which nothing is marked.
    pub fn new(alloc: Global) -> Result<Self, NoMemory>
        ensures empty { IfOk result (λ ribs. (number : ℕ) → IsEmptyRib (rib_at ribs number)) }
        ensures refs { IfOk result (λ ribs. refs_of ribs ≡ []) }
    {
        let mut ribs = Vec::new(alloc);
        while ribs.len() < usize::from(MOST_RIBS) {
            ribs.push(Rib::new(alloc))?;
        }
        Ok(RibMulti { alloc, ribs })
    }

    /// The candidates that are kept of a prefix, in the order in which they were given.
    pub fn kept(&self, rib: u8, prefix: Prefix) -> &[Candidate]
        ensures { result.now ≡ kept_at self.now rib prefix }
    {
        match self.rib(rib) {
            Some(rib) => rib.kept(prefix),
            None => &[],
        }
    }

    /// The best of what is kept of a prefix, by the rules that held when it was kept.
    pub fn best_of(&self, rib: u8, prefix: Prefix) -> Option<&Candidate>
        ensures { option_copied result ≡ best_at self.now rib prefix }
    {
        self.rib(rib)?.best_of(prefix)
    }

    /// Whether anything is kept of a prefix.
    pub fn has_row(&self, rib: u8, prefix: Prefix) -> bool
        ensures { result ≡ is_some (row_at self.now rib prefix) }
    {
        self.rib(rib).is_some_and(|rib| rib.has_row(prefix))
    }

    /// What is kept as it is shown: by prefix, and the routes to one prefix in the order in which they were given.
    pub fn rows(&self, rib: u8) -> Result<RouteList, NoMemory>
        ensures { IfOk result (λ routes. routes ≡ routes_in (rib_at self.now rib)) }
    {
        match self.rib(rib) {
            Some(rib) => rib.routes(self.alloc),
            None => Ok(Items::new(self.alloc)),
        }
    }

    /// Marks one prefix, known or not. Where memory is refused, nothing changes.
    pub fn mark(&mut self, rib: u8, prefix: Prefix) -> Result<(), NoMemory>
        requires { rib < MOST_RIBS }
        ensures marks { OnOk result ((known : List Prefix) (q : Prefix) →
            is_marked_at known self.new rib q ≡ (eq_by_cmp prefix_cmp q prefix || is_marked_at known self.old rib q)) }
        ensures rows { (rib_at self.new rib).rows ≡ (rib_at self.old rib).rows }
        ensures refs { refs_of self.new ≡ refs_of self.old }
        ensures others { KeepsOthers self.old self.new rib }
        ensures err { OnErr result (self.new ≡ self.old) }
    {
        self.ribs[usize::from(rib)].mark(prefix)
    }

    /// Marks every known prefix in a RIB, and takes every other mark in it away. It takes no memory.
    pub fn start(&mut self, rib: u8)
        requires { rib < MOST_RIBS }
        ensures marks { (known : List Prefix) (q : Prefix) → is_marked_at known self.new rib q ≡ is_in known q }
        ensures rows { (rib_at self.new rib).rows ≡ (rib_at self.old rib).rows }
        ensures refs { refs_of self.new ≡ refs_of self.old }
        ensures others { KeepsOthers self.old self.new rib }
    {
        self.ribs[usize::from(rib)].start();
    }

    /// Whether a prefix is marked.
    pub fn is_marked(&self, rib: u8, known: &PrefixSet, prefix: Prefix) -> bool
        ensures { result ≡ is_marked_at known.now self.now rib prefix }
    {
        match self.rib(rib) {
            Some(rib) => rib.is_marked(known, prefix),
            None => false,
        }
    }

    /// The least marked prefix of a RIB, or None where none is marked.
    pub fn least(&self, rib: u8, known: &PrefixSet) -> Option<Prefix>
        ensures { IsLeast (is_marked_at known.now self.now rib) result }
    {
        self.rib(rib)?.least(known)
    }

    /// Keeps these candidates of the least marked prefix in the place of those before, takes its mark away, and answers
    /// the best before and behind. The references of the candidates before go back to the table. Where memory is refused,
    /// the RIBs and the uses of the table are as they were.
    pub fn refresh(
        &mut self,
        known: &PrefixSet,
        table: &mut AttrTable,
        rib: u8,
        prefix: Prefix,
        candidates: CandidateList,
        med_always: bool,
    ) -> Result<Change, NoMemory>
        requires least { IsLeastOf (is_marked_at known.now self.old rib) prefix }
        requires few { length candidates ≤ MOST_CANDIDATES }
        requires came { CameFrom table.old (refs_of self.old ++ refs_in candidates) }
        ensures row { OnOk result (SetsRow (rib_at self.old rib) (rib_at self.new rib) prefix (row_for med_always candidates)) }
        ensures taken { OnOk result ((q : Prefix) → is_marked_at known.now self.new rib q
            ≡ (not (eq_by_cmp prefix_cmp q prefix) && is_marked_at known.now self.old rib q)) }
        ensures none_comes { OnOk result ((others : List Prefix) (q : Prefix) →
            is_marked_at others self.new rib q ≡ true → is_marked_at others self.old rib q ≡ true) }
        ensures others { OnOk result (KeepsOthers self.old self.new rib) }
        ensures old { IfOk result (λ change. change.old ≡ best_at self.old rib prefix) }
        ensures new { IfOk result (λ change. change.new ≡ best_of med_always candidates) }
        ensures uses { IfOk result (λ change.
            Moves table.old table.new (refs_of self.old ++ refs_in candidates) (refs_of self.new ++ refs_of_change change)) }
        ensures came { IfOk result (λ change. CameFrom table.new (refs_of self.new ++ refs_of_change change)) }
        ensures err { OnErr result (self.new ≡ self.old) }
        ensures err_uses { OnErr result (Moves table.old table.new [] []) }
    {
        self.ribs[usize::from(rib)].refresh(known, table, prefix, candidates, med_always)
    }

    /// Drops all that the RIBs from a number on keep, and their marks. Their references go back to the table. It takes no
    /// memory.
    pub fn shrink(&mut self, table: &mut AttrTable, ribs: u8)
        requires { CameFrom table.old (refs_of self.old) }
        ensures stay { (number : ℕ) → number < ribs → rib_at self.new number ≡ rib_at self.old number }
        ensures gone { (number : ℕ) → ribs ≤ number → IsEmptyRib (rib_at self.new number) }
        ensures uses { Moves table.old table.new (refs_of self.old) (refs_of self.new) }
        ensures came { CameFrom table.new (refs_of self.new) }
    {
        for number in ribs..MOST_RIBS {
            self.empty(table, number);
        }
        let _ = &self.ribs;
    }

    /// Drops all that one RIB keeps, and its marks.
    fn empty(&mut self, table: &mut AttrTable, number: u8)
        requires within { number < MOST_RIBS }
        requires came { CameFrom table.old (refs_of self.old) }
        ensures empty { IsEmptyRib (rib_at self.new number) }
        ensures others { KeepsOthers self.old self.new number }
        ensures uses { Moves table.old table.new (refs_of self.old) (refs_of self.new) }
        ensures fewer { (attrs : ℕ) → times attrs (refs_of self.new) ≤ times attrs (refs_of self.old) }
        ensures came { CameFrom table.new (refs_of self.new) }
    {
        let rib = mem::replace(&mut self.ribs[usize::from(number)], Rib::new(self.alloc));
        rib.give_back(table);
    }

    /// The RIB of a number.
    fn rib(&self, number: u8) -> Option<&Rib>
        ensures { unwrap_or (option_copied result) empty_rib ≡ rib_at self.now number }
    {
        self.ribs.get(usize::from(number))
    }
}
