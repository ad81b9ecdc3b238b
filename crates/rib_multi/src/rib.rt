ghost use Rattle.std.specs.Prelude.{◌≡◌, ◌≤◌, ◌+◌, ℕ, List, Bool, true, not, ◌&&◌, ◌||◌, [], ◌++◌, length, is_some, option_copied, IfOk, OnOk, OnErr};
ghost use Rattle.std.specs.Ordering.{eq_by_cmp};
ghost use Rattle.net_base.specs.declared.prefix.Prefix.{Prefix};
ghost use Rattle.net_base.specs.Order.{prefix_cmp};
ghost use Rattle.net_base.specs.PrefixSet.{is_in, IsLeast, IsLeastOf};
ghost use Rattle.sweep_jobs.specs.Marks.{is_marked};
ghost use Rattle.decision.specs.Best.{best_of};
ghost use Rattle.attr_intern.specs.Table.{Table, times, IsOf, CameFrom};
ghost use Rattle.rib_multi.specs.Rows.{row_in, candidates_of, best_of_row, row_for, SetsRow, IsEmptyRib};
ghost use Rattle.rib_multi.specs.Shown.{routes_in};
ghost use Rattle.std.specs.List.{AllByRecursion, flat_map};
ghost use Rattle.std.specs.Map.{values_of};
ghost use Rattle.rib_multi.specs.Uses.{refs_in, refs_of_row, refs_of_rib, refs_of_change, Moves};

use crate::change::{change_of, give_all, give_change};
use crate::row::Row;
use crate::shown::show_row;
use crate::{CandidateList, Change};
use attr_intern::AttrTable;
use attr_model::RouteList;
use decision::{Candidate, MOST_CANDIDATES};
use net_base::{Items, NoMemory, Prefix, PrefixSet};
use std::alloc::Global;
use std::collections::BTreeMap;
use std::marker::Model;
use sweep_jobs::Marks;

/// One RIB. Contracts see its rows by prefix, and its marks.
#[derive(Drop)]
pub(crate) struct Rib {
    rows: BTreeMap<Prefix, Row>,
    marks: Marks,
}

impl Model for Rib {
    ghost use Rattle.rib_multi.specs.Rows.{RibState};

    ghost Value = { RibState };

    ghost view = { λ rib. record { rows = rib.rows.entries; marks = rib.marks } };
}

impl Rib {
    /// A RIB without rows, in which nothing is marked. It takes no memory.
    pub(crate) fn new(alloc: Global) -> Self
        ensures { IsEmptyRib result }
    {
        Rib {
            rows: BTreeMap::new(alloc),
            marks: Marks::new(alloc),
        }
    }

    /// The candidates that are kept of a prefix.
    pub(crate) fn kept(&self, prefix: Prefix) -> &[Candidate]
        ensures { result.now ≡ candidates_of (row_in self.now prefix) }
    {
        match self.rows.get(&prefix) {
            Some(row) => row.candidates(),
            None => &[],
        }
    }

    /// The best of what is kept of a prefix.
    pub(crate) fn best_of(&self, prefix: Prefix) -> Option<&Candidate>
        ensures { option_copied result ≡ best_of_row (row_in self.now prefix) }
    {
        self.rows.get(&prefix)?.best()
    }

    /// Whether anything is kept of a prefix.
    pub(crate) fn has_row(&self, prefix: Prefix) -> bool
        ensures { result ≡ is_some (row_in self.now prefix) }
    {
        self.rows.contains_key(&prefix)
    }

    /// What is kept as it is shown.
    pub(crate) fn routes(&self, alloc: Global) -> Result<RouteList, NoMemory>
        ensures { IfOk result (λ routes. routes ≡ routes_in self.now) }
    {
        let mut routes = Items::new(alloc);
        for (prefix, row) in self.rows.iter() {
            show_row(&mut routes, *prefix, row)?;
        }
        Ok(routes)
    }

    /// Marks one prefix.
    pub(crate) fn mark(&mut self, prefix: Prefix) -> Result<(), NoMemory>
        ensures marks { OnOk result ((known : List Prefix) (q : Prefix) →
            is_marked known self.new.marks q ≡ (eq_by_cmp prefix_cmp q prefix || is_marked known self.old.marks q)) }
        ensures rows { self.new.rows ≡ self.old.rows }
        ensures err { OnErr result (self.new ≡ self.old) }
    {
        self.marks.touch(prefix)
    }

    /// Marks every known prefix, and takes every other mark away.
    pub(crate) fn start(&mut self)
        ensures marks { (known : List Prefix) (q : Prefix) → is_marked known self.new.marks q ≡ is_in known q }
        ensures rows { self.new.rows ≡ self.old.rows }
    {
        self.marks.start();
    }

    /// Whether a prefix is marked.
    pub(crate) fn is_marked(&self, known: &PrefixSet, prefix: Prefix) -> bool
        ensures { result ≡ is_marked known.now self.now.marks prefix }
    {
        self.marks.is_marked(known, prefix)
    }

    /// The least marked prefix, or None where none is marked.
    pub(crate) fn least(&self, known: &PrefixSet) -> Option<Prefix>
        ensures { IsLeast (is_marked known.now self.now.marks) result }
    {
        self.marks.least(known)
    }

    /// Keeps these candidates of the least marked prefix in the place of those before, whose uses go back to the table,
    /// and takes its mark away. Where memory is refused, the RIB and the uses of the table are as they were.
    pub(crate) fn refresh(
        &mut self,
        known: &PrefixSet,
        table: &mut AttrTable,
        prefix: Prefix,
        candidates: CandidateList,
        always: bool,
    ) -> Result<Change, NoMemory>
        requires least { IsLeastOf (is_marked known.now self.old.marks) prefix }
        requires few { length candidates ≤ MOST_CANDIDATES }
        requires came { CameFrom table.old (refs_in (candidates_of (row_in self.old prefix)) ++ refs_in candidates) }
        ensures row { OnOk result (SetsRow self.old self.new prefix (row_for always candidates)) }
        ensures taken { OnOk result ((q : Prefix) →
            is_marked known.now self.new.marks q ≡ (not (eq_by_cmp prefix_cmp q prefix) && is_marked known.now self.old.marks q)) }
        ensures none_comes { OnOk result ((others : List Prefix) (q : Prefix) →
            is_marked others self.new.marks q ≡ true → is_marked others self.old.marks q ≡ true) }
        ensures old { IfOk result (λ change. change.old ≡ best_of_row (row_in self.old prefix)) }
        ensures new { IfOk result (λ change. change.new ≡ best_of always candidates) }
        ensures refs { OnOk result ((number : ℕ) →
            times number (refs_of_rib self.new) + times number (refs_in (candidates_of (row_in self.old prefix)))
            ≡ times number (refs_of_rib self.old) + times number (refs_in candidates)) }
        ensures each { OnOk result ((other : Table) → AllByRecursion (IsOf other) (refs_of_rib self.old) →
            AllByRecursion (IsOf other) (refs_in candidates) → AllByRecursion (IsOf other) (refs_of_rib self.new)) }
        ensures uses { IfOk result (λ change. Moves table.old table.new (refs_in (candidates_of (row_in self.old prefix))) (refs_of_change change)) }
        ensures err { OnErr result (self.new ≡ self.old) }
        ensures err_uses { OnErr result (Moves table.old table.new [] []) }
    {
        let row = Row::new(candidates, always);
        let change = change_of(table, self.best_of(prefix), row.best())?;
        match self.put(prefix, row) {
            Ok(replaced) => {
                self.take_mark(known, prefix);
                give_row(table, replaced);
                Ok(change)
            }
            Err(failed) => {
                give_change(table, change);
                Err(failed)
            }
        }
    }

    /// Gives the uses of all that is kept back.
    pub(crate) fn give_back(self, table: &mut AttrTable)
        requires { CameFrom table.old (refs_of_rib self) }
        ensures { Moves table.old table.new (refs_of_rib self) [] }
    {
        let Rib { rows, marks: _ } = self;
        give_rows(table, rows);
    }

    /// Keeps a row of a prefix, or none where it has no candidates, and hands out the row that there was.
    fn put(&mut self, prefix: Prefix, row: Row) -> Result<Option<Row>, NoMemory>
        ensures row { OnOk result (SetsRow self.old self.new prefix (row_for row.always row.candidates)) }
        ensures old { IfOk result (λ old. old ≡ row_in self.old prefix) }
        ensures marks { self.new.marks ≡ self.old.marks }
        ensures refs { OnOk result ((number : ℕ) →
            times number (refs_of_rib self.new) + times number (refs_in (candidates_of (row_in self.old prefix)))
            ≡ times number (refs_of_rib self.old) + times number (refs_in row.candidates)) }
        ensures each { OnOk result ((other : Table) → AllByRecursion (IsOf other) (refs_of_rib self.old) →
            AllByRecursion (IsOf other) (refs_in row.candidates) → AllByRecursion (IsOf other) (refs_of_rib self.new)) }
        ensures err { OnErr result (self.new ≡ self.old) }
    {
        if row.is_empty() {
            return Ok(self.rows.remove(&prefix));
        }
        Ok(self.rows.insert(prefix, row)?)
    }

    /// Takes the mark of the least marked prefix away.
    fn take_mark(&mut self, known: &PrefixSet, prefix: Prefix)
        requires { IsLeastOf (is_marked known.now self.old.marks) prefix }
        ensures taken { (q : Prefix) →
            is_marked known.now self.new.marks q ≡ (not (eq_by_cmp prefix_cmp q prefix) && is_marked known.now self.old.marks q) }
        ensures none_comes { (others : List Prefix) (q : Prefix) →
            is_marked others self.new.marks q ≡ true → is_marked others self.old.marks q ≡ true }
        ensures rows { self.new.rows ≡ self.old.rows }
    {
        self.marks.next(known);
    }
}

/// Gives the uses of rows back.
fn give_rows(table: &mut AttrTable, mut rows: BTreeMap<Prefix, Row>)
    requires { CameFrom table.old (flat_map refs_of_row (values_of rows.entries)) }
    ensures { Moves table.old table.new (flat_map refs_of_row (values_of rows.entries)) [] }
{
    while let Some((_, row)) = rows.pop_first() {
        give_all(table, row.into_candidates());
    }
}

/// Gives the uses of a row that may be there back.
fn give_row(table: &mut AttrTable, row: Option<Row>)
    requires { CameFrom table.old (refs_in (candidates_of row)) }
    ensures { Moves table.old table.new (refs_in (candidates_of row)) [] }
{
    if let Some(row) = row {
        give_all(table, row.into_candidates());
    }
}
