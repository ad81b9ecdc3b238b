ghost use Rattle.std.specs.Prelude.{◌≡◌, ℕ, ◌+◌, true, false, [], ◌++◌, cond, not, ◌&&◌, ◌||◌, option_copied, IfOk, OnOk, OnErr, IsTrue};
ghost use Rattle.std.specs.List.{AllByRecursion};
ghost use Rattle.net_base.specs.declared.prefix.Prefix.{Prefix};
ghost use Rattle.attr_intern.specs.Table.{Table, times, IsOf, CameFrom};
ghost use Rattle.adj_rib_out.specs.Uses.{Moves};
ghost use Rattle.adj_rib_out.specs.Rows.{is_same, has_row, told_in, again_in, kept_in, one_or_none, told_prefix, told_prefixes};
ghost use Rattle.adj_rib_out.specs.Same.{same_number};

use crate::give::give_back;
use attr_intern::AttrTable;
use attr_model::AttrRef;
use net_base::{Items, NoMemory, Prefix, PrefixList};
use std::alloc::Global;
use std::collections::BTreeMap;
use std::marker::Model;
use std::mem;

/// What a session was told of a prefix, and whether it is to be told again.
#[derive(Drop)]
pub struct Row {
    pub(crate) told: Option<AttrRef>,
    pub(crate) again: bool,
}

/// The rows of one session, which contracts see as the list by prefix. Each queued prefix has one, so that a build takes no memory
/// for what it tells.
#[derive(Drop)]
pub struct Rows {
    rows: BTreeMap<Prefix, Row>,
}

impl Model for Rows {
    ghost use Rattle.adj_rib_out.specs.Rows.{SentRows};

    ghost Value = { SentRows };

    ghost view = { λ s. s.rows.entries };
}

impl Rows {
    /// No rows, which takes no memory.
    pub(crate) fn new(alloc: Global) -> Self
        ensures { result ≡ [] }
    {
        Rows {
            rows: BTreeMap::new(alloc),
        }
    }

    /// What the session was told of the prefix.
    pub(crate) fn told(&self, prefix: Prefix) -> Option<&AttrRef>
        ensures { option_copied result ≡ told_in self.now prefix }
    {
        match self.rows.get(&prefix) {
            Some(row) => row.told.as_ref(),
            None => None,
        }
    }

    /// The prefixes of which the session was told anything, in order.
    pub(crate) fn told_prefixes(&self, alloc: Global) -> Result<PrefixList, NoMemory>
        ensures { IfOk result (λ prefixes. prefixes ≡ told_prefixes self.now) }
    {
        let mut prefixes = Items::new(alloc);
        for (prefix, row) in self.rows.iter() {
            push_told(&mut prefixes, *prefix, row)?;
        }
        Ok(prefixes)
    }

    /// Whether the prefix is to be told again.
    pub(crate) fn is_again(&self, prefix: Prefix) -> bool
        ensures { result ≡ again_in self.now prefix }
    {
        self.rows.get(&prefix).is_some_and(|row| row.again)
    }

    /// Whether what is wanted of the prefix differs from what was told, or is to be told again.
    pub(crate) fn has_news(&self, prefix: Prefix, wanted: &Option<AttrRef>) -> bool
        ensures { result ≡ (again_in self.now prefix || not (same_number wanted.now (told_in self.now prefix))) }
    {
        match self.rows.get(&prefix) {
            Some(row) => row.again || !is_same_wanted(wanted, &row.told),
            None => wanted.is_some(),
        }
    }

    /// Sees to it that the prefix has a row. Where memory is refused, the rows are as they were.
    pub(crate) fn keep(&mut self, prefix: Prefix) -> Result<(), NoMemory>
        ensures rows { OnOk result ((p : Prefix) → has_row self.new p ≡ (is_same p prefix || has_row self.old p)) }
        ensures told { (p : Prefix) → told_in self.new p ≡ told_in self.old p }
        ensures again { (p : Prefix) → again_in self.new p ≡ again_in self.old p }
        ensures kept { kept_in self.new ≡ kept_in self.old }
        ensures stays { OnErr result ((p : Prefix) → has_row self.new p ≡ has_row self.old p) }
    {
        if self.rows.contains_key(&prefix) {
            return Ok(());
        }
        let row = Row {
            told: None,
            again: false,
        };
        self.rows.insert(prefix, row)?;
        Ok(())
    }

    /// Marks a prefix that has a row as one to be told again.
    pub(crate) fn mark(&mut self, prefix: Prefix)
        requires { IsTrue (has_row self.old prefix) }
        ensures rows { (p : Prefix) → has_row self.new p ≡ has_row self.old p }
        ensures told { (p : Prefix) → told_in self.new p ≡ told_in self.old p }
        ensures again { (p : Prefix) → again_in self.new p ≡ (is_same p prefix || again_in self.old p) }
        ensures kept { kept_in self.new ≡ kept_in self.old }
    {
        let Some(row) = self.rows.get_mut(&prefix) else {
            return;
        };
        row.again = true;
    }

    /// Notes what is told of a prefix that has a row, and hands out what was told before.
    pub(crate) fn replace(&mut self, prefix: Prefix, wanted: Option<AttrRef>) -> Option<AttrRef>
        requires { IsTrue (has_row self.old prefix) }
        ensures value { result ≡ told_in self.old prefix }
        ensures rows { (p : Prefix) → has_row self.new p ≡ has_row self.old p }
        ensures told { (p : Prefix) → told_in self.new p ≡ cond (is_same p prefix) wanted (told_in self.old p) }
        ensures again { (p : Prefix) → again_in self.new p ≡ (not (is_same p prefix) && again_in self.old p) }
        ensures uses { (number : ℕ) → times number (kept_in self.new) + times number (one_or_none result)
            ≡ times number (kept_in self.old) + times number (one_or_none wanted) }
        ensures each { (table : Table) → AllByRecursion (IsOf table) (kept_in self.old) → AllByRecursion (IsOf table) (one_or_none wanted)
            → AllByRecursion (IsOf table) (kept_in self.new) }
        ensures gone { (table : Table) → AllByRecursion (IsOf table) (kept_in self.old) → AllByRecursion (IsOf table) (one_or_none result) }
    {
        let Some(row) = self.rows.get_mut(&prefix) else {
            return wanted;
        };
        row.again = false;
        mem::replace(&mut row.told, wanted)
    }

    /// Drops the row of a prefix that says nothing.
    pub(crate) fn tidy(&mut self, prefix: Prefix)
        ensures rows { (p : Prefix) → is_same p prefix ≡ false → has_row self.new p ≡ has_row self.old p }
        ensures told { (p : Prefix) → told_in self.new p ≡ told_in self.old p }
        ensures again { (p : Prefix) → again_in self.new p ≡ again_in self.old p }
        ensures kept { kept_in self.new ≡ kept_in self.old }
    {
        if self.says_nothing(prefix) {
            self.rows.remove(&prefix);
        }
    }

    /// Gives back what was told of all prefixes.
    pub(crate) fn end(self, table: &mut AttrTable)
        requires { CameFrom table.old (kept_in self) }
        ensures { Moves table.old table.new (kept_in self) [] }
    {
        let Rows { rows } = self;
        for (_, row) in rows {
            give_back(table, row.told);
        }
    }

    /// Whether nothing was told of the prefix and it isn't to be told again.
    fn says_nothing(&self, prefix: Prefix) -> bool
        ensures told { IsTrue result → told_in self.now prefix ≡ None }
        ensures again { IsTrue result → again_in self.now prefix ≡ false }
    {
        match self.rows.get(&prefix) {
            Some(row) => row.told.is_none() && !row.again,
            None => true,
        }
    }
}

/// Puts a prefix behind others where its row was told anything.
fn push_told(prefixes: &mut PrefixList, prefix: Prefix, row: &Row) -> Result<(), NoMemory>
    ensures { OnOk result (prefixes.new ≡ prefixes.old ++ told_prefix prefix row.now) }
{
    if row.told.is_some() {
        prefixes.push(prefix)?;
    }
    Ok(())
}

/// Whether two wanted values are the same: the same attributes, which in one table have the same number, or none.
pub(crate) fn is_same_wanted(one: &Option<AttrRef>, other: &Option<AttrRef>) -> bool
    ensures { result ≡ same_number one.now other.now }
{
    match (one, other) {
        (None, None) => true,
        (Some(one), Some(other)) => one == other,
        _ => false,
    }
}
