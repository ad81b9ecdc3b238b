//! The routing tables of the kernel.
ghost use Rattle.std.specs.Prelude.{◌≡◌, ◌≢◌, ◌≤◌, ℕ, List, [], Option, None, Some, length, IfOk, IfSome, OnOk, OnErr, IsErrOf};
ghost use Rattle.std.specs.BTreeMap.{insert_entry, is_at};
ghost use Rattle.std.specs.Map.{remove_entry};
ghost use Rattle.net_base.specs.declared.prefix.Prefix.{Prefix};
ghost use Rattle.net_base.specs.declared.addr.Addr.{Addr};
ghost use Rattle.net_base.specs.Order.{prefix_cmp};
ghost use Rattle.io_edge.specs.FileFault.{CountsFault};
ghost use Rattle.kroute.specs.Rows.{with_row, without_row, ChangesRows, CountsTable, CountsListed, IsByPrefix};
ghost use Rattle.kroute.specs.TableMemory.{rows_in};

use io_edge::{Failed, FileFault};
use net_base::{Addr, Items, Prefix};
use std::alloc::{AllocError, Global};
use std::collections::BTreeMap;

/// Rows of a kernel table, each a prefix and its next hop, in order of prefix.
pub type HopList = Items<(Prefix, Addr)>;

/// The routing tables of the kernel, by number.
///
/// A call on one table leaves the rows of all others as they were.
pub trait Kernel {
    /// The rows of a table in order of prefix, where they are told; `None` claims nothing.
    ghost held: { Self → ℕ → Option (List (Prefix × Addr)) };

    /// How many faults a table had. The counts stand still at the last value of a u64.
    ghost faults: { Self → ℕ → ℕ };

    /// How many rows the lists have given. The count stands still at the last value of a u64.
    ghost listed: { Self → ℕ };

    /// Puts the row, or replaces that of its prefix. Failed comes only where the table's count of faults rose; then the
    /// row is as before or as asked.
    fn set(&mut self, table: u32, prefix: Prefix, hop: Addr) -> Result<(), Failed>
        ensures rows { ChangesRows (held self.old) (held self.new) table
            (with_row prefix_cmp (held self.old table) prefix hop) result }
        ensures listed { listed self.new ≡ listed self.old }
        ensures count { CountsTable (faults self.old) (faults self.new) table result };

    /// Takes the row of the prefix away, if there is one. Failed comes only where the table's count of faults rose; then
    /// the row is as before or gone.
    fn del(&mut self, table: u32, prefix: Prefix) -> Result<(), Failed>
        ensures rows { ChangesRows (held self.old) (held self.new) table
            (without_row prefix_cmp (held self.old table) prefix) result }
        ensures listed { listed self.new ≡ listed self.old }
        ensures count { CountsTable (faults self.old) (faults self.new) table result };

    /// All rows of the table, by prefix, each prefix once. Failed comes only where the table's count of faults rose.
    fn list(&mut self, alloc: Global, table: u32) -> Result<HopList, FileFault>
        ensures answer { IfOk result (λ rows. IfSome (held self.old table) (λ told. rows ≡ told)) }
        ensures by_prefix { IfOk result (λ rows. IsByPrefix rows) }
        ensures rows { held self.new ≡ held self.old }
        ensures listed { CountsListed (listed self.old) (listed self.new) result }
        ensures count { CountsFault (faults self.old table) (faults self.new table) result }
        ensures never_falls { (other : ℕ) → faults self.old other ≤ faults self.new other };

    /// The count of faults of a table.
    fn faults(&self, table: u32) -> u64
        ensures { result ≡ faults self.now table };

    /// The count of rows that the lists have given.
    fn listed(&self) -> u64
        ensures { result ≡ listed self.now };
}

/// Kernel tables in memory, which tell their rows. A call fails only where memory is refused, and that counts for every
/// table.
#[derive(Drop)]
pub struct TableMemory {
    alloc: Global,
    tables: BTreeMap<u32, BTreeMap<Prefix, Addr>>,
    faults: u64,
    listed: u64,
}

impl TableMemory {
    /// No table has a row, and no fault was met.
    pub fn new(alloc: Global) -> Self
        ensures rows { (table : ℕ) → rows_in result.tables table ≡ [] }
        ensures faults { result.faults ≡ 0 }
        ensures listed { result.listed ≡ 0 }
    {
        TableMemory {
            alloc,
            tables: BTreeMap::new(alloc),
            faults: 0,
            listed: 0,
        }
    }
}

// Puts a row into its table, which is made where it is the first. Where memory is refused nothing changes.
fn put(
    alloc: Global,
    tables: &mut BTreeMap<u32, BTreeMap<Prefix, Addr>>,
    table: u32,
    prefix: Prefix,
    hop: Addr,
) -> Result<(), AllocError>
    ensures ok { OnOk result (rows_in tables.new table ≡ insert_entry prefix_cmp (rows_in tables.old table) prefix hop) }
    ensures err { OnErr result ((other : ℕ) → rows_in tables.new other ≡ rows_in tables.old other) }
    ensures others { (other : ℕ) → other ≢ table → rows_in tables.new other ≡ rows_in tables.old other }
{
    if let Some(rows) = tables.get_mut(&table) {
        rows.insert(prefix, hop)?;
        return Ok(());
    }
    let mut rows = BTreeMap::new(alloc);
    rows.insert(prefix, hop)?;
    tables.insert(table, rows)?;
    Ok(())
}

// Takes a row out of its table, if it is there.
fn take_away(tables: &mut BTreeMap<u32, BTreeMap<Prefix, Addr>>, table: u32, prefix: Prefix)
    ensures row { rows_in tables.new table ≡ remove_entry (is_at (⟦<Prefix as Ord>⟧.cmp prefix)) (rows_in tables.old table) }
    ensures others { (other : ℕ) → other ≢ table → rows_in tables.new other ≡ rows_in tables.old other }
{
    if let Some(rows) = tables.get_mut(&table) {
        rows.remove(&prefix);
    }
}

// The rows of a table in order.
fn rows_of(
    alloc: Global,
    tables: &BTreeMap<u32, BTreeMap<Prefix, Addr>>,
    table: u32,
) -> Result<HopList, AllocError>
    ensures rows { IfOk result (λ rows. rows ≡ rows_in tables.now table) }
    ensures by_prefix { IfOk result (λ rows. IsByPrefix rows) }
{
    match tables.get(&table) {
        Some(rows) => entries_of(alloc, rows),
        None => Ok(Items::new(alloc)),
    }
}

/// The rows of a map in order.
pub(crate) fn entries_of(
    alloc: Global,
    rows: &BTreeMap<Prefix, Addr>,
) -> Result<HopList, AllocError>
    ensures rows { IfOk result (λ list. list ≡ rows.now.entries) }
    ensures by_prefix { IfOk result (λ list. IsByPrefix list) }
{
    let mut list = Items::new(alloc);
    for (prefix, hop) in rows.iter() {
        list.push((*prefix, *hop))?;
    }
    Ok(list)
}

impl Kernel for TableMemory {
    ghost held = { λ s table. Some (rows_in s.tables table) };

    ghost faults = { λ s _. s.faults };

    ghost listed = { λ s. s.listed };

    fn set(&mut self, table: u32, prefix: Prefix, hop: Addr) -> Result<(), Failed> {
        if put(self.alloc, &mut self.tables, table, prefix, hop).is_err() {
            self.faults = self.faults.saturating_add(1);
            return Err(Failed);
        }
        Ok(())
    }

    fn del(&mut self, table: u32, prefix: Prefix) -> Result<(), Failed> {
        take_away(&mut self.tables, table, prefix);
        Ok(())
    }

    fn list(&mut self, alloc: Global, table: u32) -> Result<HopList, FileFault> {
        let rows = rows_of(alloc, &self.tables, table)?;
        self.listed = self.listed.saturating_add(rows.len() as u64);
        Ok(rows)
    }

    fn faults(&self, _table: u32) -> u64 {
        self.faults
    }

    fn listed(&self) -> u64 {
        self.listed
    }
}
