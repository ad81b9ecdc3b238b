//! The kernel tables that a configuration has.

ghost use Rattle.std.specs.Prelude.{◌≡◌, ℕ, true, false, Some, None, IfOk, OnOk, if◌then◌else◌};
ghost use Rattle.kroute.specs.Tables.{ChangesTable, SetsTable, table_at};
ghost use Rattle.parent_core.specs.KernelTables.{Configures, is_among, is_switched, switched_to, taken, tables_of};

use conf_tree::Conf;
use kroute::Tables;
use net_base::{Items, NoMemory};
use std::alloc::Global;

/// Takes up the kernel tables of a configuration. Those that it lacks are forgotten. Each that is new, and where the kernel
/// switch changed each, is coupled or decoupled by that switch.
pub(crate) fn configure(
    alloc: Global,
    tables: &mut Tables,
    old: &Conf,
    new: &Conf,
) -> Result<(), NoMemory>
    ensures tables { OnOk result (Configures old.now new.now tables.old tables.new) }
    ensures arranged { OnOk result (tables.new.arranged ≡ tables.old.arranged) }
{
    let numbers = numbers_of(alloc, new)?;
    drop_others(alloc, tables, &numbers)?;
    let switched = is_switched(old.fib_update, new.fib_update);
    take_all(tables, &numbers, switched, new.fib_update)
}

/// Whether the kernel switch changed.
fn is_switched(old: bool, new: bool) -> bool
    ensures { result ≡ is_switched old new }
{
    if old { !new } else { new }
}

/// The numbers of the kernel tables: 0 for Loc-RIB, and those of the other RIBs in their order.
fn numbers_of(alloc: Global, conf: &Conf) -> Result<Items<u32>, NoMemory>
    ensures { IfOk result (λ numbers. numbers ≡ tables_of conf.now) }
{
    let mut numbers = Items::new(alloc);
    numbers.push(0)?;
    for rib in conf.ribs.as_slice() {
        if let Some(table) = rib.table {
            numbers.push(u32::from(table))?;
        }
    }
    Ok(numbers)
}

/// Forgets the tables that aren't among these.
fn drop_others(alloc: Global, tables: &mut Tables, kept: &Items<u32>) -> Result<(), NoMemory>
    ensures tables { OnOk result ((n : ℕ) → table_at tables.new n
        ≡ (if is_among kept.now n then table_at tables.old n else None)) }
    ensures arranged { OnOk result (tables.new.arranged ≡ tables.old.arranged) }
{
    let numbers = tables.numbers(alloc)?;
    for number in numbers.iter() {
        drop_unless_kept(tables, kept, *number);
    }
    Ok(())
}

/// Forgets a table, unless it is among these.
fn drop_unless_kept(tables: &mut Tables, kept: &Items<u32>, number: u32)
    ensures stays { is_among kept.now number ≡ true → tables.new ≡ tables.old }
    ensures goes { is_among kept.now number ≡ false → SetsTable None number tables.old tables.new }
    ensures arranged { tables.new.arranged ≡ tables.old.arranged }
{
    if !is_among(kept, number) {
        tables.remove(number);
    }
}

/// Whether a number is among these.
fn is_among(numbers: &Items<u32>, number: u32) -> bool
    ensures { result ≡ is_among numbers.now number }
{
    numbers.as_slice().iter().any(|one| *one == number)
}

/// Takes up each of these tables.
fn take_all(
    tables: &mut Tables,
    numbers: &Items<u32>,
    switched: bool,
    on: bool,
) -> Result<(), NoMemory>
    ensures tables { OnOk result ((n : ℕ) → table_at tables.new n
        ≡ (if is_among numbers.now n then Some (taken switched on (table_at tables.old n)) else table_at tables.old n)) }
    ensures arranged { OnOk result (tables.new.arranged ≡ tables.old.arranged) }
{
    for number in numbers.iter() {
        take(tables, *number, switched, on)?;
    }
    Ok(())
}

/// Takes up a table: one that is new, or any where the kernel switch changed, is coupled or decoupled by it.
fn take(tables: &mut Tables, number: u32, switched: bool, on: bool) -> Result<(), NoMemory>
    ensures tables { OnOk result
        (SetsTable (Some (taken switched on (table_at tables.old number))) number tables.old tables.new) }
    ensures arranged { OnOk result (tables.new.arranged ≡ tables.old.arranged) }
{
    if tables.coupling(number).is_none() {
        tables.add(number)?;
        return switch(tables, number, on);
    }
    if switched {
        return switch(tables, number, on);
    }
    Ok(())
}

/// Couples or decouples a table.
pub(crate) fn switch(tables: &mut Tables, number: u32, on: bool) -> Result<(), NoMemory>
    ensures tables { OnOk result (ChangesTable (switched_to on) number tables.old tables.new) }
    ensures arranged { OnOk result (tables.new.arranged ≡ tables.old.arranged) }
{
    if on {
        tables.couple(number)
    } else {
        tables.decouple(number)
    }
}
