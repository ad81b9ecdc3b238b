ghost use Rattle.std.specs.Prelude.{◌≡◌, ◌-◌, [], length, Some, None, IfOk, OnOk, OnErr};
ghost use Rattle.std.specs.Map.{keys_of};
ghost use Rattle.std.specs.Option.{option_map};
ghost use Rattle.kroute.specs.Phases.{coupling_of};
ghost use Rattle.kroute.specs.Table.{couples, decouples, new_table, wants, wants_no};
ghost use Rattle.kroute.specs.Tables.{ChangesTable, HasNext, IsLowest, LowestJob, SetsArranged, SetsTable, arranged_at, changed, table_at, wanted_of};
ghost use Rattle.kroute.specs.Units.{CallsOn, IsUnit};

use crate::phase::{Coupling, Work};
use crate::table::{Change, Table};
use crate::{HopList, Kernel};
use net_base::{Addr, Items, NoMemory, Prefix};
use std::alloc::Global;
use std::collections::BTreeMap;
use std::marker::Model;

/// The configured kernel tables: what is wanted of each, how it stands, and what is still to be put right.
///
/// Of one unit of work each makes one kernel call, of the lowest table with a job. A call can be arranged to fail, for each
/// table number, configured or not.
#[derive(Drop)]
pub struct Tables {
    alloc: Global,
    tables: BTreeMap<u32, Table>,
    arranged: BTreeMap<u32, u32>,
}

impl Model for Tables {
    ghost use Rattle.kroute.specs.Tables.{TablesState};

    ghost Value = { TablesState };

    ghost view = { λ s. record { tables = s.tables.entries; arranged = s.arranged.entries } };
}

impl Tables {
    /// No table is configured, and no failure arranged. It takes no memory.
    pub fn new(alloc: Global) -> Self
        ensures { result ≡ record { tables = []; arranged = [] } }
    {
        Tables {
            alloc,
            tables: BTreeMap::new(alloc),
            arranged: BTreeMap::new(alloc),
        }
    }

    /// Configures a table, in the place of one of its number: nothing is wanted of it yet, and it isn't coupled. Where memory
    /// is refused, nothing changes.
    pub fn add(&mut self, table: u32) -> Result<(), NoMemory>
        ensures tables { OnOk result (SetsTable (Some new_table) table self.old self.new) }
        ensures arranged { self.new.arranged ≡ self.old.arranged }
        ensures err { OnErr result (self.new ≡ self.old) }
    {
        self.tables.insert(table, Table::new(self.alloc))?;
        Ok(())
    }

    /// Forgets a table: what was wanted of it, and its job. A failure that is arranged for its number stays.
    pub fn remove(&mut self, table: u32)
        ensures tables { SetsTable None table self.old self.new }
        ensures arranged { self.new.arranged ≡ self.old.arranged }
    {
        self.tables.remove(&table);
    }

    /// A row is wanted, in the place of the one of its prefix; where the table is coupled and listed, the prefix is then to
    /// be put right. A table that isn't configured is passed over. Where memory is refused, nothing changes.
    pub fn set(&mut self, table: u32, prefix: Prefix, hop: Addr) -> Result<(), NoMemory>
        ensures tables { OnOk result (ChangesTable (wants prefix hop) table self.old self.new) }
        ensures arranged { self.new.arranged ≡ self.old.arranged }
        ensures err { OnErr result (self.new ≡ self.old) }
    {
        self.change(table, Change::Want(prefix, hop))
    }

    /// No row of the prefix is wanted; where the table is coupled and listed, the prefix is then to be put right. A table
    /// that isn't configured is passed over. Where memory is refused, nothing changes.
    pub fn del(&mut self, table: u32, prefix: Prefix) -> Result<(), NoMemory>
        ensures tables { OnOk result (ChangesTable (wants_no prefix) table self.old self.new) }
        ensures arranged { self.new.arranged ≡ self.old.arranged }
        ensures err { OnErr result (self.new ≡ self.old) }
    {
        self.change(table, Change::WantNone(prefix))
    }

    /// Couples a table, or couples it again: its rows are to be listed, and then put right where they differ. A table that
    /// isn't configured is passed over. Where memory is refused, nothing changes.
    pub fn couple(&mut self, table: u32) -> Result<(), NoMemory>
        ensures tables { OnOk result (ChangesTable couples table self.old self.new) }
        ensures arranged { self.new.arranged ≡ self.old.arranged }
        ensures err { OnErr result (self.new ≡ self.old) }
    {
        self.change(table, Change::Couple)
    }

    /// Decouples a table: its rows are to be deleted, behind a list that is still to be made. One that wasn't coupled since
    /// it was configured, or is lost, has nothing to do, and one that isn't configured is passed over. Where memory is
    /// refused, nothing changes.
    pub fn decouple(&mut self, table: u32) -> Result<(), NoMemory>
        ensures tables { OnOk result (ChangesTable decouples table self.old self.new) }
        ensures arranged { self.new.arranged ≡ self.old.arranged }
        ensures err { OnErr result (self.new ≡ self.old) }
    {
        self.change(table, Change::Decouple)
    }

    /// Changes a table, where it is configured. Where memory is refused, nothing changes.
    fn change(&mut self, table: u32, change: Change) -> Result<(), NoMemory>
        ensures tables { OnOk result (ChangesTable (changed change) table self.old self.new) }
        ensures arranged { self.new.arranged ≡ self.old.arranged }
        ensures err { OnErr result (self.new ≡ self.old) }
    {
        let Some(found) = self.tables.get_mut(&table) else {
            return Ok(());
        };
        found.change(change)
    }

    /// Lets the `n`-th next call on a table number fail without being made; with 0 no call fails. It replaces what was
    /// arranged for the number before. Where memory is refused, nothing changes.
    pub fn arrange(&mut self, table: u32, n: u32) -> Result<(), NoMemory>
        ensures arranged { OnOk result (SetsArranged n table self.old self.new) }
        ensures tables { self.new.tables ≡ self.old.tables }
        ensures err { OnErr result (self.new ≡ self.old) }
    {
        self.arranged.insert(table, n)?;
        Ok(())
    }

    /// How a table stands, or None where it isn't configured.
    pub fn coupling(&self, table: u32) -> Option<Coupling>
        ensures { result ≡ option_map (λ t. coupling_of t.phase) (table_at self.now table) }
    {
        match self.tables.get(&table) {
            Some(found) => Some(found.coupling()),
            None => None,
        }
    }
}

impl Tables {
    /// The lowest table with a job: a list that is still to be made, or a row to be put right.
    pub fn job(&self) -> Option<u32>
        ensures { LowestJob self.now result }
    {
        match self.next() {
            Some((table, _)) => Some(table),
            None => None,
        }
    }

    /// The lowest table with a job, and the next call on it.
    fn next(&self) -> Option<(u32, Work)>
        ensures { IsLowest self.now result }
    {
        for (number, table) in self.tables.iter() {
            if let Some(work) = table.next() {
                return Some((*number, work));
            }
        }
        None
    }

    /// Makes one kernel call: the next one of the lowest table with a job, or none where there is no job, or where a failure
    /// falls due that was arranged for it. The answer is the table that was lost by it. Where memory is refused, nothing
    /// changes here, and no row in the kernel.
    pub fn unit<K: Kernel>(&mut self, kernel: &mut K) -> Result<Option<u32>, NoMemory>
        ensures unit { IfOk result (λ lost. IsUnit lost self.old self.new
            (record { held = K.held kernel.old; faults = K.faults kernel.old; listed = K.listed kernel.old })
            (record { held = K.held kernel.new; faults = K.faults kernel.new; listed = K.listed kernel.new })) }
        ensures same { OnErr result (self.new ≡ self.old) }
        ensures rows { OnErr result (K.held kernel.new ≡ K.held kernel.old) }
    {
        let Some((number, work)) = self.next() else {
            return Ok(None);
        };
        if self.arranged_for(number) == 1 {
            self.change(number, Change::Lose)?;
            self.count_call(number);
            return Ok(Some(number));
        }
        let lost = self.call(number, work, kernel)?;
        self.count_call(number);
        if lost { Ok(Some(number)) } else { Ok(None) }
    }
}

impl Tables {
    /// Makes the next call on a table, and answers whether it was lost by it.
    fn call<K: Kernel>(&mut self, number: u32, work: Work, kernel: &mut K) -> Result<bool, NoMemory>
        requires { HasNext work (table_at self.old number) }
        ensures made { IfOk result (λ lost. CallsOn lost number work self.old self.new
            (record { held = K.held kernel.old; faults = K.faults kernel.old; listed = K.listed kernel.old })
            (record { held = K.held kernel.new; faults = K.faults kernel.new; listed = K.listed kernel.new })) }
        ensures arranged { self.new.arranged ≡ self.old.arranged }
        ensures same { OnErr result (self.new ≡ self.old) }
        ensures rows { OnErr result (K.held kernel.new ≡ K.held kernel.old) }
    {
        let alloc = self.alloc;
        let Some(table) = self.tables.get_mut(&number) else {
            return Ok(false);
        };
        table.call(alloc, number, work, kernel)
    }

    /// The how many next call on a table number fails, or 0 where none is to.
    fn arranged_for(&self, number: u32) -> u32
        ensures { result ≡ arranged_at self.now number }
    {
        match self.arranged.get(&number) {
            Some(left) => *left,
            None => 0,
        }
    }

    /// A call on a table number was made, or failed.
    fn count_call(&mut self, number: u32)
        ensures arranged { SetsArranged (arranged_at self.old number - 1) number self.old self.new }
        ensures tables { self.new.tables ≡ self.old.tables }
    {
        if let Some(left) = self.arranged.get_mut(&number) {
            *left = left.saturating_sub(1);
        }
    }
}

impl Tables {
    /// The configured tables, by number.
    pub fn numbers(&self, alloc: Global) -> Result<Items<u32>, NoMemory>
        ensures { IfOk result (λ numbers. numbers ≡ keys_of self.now.tables) }
    {
        let mut numbers = Items::new(alloc);
        for (number, _) in self.tables.iter() {
            numbers.push(*number)?;
        }
        Ok(numbers)
    }

    /// The rows that are wanted of a table, by prefix; none where it isn't configured.
    pub fn wanted(&self, alloc: Global, table: u32) -> Result<HopList, NoMemory>
        ensures { IfOk result (λ rows. rows ≡ wanted_of self.now table) }
    {
        match self.tables.get(&table) {
            Some(found) => found.rows(alloc),
            None => Ok(Items::new(alloc)),
        }
    }

    /// How many rows are wanted of a table.
    pub fn len(&self, table: u32) -> usize
        ensures { result ≡ length (wanted_of self.now table) }
    {
        match self.tables.get(&table) {
            Some(found) => found.len(),
            None => 0,
        }
    }
}
