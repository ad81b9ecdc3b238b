ghost use Rattle.std.specs.Prelude.{◌≡◌, ◌≢◌, ℕ, length, Some, IfOk, OnOk, OnErr, if◌then◌else◌};
ghost use Rattle.net_base.specs.Order.{prefix_cmp};
ghost use Rattle.kroute.specs.Calls.{CountsLoss, IsAsked, IsNext, Outcome, StandsAfter};
ghost use Rattle.kroute.specs.Phases.{after_del, after_set, coupling_of, row_at};
ghost use Rattle.kroute.specs.Rows.{with_row, without_row};
ghost use Rattle.kroute.specs.Table.{new_table, wants, wants_no};
ghost use Rattle.kroute.specs.Tables.{changed};
ghost use Rattle.kroute.specs.declared.phase.Phase.TheVariants.{Lost};

use crate::kernel::entries_of;
use crate::listing::{hop_of, listed};
use crate::phase::{Coupling, Phase, Work};
use crate::{HopList, Kernel};
use io_edge::FileFault;
use net_base::{Addr, NoMemory, Prefix};
use std::alloc::{AllocError, Global};
use std::collections::BTreeMap;
use std::marker::Model;

/// One kernel table: the rows that are wanted, and how it stands.
#[derive(Drop)]
pub(crate) struct Table {
    wanted: BTreeMap<Prefix, Addr>,
    phase: Phase,
}

impl Model for Table {
    ghost use Rattle.kroute.specs.Table.{TableState};

    ghost Value = { TableState };

    ghost view = { λ s. record { wanted = s.wanted.entries; phase = s.phase } };
}

/// What changes a table.
#[derive(Clone, Copy, Debug, PartialEq, Eq)]
pub enum Change {
    /// A row is wanted, in the place of the one of its prefix.
    Want(Prefix, Addr),
    /// No row of the prefix is wanted.
    WantNone(Prefix),
    /// It is coupled, or coupled again.
    Couple,
    /// It is decoupled.
    Decouple,
    /// A call on it failed.
    Lose,
}

impl Table {
    /// A table of which nothing is wanted, and which wasn't coupled. It takes no memory.
    pub(crate) fn new(alloc: Global) -> Self
        ensures { result ≡ new_table }
    {
        Table {
            wanted: BTreeMap::new(alloc),
            phase: Phase::New,
        }
    }

    /// How the table stands, as shows say it.
    pub(crate) fn coupling(&self) -> Coupling
        ensures { result ≡ coupling_of self.now.phase }
    {
        self.phase.coupling()
    }

    /// The next kernel call, or None where there is no job.
    pub(crate) fn next(&self) -> Option<Work>
        ensures { IsNext self.now.phase result }
    {
        self.phase.next()
    }

    /// A row is wanted. Where memory is refused, the table is as it was.
    fn want(&mut self, prefix: Prefix, hop: Addr) -> Result<(), NoMemory>
        ensures ok { OnOk result (self.new ≡ wants prefix hop self.old) }
        ensures err { OnErr result (self.new ≡ self.old) }
    {
        if self.wanted.contains_key(&prefix) {
            self.phase.add_work(prefix)?;
            self.wanted.insert(prefix, hop)?;
            return Ok(());
        }
        self.wanted.insert(prefix, hop)?;
        if self.phase.add_work(prefix).is_err() {
            self.wanted.remove(&prefix);
            return Err(AllocError);
        }
        Ok(())
    }

    /// No row of the prefix is wanted. Where memory is refused, the table is as it was.
    fn want_none(&mut self, prefix: Prefix) -> Result<(), NoMemory>
        ensures ok { OnOk result (self.new ≡ wants_no prefix self.old) }
        ensures err { OnErr result (self.new ≡ self.old) }
    {
        self.phase.add_work(prefix)?;
        self.wanted.remove(&prefix);
        Ok(())
    }

    /// Changes the table. Where memory is refused, it is as it was.
    pub(crate) fn change(&mut self, change: Change) -> Result<(), NoMemory>
        ensures ok { OnOk result (self.new ≡ changed change self.old) }
        ensures err { OnErr result (self.new ≡ self.old) }
    {
        match change {
            Change::Want(prefix, hop) => self.want(prefix, hop)?,
            Change::WantNone(prefix) => self.want_none(prefix)?,
            Change::Couple => self.phase = Phase::Listing(true),
            Change::Decouple => self.phase.decouple(),
            Change::Lose => self.phase = Phase::Lost,
        }
        Ok(())
    }

    /// Makes a kernel call, and answers whether the table was lost by it. Where memory is refused, the table is as it was, and
    /// no row changed.
    pub(crate) fn call<K: Kernel>(
        &mut self,
        alloc: Global,
        number: u32,
        work: Work,
        kernel: &mut K,
    ) -> Result<bool, NoMemory>
        ensures made { IfOk result (λ lost. Outcome lost number work self.old self.new
            (record { held = K.held kernel.old; faults = K.faults kernel.old; listed = K.listed kernel.old })
            (record { held = K.held kernel.new; faults = K.faults kernel.new; listed = K.listed kernel.new })) }
        ensures same { OnErr result (self.new ≡ self.old) }
        ensures rows { OnErr result (K.held kernel.new ≡ K.held kernel.old) }
    {
        match work {
            Work::ListRows(coupled) => self.list(alloc, number, coupled, kernel),
            Work::PutRight(prefix) => match self.wanted_at(prefix) {
                Some(hop) => self.set(number, prefix, hop, kernel),
                None => Ok(self.del(number, prefix, kernel)),
            },
            Work::Delete(prefix) => Ok(self.del(number, prefix, kernel)),
        }
    }
}

impl Table {
    /// The hop that is wanted for the prefix.
    pub(crate) fn wanted_at(&self, prefix: Prefix) -> Option<Addr>
        ensures { result ≡ row_at self.now.wanted prefix }
    {
        hop_of(&self.wanted, prefix)
    }

    /// The rows that are wanted, by prefix.
    pub(crate) fn rows(&self, alloc: Global) -> Result<HopList, NoMemory>
        ensures { IfOk result (λ rows. rows ≡ self.now.wanted) }
    {
        entries_of(alloc, &self.wanted)
    }

    /// How many rows are wanted.
    pub(crate) fn len(&self) -> usize
        ensures { result ≡ length self.now.wanted }
    {
        self.wanted.len()
    }

    /// Lists the rows of the table, and answers whether it was lost.
    fn list<K: Kernel>(
        &mut self,
        alloc: Global,
        number: u32,
        coupled: bool,
        kernel: &mut K,
    ) -> Result<bool, NoMemory>
        ensures wanted { self.new.wanted ≡ self.old.wanted }
        ensures phase { IfOk result (λ lost. StandsAfter lost (Work.ListRows coupled) self.old.wanted (K.held kernel.old number)
            self.old.phase self.new.phase (K.listed kernel.old) (K.listed kernel.new)) }
        ensures same { OnErr result (self.new ≡ self.old) }
        ensures rows { K.held kernel.new ≡ K.held kernel.old }
        ensures faults { IfOk result (λ lost. CountsLoss lost number (K.faults kernel.old) (K.faults kernel.new)) }
    {
        let rows = match kernel.list(alloc, number) {
            Ok(rows) => rows,
            Err(FileFault::NoMemory) => return Err(AllocError),
            Err(FileFault::Failed) => {
                self.phase = Phase::Lost;
                return Ok(true);
            }
        };
        self.phase = listed(alloc, coupled, &self.wanted, &rows)?;
        Ok(false)
    }

    /// Sets the row of the prefix, and answers whether the table was lost.
    fn set<K: Kernel>(
        &mut self,
        number: u32,
        prefix: Prefix,
        hop: Addr,
        kernel: &mut K,
    ) -> Result<bool, NoMemory>
        ensures state { IfOk result (λ lost. self.new ≡ record self.old { phase = if lost then Lost else after_set prefix self.old.phase }) }
        ensures same { OnErr result (self.new ≡ self.old) }
        ensures rows { IfOk result (λ lost. IsAsked lost (K.held kernel.old number)
            (with_row prefix_cmp (K.held kernel.old number) prefix hop) (K.held kernel.new number)) }
        ensures others { (other : ℕ) → other ≢ number → K.held kernel.new other ≡ K.held kernel.old other }
        ensures untouched { OnErr result (K.held kernel.new ≡ K.held kernel.old) }
        ensures listed { K.listed kernel.new ≡ K.listed kernel.old }
        ensures faults { IfOk result (λ lost. CountsLoss lost number (K.faults kernel.old) (K.faults kernel.new)) }
    {
        self.phase.set(prefix)?;
        if kernel.set(number, prefix, hop).is_err() {
            self.phase = Phase::Lost;
            return Ok(true);
        }
        Ok(false)
    }

    /// Deletes the row of the prefix, and answers whether the table was lost.
    fn del<K: Kernel>(&mut self, number: u32, prefix: Prefix, kernel: &mut K) -> bool
        ensures state { self.new ≡ record self.old { phase = if result then Lost else after_del prefix self.old.phase } }
        ensures rows { IsAsked result (K.held kernel.old number) (without_row prefix_cmp (K.held kernel.old number) prefix) (K.held kernel.new number) }
        ensures others { (other : ℕ) → other ≢ number → K.held kernel.new other ≡ K.held kernel.old other }
        ensures listed { K.listed kernel.new ≡ K.listed kernel.old }
        ensures faults { CountsLoss result number (K.faults kernel.old) (K.faults kernel.new) }
    {
        self.phase.del(prefix);
        if kernel.del(number, prefix).is_err() {
            self.phase = Phase::Lost;
            return true;
        }
        false
    }
}
