//! What the calls keep, and what stands where no job is left.
ghost use Rattle.std.specs.Prelude.{◌≡◌, ◌≢◌, ℕ, [], List, Option, Some, None};
ghost use Rattle.net_base.specs.declared.addr.Addr.{Addr};
ghost use Rattle.net_base.specs.declared.prefix.Prefix.{Prefix};
ghost use Rattle.kroute.specs.Agreement.{Agrees};
ghost use Rattle.kroute.specs.Calls.{IsNext, Outside};
ghost use Rattle.kroute.specs.Phases.{coupling_of, row_at};
ghost use Rattle.kroute.specs.Rows.{Rows};
ghost use Rattle.kroute.specs.Table.{TableState, couples, decouples, new_table, wants, wants_no};
ghost use Rattle.kroute.specs.Tables.{ChangesTable, SetsTable, TablesState, table_at};
ghost use Rattle.kroute.specs.Units.{IsUnit};
ghost use Rattle.kroute.specs.declared.phase.Phase.TheVariants.{New};

use crate::phase::Coupling;

/// Each call keeps what is kept of the tables in agreement with the kernel's rows, where these are told.
pub fn tables_agree_with_the_kernel()
    ensures set { (p : Prefix) (hop : Addr) (held : ℕ → Option Rows) (n : ℕ) (old new : TablesState) →
        ChangesTable (wants p hop) n old new → Agrees held old → Agrees held new }
    ensures del { (p : Prefix) (held : ℕ → Option Rows) (n : ℕ) (old new : TablesState) →
        ChangesTable (wants_no p) n old new → Agrees held old → Agrees held new }
    ensures couple { (held : ℕ → Option Rows) (n : ℕ) (old new : TablesState) →
        ChangesTable couples n old new → Agrees held old → Agrees held new }
    ensures decouple { (held : ℕ → Option Rows) (n : ℕ) (old new : TablesState) →
        ChangesTable decouples n old new → Agrees held old → Agrees held new }
    ensures add { (held : ℕ → Option Rows) (n : ℕ) (old new : TablesState) →
        SetsTable (Some new_table) n old new → Agrees held old → Agrees held new }
    ensures remove { (held : ℕ → Option Rows) (n : ℕ) (old new : TablesState) →
        SetsTable None n old new → Agrees held old → Agrees held new }
    ensures unit { (lost : Option ℕ) (old new : TablesState) (before after : Outside) →
        IsUnit lost old new before after → Agrees before.held old → Agrees after.held new }
{}

/// A coupled table without a job has exactly the rows that are wanted, where the kernel tells them. One that was coupled
/// since it was configured, and is decoupled, has none.
pub fn settled_tables_hold_what_is_wanted()
    ensures coupled { (held : ℕ → Option Rows) (s : TablesState) (n : ℕ) (t : TableState) (rows : Rows) →
        Agrees held s → table_at s n ≡ Some t → held n ≡ Some rows → coupling_of t.phase ≡ Coupling.Coupled →
        IsNext t.phase None → (q : Prefix) → row_at rows q ≡ row_at t.wanted q }
    ensures decoupled { (held : ℕ → Option Rows) (s : TablesState) (n : ℕ) (t : TableState) (rows : Rows) →
        Agrees held s → table_at s n ≡ Some t → held n ≡ Some rows → coupling_of t.phase ≡ Coupling.Decoupled →
        t.phase ≢ New → IsNext t.phase None → rows ≡ [] }
{}
