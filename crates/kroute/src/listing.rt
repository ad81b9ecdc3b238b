//! What a list of a table's rows leaves to be done.
ghost use Rattle.std.specs.Prelude.{◌≡◌, ◌&&◌, ◌||◌, not, List, Option, Some, None, is_some, IfOk, OnOk};
ghost use Rattle.net_base.specs.declared.addr.Addr.{Addr};
ghost use Rattle.net_base.specs.declared.prefix.Prefix.{Prefix};
ghost use Rattle.net_base.specs.PrefixSet.{is_in};
ghost use Rattle.kroute.specs.Phases.{differ, row_at};
ghost use Rattle.kroute.specs.Rows.{IsByPrefix, IsInOrder, IsSetOf};
ghost use Rattle.kroute.specs.Table.{IsListed};

use crate::HopList;
use crate::phase::Phase;
use net_base::{Addr, NoMemory, Prefix, PrefixSet};
use std::alloc::Global;
use std::collections::BTreeMap;

/// How a table stands behind a list of its rows: of a coupled one each row is to be put right that differs from what is
/// wanted, of a decoupled one all rows are to be deleted.
pub(crate) fn listed(
    alloc: Global,
    coupled: bool,
    wanted: &BTreeMap<Prefix, Addr>,
    rows: &HopList,
) -> Result<Phase, NoMemory>
    requires { IsByPrefix rows.now }
    ensures { IfOk result (λ phase. IsListed coupled wanted.now.entries rows.now phase) }
{
    let known = prefixes_of(alloc, rows)?;
    if !coupled {
        return Ok(Phase::Clearing(known));
    }
    let mut job = differing(alloc, wanted, rows)?;
    add_missing(&mut job, wanted, &known)?;
    Ok(Phase::Coupled(known, job))
}

/// The prefixes of the rows.
fn prefixes_of(alloc: Global, rows: &HopList) -> Result<PrefixSet, NoMemory>
    ensures { IfOk result (λ known. IsSetOf known (λ q. is_some (row_at rows.now q))) }
{
    let mut known = PrefixSet::new(alloc);
    for (prefix, _) in rows.iter() {
        known.add(*prefix)?;
    }
    Ok(known)
}

/// The prefixes of the rows that aren't wanted as they are.
fn differing(
    alloc: Global,
    wanted: &BTreeMap<Prefix, Addr>,
    rows: &HopList,
) -> Result<PrefixSet, NoMemory>
    requires { IsByPrefix rows.now }
    ensures { IfOk result (λ job. IsSetOf job (λ q. is_some (row_at rows.now q)
        && differ (row_at rows.now q) (row_at wanted.now.entries q))) }
{
    let mut job = PrefixSet::new(alloc);
    for (prefix, hop) in rows.iter() {
        if differs(wanted, *prefix, *hop) {
            job.add(*prefix)?;
        }
    }
    Ok(job)
}

/// Whether the row isn't wanted as it is.
fn differs(wanted: &BTreeMap<Prefix, Addr>, prefix: Prefix, hop: Addr) -> bool
    ensures { result ≡ differ (Some hop) (row_at wanted.now.entries prefix) }
{
    match hop_of(wanted, prefix) {
        Some(other) => hop != other,
        None => true,
    }
}

/// The hop that is wanted for the prefix.
pub(crate) fn hop_of(wanted: &BTreeMap<Prefix, Addr>, prefix: Prefix) -> Option<Addr>
    ensures { result ≡ row_at wanted.now.entries prefix }
{
    wanted.get(&prefix).copied()
}

/// Adds the prefixes of the rows that are wanted and aren't known to be there.
fn add_missing(
    job: &mut PrefixSet,
    wanted: &BTreeMap<Prefix, Addr>,
    known: &PrefixSet,
) -> Result<(), NoMemory>
    ensures has { OnOk result ((q : Prefix) → is_in job.new q ≡ (is_in job.old q
        || (is_some (row_at wanted.now.entries q) && not (is_in known.now q)))) }
    ensures in_order { IsInOrder job.old → IsInOrder job.new }
{
    for (prefix, _) in wanted.iter() {
        if !known.has(*prefix) {
            job.add(*prefix)?;
        }
    }
    Ok(())
}
