//! What the RIBs keep changes.

ghost use Rattle.std.specs.Prelude.{◌≡◌, ◌≤◌, ◌+◌, [], ◌∷◌, ◌++◌, length, IfOk};
ghost use Rattle.attr_intern.specs.Table.{Hands};
ghost use Rattle.rib_multi.specs.Uses.{refs_in};
ghost use Rattle.rde_tables.specs.Uses.{Keeps, Stays};

use crate::Outcome;
use attr_intern::AttrTable;
use decision::{Candidate, Found, FoundList, Origin};
use net_base::{Addr, Items, NoMemory};
use rib_multi::{CandidateList, Change};
use std::alloc::Global;

/// The candidates with a number and a use for each. Where memory is refused, uses may be lost.
pub(crate) fn numbered(
    alloc: Global,
    table: &mut AttrTable,
    found: FoundList,
) -> Result<CandidateList, NoMemory>
    ensures few { IfOk result (λ candidates. length candidates ≡ length found) }
    ensures keeps { IfOk result (λ candidates. Keeps table.old table.new [] (refs_in candidates)) }
    ensures stays { Stays table.old table.new [] [] }
{
    let mut candidates = Items::new(alloc);
    for one in found.into_vec() {
        let candidate = numbered_one(table, one)?;
        candidates.push(candidate)?;
    }
    Ok(candidates)
}

/// A candidate with a number and a use of its own.
fn numbered_one(table: &mut AttrTable, one: Found) -> Result<Candidate, NoMemory>
    ensures keeps { IfOk result (λ candidate. Keeps table.old table.new [] (candidate.attrs ∷ [])) }
    ensures stays { Stays table.old table.new [] [] }
{
    let Found {
        from,
        attrs,
        eligible,
        bgp_id,
        own_as,
    } = one;
    Ok(Candidate {
        from,
        attrs: table.intern(attrs)?,
        eligible,
        bgp_id,
        own_as,
    })
}

/// What a change says.
pub(crate) fn outcome_of(change: &Change) -> Outcome {
    Outcome {
        changed: change.old != change.new,
        hop: wanted_hop(change),
    }
}

/// The next hop of the best behind a change, where that came from a neighbour.
fn wanted_hop(change: &Change) -> Option<Addr> {
    match &change.new {
        Some(best) if best.from != Origin::Local => Some(best.attrs.hop),
        _ => None,
    }
}
