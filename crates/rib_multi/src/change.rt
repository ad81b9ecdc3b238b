ghost use Rattle.std.specs.Prelude.{◌≡◌, [], ◌∷◌, IfOk, OnErr, IfSome, option_copied};
ghost use Rattle.attr_intern.specs.Table.{IsOf, CameFrom, Hands};
ghost use Rattle.rib_multi.specs.Uses.{refs_in, refs_of_one, refs_of_change, Moves};

use attr_intern::AttrTable;
use decision::Candidate;
use net_base::{Items, NoMemory};

/// The candidates of one prefix in their order.
pub type CandidateList = Items<Candidate>;

/// The best candidate of a prefix before a refresh and behind it. Each has a use of its own of its attributes, which
/// whoever takes the change gives back.
#[derive(Drop)]
pub struct Change {
    pub old: Option<Candidate>,
    pub new: Option<Candidate>,
}

/// The best of a prefix before and behind, each with a use of its own. Where memory is refused, the table has the uses
/// that it had.
pub(crate) fn change_of(
    table: &mut AttrTable,
    old: Option<&Candidate>,
    new: Option<&Candidate>,
) -> Result<Change, NoMemory>
    requires old { IfSome old (λ one. IsOf table.old one.now.attrs) }
    requires new { IfSome new (λ one. IsOf table.old one.now.attrs) }
    ensures old { IfOk result (λ change. change.old ≡ option_copied old.entry) }
    ensures new { IfOk result (λ change. change.new ≡ option_copied new.entry) }
    ensures hands { IfOk result (λ change. Hands table.old table.new (refs_of_change change)) }
    ensures err { OnErr result (Moves table.old table.new [] []) }
{
    let old = again_if(table, old)?;
    match again_if(table, new) {
        Ok(new) => Ok(Change { old, new }),
        Err(failed) => {
            give_if(table, old);
            Err(failed)
        }
    }
}

/// Gives the uses of a change back.
pub(crate) fn give_change(table: &mut AttrTable, change: Change)
    requires { CameFrom table.old (refs_of_change change) }
    ensures { Moves table.old table.new (refs_of_change change) [] }
{
    give_if(table, change.old);
    give_if(table, change.new);
}

/// Gives the uses of candidates back.
pub(crate) fn give_all(table: &mut AttrTable, candidates: CandidateList)
    requires { CameFrom table.old (refs_in candidates) }
    ensures { Moves table.old table.new (refs_in candidates) [] }
{
    for candidate in candidates.into_vec() {
        table.give_back(candidate.attrs);
    }
}

/// A copy of a candidate, with a use of its own.
fn again(table: &mut AttrTable, one: &Candidate) -> Result<Candidate, NoMemory>
    requires { IsOf table.old one.now.attrs }
    ensures same { IfOk result (λ other. other ≡ one.now) }
    ensures hands { IfOk result (λ other. Hands table.old table.new (other.attrs ∷ [])) }
    ensures err { OnErr result (table.new ≡ table.old) }
{
    Ok(Candidate {
        from: one.from,
        attrs: table.again(&one.attrs)?,
        eligible: one.eligible,
        bgp_id: one.bgp_id,
        own_as: one.own_as,
    })
}

/// A copy of a candidate that may be there.
fn again_if(table: &mut AttrTable, one: Option<&Candidate>) -> Result<Option<Candidate>, NoMemory>
    requires { IfSome one (λ one. IsOf table.old one.now.attrs) }
    ensures same { IfOk result (λ other. other ≡ option_copied one.entry) }
    ensures hands { IfOk result (λ other. Hands table.old table.new (refs_of_one other)) }
    ensures err { OnErr result (table.new ≡ table.old) }
{
    match one {
        Some(one) => Ok(Some(again(table, one)?)),
        None => Ok(None),
    }
}

/// Gives the use of a candidate that may be there back.
fn give_if(table: &mut AttrTable, one: Option<Candidate>)
    requires { IfSome one (λ one. IsOf table.old one.attrs) }
    ensures { Moves table.old table.new (refs_of_one one) [] }
{
    if let Some(one) = one {
        table.give_back(one.attrs);
    }
}
