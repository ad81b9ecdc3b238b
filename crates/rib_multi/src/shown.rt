ghost use Rattle.std.specs.Prelude.{◌≡◌, ◌++◌, IfOk, OnOk, option_copied};
ghost use Rattle.decision.specs.Best.{peer_of};
ghost use Rattle.rib_multi.specs.Shown.{is_best, flag_of, route_of, routes_of};

use crate::row::Row;
use attr_model::{Attrs, Flag, RouteList, RouteRow};
use decision::{Candidate, Origin};
use net_base::{Addr, NoMemory, Prefix};

/// Puts the routes of a row behind others, in the order in which its candidates were given.
pub(crate) fn show_row(routes: &mut RouteList, prefix: Prefix, row: &Row) -> Result<(), NoMemory>
    ensures { OnOk result (routes.new ≡ routes.old ++ routes_of prefix row.now) }
{
    let best = row.best();
    for candidate in row.candidates() {
        routes.push(route_of(prefix, best, candidate)?)?;
    }
    Ok(())
}

/// A candidate as a route that is shown.
fn route_of(
    prefix: Prefix,
    best: Option<&Candidate>,
    candidate: &Candidate,
) -> Result<RouteRow, NoMemory>
    ensures { IfOk result (λ route. route ≡ route_of prefix (option_copied best.entry) candidate.now) }
{
    Ok(RouteRow {
        flag: flag_of(best, candidate),
        prefix,
        who: peer_of(candidate.from),
        attrs: attrs_of(candidate)?,
    })
}

/// A copy of the attributes of a candidate.
fn attrs_of(candidate: &Candidate) -> Result<Attrs, NoMemory>
    ensures { IfOk result (λ attrs. attrs ≡ candidate.now.attrs.attrs) }
{
    let attrs: &Attrs = &candidate.attrs;
    attrs.clone()
}

/// What the choice made of a candidate.
fn flag_of(best: Option<&Candidate>, candidate: &Candidate) -> Flag
    ensures { result ≡ flag_of (option_copied best.entry) candidate.now }
{
    if is_best(best, candidate) {
        Flag::Best
    } else if candidate.eligible {
        Flag::Eligible
    } else {
        Flag::Not
    }
}

/// Whether a candidate comes from where the best does.
fn is_best(best: Option<&Candidate>, candidate: &Candidate) -> bool
    ensures { result ≡ is_best (option_copied best.entry) candidate.now }
{
    match best {
        Some(best) => candidate.from == best.from,
        None => false,
    }
}

/// The neighbour that a route came from.
fn peer_of(from: Origin) -> Option<Addr>
    ensures { result ≡ peer_of from }
{
    match from {
        Origin::Local => None,
        Origin::External(peer) | Origin::Internal(peer) => Some(peer),
    }
}
