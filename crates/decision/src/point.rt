//! The points in which two candidates are compared.

ghost use Rattle.std.specs.Prelude.{◌≡◌};
ghost use Rattle.attr_model.specs.Valid.{numbers_of};
ghost use Rattle.decision.specs.Best.{first_number, neighbour_as, local_pref_of, med_of, kind_of, comes_first, peer_of};
ghost use Rattle.decision.specs.Points.{beats};

use crate::{Candidate, Origin};
use attr_model::Segment;
use net_base::Addr;

/// A point in which one candidate may be better than another.
#[derive(Clone, Copy, Debug, PartialEq, Eq)]
pub(crate) enum Point {
    LocalPref,
    PathLength,
    Origin,
    Med,
    Kind,
    Weight,
    BgpId,
    Peer,
}

/// Whether the first candidate is better than the second in this point.
pub(crate) fn beats(point: Point, one: &Candidate, other: &Candidate) -> bool
    ensures { result ≡ beats point one.now other.now }
{
    match point {
        Point::LocalPref => local_pref(other) < local_pref(one),
        Point::PathLength => one.attrs.path.length() < other.attrs.path.length(),
        Point::Origin => one.attrs.origin < other.attrs.origin,
        Point::Med => med(one) < med(other),
        Point::Kind => kind(one.from) < kind(other.from),
        Point::Weight => other.attrs.weight < one.attrs.weight,
        Point::BgpId => one.bgp_id < other.bgp_id,
        Point::Peer => comes_first(one.from, other.from),
    }
}

/// LOCAL_PREF, 100 where it is absent.
fn local_pref(candidate: &Candidate) -> u32
    ensures { result ≡ local_pref_of candidate.now }
{
    candidate.attrs.local_pref.unwrap_or(100)
}

/// MULTI_EXIT_DISC, 0 where it is absent.
pub(crate) fn med(candidate: &Candidate) -> u32
    ensures { result ≡ med_of candidate.now }
{
    candidate.attrs.med.unwrap_or(0)
}

/// The neighbour AS: the first number of the path, the own AS where it has none.
pub(crate) fn neighbour_as(candidate: &Candidate) -> u32
    ensures { result ≡ neighbour_as candidate.now }
{
    first_number(candidate.attrs.path.as_slice()).unwrap_or(candidate.own_as)
}

/// The first number of a path, sets included.
fn first_number(path: &[Segment]) -> Option<u32>
    ensures { result ≡ first_number path.now }
{
    for segment in path {
        if let Some(number) = numbers(segment).first() {
            return Some(*number);
        }
    }
    None
}

/// What a segment lists.
fn numbers(segment: &Segment) -> &[u32]
    ensures { result.now ≡ numbers_of segment.now }
{
    match segment {
        Segment::Set(numbers) => numbers.as_slice(),
        Segment::Sequence(numbers) => numbers.as_slice(),
    }
}

/// 0 for a network, 1 for an external neighbour, 2 for an internal one.
fn kind(from: Origin) -> u8
    ensures { result ≡ kind_of from }
{
    match from {
        Origin::Local => 0,
        Origin::External(_) => 1,
        Origin::Internal(_) => 2,
    }
}

/// The address of the neighbour.
fn peer(from: Origin) -> Option<Addr>
    ensures { result ≡ peer_of from }
{
    match from {
        Origin::Local => None,
        Origin::External(peer) => Some(peer),
        Origin::Internal(peer) => Some(peer),
    }
}

/// A network comes before neighbours, and these go by address.
#[tactic(auto, using(net_base::proofs::Order::derived_addr_cmp))]
fn comes_first(one: Origin, other: Origin) -> bool
    ensures { result ≡ comes_first (peer_of one) (peer_of other) }
{
    match (peer(one), peer(other)) {
        (_, None) => false,
        (None, Some(_)) => true,
        (Some(one), Some(other)) => one < other,
    }
}
