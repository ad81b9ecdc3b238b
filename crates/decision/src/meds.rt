//! The comparison of MEDs, of all candidates or of those with the same neighbour AS.

ghost use Rattle.std.specs.Prelude.{◌≡◌, ◌≤◌, length, map, filter, not};
ghost use Rattle.std.specs.List.{list_any};
ghost use Rattle.decision.specs.Best.{unbeaten, has_lower_med_among};
ghost use Rattle.decision.specs.Points.{kept, picked};
ghost use Rattle.decision.specs.Meds.{AreInOrder, IsFirstFrom, is_lower_for, told_by};

use crate::point::{Point, med, neighbour_as};
use crate::thinning::thin;
use crate::{Candidate, MOST_CANDIDATES};
use arrayvec::ArrayVec;

/// A MED that a neighbour AS sent. They go by neighbour AS, and then by MED.
#[derive(Clone, Copy, Debug, Default, PartialEq, Eq, PartialOrd, Ord)]
pub(crate) struct NeighbourMed {
    neighbour_as: u32,
    med: u32,
}

/// Unflags each candidate that another one with a lower MED beats: any other where MEDs are always compared, and
/// otherwise one of the same neighbour AS.
pub(crate) fn thin_by_med(candidates: &[Candidate], left: &mut [bool], always: bool)
    requires beside { length left.old ≡ length candidates.now }
    requires few { length candidates.now ≤ MOST_CANDIDATES }
    ensures { picked left.new candidates.now ≡ unbeaten (has_lower_med_among always) (picked left.old candidates.now) }
{
    if always {
        thin(candidates, left, Point::Med);
    } else {
        let mut meds = meds_of_flagged(candidates, left);
        meds.sort_unstable();
        drop_above(candidates, left, meds.as_slice());
    }
}

/// What the flagged candidates have, in their order.
fn meds_of_flagged(
    candidates: &[Candidate],
    left: &[bool],
) -> ArrayVec<NeighbourMed, MOST_CANDIDATES>
    requires beside { length left.now ≡ length candidates.now }
    requires few { length candidates.now ≤ MOST_CANDIDATES }
    ensures { result.items ≡ map told_by (picked left.now candidates.now) }
{
    let mut meds = ArrayVec::new();
    for (at, candidate) in candidates.iter().enumerate() {
        if left[at] {
            meds.push(NeighbourMed {
                neighbour_as: neighbour_as(candidate),
                med: med(candidate),
            });
        }
    }
    meds
}

/// Unflags the candidates whose neighbour AS sent a lower MED too.
fn drop_above(candidates: &[Candidate], left: &mut [bool], meds: &[NeighbourMed])
    requires beside { length left.old ≡ length candidates.now }
    requires order { AreInOrder meds.now }
    ensures { left.new ≡ kept (λ candidate. not (list_any (is_lower_for candidate) meds.now)) left.old candidates.now }
{
    for (at, candidate) in candidates.iter().enumerate() {
        if is_above(candidate, meds) {
            left[at] = false;
        }
    }
}

/// Whether one of the MEDs is lower and of the same neighbour AS.
fn is_above(candidate: &Candidate, meds: &[NeighbourMed]) -> bool
    requires { AreInOrder meds.now }
    ensures { result ≡ list_any (is_lower_for candidate.now) meds.now }
{
    let asn = neighbour_as(candidate);
    match meds.get(first_from(meds, asn)) {
        Some(least) => least.neighbour_as == asn && least.med < med(candidate),
        None => false,
    }
}

/// The place of the first MED of this neighbour AS or a greater one, by halves.
fn first_from(meds: &[NeighbourMed], asn: u32) -> usize
    requires { AreInOrder meds.now }
    ensures { IsFirstFrom asn meds.now result }
{
    meds.partition_point(|other| other.neighbour_as < asn)
}
