ghost use Rattle.std.specs.Prelude.{◌≡◌, ◌≤◌, ◌<◌, ◌↔◌, false, length, option_and_then, slice_get, IfSome, IsNone, position};
ghost use Rattle.std.specs.List.{list_any};
ghost use Rattle.decision.specs.Best.{best_of, thinned};
ghost use Rattle.decision.specs.Points.{picked};

use crate::Candidate;
use crate::meds::thin_by_med;
use crate::point::Point;
use crate::thinning::{keep_eligible, thin};

/// The most candidates of one prefix: one of each of 256 neighbours, and a network.
pub const MOST_CANDIDATES: usize = 257;

/// The place of the best candidate (RFC 4271 section 9.1.2.2), or None where none is eligible. Step by step each
/// candidate goes that another one still there beats: in LOCAL_PREF, path length, ORIGIN, MED (with the same neighbour
/// AS, or with all where `med_always`), kind of session, weight, BGP identifier, address. It takes no memory,
/// and for n candidates a number of steps in the order of n log n, or of n where `med_always`.
pub fn best(candidates: &[Candidate], med_always: bool) -> Option<usize>
    requires few { length candidates.now ≤ MOST_CANDIDATES }
    ensures choice { option_and_then (slice_get candidates.now) result ≡ best_of med_always candidates.now }
    ensures within { IfSome result (λ at. at < length candidates.now) }
    ensures none { IsNone result ↔ (list_any (λ candidate. candidate.eligible) candidates.now ≡ false) }
{
    let mut flags = [true; MOST_CANDIDATES];
    let left = &mut flags[..candidates.len()];
    thin_in_order(candidates, left, med_always);
    first_flag(left)
}

/// Unflags the candidates that aren't eligible, and then, step by step, those that others still flagged beat.
fn thin_in_order(candidates: &[Candidate], left: &mut [bool], med_always: bool)
    requires beside { length left.old ≡ length candidates.now }
    requires few { length candidates.now ≤ MOST_CANDIDATES }
    ensures { picked left.new candidates.now ≡ thinned med_always (picked left.old candidates.now) }
{
    keep_eligible(candidates, left);
    thin(candidates, left, Point::LocalPref);
    thin(candidates, left, Point::PathLength);
    thin(candidates, left, Point::Origin);
    thin_by_med(candidates, left, med_always);
    thin(candidates, left, Point::Kind);
    thin(candidates, left, Point::Weight);
    thin(candidates, left, Point::BgpId);
    thin(candidates, left, Point::Peer);
}

/// The place of the first flag that is set.
fn first_flag(left: &[bool]) -> Option<usize>
    ensures place { result ≡ position (λ flag. flag) left.now }
    ensures within { IfSome result (λ at. at < length left.now) }
{
    left.iter().position(|flag| *flag)
}
