//! Steps that thin a list of candidates, of which flags tell those that are left.

ghost use Rattle.std.specs.Prelude.{◌≡◌, length, not, option_copied};
ghost use Rattle.decision.specs.Best.{eligible_of, unbeaten};
ghost use Rattle.decision.specs.Points.{beats, better, champion_of, kept, picked};

use crate::Candidate;
use crate::point::{Point, beats};

/// Unflags the candidates that aren't eligible.
pub(crate) fn keep_eligible(candidates: &[Candidate], left: &mut [bool])
    requires { length left.old ≡ length candidates.now }
    ensures { picked left.new candidates.now ≡ eligible_of (picked left.old candidates.now) }
{
    for (at, candidate) in candidates.iter().enumerate() {
        if !candidate.eligible {
            left[at] = false;
        }
    }
}

/// Unflags the candidates that the champion beats.
fn drop_beaten(candidates: &[Candidate], left: &mut [bool], point: Point, champion: &Candidate)
    requires { length left.old ≡ length candidates.now }
    ensures { left.new ≡ kept (λ candidate. not (beats point champion.now candidate)) left.old candidates.now }
{
    for (at, candidate) in candidates.iter().enumerate() {
        if beats(point, champion, candidate) {
            left[at] = false;
        }
    }
}

/// The first of the flagged candidates that none of these beats.
fn champion_among<'a>(
    candidates: &'a [Candidate],
    left: &[bool],
    point: Point,
) -> Option<&'a Candidate>
    requires { length left.now ≡ length candidates.now }
    ensures { option_copied result ≡ champion_of (beats point) (picked left.now candidates.now) }
{
    let mut champion: Option<&Candidate> = None;
    for (at, candidate) in candidates.iter().enumerate() {
        if left[at] {
            champion = Some(better(point, champion, candidate));
        }
    }
    champion
}

/// The better one of two, the one that is held where neither is.
fn better<'a>(point: Point, held: Option<&'a Candidate>, candidate: &'a Candidate) -> &'a Candidate
    ensures { Some result.now ≡ better (beats point) (option_copied held.entry) candidate.now }
{
    match held {
        Some(held) if !beats(point, candidate, held) => held,
        _ => candidate,
    }
}

/// Unflags each candidate that another one beats.
pub(crate) fn thin(candidates: &[Candidate], left: &mut [bool], point: Point)
    requires { length left.old ≡ length candidates.now }
    ensures { picked left.new candidates.now ≡ unbeaten (beats point) (picked left.old candidates.now) }
{
    if let Some(champion) = champion_among(candidates, left, point) {
        drop_beaten(candidates, left, point, champion);
    }
}
