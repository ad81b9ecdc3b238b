ghost use Rattle.std.specs.Prelude.{◌≡◌, ◌≤◌, ◌==◌, length, option_copied};
ghost use Rattle.decision.specs.Best.{best_of};

use crate::CandidateList;
use decision::{Candidate, MOST_CANDIDATES, best};
use std::marker::Model;

/// The candidates of one prefix and which of them is best. Contracts see the candidates, and whether MEDs of different
/// neighbour ASes were compared.
#[derive(Drop)]
pub(crate) struct Row {
    candidates: CandidateList,
    best: Option<usize>,
    always: bool,
}

impl Model for Row {
    ghost use Rattle.rib_multi.specs.Rows.{Kept, IsChoice};

    ghost Value = { Kept };

    ghost view = { λ row. record { candidates = row.candidates; always = row.always } };

    ghost invariant = { λ row. IsChoice row.always row.candidates row.best };
}

impl Row {
    /// A row of these candidates, of which the best is chosen now. It takes no memory.
    pub(crate) fn new(candidates: CandidateList, always: bool) -> Self
        requires { length candidates ≤ MOST_CANDIDATES }
        ensures { result ≡ record { candidates = candidates; always = always } }
    {
        let best = best(candidates.as_slice(), always);
        Row {
            candidates,
            best,
            always,
        }
    }

    /// Whether there is no candidate.
    pub(crate) fn is_empty(&self) -> bool
        ensures { result ≡ (length self.now.candidates == 0) }
    {
        self.candidates.len() == 0
    }

    /// The candidates in the order in which they were given.
    pub(crate) fn candidates(&self) -> &[Candidate]
        ensures { result.now ≡ self.now.candidates }
    {
        self.candidates.as_slice()
    }

    /// The best of the candidates, or None where none is eligible.
    pub(crate) fn best(&self) -> Option<&Candidate>
        ensures { option_copied result ≡ best_of self.now.always self.now.candidates }
    {
        let at = self.best?;
        self.candidates.get(at)
    }

    /// The candidates, which leave the row.
    pub(crate) fn into_candidates(self) -> CandidateList
        ensures { result ≡ self.candidates }
    {
        let Row {
            candidates,
            best: _,
            always: _,
        } = self;
        candidates
    }
}
