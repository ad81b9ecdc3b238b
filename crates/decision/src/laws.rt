ghost use Rattle.std.specs.Prelude.{◌≡◌, ◌≤◌, ◌↔◌, true, Bool, List, length, Some, Contains};
ghost use Rattle.decision.specs.declared.candidate.Candidate.{Candidate};
ghost use Rattle.decision.specs.Best.{best_of, thinned};
ghost use Rattle.decision.specs.Members.{HaveDistinctOrigins};

/// The choice goes by the members alone: two lists with the same members, in whatever order, have the same best, where
/// no two members come from one place.
pub fn best_goes_by_members()
    ensures any_order { (always : Bool) (ones others : List Candidate) → HaveDistinctOrigins ones → HaveDistinctOrigins others →
        ((c : Candidate) → Contains ones c ↔ Contains others c) → best_of always ones ≡ best_of always others }
    ensures at_most_one { (always : Bool) (ones : List Candidate) → HaveDistinctOrigins ones → length (thinned always ones) ≤ 1 }
{}

/// The best candidate is a member of the list, and eligible.
pub fn best_is_a_member()
    ensures there { (always : Bool) (ones : List Candidate) (c : Candidate) → best_of always ones ≡ Some c → Contains ones c }
    ensures eligible { (always : Bool) (ones : List Candidate) (c : Candidate) → best_of always ones ≡ Some c → c.eligible ≡ true }
{}
