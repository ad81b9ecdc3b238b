ghost use Rattle.std.specs.Prelude.{◌≡◌, ◌≤◌, ℕ, List, Ok};
ghost use Rattle.conf_sound.specs.Numbers.{sets_of};
ghost use Rattle.conf_tree.specs.declared.conf.Conf.{Conf};
ghost use Rattle.conf_tree.specs.Language.{configuration, configuration_within};
ghost use Rattle.conf_tree.specs.Readable.{IsReadable, IsWithinLimits};
ghost use Rattle.conf_tree.specs.Settled.{IsSettled};

/// Each value of a configuration that a text says can be written: numbers are within the ranges of their statements,
/// names and quoted texts have the form and the length that a text can give them, names stand for RIBs and sets that
/// there are, and no rule has more conditions or items than a text can say.
pub fn configurations_can_be_written()
    ensures { (limit : ℕ) (text : List ℕ) (conf : Conf) → configuration_within limit text ≡ Ok conf → IsReadable conf }
{}

/// No configuration that a text says has more of anything than a text may have: at most 8 listening addresses, 15 RIBs
/// beside Loc-RIB, 262,144 entries in all sets together, 4,096 networks, 256 neighbours, 64 groups and 4,096 flat rules.
pub fn configurations_are_within_limits()
    ensures { (limit : ℕ) (text : List ℕ) (conf : Conf) → configuration_within limit text ≡ Ok conf → IsWithinLimits conf }
{}

/// Every configuration that a text says has passed the checks: its lists and the entries of its sets are in their order
/// without repeats, no two RIBs have one name or one kernel table and none is named Loc-RIB, each neighbour that has an
/// own address has one of its own family, and each rule names only groups that have a neighbour and sets that there are.
pub fn configurations_are_settled()
    ensures { (limit : ℕ) (text : List ℕ) (conf : Conf) → configuration_within limit text ≡ Ok conf → IsSettled conf }
{}

/// No configuration that a text of a file or of a `reload` says has more than 2,097,153 named sets: each takes a token, and
/// a text has no more tokens than its bytes, its end and what macros give.
#[tactic(auto, using(crate::proofs::SetCounts::few_sets))]
pub fn configurations_have_few_sets()
    ensures { (text : List ℕ) (conf : Conf) → configuration text ≡ Ok conf → sets_of conf ≤ 2097153 }
{}
