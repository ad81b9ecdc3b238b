ghost use Rattle.std.specs.Prelude.{◌≡◌, ℕ, ◌≤◌, List, length, Ok};
ghost use Rattle.conf_tree.specs.declared.conf.Conf.{Conf};
ghost use Rattle.conf_tree.specs.Canonical.{canonical};
ghost use Rattle.conf_tree.specs.Language.{configuration, configuration_within, most_canonical_bytes};

/// No canonical text of a configuration that a text of a file or of a `reload` says is longer than 134,217,728 bytes.
#[tactic(auto, using(crate::proofs::Short::short))]
pub fn canonical_texts_are_short()
    ensures { (text : List ℕ) (conf : Conf) → configuration text ≡ Ok conf → length (canonical conf) ≤ most_canonical_bytes }
{}

/// What was printed reads back: of each configuration that a text of a file or of a `reload` says, the canonical text, read
/// with the limit of canonical texts, says the same configuration.
#[tactic(auto, using(crate::proofs::ReadBack::said_again))]
pub fn canonical_texts_read_back()
    ensures { (text : List ℕ) (conf : Conf) → configuration text ≡ Ok conf
        → configuration_within most_canonical_bytes (canonical conf) ≡ Ok conf }
{}
