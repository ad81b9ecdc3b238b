ghost use Rattle.std.specs.Prelude.{◌≡◌, ℕ, ◌≤◌, length, Ok};
ghost use Rattle.conf_tree.specs.declared.conf.Conf.{Conf};
ghost use Rattle.conf_tree.specs.Canonical.{canonical};
ghost use Rattle.conf_tree.specs.CanonicalDraft.{canonical_draft};
ghost use Rattle.conf_tree.specs.Language.{draft_within};
ghost use Rattle.conf_tree.specs.Readable.{IsReadable, IsWithinLimits};

/// The canonical text of a configuration is read without a fault of its tokens or statements, and writes the canonical
/// draft, where each of its values can be written, it has no more of anything than the language takes, and its text is
/// within the limit.
#[tactic(auto, using(crate::proofs::DraftBack::canonical_draft_back))]
pub fn canonical_texts_are_read()
    ensures { (limit : ℕ) (conf : Conf) → IsReadable conf → IsWithinLimits conf → length (canonical conf) ≤ limit
        → draft_within limit (canonical conf) ≡ Ok (canonical_draft conf) }
{}
