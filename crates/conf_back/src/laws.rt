ghost use Rattle.std.specs.Prelude.{◌≡◌, Ok};
ghost use Rattle.conf_tree.specs.declared.conf.Conf.{Conf};
ghost use Rattle.conf_tree.specs.CanonicalDraft.{canonical_draft};
ghost use Rattle.conf_tree.specs.Checks.{checked};
ghost use Rattle.conf_tree.specs.Readable.{IsReadable, IsWithinLimits};
ghost use Rattle.conf_tree.specs.Settled.{IsSettled};

/// The canonical draft of a configuration passes the checks and stands for this configuration, where it keeps what every
/// configuration keeps that a text says: its values can be written, it has no more of anything than the language takes,
/// its lists are in their order and its names stand for what there is.
#[tactic(auto, using(crate::proofs::Whole::checked_back))]
pub fn canonical_drafts_stand()
    ensures { (conf : Conf) → IsReadable conf → IsWithinLimits conf → IsSettled conf → checked (canonical_draft conf) ≡ Ok conf }
{}
