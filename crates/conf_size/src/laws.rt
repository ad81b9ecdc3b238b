ghost use Rattle.std.specs.Prelude.{◌+◌, ◌*◌, ◌≤◌, length};
ghost use Rattle.conf_size.specs.Numbers.{sets_of};
ghost use Rattle.conf_tree.specs.declared.conf.Conf.{Conf};
ghost use Rattle.conf_tree.specs.Canonical.{canonical};
ghost use Rattle.conf_tree.specs.Readable.{IsReadable, IsWithinLimits};

/// A canonical text has at most 47 bytes for each named set, and 35,651,537 besides, where the values of the
/// configuration can be written and it has no more of anything than the language takes.
#[tactic(auto, using(crate::proofs::TextSizes::canonical_size))]
pub fn canonical_texts_are_measured()
    ensures { (conf : Conf) → IsReadable conf → IsWithinLimits conf → length (canonical conf) ≤ 47 * sets_of conf + 35651537 }
{}
