ghost use Rattle.std.specs.Prelude.{◌≡◌, ◌&&◌};
ghost use Rattle.net_base.specs.PrefixSet.{is_in, IsLeast};
ghost use Rattle.sweep_jobs.specs.Cursor.{is_ahead};

use net_base::{Prefix, PrefixSet};

/// How far a sweep over the known prefixes has come. It goes in the order of prefixes.
#[derive(Clone, Copy, Debug, PartialEq, Eq)]
pub enum Cursor {
    /// There is no sweep.
    Idle,
    /// Every prefix is ahead.
    Before,
    /// This prefix was given, and those above it are ahead.
    Behind(Prefix),
}

impl Cursor {
    /// Whether the sweep still comes to the prefix if it is known.
    pub(crate) fn is_ahead(self, prefix: Prefix) -> bool
        ensures { result ≡ is_ahead self prefix }
    {
        match self {
            Cursor::Idle => false,
            Cursor::Before => true,
            Cursor::Behind(given) => given < prefix,
        }
    }

    /// The least known prefix that is ahead.
    pub(crate) fn first_ahead(self, known: &PrefixSet) -> Option<Prefix>
        ensures { IsLeast (λ p. is_in known.now p && is_ahead self p) result }
    {
        match self {
            Cursor::Idle => None,
            Cursor::Before => known.first(),
            Cursor::Behind(given) => known.first_after(given),
        }
    }
}
