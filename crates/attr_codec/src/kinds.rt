//! A range of types.

ghost use Rattle.std.specs.Prelude.{◌≡◌};

use crate::field::Attribute;
use crate::unknown::is_kept;

/// The types from one up to another, without that.
#[derive(Clone, Copy)]
pub(crate) struct Kinds {
    pub from: u16,
    pub to: u16,
}

impl Kinds {
    ghost use Rattle.attr_codec.specs.Noted.{no_kinds, kinds_with};

    /// No types.
    pub fn new() -> Self
        ensures { result ≡ no_kinds }
    {
        Kinds { from: 256, to: 0 }
    }

    /// The least range with the type of one attribute more, where that is kept.
    pub fn with(self, attribute: Attribute<'_>) -> Self
        ensures { result ≡ kinds_with self (record { flags = attribute.entry.flags; kind = attribute.entry.kind; value = attribute.entry.value.now }) }
    {
        if !is_kept(attribute) {
            return self;
        }
        let kind = u16::from(attribute.kind);
        Kinds {
            from: self.from.min(kind),
            to: self.to.max(kind + 1),
        }
    }
}
