//! What an UPDATE says by one attribute.

ghost use Rattle.std.specs.Prelude.{◌≡◌, Option};
ghost use Rattle.attr_codec.specs.Flags.{fits};
ghost use Rattle.attr_codec.specs.Said.{bytes_said, said_now};

use crate::cut_field::CutField;

/// What an UPDATE says by one attribute (RFC 7606 section 2).
#[derive(Debug, Drop)]
pub(crate) enum Said<T> {
    /// It isn't there, or it is dropped.
    Nothing,
    /// It is malformed, and the announced prefixes count as withdrawn.
    Malformed,
    /// Its value.
    Value(T),
}

/// The flags that a type of attribute has.
#[derive(Clone, Copy)]
pub(crate) enum Flags {
    WellKnown,
    Optional,
    OptionalTransitive,
}

impl<T: Drop> Said<T> {
    ghost use Rattle.attr_codec.specs.Said.{or_malformed, or_dropped, value_of, is_malformed};

    /// A value that has to be there.
    pub fn or_malformed(value: Option<T>) -> Self
        ensures { result ≡ or_malformed value }
    {
        match value {
            Some(value) => Said::Value(value),
            None => Said::Malformed,
        }
    }

    /// A value that is dropped where it is bad.
    pub fn or_dropped(value: Option<T>) -> Self
        ensures { result ≡ or_dropped value }
    {
        match value {
            Some(value) => Said::Value(value),
            None => Said::Nothing,
        }
    }

    pub fn value(self) -> Option<T>
        ensures { result ≡ value_of self }
    {
        match self {
            Said::Value(value) => Some(value),
            Said::Nothing | Said::Malformed => None,
        }
    }

    pub fn is_malformed(&self) -> bool
        ensures { result ≡ is_malformed self.now }
    {
        matches!(self, Said::Malformed)
    }
}

impl Flags {
    ghost use Rattle.attr_codec.specs.Flags.{fits};

    /// Whether an attribute may have these flags. The bit of the extended length is free, and the partial
    /// bit for optional transitive types (RFC 4271 section 4.3).
    pub fn fits(self, flags: u8) -> bool
        ensures { result ≡ fits self flags }
    {
        match self {
            Flags::WellKnown => flags & 0xef == 0x40,
            Flags::Optional => flags & 0xef == 0x80,
            Flags::OptionalTransitive => flags & 0xcf == 0xc0,
        }
    }
}

/// The bytes of the first attribute of a type, where it has the flags of that type.
pub(crate) fn bytes_said<'a>(field: &CutField<'a>, kind: u8, flags: Flags) -> Said<&'a [u8]>
    ensures { said_now result ≡ bytes_said (fits flags) kind field.now }
{
    match field.first(kind) {
        None => Said::Nothing,
        Some(attribute) if flags.fits(attribute.flags) => Said::Value(attribute.value),
        Some(_) => Said::Malformed,
    }
}
