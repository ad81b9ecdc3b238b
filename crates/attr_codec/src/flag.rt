//! The flag bits of attributes (RFC 4271 section 4.3).

/// The type isn't known to every speaker.
pub(crate) const OPTIONAL: u8 = 0x80;
/// It is sent on.
pub(crate) const TRANSITIVE: u8 = 0x40;
/// Some speaker on the way didn't know it.
pub(crate) const PARTIAL: u8 = 0x20;
/// The length has two bytes.
pub(crate) const LONG_LENGTH: u8 = 0x10;

/// An optional transitive attribute.
pub(crate) const OPTIONAL_TRANSITIVE: u8 = OPTIONAL | TRANSITIVE;
