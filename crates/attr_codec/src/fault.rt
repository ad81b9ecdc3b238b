//! The NOTIFICATION that answers an attribute.

ghost use Rattle.std.specs.Prelude.{◌≡◌};
ghost use Rattle.attr_model.specs.Valid.{is_known};
ghost use Rattle.attr_codec.specs.Fault.{attribute_fault};

use crate::field::Attribute;
use crate::reach::{reach_fault, unreach_fault};
use crate::{flag, kind};
use bgp_wire::Encoding;

/// The sub code of the NOTIFICATION that answers one attribute.
pub(crate) fn fault_of(enc: Encoding, is_copy: bool, attribute: Attribute<'_>) -> Option<u8>
    ensures { result ≡ attribute_fault enc is_copy (record { flags = attribute.entry.flags; kind = attribute.entry.kind; value = attribute.entry.value.now }) }
{
    match attribute.kind {
        kind::MP_REACH | kind::MP_UNREACH if is_copy => Some(1),
        kind::MP_REACH => reach_fault(enc, attribute.value),
        kind::MP_UNREACH => unreach_fault(enc, attribute.value),
        kind if is_known_kind(kind) || is_copy => None,
        _ if attribute.flags & flag::OPTIONAL != 0 => None,
        _ => Some(2),
    }
}

/// Whether attributes of a type have a meaning here. All others are unknown.
pub fn is_known_kind(kind: u8) -> bool
    ensures { result ≡ is_known kind }
{
    matches!(kind, 1..=8 | 14 | 15 | 17 | 18 | 32)
}
