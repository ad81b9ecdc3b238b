//! Attributes of unknown types.

ghost use Rattle.std.specs.Prelude.{◌≡◌, ◌++◌, OnOk, IfOk};
ghost use Rattle.attr_codec.specs.Field.{first_of};
ghost use Rattle.attr_codec.specs.Unknown.{is_kept, kept_of, unknown_below, unknown_of};

use crate::cut_field::CutField;
use crate::fault::is_known_kind;
use crate::field::Attribute;
use crate::flag::OPTIONAL_TRANSITIVE;
use attr_model::UnknownList;
use net_base::{Bytes, Items, NoMemory};
use std::alloc::Global;

/// The attributes of unknown types that are to be sent on, by type, each with its first copy.
#[tactic(auto, unfolding(crate::specs::Unknown::unknown_of))]
pub(crate) fn unknown(alloc: Global, field: &CutField<'_>) -> Result<UnknownList, NoMemory>
    ensures { IfOk result (λ list. list ≡ unknown_of field.now) }
{
    let kinds = field.kept();
    let mut list = Items::new(alloc);
    for kind in kinds.from..kinds.to {
        push_kept(alloc, &mut list, field, kind as u8)?;
    }
    Ok(list)
}

/// Puts the first attribute of a type behind others, where it is to be sent on.
fn push_kept(
    alloc: Global,
    list: &mut UnknownList,
    field: &CutField<'_>,
    kind: u8,
) -> Result<(), NoMemory>
    ensures { OnOk result (list.new ≡ list.old ++ kept_of (first_of kind field.now)) }
{
    match field.first(kind) {
        Some(attribute) if is_kept(attribute) => {
            let value = Bytes::from_slice(alloc, attribute.value)?;
            list.push((attribute.kind, value))
        }
        _ => Ok(()),
    }
}

/// Whether an attribute is of an unknown type and is to be sent on.
pub(crate) fn is_kept(attribute: Attribute<'_>) -> bool
    ensures { result ≡ is_kept (record { flags = attribute.entry.flags; kind = attribute.entry.kind; value = attribute.entry.value.now }) }
{
    !is_known_kind(attribute.kind) && attribute.flags & OPTIONAL_TRANSITIVE == OPTIONAL_TRANSITIVE
}
