//! One attribute of the attribute field of an UPDATE.

ghost use Rattle.std.specs.Prelude.{◌≡◌, ◌<◌, Some, None, length, MatchResult, IfOk};
ghost use Rattle.wire_buf.specs.Field.{Reads, number_at};
ghost use Rattle.attr_codec.specs.Field.{attribute_at, length_size};

use crate::flag;
use wire_buf::{Cursor, Short};

/// One attribute as it stands in the field.
#[derive(Clone, Copy)]
pub(crate) struct Attribute<'a> {
    pub flags: u8,
    pub kind: u8,
    pub value: &'a [u8],
}

/// The attribute in front, or `Short` where its header or its value passes the end.
#[tactic(auto, unfolding(crate::specs::Field::attribute_at))]
pub(crate) fn next_attribute<'a>(left: &mut Cursor<'a>) -> Result<Attribute<'a>, Short>
    ensures attribute { MatchResult result
        (λ a. attribute_at left.old ≡ Some (record { flags = a.flags; kind = a.kind; value = a.value.now }, left.new))
        (λ _. attribute_at left.old ≡ None) }
    ensures shorter { IfOk result (λ _. length left.new < length left.old) }
    ensures one_byte { IfOk result (λ a. a.kind < 256) }
{
    let flags = left.u8()?;
    let kind = left.u8()?;
    let size = length_of(left, flags)?;
    let value = left.bytes(size)?;
    Ok(Attribute { flags, kind, value })
}

/// The length of a value, in one byte or in two.
fn length_of(left: &mut Cursor<'_>, flags: u8) -> Result<usize, Short>
    ensures { Reads (number_at (length_size flags)) left.old left.new result }
{
    if flags & flag::LONG_LENGTH == 0 {
        Ok(usize::from(left.u8()?))
    } else {
        Ok(usize::from(left.u16()?))
    }
}
