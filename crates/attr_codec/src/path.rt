//! Lists of numbers and AS paths, read from the value of an attribute.

ghost use Rattle.std.specs.Prelude.{◌≡◌, ◌<◌, Some, None, length, option_map, IfOk, IfSome, MatchOption, MatchResult};
ghost use Rattle.wire_buf.specs.Field.{Reads, number_at};
ghost use Rattle.attr_codec.specs.Path.{as_size, numbers_in, segment_of, segment_parts_at, segment_at, path_of};

use attr_model::{AsList, Path, Segment};
use net_base::{Items, NoMemory};
use std::alloc::Global;
use wire_buf::{Cursor, Short};

// The next AS number, in four bytes or in two.
fn next_number(left: &mut Cursor<'_>, as4: bool) -> Result<u32, Short>
    ensures { Reads (number_at (as_size as4)) left.old left.new result }
{
    if as4 {
        left.u32()
    } else {
        Ok(u32::from(left.u16()?))
    }
}

/// The numbers that stand whole in a field, of four bytes each or of two.
pub(crate) fn read_numbers(alloc: Global, as4: bool, bytes: &[u8]) -> Result<AsList, NoMemory>
    ensures { IfOk result (λ numbers. numbers ≡ numbers_in (as_size as4) bytes.now) }
{
    let mut numbers = Items::new(alloc);
    let mut left = Cursor::new(bytes);
    while let Ok(number) = next_number(&mut left, as4) {
        numbers.push(number)?;
    }
    Ok(numbers)
}

// The type of the segment in front, and the bytes of its numbers.
#[tactic(auto, unfolding(crate::specs::Path::segment_parts_at))]
fn next_parts<'a>(left: &mut Cursor<'a>, as4: bool) -> Result<(u8, &'a [u8]), Short>
    ensures { MatchResult result
        (λ parts. segment_parts_at as4 left.old ≡ Some ((parts.0, parts.1.now), left.new))
        (λ _. segment_parts_at as4 left.old ≡ None) }
{
    let kind = left.u8()?;
    let count = usize::from(left.u8()?);
    let numbers = left.bytes(if as4 { count * 4 } else { count * 2 })?;
    Ok((kind, numbers))
}

// The segment of this type with these numbers, or None where there is none such.
fn segment_with(kind: u8, numbers: AsList) -> Option<Segment>
    ensures { result ≡ segment_of kind numbers }
{
    if numbers.is_empty() {
        return None;
    }
    match kind {
        1 => Some(Segment::Set(numbers)),
        2 => Some(Segment::Sequence(numbers)),
        _ => None,
    }
}

// The segment in front, or None where it is malformed.
#[tactic(auto, unfolding(crate::specs::Path::segment_at))]
fn next_segment(
    alloc: Global,
    as4: bool,
    left: &mut Cursor<'_>,
) -> Result<Option<Segment>, NoMemory>
    ensures { IfOk result (λ found. MatchOption found (segment_at as4 left.old ≡ None) (λ segment. segment_at as4 left.old ≡ Some (segment, left.new))) }
{
    let Ok((kind, bytes)) = next_parts(left, as4) else {
        return Ok(None);
    };
    let numbers = read_numbers(alloc, as4, bytes)?;
    Ok(segment_with(kind, numbers))
}

/// The path that the value of an AS_PATH or AS4_PATH is, or None where it is malformed.
pub(crate) fn read_path(alloc: Global, as4: bool, value: &[u8]) -> Result<Option<Path>, NoMemory>
    ensures { IfOk result (λ path. path ≡ path_of as4 value.now) }
{
    let mut path = Path::new(alloc);
    let mut left = Cursor::new(value);
    while !left.is_empty() {
        let Some(segment) = next_segment(alloc, as4, &mut left)? else {
            return Ok(None);
        };
        path.push(segment)?;
    }
    Ok(Some(path))
}
