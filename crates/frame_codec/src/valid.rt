//! Whether attributes are valid: whether they could have been sent.

ghost use Rattle.std.specs.Prelude.{◌≡◌, ◌↔◌, IsTrue};
ghost use Rattle.std.specs.List.Sorted.{IsStrictlySortedBy};
ghost use Rattle.attr_model.specs.Valid.{IsPartial, IsPath, IsSegment, IsValid};
ghost use Rattle.frame_codec.specs.Lists.{AreLists, AreUnknown, may_follow};

use attr_codec::is_known_kind;
use attr_model::{Attrs, Segment};
use net_base::Bytes;

/// The highest ORIGIN, of INCOMPLETE.
const HIGHEST_ORIGIN: u8 = 2;
/// The most numbers that a segment of a path lists.
const LONGEST_SEGMENT: usize = 255;

/// Whether attributes are valid. Each list is gone over once.
pub(crate) fn is_valid(attrs: &Attrs) -> bool
    ensures { IsTrue result ↔ IsValid attrs.now }
{
    attrs.origin <= HIGHEST_ORIGIN
        && is_path(attrs.path.as_slice())
        && are_lists(attrs)
        && is_partial(attrs)
}

/// Whether the communities, the large ones and the unknown attributes are in order.
fn are_lists(attrs: &Attrs) -> bool
    ensures { IsTrue result ↔ AreLists attrs.now }
{
    are_ascending(attrs.communities.as_slice())
        && are_ascending(attrs.large.as_slice())
        && are_unknown(attrs.unknown.as_slice())
}

/// Whether each segment of a path lists 1 to 255 numbers.
fn is_path(path: &[Segment]) -> bool
    ensures { IsTrue result ↔ IsPath path.now }
{
    for segment in path {
        if !is_segment(segment) {
            return false;
        }
    }
    true
}

/// Whether a segment lists 1 to 255 numbers.
fn is_segment(segment: &Segment) -> bool
    ensures { IsTrue result ↔ IsSegment segment.now }
{
    let numbers = segment.numbers();
    !numbers.is_empty() && numbers.len() <= LONGEST_SEGMENT
}

/// Whether each item is below those behind it.
fn are_ascending<T: Ord>(items: &[T]) -> bool
    ensures { IsTrue result ↔ IsStrictlySortedBy T.cmp items.now }
{
    items.is_sorted_by(|one, next| one < next)
}

/// Whether no type is known, and each is below those behind it.
fn are_unknown(unknown: &[(u8, Bytes)]) -> bool
    ensures { IsTrue result ↔ AreUnknown unknown.now }
{
    let mut least: u16 = 0;
    for (kind, _) in unknown {
        if !may_follow(least, *kind) {
            return false;
        }
        least = u16::from(*kind) + 1;
    }
    true
}

/// Whether a type is unknown, and none of those below `least`.
fn may_follow(least: u16, kind: u8) -> bool
    ensures { result ≡ may_follow least kind }
{
    least <= u16::from(kind) && !is_known_kind(kind)
}

/// Whether each partial bit is one of an attribute that is there.
fn is_partial(attrs: &Attrs) -> bool
    ensures { IsTrue result ↔ IsPartial attrs.now }
{
    attrs.partial < 8
        && (attrs.partial & 1 == 0 || attrs.aggregator.is_some())
        && (attrs.partial & 2 == 0 || !attrs.communities.is_empty())
        && (attrs.partial & 4 == 0 || !attrs.large.is_empty())
}
