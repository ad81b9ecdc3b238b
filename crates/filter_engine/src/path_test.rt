//! Conditions on the AS path.

ghost use Rattle.std.specs.Prelude.{◌≡◌, ◌==◌, length, take, Some, None, option_copied, slice_get};
ghost use Rattle.std.specs.List.{list_any};
ghost use Rattle.std.specs.Option.{option_map_or};
ghost use Rattle.attr_model.specs.Valid.{numbers_of};
ghost use Rattle.conf_tree.specs.declared.sets.SetKind.TheVariants as kinds;
ghost use Rattle.conf_tree.specs.Membership.{Names, in_as_set};
ghost use Rattle.filter_engine.specs.Conditions.{path_numbers, numbers_in};
ghost use Rattle.filter_engine.specs.Wanted.{is_wanted, IsThere, last_of};

use attr_model::Segment;
use conf_tree::{Members, PathPart, SetId};
use lane_scan::has_as;

/// The AS numbers that a condition asks for.
#[derive(Clone, Copy, Debug, PartialEq, Eq)]
pub(crate) enum Wanted {
    Number(u32),
    /// Those of an as-set.
    Of(SetId),
}

/// Whether a number is one that is asked for.
fn is_wanted<M: Members>(sets: &M, wanted: Wanted, number: u32) -> bool
    requires { IsThere (M.conf_of sets.now) wanted }
    ensures { result ≡ is_wanted (M.conf_of sets.now) wanted number }
{
    match wanted {
        Wanted::Number(asn) => number == asn,
        Wanted::Of(set) => sets.in_as_set(set, number),
    }
}

/// Whether some of these numbers is asked for.
fn has_wanted<M: Members>(sets: &M, wanted: Wanted, numbers: &[u32]) -> bool
    requires { IsThere (M.conf_of sets.now) wanted }
    ensures { result ≡ list_any (is_wanted (M.conf_of sets.now) wanted) numbers.now }
{
    match wanted {
        Wanted::Number(asn) => has_as(numbers, asn),
        Wanted::Of(set) => has_member(sets, set, numbers),
    }
}

/// Whether some of these numbers stands in an as-set.
fn has_member<M: Members>(sets: &M, set: SetId, numbers: &[u32]) -> bool
    requires { Names (M.conf_of sets.now) kinds.As set }
    ensures { result ≡ list_any (in_as_set (M.conf_of sets.now) set) numbers.now }
{
    for number in numbers {
        if sets.in_as_set(set, *number) {
            return true;
        }
    }
    false
}

/// What a segment lists.
fn numbers(segment: &Segment) -> &[u32]
    ensures { result.now ≡ numbers_of segment.now }
{
    match segment {
        Segment::Set(numbers) => numbers.as_slice(),
        Segment::Sequence(numbers) => numbers.as_slice(),
    }
}

/// How many numbers a path has, sets included.
fn count(path: &[Segment]) -> u128
    ensures { result ≡ length (path_numbers path.now) }
{
    let mut total: u128 = 0;
    for segment in path {
        total += numbers(segment).len() as u128;
    }
    total
}

/// At most so many of these numbers, from the first on.
fn front(numbers: &[u32], most: u128) -> &[u32]
    ensures { result.now ≡ take most numbers.now }
{
    if most < numbers.len() as u128 {
        &numbers[..most as usize]
    } else {
        numbers
    }
}

/// Whether some of the first numbers of a path is asked for.
fn front_has_wanted<M: Members>(sets: &M, wanted: Wanted, path: &[Segment], most: u128) -> bool
    requires { IsThere (M.conf_of sets.now) wanted }
    ensures { result ≡ list_any (is_wanted (M.conf_of sets.now) wanted) (take most (path_numbers path.now)) }
{
    let mut left = most;
    for segment in path {
        let numbers = front(numbers(segment), left);
        if has_wanted(sets, wanted, numbers) {
            return true;
        }
        left -= numbers.len() as u128;
    }
    false
}

fn last_in(numbers: &[u32]) -> Option<u32>
    ensures { result ≡ last_of numbers.now }
{
    numbers.last().copied()
}

/// The last number of a path.
fn last_number(path: &[Segment]) -> Option<u32>
    ensures { result ≡ last_of (path_numbers path.now) }
{
    let mut last = None;
    for segment in path {
        last = last_in(numbers(segment)).or(last);
    }
    last
}

/// Whether some number in that part of a path is asked for.
pub(crate) fn part_has_wanted<M: Members>(
    sets: &M,
    wanted: Wanted,
    part: PathPart,
    path: &[Segment],
) -> bool
    requires { IsThere (M.conf_of sets.now) wanted }
    ensures { result ≡ list_any (is_wanted (M.conf_of sets.now) wanted) (numbers_in part (path_numbers path.now)) }
{
    match part {
        PathPart::Any => front_has_wanted(sets, wanted, path, count(path)),
        PathPart::Peer => front_has_wanted(sets, wanted, path, 1),
        PathPart::Transit => { front_has_wanted(sets, wanted, path, count(path).saturating_sub(1)) }
        PathPart::Source => match last_number(path) {
            Some(last) => is_wanted(sets, wanted, last),
            None => false,
        },
    }
}
