ghost use Rattle.std.specs.Prelude.{◌≡◌, ℕ, List, [], ◌∷◌, ◌++◌, length, min, replicate, Option, OnOk, OnErr, IfOk, option_copied, IsTrue, ◌↔◌, ◌≤◌, ◌<◌};
ghost use Rattle.attr_model.specs.Path.{begun, front_numbers, prepended};

use net_base::{Items, NoMemory};
use std::alloc::Global;
use std::marker::Model;
use std::mem;

/// AS numbers in order.
pub type AsList = Items<u32>;

/// The most AS numbers that one segment of a path holds: their count is one byte on the wire.
const SEGMENT_LIMIT: usize = 255;

/// A part of an AS path (RFC 4271 section 4.3, AS_PATH).
#[derive(Debug, PartialEq, Eq, Hash, Drop)]
pub enum Segment {
    /// AS numbers without an order, as aggregation leaves them.
    Set(AsList),
    /// The AS numbers that a route passed, the latest first.
    Sequence(AsList),
}

/// The AS path of a route, the latest segment first. Contracts see it as the list of its segments.
#[derive(Debug, PartialEq, Eq, Hash, Drop)]
pub struct Path {
    segments: Items<Segment>,
}

/// An equal segment. It needs memory.
impl Clone for Segment {
    ghost is_clone = { λ segment copy. copy ≡ segment };

    fn clone(&self) -> Result<Self, NoMemory> {
        match self {
            Segment::Set(numbers) => Ok(Segment::Set(numbers.clone()?)),
            Segment::Sequence(numbers) => Ok(Segment::Sequence(numbers.clone()?)),
        }
    }
}

impl Segment {
    ghost use Rattle.attr_model.specs.Path.{count_of, last_number};
    ghost use Rattle.attr_model.specs.Valid.{numbers_of};

    /// The numbers that the segment lists.
    pub fn numbers(&self) -> &[u32]
        ensures { result.now ≡ numbers_of self.now }
    {
        match self {
            Segment::Set(numbers) | Segment::Sequence(numbers) => numbers.as_slice(),
        }
    }

    /// What the segment adds to the length of a path: a set counts one.
    pub fn weight(&self) -> usize
        ensures { result ≡ count_of self.now }
    {
        match self {
            Segment::Set(_) => 1,
            Segment::Sequence(numbers) => numbers.len(),
        }
    }

    /// The last number of a sequence.
    fn last_number(&self) -> Option<u32>
        ensures { result ≡ last_number self.now }
    {
        match self {
            Segment::Set(_) => None,
            Segment::Sequence(numbers) => numbers.as_slice().last().copied(),
        }
    }
}

impl Model for Path {
    ghost use Rattle.std.specs.Prelude.{List};
    ghost use Rattle.attr_model.specs.declared.path.Segment.{Segment};

    ghost Value = { List Segment };

    ghost view = { λ p. p.segments };

    ghost inverse = { λ segments. record { segments = segments } };
}

/// An equal path. It needs memory.
impl Clone for Path {
    ghost is_clone = { λ path copy. copy ≡ path };

    fn clone(&self) -> Result<Self, NoMemory> {
        Ok(Path {
            segments: self.segments.clone()?,
        })
    }
}

impl Path {
    ghost use Rattle.attr_model.specs.Path.{path_length, origin_as, prepended};
    ghost use Rattle.attr_model.specs.Valid.{IsPath};

    /// The path of a route that begins here. It takes no memory.
    pub fn new(alloc: Global) -> Self
        ensures { result ≡ [] }
    {
        Path {
            segments: Items::new(alloc),
        }
    }

    /// The segments in order.
    pub fn as_slice(&self) -> &[Segment]
        ensures { result.now ≡ self.now }
    {
        self.segments.as_slice()
    }

    /// Whether the path has no segments.
    pub fn is_empty(&self) -> bool
        ensures { IsTrue result ↔ (self.now ≡ []) }
    {
        self.segments.is_empty()
    }

    /// Puts a segment behind the others. Where memory is refused, the path is as it was.
    pub fn push(&mut self, segment: Segment) -> Result<(), NoMemory>
        ensures ok { OnOk result (self.new ≡ self.old ++ segment ∷ []) }
        ensures err { OnErr result (self.new ≡ self.old) }
    {
        self.segments.push(segment)
    }

    /// How many AS numbers the path has, a set counting one (RFC 4271 section 9.1.2.2 a).
    pub fn length(&self) -> u128
        ensures { result ≡ path_length self.now }
    {
        let mut total: u128 = 0;
        for segment in self.segments.as_slice() {
            total += segment.weight() as u128;
        }
        total
    }

    /// The AS in which the route began: `own` for an empty path, the last number where the path ends in
    /// a sequence, and otherwise None (RFC 6811 section 2, "Route Origin ASN").
    pub fn origin_as(&self, own: u32) -> Option<u32>
        ensures { result ≡ origin_as own self.now }
    {
        match self.segments.as_slice().last() {
            None => Some(own),
            Some(last) => last.last_number(),
        }
    }

    /// Puts an AS number in front, `times` times. A sequence in front is filled up to 255 numbers before
    /// a new one begins (RFC 4271 section 5.1.2). Where memory is refused, the path is as it was. A valid path stays
    /// valid.
    pub fn prepend(&mut self, alloc: Global, asn: u32, times: u8) -> Result<(), NoMemory>
        ensures ok { OnOk result (self.new ≡ prepended asn times self.old) }
        ensures err { OnErr result (self.new ≡ self.old) }
        ensures valid { IsPath self.old → IsPath self.new }
    {
        let mut segments = mem::replace(&mut self.segments, Items::new(alloc)).into_vec();
        let outcome = prepend_to(alloc, &mut segments, asn, times);
        self.segments = Items::from_vec(segments);
        outcome
    }
}

/// Puts a sequence of `times` equal numbers in front of the segments, and nothing where that is 0. Answers
/// how many segments it put there. Where memory is refused, they are as they were.
fn begin(
    alloc: Global,
    segments: &mut Vec<Segment>,
    asn: u32,
    times: usize,
) -> Result<usize, NoMemory>
    ensures count { IfOk result (λ begun. begun ≡ min times 1) }
    ensures ok { OnOk result (segments.new.items ≡ begun asn times segments.old.items) }
    ensures err { OnErr result (segments.new.items ≡ segments.old.items) }
{
    if times == 0 {
        return Ok(0);
    }
    let numbers = vec![in alloc; asn; times]?;
    segments.insert(0, Segment::Sequence(Items::from_vec(numbers)))?;
    Ok(1)
}

/// The numbers of the segment in front, or None where there is none or it is a set.
fn front(segments: &[Segment]) -> Option<&[u32]>
    ensures { option_copied result ≡ front_numbers segments.now }
{
    match segments {
        [Segment::Sequence(numbers), ..] => Some(numbers.as_slice()),
        _ => None,
    }
}

/// `times` equal numbers, and then the others.
fn repeated(alloc: Global, asn: u32, times: usize, others: &[u32]) -> Result<AsList, NoMemory>
    ensures { IfOk result (λ numbers. numbers ≡ replicate times asn ++ others.now) }
{
    let mut numbers = vec![in alloc; asn; times]?;
    numbers.extend_from_slice(others)?;
    Ok(Items::from_vec(numbers))
}

/// Puts a number in front of the segments, `times` times. All memory is taken before the first change.
fn prepend_to(
    alloc: Global,
    segments: &mut Vec<Segment>,
    asn: u32,
    times: u8,
) -> Result<(), NoMemory>
    ensures ok { OnOk result (segments.new.items ≡ prepended asn times segments.old.items) }
    ensures err { OnErr result (segments.new.items ≡ segments.old.items) }
{
    let times = times as usize;
    let Some(numbers) = front(segments.as_slice()) else {
        begin(alloc, segments, asn, times)?;
        return Ok(());
    };
    let filled = times.min(SEGMENT_LIMIT.saturating_sub(numbers.len()));
    let grown = repeated(alloc, asn, filled, numbers)?;
    let place = begin(alloc, segments, asn, times - filled)?;
    segments[place] = Segment::Sequence(grown);
    Ok(())
}
