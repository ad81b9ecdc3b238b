//! AS_PATH and AS4_PATH of a peer of two-octet numbers, joined (RFC 6793 section 4.2.3).

ghost use Rattle.std.specs.Prelude.{◌≡◌, ◌++◌, ◌<◌, ◌-◌, IfOk, OnOk};
ghost use Rattle.attr_model.specs.Path.{count_of};
ghost use Rattle.attr_codec.specs.Values.{leading, leading_part, joined_paths};

use attr_model::{AsList, Path, Segment};
use net_base::NoMemory;
use std::alloc::Global;

/// The surplus leading part of AS_PATH, and then AS4_PATH, where AS_PATH has at least as many numbers.
/// Otherwise AS_PATH alone.
pub(crate) fn join_paths(alloc: Global, path: Path, as4_path: &Path) -> Result<Path, NoMemory>
    ensures { IfOk result (λ joined. joined ≡ joined_paths path as4_path.now) }
{
    let length = path.length();
    let as4_length = as4_path.length();
    if length < as4_length {
        return Ok(path);
    }
    let mut joined = leading_segments(alloc, length - as4_length, path.as_slice())?;
    append(&mut joined, as4_path.as_slice())?;
    Ok(joined)
}

// Segments from the front, up to a surplus of numbers.
fn leading_segments(alloc: Global, surplus: u128, segments: &[Segment]) -> Result<Path, NoMemory>
    ensures { IfOk result (λ path. path ≡ leading surplus segments.now) }
{
    let mut path = Path::new(alloc);
    let mut left = surplus;
    for segment in segments {
        if left == 0 {
            return Ok(path);
        }
        path.push(part_of(alloc, left, segment)?)?;
        left = left.saturating_sub(segment.weight() as u128);
    }
    Ok(path)
}

// A set as a whole, or as much of a sequence as the surplus has.
fn part_of(alloc: Global, surplus: u128, segment: &Segment) -> Result<Segment, NoMemory>
    ensures { IfOk result (λ part. part ≡ leading_part surplus segment.now) }
{
    match segment {
        Segment::Set(_) => segment.clone(),
        Segment::Sequence(numbers) => {
            let taken = surplus.min(numbers.len() as u128) as usize;
            let front = AsList::from_slice(alloc, &numbers.as_slice()[..taken])?;
            Ok(Segment::Sequence(front))
        }
    }
}

// Puts segments behind a path.
fn append(path: &mut Path, segments: &[Segment]) -> Result<(), NoMemory>
    ensures { OnOk result (path.new ≡ path.old ++ segments.now) }
{
    for segment in segments {
        path.push(segment.clone()?)?;
    }
    Ok(())
}
