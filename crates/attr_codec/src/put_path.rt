//! AS paths and AS numbers, written as the value of an attribute.

ghost use Rattle.std.specs.Prelude.{◌≡◌, ◌≤◌, ◌<◌, ◌++◌, false, length, flat_map, OnOk, OnErr};
ghost use Rattle.bgp_wire.specs.Written.{Keeps};
ghost use Rattle.attr_model.specs.Valid.{numbers_of, IsSegment, IsPath};
ghost use Rattle.attr_codec.specs.Path.{exceeds, told_as, as_bytes, kind_of_segment, segment_bytes, path_bytes, segment_exceeds, path_exceeds};
ghost use Rattle.attr_codec.specs.Width.{IsNumber, AreNumbers, AreSegments};

use attr_model::Segment;
use bgp_wire::AS_TRANS;
use net_base::NoMemory;
use wire_buf::Pipe;

/// Whether an AS number has no room in two bytes.
pub(crate) fn exceeds(asn: u32) -> bool
    ensures { result ≡ exceeds asn }
{
    asn > 65535
}

// The AS number in two bytes.
fn two_octets(asn: u32) -> u16
    ensures { result ≡ told_as false asn }
{
    u16::try_from(asn).unwrap_or(AS_TRANS)
}

/// Puts an AS number behind what `out` holds, in four bytes or in two.
pub(crate) fn put_as(as4: bool, asn: u32, out: &mut Pipe) -> Result<(), NoMemory>
    ensures ok { OnOk result (out.new ≡ out.old ++ as_bytes as4 asn) }
    ensures err { OnErr result (Keeps out.old out.new) }
    ensures width { OnOk result (IsNumber asn) }
{
    if as4 {
        out.put_u32(asn)
    } else {
        out.put_u16(two_octets(asn))
    }
}

fn put_numbers(as4: bool, numbers: &[u32], out: &mut Pipe) -> Result<(), NoMemory>
    ensures ok { OnOk result (out.new ≡ out.old ++ flat_map (as_bytes as4) numbers.now) }
    ensures err { OnErr result (Keeps out.old out.new) }
    ensures width { OnOk result (AreNumbers numbers.now) }
{
    for number in numbers {
        put_as(as4, *number, out)?;
    }
    Ok(())
}

// The type of a segment.
fn kind_of(segment: &Segment) -> u8
    ensures { result ≡ kind_of_segment segment.now }
{
    match segment {
        Segment::Set(_) => 1,
        Segment::Sequence(_) => 2,
    }
}

fn put_segment(as4: bool, segment: &Segment, out: &mut Pipe) -> Result<(), NoMemory>
    requires { IsSegment segment.now }
    ensures ok { OnOk result (out.new ≡ out.old ++ segment_bytes as4 segment.now) }
    ensures err { OnErr result (Keeps out.old out.new) }
    ensures width { OnOk result (AreNumbers (numbers_of segment.now)) }
{
    let numbers = segment.numbers();
    out.push(&[kind_of(segment), numbers.len() as u8])?;
    put_numbers(as4, numbers, out)
}

/// Puts the segments of a path behind what `out` holds.
pub(crate) fn put_segments(as4: bool, path: &[Segment], out: &mut Pipe) -> Result<(), NoMemory>
    requires { IsPath path.now }
    ensures ok { OnOk result (out.new ≡ out.old ++ path_bytes as4 path.now) }
    ensures err { OnErr result (Keeps out.old out.new) }
    ensures width { OnOk result (AreSegments path.now) }
{
    for segment in path {
        put_segment(as4, segment, out)?;
    }
    Ok(())
}

fn segment_exceeds(segment: &Segment) -> bool
    ensures { result ≡ segment_exceeds segment.now }
{
    segment.numbers().iter().any(|asn| exceeds(*asn))
}

/// Whether some number of a path has no room in two bytes.
pub(crate) fn path_exceeds(path: &[Segment]) -> bool
    ensures { result ≡ path_exceeds path.now }
{
    path.iter().any(segment_exceeds)
}
