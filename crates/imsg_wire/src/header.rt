ghost use Rattle.std.specs.Prelude.{◌≡◌, Some};
ghost use Rattle.std.specs.Option.{ForSome};
ghost use Rattle.imsg_wire.specs.Frame.{header_at, frame_header};

use byteorder::{ByteOrder, LittleEndian};

/// How many bytes a header has.
pub(crate) const HEADER_LENGTH: usize = 16;
/// How many bytes the longest frame has, its header included.
pub(crate) const LONGEST: usize = 16384;
/// How many bytes the longest payload has.
pub const LONGEST_PAYLOAD: usize = LONGEST - HEADER_LENGTH;

/// The header in front of some bytes.
#[derive(Clone, Copy, Debug, PartialEq, Eq)]
pub(crate) struct Header {
    /// The kind of the frame.
    pub kind: u32,
    /// How many bytes the frame has, its header included.
    pub size: u16,
    /// The number of the session that it speaks of, or 0.
    pub peer: u32,
    /// Who wrote it.
    pub pid: u32,
}

/// A header as bytes, with flags of 0.
pub(crate) fn header_as_bytes(kind: u32, size: u16, peer: u32, pid: u32) -> [u8; 16]
    ensures { result ≡ frame_header (record { kind = kind; size = size; peer = peer; pid = pid }) }
{
    let mut bytes = [0; 16];
    LittleEndian::write_u32(&mut bytes, kind);
    LittleEndian::write_u16(&mut bytes[4..], size);
    LittleEndian::write_u32(&mut bytes[8..], peer);
    LittleEndian::write_u32(&mut bytes[12..], pid);
    bytes
}

#[tactic(auto, unfolding(crate::specs::Frame::header_of))]
/// The header in front of these bytes, or None where they have fewer than 16. What is known of it already isn't
/// decoded again. The flags aren't looked at.
pub(crate) fn read_header(known: Option<Header>, bytes: &[u8]) -> Option<Header>
    requires { ForSome known (λ h. header_at bytes.now ≡ Some h) }
    ensures { result ≡ header_at bytes.now }
{
    if known.is_some() {
        return known;
    }
    if bytes.len() < HEADER_LENGTH {
        return None;
    }
    Some(Header {
        kind: LittleEndian::read_u32(bytes),
        size: LittleEndian::read_u16(&bytes[4..]),
        peer: LittleEndian::read_u32(&bytes[8..]),
        pid: LittleEndian::read_u32(&bytes[12..]),
    })
}
