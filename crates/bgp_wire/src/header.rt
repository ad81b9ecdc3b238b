ghost use Rattle.std.specs.Prelude.{◌≡◌, ℕ, ◌↔◌};
ghost use Rattle.bgp_wire.specs.Message.{header_fault, IsUnfinished, BeginsMessage, BeginsFault, messages, after_cut, cut_of, fits_kind};

use crate::kind::{KEEPALIVE, NOTIFICATION, OPEN, ROUTE_REFRESH, UPDATE};
use crate::{Cut, Notify};
use byteorder::{BigEndian, ByteOrder};
use lane_scan::all_ones;

/// How many bytes a header has (RFC 4271, section 4.1).
pub const HEADER_LENGTH: usize = 19;
/// How many bytes the longest message has (RFC 4271, section 4.1).
pub const LONGEST: usize = 4096;

/// Cuts the first message off a peer's bytes (RFC 4271, sections 4.1 and 6.1).
///
/// `More` comes exactly where fewer than 19 bytes are there, or the header is good and fewer bytes
/// than its length. A header is judged as soon as its 19 bytes are there: a bit of the marker that is zero
/// is 1/1, a length below 19 or above 4096 1/2, a type other than 1 to 5 1/3, and a length
/// that the type can't have 1/2; the first of these that holds counts.
pub fn cut(buffer: &[u8]) -> Cut
    ensures more { (result ≡ Cut.More) ↔ IsUnfinished buffer.now }
    ensures message { (kind n : ℕ) → ((result ≡ Cut.Message kind n) ↔ BeginsMessage buffer.now kind n) }
    ensures notify { (fault : Notify) → ((result ≡ Cut.Notify fault) ↔ BeginsFault buffer.now fault) }
    // The messages of the bytes are what is cut off, and those of the bytes behind it.
    ensures messages { messages buffer.now ≡ after_cut result buffer.now }
{
    front_of(buffer)
}

// What stands in front of the bytes.
fn front_of(buffer: &[u8]) -> Cut
    ensures { result ≡ cut_of buffer.now }
{
    if buffer.len() < HEADER_LENGTH {
        return Cut::More;
    }
    let length = usize::from(BigEndian::read_u16(&buffer[16..]));
    let kind = buffer[18];
    match fault_of(&buffer[..16], length, kind) {
        Some(fault) => Cut::Notify(fault),
        None if buffer.len() < length => Cut::More,
        None => Cut::Message { kind, length },
    }
}

// The fault of a header with these fields.
fn fault_of(marker: &[u8], length: usize, kind: u8) -> Option<Notify>
    ensures { result ≡ header_fault (record { marker = marker.now; size = length; kind = kind }) }
{
    if !all_ones(marker) {
        return Some(Notify { code: 1, sub: 1 });
    }
    if length < HEADER_LENGTH || length > LONGEST {
        return Some(Notify { code: 1, sub: 2 });
    }
    if kind < OPEN || kind > ROUTE_REFRESH {
        return Some(Notify { code: 1, sub: 3 });
    }
    if !fits(kind, length) {
        return Some(Notify { code: 1, sub: 2 });
    }
    None
}

// Whether a message of this type may have this length.
fn fits(kind: u8, length: usize) -> bool
    ensures { result ≡ fits_kind kind length }
{
    match kind {
        OPEN => length >= 29,
        UPDATE => length >= 23,
        NOTIFICATION => length >= 21,
        KEEPALIVE => length == HEADER_LENGTH,
        _ => length == 23,
    }
}
