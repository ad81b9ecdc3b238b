ghost use Rattle.std.specs.Prelude.{◌≡◌, ◌≤◌, length, option_map};
ghost use Rattle.bgp_wire.specs.Message.{first_row, notify};
ghost use Rattle.bgp_wire.specs.Open.{open_of, answer_to, answered, lists_of};
ghost use Rattle.bgp_wire.specs.Hearing.{heard_of, said_of, later_rows, later_facts};

use crate::Notify;
use crate::hearing::{Heard, hear};
use byteorder::{BigEndian, ByteOrder};

/// The version of the protocol.
pub(crate) const VERSION: u8 = 4;

/// What the own side of a session announces and asks for.
#[derive(Clone, Copy, Debug, PartialEq, Eq)]
pub struct OpenRules {
    /// The own AS number.
    pub asn: u32,
    /// The AS number that the peer must have; the session is internal where it is the own one.
    pub remote_as: u32,
    /// The own BGP identifier.
    pub router_id: u32,
    /// The own hold time in seconds, 0 for none.
    pub hold: u16,
    /// The least hold time other than 0 that is taken from the peer, in seconds.
    pub hold_min: u16,
    /// Whether IPv4 unicast is announced.
    pub v4: bool,
    /// Whether IPv6 unicast is announced.
    pub v6: bool,
    /// Whether route refresh is announced.
    pub refresh: bool,
    /// Whether four-octet AS numbers are announced.
    pub as4: bool,
}

/// What both ends of a session agreed, by which its UPDATEs are read and written.
#[derive(Clone, Copy, Debug, PartialEq, Eq)]
pub struct Encoding {
    /// IPv4 unicast prefixes are exchanged.
    pub v4: bool,
    /// IPv6 unicast prefixes are exchanged.
    pub v6: bool,
    /// AS numbers have four octets.
    pub as4: bool,
    /// A ROUTE-REFRESH may be sent.
    pub refresh: bool,
    /// The peer is in another AS.
    pub external: bool,
}

/// What an OPEN said and what was agreed by it.
#[derive(Clone, Copy, Debug, PartialEq, Eq)]
pub struct OpenFacts {
    /// The peer's AS number.
    pub asn: u32,
    /// The peer's BGP identifier.
    pub id: u32,
    /// The agreed hold time in seconds, 0 for none.
    pub hold: u16,
    /// What both ends agreed.
    pub encoding: Encoding,
}

/// What is left of an OPEN once its version is right and its parameters are read.
#[derive(Clone, Copy)]
pub(crate) struct Said {
    asn: u32,
    hold: u16,
    id: u32,
    heard: Heard,
}

/// Reads the body of an OPEN (RFC 4271, section 4.2): what was agreed by it, or the NOTIFICATION that
/// answers it (section 6.2).
///
/// The faults are judged in this order, and the first that holds counts:
/// - 2/1: the version isn't 4.
/// - 2/0: the optional parameters don't fill their length, or bytes stand behind them; a capability passes
///   the end of its parameter; one of code 1, 2 or 65 hasn't 4, 0 or 4 bytes.
/// - 2/4: a parameter is of another type than 2, capabilities (RFC 5492).
/// - 2/2: the AS isn't the one wanted. It is that of the last capability 65 (RFC 6793) if one is there,
///   otherwise the field My AS.
/// - 2/6: the hold time is 1 or 2, or it isn't 0 and is below the least that is taken.
/// - 2/3: the BGP identifier is 0, or on an internal session the own one.
///
/// Other capabilities are passed over. A peer that names no family offers IPv4. A family, route refresh and
/// four-octet AS numbers are agreed where both sides offer them, and the hold time is the smaller one.
pub fn read_open(body: &[u8], mine: &OpenRules) -> Result<OpenFacts, Notify>
    requires { 10 ≤ length body.now }
    ensures { result ≡ answer_to (open_of body.now) mine.now }
{
    if body[0] != VERSION {
        return Err(open_fault(1));
    }
    let Some(heard) = optional(body) else {
        return Err(open_fault(0));
    };
    let said = said_in(body, heard);
    answer(&said, mine)
}

// The NOTIFICATION for a fault of an OPEN.
fn open_fault(sub: u8) -> Notify
    ensures { result ≡ notify 2 sub }
{
    Notify { code: 2, sub }
}

// What the optional parameters say, or None where they are malformed.
#[tactic(auto, unfolding(crate::specs::Open::lists_of))]
fn optional(body: &[u8]) -> Option<Heard>
    requires { 10 ≤ length body.now }
    ensures { result ≡ option_map heard_of (lists_of body.now) }
{
    let (_, field) = body.split_at(10);
    if usize::from(body[9]) != field.len() {
        return None;
    }
    hear(field)
}

// The fields behind the version, with what was heard.
fn said_in(body: &[u8], heard: Heard) -> Said
    requires { 10 ≤ length body.now }
    ensures { result ≡ said_of body.now heard }
{
    let my_as = u32::from(BigEndian::read_u16(&body[1..]));
    Said {
        asn: heard.offer.asn.unwrap_or(my_as),
        hold: BigEndian::read_u16(&body[3..]),
        id: BigEndian::read_u32(&body[5..]),
        heard,
    }
}

// The first fault, or what was agreed.
fn answer(said: &Said, mine: &OpenRules) -> Result<OpenFacts, Notify>
    ensures { result ≡ answered (first_row (later_rows said.now mine.now)) (later_facts said.now mine.now) }
{
    match fault_in(said, mine) {
        Some(fault) => Err(fault),
        None => Ok(agreed(said, mine)),
    }
}

// The first fault behind those of version and form.
fn fault_in(said: &Said, mine: &OpenRules) -> Option<Notify>
    ensures { result ≡ first_row (later_rows said.now mine.now) }
{
    if said.heard.foreign {
        return Some(open_fault(4));
    }
    if said.asn != mine.remote_as {
        return Some(open_fault(2));
    }
    let hold = said.hold;
    if hold == 1 || hold == 2 || (hold != 0 && hold < mine.hold_min) {
        return Some(open_fault(6));
    }
    if said.id == 0 || (said.id == mine.router_id && mine.remote_as == mine.asn) {
        return Some(open_fault(3));
    }
    None
}

// What both sides agreed.
fn agreed(said: &Said, mine: &OpenRules) -> OpenFacts
    ensures { result ≡ later_facts said.now mine.now }
{
    let offer = said.heard.offer;
    OpenFacts {
        asn: said.asn,
        id: said.id,
        hold: mine.hold.min(said.hold),
        encoding: Encoding {
            v4: mine.v4 && (!offer.families || offer.v4),
            v6: mine.v6 && offer.v6,
            as4: mine.as4 && offer.asn.is_some(),
            refresh: mine.refresh && offer.refresh,
            external: mine.remote_as != mine.asn,
        },
    }
}
