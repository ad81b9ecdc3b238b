ghost use Rattle.std.specs.Prelude.{◌≡◌, ◌<◌, [], ◌∷◌, length, IfSome, MatchOption};
ghost use Rattle.bgp_wire.specs.Entries.{entry_at};
ghost use Rattle.bgp_wire.specs.Hearing.{nothing, offer_with, offer_in, heard_with, heard_in};

use byteorder::{BigEndian, ByteOrder};
use wire_buf::Cursor;

/// The type of a parameter that holds capabilities.
pub(crate) const CAPABILITIES: u8 = 2;

/// The capability that names a family (RFC 4760, section 8).
pub(crate) const MULTIPROTOCOL: u8 = 1;
/// The capability of route refresh (RFC 2918, section 2).
pub(crate) const ROUTE_REFRESH: u8 = 2;
/// The capability of four-octet AS numbers (RFC 6793, section 3).
pub(crate) const FOUR_OCTET_AS: u8 = 65;

/// One entry of a field: its code or type, and its value.
#[derive(Clone, Copy)]
pub(crate) struct Entry<'a> {
    code: u8,
    value: &'a [u8],
}

/// What the capabilities so far offer.
#[derive(Clone, Copy)]
pub(crate) struct Offer {
    /// Some family is named at all.
    pub families: bool,
    pub v4: bool,
    pub v6: bool,
    pub refresh: bool,
    /// The AS number of the last capability for four-octet numbers.
    pub asn: Option<u32>,
}

/// What the optional parameters so far say.
#[derive(Clone, Copy)]
pub(crate) struct Heard {
    /// A parameter of another type than capabilities is there.
    pub foreign: bool,
    pub offer: Offer,
}

/// What the optional parameters of an OPEN say, or None where they or a capability are malformed.
pub(crate) fn hear(optional: &[u8]) -> Option<Heard>
    ensures { result ≡ heard_in nothing optional.now }
{
    let mut heard = Heard {
        foreign: false,
        offer: Offer {
            families: false,
            v4: false,
            v6: false,
            refresh: false,
            asn: None,
        },
    };
    let mut left = Cursor::new(optional);
    while !left.is_empty() {
        let parameter = next_entry(&mut left)?;
        heard = hear_parameter(heard, parameter)?;
    }
    Some(heard)
}

// The next entry of a field.
#[tactic(auto, unfolding(crate::specs::Entries::entry_at))]
fn next_entry<'a>(left: &mut Cursor<'a>) -> Option<Entry<'a>>
    ensures entry { MatchOption result (entry_at left.old ≡ None)
        (λ e. entry_at left.old ≡ Some (record { code = e.code; value = e.value.now }, left.new)) }
    ensures shorter { IfSome result (λ _. length left.new < length left.old) }
{
    let code = left.u8().ok()?;
    let size = left.u8().ok()?;
    let value = left.bytes(usize::from(size)).ok()?;
    Some(Entry { code, value })
}

// What was heard, with one more parameter.
#[tactic(auto, unfolding(crate::specs::Hearing::heard_with))]
fn hear_parameter(heard: Heard, parameter: Entry<'_>) -> Option<Heard>
    ensures { result ≡ heard_with heard (record { code = parameter.entry.code; value = parameter.entry.value.now } ∷ []) }
{
    if parameter.code != CAPABILITIES {
        return Some(Heard {
            foreign: true,
            offer: heard.offer,
        });
    }
    let offer = hear_capabilities(heard.offer, parameter.value)?;
    Some(Heard {
        foreign: heard.foreign,
        offer,
    })
}

// The offer, with the capabilities of one parameter.
fn hear_capabilities(before: Offer, field: &[u8]) -> Option<Offer>
    ensures { result ≡ offer_in before field.now }
{
    let mut offer = before;
    let mut left = Cursor::new(field);
    while !left.is_empty() {
        let capability = next_entry(&mut left)?;
        offer = hear_capability(offer, capability)?;
    }
    Some(offer)
}

// The offer, with one more capability.
#[tactic(auto, unfolding(crate::specs::Hearing::offer_with))]
fn hear_capability(offer: Offer, capability: Entry<'_>) -> Option<Offer>
    ensures { result ≡ offer_with offer (record { code = capability.entry.code; value = capability.entry.value.now } ∷ []) }
{
    let Entry { code, value } = capability;
    if code == MULTIPROTOCOL {
        return with_family(offer, value);
    }
    if code == ROUTE_REFRESH {
        return if value.is_empty() {
            Some(Offer {
                refresh: true,
                ..offer
            })
        } else {
            None
        };
    }
    if code == FOUR_OCTET_AS {
        return with_as(offer, value);
    }
    Some(offer)
}

// The offer, with a capability for a family.
#[tactic(auto, unfolding(crate::specs::Hearing::offer_with))]
fn with_family(offer: Offer, value: &[u8]) -> Option<Offer>
    ensures { result ≡ offer_with offer (record { code = 1; value = value.now } ∷ []) }
{
    if value.len() != 4 {
        return None;
    }
    let family = BigEndian::read_u16(value);
    let unicast = value[3] == 1;
    Some(Offer {
        families: true,
        v4: offer.v4 || (family == 1 && unicast),
        v6: offer.v6 || (family == 2 && unicast),
        ..offer
    })
}

// The offer, with a capability for four-octet AS numbers.
#[tactic(auto, unfolding(crate::specs::Hearing::offer_with))]
fn with_as(offer: Offer, value: &[u8]) -> Option<Offer>
    ensures { result ≡ offer_with offer (record { code = 65; value = value.now } ∷ []) }
{
    if value.len() != 4 {
        return None;
    }
    Some(Offer {
        asn: Some(BigEndian::read_u32(value)),
        ..offer
    })
}
