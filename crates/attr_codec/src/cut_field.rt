//! The attribute field of an UPDATE, cut once.

ghost use Rattle.std.specs.Prelude.{◌≡◌, ◌≤◌, ◌<◌, Some, None, length, MatchResult, IfOk};
ghost use Rattle.attr_codec.specs.Cut.{cut};
ghost use Rattle.attr_codec.specs.Field.{attribute_at, attributes_of};
ghost use Rattle.attr_codec.specs.Fault.{field_fault};
ghost use Rattle.attr_codec.specs.Noted.{is_noted, with_place};

use crate::fault::fault_of;
use crate::field::{Attribute, next_attribute};
use crate::kinds::Kinds;
use bgp_wire::Encoding;
use std::marker::Model;
use wire_buf::Cursor;

/// An attribute field, which contracts see as the attributes that stand whole in it.
#[derive(Drop)]
pub(crate) struct CutField<'a> {
    bytes: &'a [u8],
    /// By type, how many bytes the field has from the first attribute on, or 0 where none is there.
    places: [usize; 256],
    /// Among these are the types of all attributes of unknown types that are to be sent on.
    kept: Kinds,
}

impl<'a> Model for CutField<'a> {
    ghost use Rattle.attr_codec.specs.Field.{Attributes, attributes_of};
    ghost use Rattle.attr_codec.specs.Noted.{AreNoted};

    ghost Value = { Attributes };

    ghost view = { λ f. attributes_of f.bytes.now };

    ghost invariant = { λ f. AreNoted f.bytes.now f.places f.kept };
}

/// Cuts a field into its attributes. The sub code of the first NOTIFICATION in the order of the bytes comes where there is one.
pub(crate) fn cut_field<'a>(enc: Encoding, bytes: &'a [u8]) -> Result<CutField<'a>, u8>
    ensures fault { MatchResult result
        (λ _. field_fault enc (cut attribute_at bytes.now) ≡ None)
        (λ sub. field_fault enc (cut attribute_at bytes.now) ≡ Some sub) }
    ensures field { IfOk result (λ field. field ≡ attributes_of bytes.now) }
{
    let mut places = [0; 256];
    let mut kept = Kinds::new();
    let mut left = Cursor::new(bytes);
    while !left.is_empty() {
        let place = left.len();
        let Ok(attribute) = next_attribute(&mut left) else {
            return Err(1);
        };
        if let Some(sub) = fault_of(enc, has_place(&places, attribute.kind), attribute) {
            return Err(sub);
        }
        kept = kept.with(attribute);
        note(&mut places, attribute.kind, place);
    }
    Ok(CutField {
        bytes,
        places,
        kept,
    })
}

/// Whether an attribute of this type came.
fn has_place(places: &[usize; 256], kind: u8) -> bool
    ensures { result ≡ is_noted places.now kind }
{
    places[usize::from(kind)] != 0
}

/// Notes the place of an attribute, where it is the first of its type.
fn note(places: &mut [usize; 256], kind: u8, place: usize)
    ensures { places.new ≡ with_place places.old kind place }
{
    let kind = usize::from(kind);
    if places[kind] == 0 {
        places[kind] = place;
    }
}

impl<'a> CutField<'a> {
    ghost use Rattle.std.specs.Prelude.{ℕ, ◌<◌, ◌≤◌, false, option_map};
    ghost use Rattle.std.specs.List.{list_any};
    ghost use Rattle.attr_codec.specs.Field.{first_of};
    ghost use Rattle.attr_codec.specs.Noted.{is_kept_of};

    /// The first attribute of a type.
    pub fn first(&self, kind: u8) -> Option<Attribute<'a>>
        ensures { option_map (λ a. record { flags = a.flags; kind = a.kind; value = a.value.now }) result ≡ first_of kind self.now }
    {
        let place = self.places[usize::from(kind)];
        let mut left = Cursor::new(&self.bytes[self.bytes.len() - place..]);
        next_attribute(&mut left).ok()
    }

    /// Types among which is each unknown one of which an attribute is to be sent on.
    pub fn kept(&self) -> Kinds
        ensures below { (kind : ℕ) → kind < result.from → list_any (is_kept_of kind) self.now ≡ false }
        ensures above { (kind : ℕ) → result.to ≤ kind → list_any (is_kept_of kind) self.now ≡ false }
        ensures low { result.from ≤ 256 }
        ensures high { result.to ≤ 256 }
    {
        self.kept
    }
}
