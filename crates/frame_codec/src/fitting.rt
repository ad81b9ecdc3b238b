//! Whether a payload can hold each part of a frame. Numbers are within their types, so that they need no test.

ghost use Rattle.std.specs.Prelude.{◌≡◌, ◌↔◌, IsTrue};
ghost use Rattle.std.specs.Str.{is_utf8};
ghost use Rattle.frame_codec.specs.Grammar.{ArePrefixes, AreWritable, AreWritableParts, IsWritableAnnounced, is_piece};

use crate::valid::is_valid;
use attr_codec::frame_attrs_size;
use attr_model::Attrs;
use core_msgs::Frame;
use net_base::{Family, Prefix, PrefixList};
use std::str;

/// How many bytes the longest part of a text has.
pub(crate) const LONGEST_PIECE: usize = 16000;
/// The most prefixes that a list in a frame has: their count is two bytes.
const MOST_PREFIXES: usize = 65535;
/// The most bytes that attributes have in a frame.
const LONGEST_ATTRS: usize = 65535;

/// Whether a payload can hold each part of a frame: all that `write` asks, but for the length of the whole.
pub(crate) fn are_parts(frame: &Frame) -> bool
    ensures { IsTrue result ↔ AreWritableParts frame.now }
{
    match frame {
        Frame::Piece(bytes) => is_part(bytes.as_slice()),
        Frame::Routes {
            family,
            withdrawn,
            announced,
            ..
        } => are_prefixes(*family, withdrawn.as_slice()) && is_announced(*family, announced),
        Frame::Credit { messages, .. } => *messages >= 1,
        Frame::CtlWords(text) => is_text(text.as_slice()),
        Frame::CtlText(text) => is_text(text.as_slice()),
        _ => true,
    }
}

/// Whether bytes are a part of a text.
pub(crate) fn is_part(bytes: &[u8]) -> bool
    ensures { result ≡ is_piece bytes.now }
{
    !bytes.is_empty() && bytes.len() <= LONGEST_PIECE
}

/// Whether bytes are UTF-8.
#[tactic(auto, using(crate::proofs::Texts::utf8_yes, crate::proofs::Texts::utf8_no))]
pub(crate) fn is_text(bytes: &[u8]) -> bool
    ensures { result ≡ is_utf8 bytes.now }
{
    match str::from_utf8(bytes) {
        Ok(_) => true,
        Err(_) => false,
    }
}

/// Whether there are at most 65535 prefixes, of this family.
fn are_prefixes(family: Family, prefixes: &[Prefix]) -> bool
    ensures { IsTrue result ↔ ArePrefixes family prefixes.now }
{
    prefixes.len() <= MOST_PREFIXES && prefixes.iter().all(|prefix| prefix.family == family)
}

/// Whether nothing is announced, or attributes and prefixes that a payload can hold.
fn is_announced(family: Family, announced: &Option<(Attrs, PrefixList)>) -> bool
    ensures { IsTrue result ↔ IsWritableAnnounced family announced.now }
{
    match announced {
        None => true,
        Some((attrs, prefixes)) => {
            are_attrs(family, attrs) && are_prefixes(family, prefixes.as_slice())
        }
    }
}

/// Whether attributes are valid, have at most 65535 bytes in a frame, and a hop of this family.
fn are_attrs(family: Family, attrs: &Attrs) -> bool
    ensures { IsTrue result ↔ (AreWritable attrs.now × (attrs.now.hop.family ≡ family)) }
{
    attrs.hop.family == family && is_valid(attrs) && frame_attrs_size(attrs) <= LONGEST_ATTRS
}
