//! Names, quoted texts and communities.

ghost use Rattle.std.specs.Prelude.{◌≡◌, ◌&&◌, nat_le, option_copied};
ghost use Rattle.std.specs.List.{list_all};
ghost use Rattle.conf_tree.specs.Kinds.{is_quoted};
ghost use Rattle.conf_tree.specs.Names.{is_name, is_name_byte};
ghost use Rattle.conf_tree.specs.Reading.{text_of, word_of};
ghost use Rattle.conf_tree.specs.Values.{community_at, group_name_at, if_passes, is_pair, is_part, is_quoted_group_name, is_triple, large_community_at, name_at, named_community, of_length, one_community, or_else, pair_of, part_in, quoted_at, triple_of, two_parts, well_known};
ghost use Rattle.conf_parser.specs.Reads.{Reads};

use crate::cursor::Cursor;
use crate::values::{before, is_number, past, within};
use conf_tree::{CommunityPattern, LargePattern, Text};
use net_base::{ConfError, ConfKind, Counted, Items};
use std::alloc::Global;

/// The most bytes of a name.
const MOST_NAME_BYTES: usize = 31;

/// The most bytes of a quoted text.
const MOST_QUOTED_BYTES: usize = 255;

impl<'a> Cursor<'a> {
    /// A name, as a word or quoted, of at most 31 bytes.
    ///
    /// The error is `UnexpectedWord` for what has not the form of a name, and `TooMany names` for a longer one.
    #[tactic(auto, unfolding(conf_tree::specs::Values::name_at))]
    pub(crate) fn name(&mut self, alloc: Global) -> Result<Text, ConfError>
        ensures { Reads name_at self.old self.new result }
    {
        match self.name_text() {
            Some(text) => self.of_length(alloc, MOST_NAME_BYTES, text),
            None => Err(self.unexpected()),
        }
    }

    /// The text of the next token, if it has the form of a name.
    fn name_text(&self) -> Option<&'a [u8]>
        ensures { option_copied result ≡ or_else (if_passes is_name (word_of self.now)) (if_passes is_name (text_of is_quoted self.now)) }
    {
        if let Some(text) = self.word()
            && is_name(text)
        {
            return Some(text);
        }
        match self.quoted() {
            Some(text) if is_name(text) => Some(text),
            _ => None,
        }
    }

    /// The name of a group, which may be any printable text between quotes. The errors are those of `name`.
    #[tactic(auto, unfolding(conf_tree::specs::Values::group_name_at))]
    pub(crate) fn group_name(&mut self, alloc: Global) -> Result<Text, ConfError>
        ensures { Reads group_name_at self.old self.new result }
    {
        match self.group_name_text() {
            Some(text) => self.of_length(alloc, MOST_NAME_BYTES, text),
            None => Err(self.unexpected()),
        }
    }

    /// The text of the next token, if it can name a group.
    fn group_name_text(&self) -> Option<&'a [u8]>
        ensures { option_copied result ≡ or_else (if_passes is_name (word_of self.now)) (if_passes is_quoted_group_name (text_of is_quoted self.now)) }
    {
        if let Some(text) = self.word()
            && is_name(text)
        {
            return Some(text);
        }
        match self.quoted() {
            Some(text) if is_quoted_group_name(text) => Some(text),
            _ => None,
        }
    }

    /// A quoted text of at most 255 bytes.
    #[tactic(auto, unfolding(conf_tree::specs::Values::quoted_at))]
    pub(crate) fn quoted_text(&mut self, alloc: Global) -> Result<Text, ConfError>
        ensures { Reads quoted_at self.old self.new result }
    {
        match self.quoted() {
            Some(text) => self.of_length(alloc, MOST_QUOTED_BYTES, text),
            None => Err(self.unexpected()),
        }
    }

    /// Takes the next token for this text, which may have so many bytes.
    fn of_length(&mut self, alloc: Global, most: usize, text: &[u8]) -> Result<Text, ConfError>
        ensures { Reads (λ tokens. of_length most tokens (Some text.now)) self.old self.new result }
    {
        if text.len() > most {
            return Err(self.fault(ConfKind::TooMany(Counted::Names)));
        }
        self.advance();
        Ok(Items::from_slice(alloc, text)?)
    }

    /// A community (RFC 1997); `*` may stand for a part where `star` says so.
    ///
    /// The error is `NotInProfile` for a name other than the three, `UnexpectedWord` for what is no community,
    /// and `NumberRange` where a part has more than 16 bits.
    #[tactic(auto, unfolding(conf_tree::specs::Values::community_at, conf_tree::specs::Values::unnamed_community_at, conf_tree::specs::Values::word_passes))]
    pub(crate) fn community(&mut self, star: bool) -> Result<CommunityPattern, ConfError>
        ensures { Reads (community_at star) self.old self.new result }
    {
        let Some(text) = self.word() else {
            return Err(self.unexpected());
        };
        if let Some(pattern) = named_community(text) {
            self.advance();
            return Ok(pattern);
        }
        if is_name(text) {
            return Err(self.fault(ConfKind::NotInProfile));
        }
        if !is_pair(text, star) {
            return Err(self.unexpected());
        }
        self.in_range(pair_of(text))
    }

    /// A large community (RFC 8092); `*` may stand for a part where `star` says so.
    ///
    /// The error is `UnexpectedWord` for what is no large community, and `NumberRange` where a part has more than
    /// 32 bits.
    #[tactic(auto, unfolding(conf_tree::specs::Values::large_community_at, conf_tree::specs::Values::word_passes))]
    pub(crate) fn large_community(&mut self, star: bool) -> Result<LargePattern, ConfError>
        ensures { Reads (large_community_at star) self.old self.new result }
    {
        let Some(text) = self.word() else {
            return Err(self.unexpected());
        };
        if !is_triple(text, star) {
            return Err(self.unexpected());
        }
        self.in_range(triple_of(text))
    }
}

/// Whether a text has the form of a name: a letter, then letters, digits, `_` or `-`.
#[tactic(auto, unfolding(conf_tree::specs::Names::is_name))]
fn is_name(text: &[u8]) -> bool
    ensures { result ≡ is_name text.now }
{
    match text {
        [] => false,
        [first, rest @ ..] => first.is_ascii_alphabetic() && are_name_bytes(rest),
    }
}

/// Whether all bytes may stand in a name behind its first letter.
fn are_name_bytes(text: &[u8]) -> bool
    ensures { result ≡ list_all is_name_byte text.now }
{
    text.iter().all(|b| is_name_byte(*b))
}

/// Whether a byte may stand in a name behind its first letter.
fn is_name_byte(b: u8) -> bool
    ensures { result ≡ is_name_byte b }
{
    b.is_ascii_alphanumeric() || b == b'_' || b == b'-'
}

/// Whether a quoted text can name a group: printable ASCII and blanks, at least one byte.
#[tactic(auto, unfolding(conf_tree::specs::Values::is_quoted_group_name))]
fn is_quoted_group_name(text: &[u8]) -> bool
    ensures { result ≡ is_quoted_group_name text.now }
{
    !text.is_empty() && are_printable(text)
}

/// Whether all bytes are printable ASCII or blanks.
fn are_printable(text: &[u8]) -> bool
    ensures { result ≡ list_all (λ b. nat_le 32 b && nat_le b 126) text.now }
{
    text.iter().all(|b| 32 <= *b && *b <= 126)
}

/// The community of one of the three names (RFC 1997).
#[tactic(auto, unfolding(conf_tree::specs::Values::named_community))]
fn named_community(text: &[u8]) -> Option<CommunityPattern>
    ensures { result ≡ named_community text.now }
{
    if b"NO_EXPORT".as_slice() == text {
        well_known(65281)
    } else if b"NO_ADVERTISE".as_slice() == text {
        well_known(65282)
    } else if b"NO_EXPORT_SUBCONFED".as_slice() == text {
        well_known(65283)
    } else {
        None
    }
}

/// The community 65535:low.
fn well_known(low: u16) -> Option<CommunityPattern>
    ensures { result ≡ well_known low }
{
    Some(CommunityPattern {
        high: Some(65535),
        low: Some(low),
    })
}

/// Whether a text is a part of a community.
fn is_part(text: &[u8], star: bool) -> bool
    ensures { result ≡ is_part star text.now }
{
    if star && b"*".as_slice() == text {
        return true;
    }
    is_number(text)
}

/// Whether a text is two parts joined by a colon.
#[tactic(auto, unfolding(conf_tree::specs::Values::is_pair))]
fn is_pair(text: &[u8], star: bool) -> bool
    ensures { result ≡ is_pair star text.now }
{
    is_part(before(text, b':'), star) && is_part(past(text, b':'), star)
}

/// Whether a text is three parts joined by colons.
#[tactic(auto, unfolding(conf_tree::specs::Values::is_triple))]
fn is_triple(text: &[u8], star: bool) -> bool
    ensures { result ≡ is_triple star text.now }
{
    is_part(before(text, b':'), star) && is_pair(past(text, b':'), star)
}

/// The value of two parts of 16 bits; None where a field can't hold its part.
#[tactic(auto, unfolding(conf_tree::specs::Values::pair_of))]
fn pair_of(text: &[u8]) -> Option<CommunityPattern>
    ensures { result ≡ pair_of text.now }
{
    let high = part16(before(text, b':'))?;
    let low = part16(past(text, b':'))?;
    Some(CommunityPattern { high, low })
}

/// The values of two parts of 32 bits.
#[tactic(auto, unfolding(conf_tree::specs::Values::two_parts))]
fn two_parts(text: &[u8]) -> Option<(Option<u32>, Option<u32>)>
    ensures { result ≡ two_parts text.now }
{
    let first = part32(before(text, b':'))?;
    let second = part32(past(text, b':'))?;
    Some((first, second))
}

/// The value of three parts of 32 bits.
#[tactic(auto, unfolding(conf_tree::specs::Values::triple_of))]
fn triple_of(text: &[u8]) -> Option<LargePattern>
    ensures { result ≡ triple_of text.now }
{
    let global = part32(before(text, b':'))?;
    let (first, second) = two_parts(past(text, b':'))?;
    Some(LargePattern {
        global,
        first,
        second,
    })
}

/// The number of a part of 16 bits, None for `*`; no value where the field can't hold it.
fn part16(text: &[u8]) -> Option<Option<u16>>
    ensures { result ≡ part_in 65535 text.now }
{
    if b"*".as_slice() == text {
        return Some(None);
    }
    match within(text, 0, 65535) {
        Some(number) => Some(Some(number as u16)),
        None => None,
    }
}

/// The number of a part of 32 bits, None for `*`; no value where the field can't hold it.
fn part32(text: &[u8]) -> Option<Option<u32>>
    ensures { result ≡ part_in 4294967295 text.now }
{
    if b"*".as_slice() == text {
        return Some(None);
    }
    match within(text, 0, 4_294_967_295) {
        Some(number) => Some(Some(number as u32)),
        None => None,
    }
}

/// The one community of a pattern without `*`, as a number.
pub(crate) fn one_community(pattern: CommunityPattern) -> u32
    ensures { result ≡ one_community pattern }
{
    u32::from(pattern.high.unwrap_or(0)) * 65536 + u32::from(pattern.low.unwrap_or(0))
}
