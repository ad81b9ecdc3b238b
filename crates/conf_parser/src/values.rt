//! Numbers, addresses and prefixes.

ghost use Rattle.std.specs.Prelude.{◌≡◌, ◌≤◌, ◌==◌, IfOk, IfSome, length};
ghost use Rattle.std.specs.List.{position_or_len};
ghost use Rattle.net_base.specs.Number.{is_number};
ghost use Rattle.conf_tree.specs.Values.{address_at, address_of, are_joined, as_number_at, before, both_bounds, bound_at, bounds_at, glued_bounds_at, hold_at, lengths_at, number_at, past, prefix_at, prefix_of_word, prefixlen_at, v4_at, width, within, yes_no_at};
ghost use Rattle.conf_parser.specs.Reads.{Reads};

use crate::cursor::Cursor;
use conf_tree::PrefixRange;
use net_base::number::BadNumber;
use net_base::{Addr, ConfError, ConfKind, Family, Prefix, number};

/// The least hold time in seconds, where it isn't 0 (RFC 4271 section 4.2).
const LEAST_HOLD: u16 = 3;

impl<'a> Cursor<'a> {
    /// A number from low to high.
    ///
    /// The error is `UnexpectedWord` for what is no number, and `NumberRange` for any other number.
    #[tactic(auto, unfolding(conf_tree::specs::Values::number_at, conf_tree::specs::Values::word_passes))]
    pub(crate) fn number(&mut self, low: u64, high: u64) -> Result<u64, ConfError>
        ensures value { Reads (number_at low high) self.old self.new result }
        ensures bounds { IfOk result (λ n. (low ≤ n) × (n ≤ high)) }
    {
        let Some(text) = self.word() else {
            return Err(self.unexpected());
        };
        if !is_number(text) {
            return Err(self.unexpected());
        }
        let Some(number) = within(text, low, high) else {
            return Err(self.fault(ConfKind::NumberRange));
        };
        self.advance();
        Ok(number)
    }

    /// A number that fits 32 bits.
    pub(crate) fn number32(&mut self, low: u32, high: u32) -> Result<u32, ConfError>
        ensures { Reads (number_at low high) self.old self.new result }
    {
        Ok(self.number(u64::from(low), u64::from(high))? as u32)
    }

    /// A number that fits 16 bits.
    pub(crate) fn number16(&mut self, low: u16, high: u16) -> Result<u16, ConfError>
        ensures { Reads (number_at low high) self.old self.new result }
    {
        Ok(self.number(u64::from(low), u64::from(high))? as u16)
    }

    /// A number that fits 8 bits.
    pub(crate) fn number8(&mut self, low: u8, high: u8) -> Result<u8, ConfError>
        ensures { Reads (number_at low high) self.old self.new result }
    {
        Ok(self.number(u64::from(low), u64::from(high))? as u8)
    }

    /// An AS number from low on. Two numbers joined by a dot are left out of the language.
    #[tactic(auto, unfolding(conf_tree::specs::Values::as_number_at, conf_tree::specs::Values::word_passes))]
    pub(crate) fn as_number(&mut self, low: u32) -> Result<u32, ConfError>
        ensures { Reads (as_number_at low) self.old self.new result }
    {
        if let Some(text) = self.word()
            && are_joined(text, b'.')
        {
            return Err(self.fault(ConfKind::NotInProfile));
        }
        self.number32(low, 4_294_967_295)
    }

    /// A hold time in seconds: 0, or from 3 on.
    #[tactic(auto, unfolding(conf_tree::specs::Values::hold_at))]
    pub(crate) fn hold(&mut self) -> Result<u16, ConfError>
        ensures { Reads hold_at self.old self.new result }
    {
        if self.takes(b"0") {
            return Ok(0);
        }
        self.hold_min()
    }

    /// A least hold time in seconds, from 3 on.
    pub(crate) fn hold_min(&mut self) -> Result<u16, ConfError>
        ensures { Reads (number_at 3 65535) self.old self.new result }
    {
        self.number16(LEAST_HOLD, 65535)
    }

    /// `yes` or `no`.
    #[tactic(auto, unfolding(conf_tree::specs::Values::yes_no_at))]
    pub(crate) fn yes_no(&mut self) -> Result<bool, ConfError>
        ensures { Reads yes_no_at self.old self.new result }
    {
        if self.takes(b"yes") {
            Ok(true)
        } else if self.takes(b"no") {
            Ok(false)
        } else {
            Err(self.unexpected())
        }
    }

    /// The address that the next token spells.
    #[tactic(auto, unfolding(conf_tree::specs::Values::address_of))]
    pub(crate) fn address_of(&self) -> Option<Addr>
        ensures { result ≡ address_of self.now }
    {
        Addr::read_bytes(self.word()?).ok()
    }

    /// An address.
    #[tactic(auto, unfolding(conf_tree::specs::Values::address_at))]
    pub(crate) fn address(&mut self) -> Result<Addr, ConfError>
        ensures { Reads address_at self.old self.new result }
    {
        self.spelled(self.address_of())
    }

    /// An IPv4 address, as a number.
    #[tactic(auto, unfolding(conf_tree::specs::Values::v4_at))]
    pub(crate) fn v4(&mut self) -> Result<u32, ConfError>
        ensures { Reads v4_at self.old self.new result }
    {
        match self.address_of() {
            Some(
                Addr {
                    family: Family::V4,
                    bits,
                },
            ) => {
                self.advance();
                Ok(bits as u32)
            }
            _ => Err(self.unexpected()),
        }
    }

    /// The prefix that the next token spells.
    #[tactic(auto, unfolding(conf_tree::specs::Values::prefix_of_word))]
    pub(crate) fn prefix_of(&self) -> Option<Prefix>
        ensures { result ≡ prefix_of_word self.now }
    {
        Prefix::read_bytes(self.word()?).ok()
    }

    /// A prefix.
    #[tactic(auto, unfolding(conf_tree::specs::Values::prefix_at))]
    pub(crate) fn prefix(&mut self) -> Result<Prefix, ConfError>
        ensures { Reads prefix_at self.old self.new result }
    {
        self.spelled(self.prefix_of())
    }

    /// What stands behind a prefix: the lengths that are meant.
    #[tactic(auto, unfolding(conf_tree::specs::Values::lengths_at, conf_tree::specs::Values::at_most_at))]
    pub(crate) fn lengths(&mut self, prefix: Prefix) -> Result<PrefixRange, ConfError>
        ensures { Reads (lengths_at prefix) self.old self.new result }
    {
        let low = prefix.len;
        if self.takes(b"or-longer") {
            let high = prefix.family.width();
            Ok(PrefixRange { prefix, low, high })
        } else if self.takes(b"maxlen") {
            let high = self.bound(prefix)?;
            Ok(PrefixRange { prefix, low, high })
        } else if self.takes(b"prefixlen") {
            self.prefixlen(prefix)
        } else {
            let high = low;
            Ok(PrefixRange { prefix, low, high })
        }
    }

    /// What stands behind `prefixlen`.
    #[tactic(auto, unfolding(conf_tree::specs::Values::prefixlen_at, conf_tree::specs::Values::at_least_at, conf_tree::specs::Values::at_most_at, conf_tree::specs::Values::word_passes))]
    fn prefixlen(&mut self, prefix: Prefix) -> Result<PrefixRange, ConfError>
        ensures { Reads (prefixlen_at prefix) self.old self.new result }
    {
        if self.takes_mark(b">=") {
            let low = self.bound(prefix)?;
            let high = prefix.family.width();
            return Ok(PrefixRange { prefix, low, high });
        }
        if self.takes_mark(b"<=") {
            let low = prefix.len;
            let high = self.bound(prefix)?;
            return Ok(PrefixRange { prefix, low, high });
        }
        if let Some(text) = self.word()
            && are_joined(text, b'-')
        {
            return self.glued_bounds(prefix);
        }
        self.bounds(prefix)
    }

    /// `N - M` in three words, or `N`.
    #[tactic(auto, unfolding(conf_tree::specs::Values::bounds_at))]
    fn bounds(&mut self, prefix: Prefix) -> Result<PrefixRange, ConfError>
        ensures { Reads (bounds_at prefix) self.old self.new result }
    {
        let low = self.bound(prefix)?;
        if !self.takes(b"-") {
            let high = low;
            return Ok(PrefixRange { prefix, low, high });
        }
        let high = self.bound(prefix)?;
        Ok(PrefixRange { prefix, low, high })
    }

    /// `N-M` in one word.
    #[tactic(auto, unfolding(conf_tree::specs::Values::glued_bounds_at))]
    fn glued_bounds(&mut self, prefix: Prefix) -> Result<PrefixRange, ConfError>
        ensures { Reads (glued_bounds_at prefix) self.old self.new result }
    {
        let text = self.word().unwrap_or(b"");
        self.in_range(joined_bounds(prefix, text))
    }

    /// A bound of lengths: at least the prefix's length, at most its width.
    #[tactic(auto, unfolding(conf_tree::specs::Values::bound_at))]
    pub(crate) fn bound(&mut self, prefix: Prefix) -> Result<u8, ConfError>
        ensures { Reads (bound_at prefix) self.old self.new result }
    {
        self.number8(prefix.len, prefix.family.width())
    }
}

/// The range of two bounds that are joined by a dash.
fn joined_bounds(prefix: Prefix, text: &[u8]) -> Option<PrefixRange>
    ensures { result ≡ both_bounds prefix (within prefix.len (width prefix) (before 45 text.now)) (within prefix.len (width prefix) (past 45 text.now)) }
{
    let low = bound_of(prefix, before(text, b'-'))?;
    let high = bound_of(prefix, past(text, b'-'))?;
    Some(PrefixRange { prefix, low, high })
}

/// A bound of lengths in a text.
fn bound_of(prefix: Prefix, text: &[u8]) -> Option<u8>
    ensures { result ≡ within prefix.len (width prefix) text.now }
{
    match within(
        text,
        u64::from(prefix.len),
        u64::from(prefix.family.width()),
    ) {
        Some(bound) => Some(bound as u8),
        None => None,
    }
}

/// Whether a text is a decimal number, however large.
#[tactic(auto, unfolding(net_base::specs::Number::read_number, net_base::specs::Number::number_of))]
pub(crate) fn is_number(text: &[u8]) -> bool
    ensures { result ≡ is_number text.now }
{
    match number::read_u64(text) {
        Ok(_) | Err(BadNumber::TooLarge) => true,
        Err(BadNumber::NotNumber) => false,
    }
}

/// The number that a text is, from low to high.
#[tactic(auto, unfolding(net_base::specs::Number::read_number, net_base::specs::Number::number_of, conf_tree::specs::Values::within))]
pub(crate) fn within(text: &[u8], low: u64, high: u64) -> Option<u64>
    ensures value { result ≡ within low high text.now }
    ensures bounds { IfSome result (λ n. (low ≤ n) × (n ≤ high)) }
{
    match number::read_u64(text) {
        Ok(number) if low <= number && number <= high => Some(number),
        _ => None,
    }
}

/// A number of 32 bits.
pub(crate) fn number_of(text: &[u8]) -> Option<u32>
    ensures { result ≡ within 0 4294967295 text.now }
{
    match within(text, 0, 4_294_967_295) {
        Some(number) => Some(number as u32),
        None => None,
    }
}

/// Whether a text is two numbers joined by a byte.
#[tactic(auto, unfolding(conf_tree::specs::Values::are_joined))]
fn are_joined(text: &[u8], byte: u8) -> bool
    ensures { result ≡ are_joined byte text.now }
{
    is_number(before(text, byte)) && is_number(past(text, byte))
}

/// What stands before the first of these bytes.
pub(crate) fn before(text: &[u8], byte: u8) -> &[u8]
    ensures { result.now ≡ before byte text.now }
{
    text.split_at(place_of(text, byte)).0
}

/// What stands behind the first of these bytes.
pub(crate) fn past(text: &[u8], byte: u8) -> &[u8]
    ensures { result.now ≡ past byte text.now }
{
    let place = text.len().min(place_of(text, byte) + 1);
    text.split_at(place).1
}

/// Where a byte stands first, or the length.
fn place_of(text: &[u8], byte: u8) -> usize
    ensures value { result ≡ position_or_len (λ b. b == byte) text.now }
    ensures within { result ≤ length text.now }
{
    text.iter().take_while(|b| **b != byte).count()
}
