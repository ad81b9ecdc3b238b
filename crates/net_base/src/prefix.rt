ghost use Rattle.std.specs.Prelude.{◌≡◌, ℕ, ◌-◌, ◌%◌, ◌^◌, ◌<◌, ◌≤◌, ◌==◌, length, position, IfSome};
ghost use Rattle.net_base.specs.Width.{width_of};

use crate::{Addr, Family, number};
use std::alloc::{AllocError, Global};
use std::fmt;
use std::fmt::Display;
use thiserror::Error;

/// The addresses of one family that agree in the first `len` bits. The bits behind those are zero.
///
/// Prefixes go by family, then bits, then length. They are printed as their address, `/` and the length.
#[derive(Clone, Copy, Debug, PartialEq, Eq, PartialOrd, Ord, Hash)]
pub struct Prefix {
    pub family: Family,
    pub bits: u128,
    pub len: u8,
    ghost in_family: { bits < 2 ^ width_of family },
    ghost within: { len ≤ width_of family },
    ghost host_bits_zero: { bits % 2 ^ (width_of family - len) ≡ 0 },
}

/// The text spells no prefix.
#[derive(Clone, Copy, Debug, Drop, PartialEq, Eq, Error)]
#[error("not an IPv4 or IPv6 prefix")]
pub struct BadPrefix;

impl Prefix {
    ghost use Rattle.std.specs.Prelude.{◌≡◌, ◌≤◌, IfOk, string_bytes, IsTrue, ◌↔◌, length};
    ghost use Rattle.std.specs.Result.{result_ok};
    ghost use Rattle.std.specs.Net.Grammar.{Parses};
    ghost use Rattle.net_base.specs.Bits.{prefix_of, prefix_addr};
    ghost use Rattle.net_base.specs.Addr.{SpellsOnly};
    ghost use Rattle.net_base.specs.Prefix.{Covers, IsPrefixText, covers, prefix_text, prefix_from, read_prefix};

    /// The prefix of an address with a length up to the width of its family.
    pub fn new(addr: Addr, len: u8) -> Self
        requires { len ≤ width_of addr.family }
        ensures { result ≡ prefix_of addr len }
    {
        let host = addr.family.width() - len;
        Prefix {
            family: addr.family,
            bits: without_low(addr.bits, host),
            len,
        }
    }

    /// The prefix of this address alone, of full length.
    pub fn host(addr: Addr) -> Self
        ensures { result ≡ prefix_of addr (width_of addr.family) }
    {
        Prefix::new(addr, addr.family.width())
    }

    /// The first address of the prefix.
    pub fn addr(self) -> Addr
        ensures { result ≡ prefix_addr self }
    {
        Addr {
            family: self.family,
            bits: self.bits,
        }
    }

    /// Reads the text of a prefix: the text of an address, `/`, and a decimal length without leading zeros, up
    /// to 32 or 128. The bits behind the length are cleared. `BadPrefix` comes for every other text.
    pub fn read(text: &str) -> Result<Prefix, BadPrefix>
        ensures grammar { Parses IsPrefixText text.now result }
        ensures value { result_ok result ≡ read_prefix text.now }
    {
        Prefix::read_bytes(text.as_bytes())
    }

    /// Reads a prefix as `read` does, from bytes that need not be UTF-8.
    pub fn read_bytes(text: &[u8]) -> Result<Prefix, BadPrefix>
        ensures grammar { Parses IsPrefixText text.now result }
        ensures value { result_ok result ≡ read_prefix text.now }
    {
        Prefix::read_parts(text).ok_or(BadPrefix)
    }

    /// The prefix that a text spells, read on both sides of its first slash.
    fn read_parts(text: &[u8]) -> Option<Prefix>
        ensures { result ≡ read_prefix text.now }
    {
        let Some(slash) = first_slash(text) else {
            return None;
        };
        Prefix::from_parts(&text[..slash], &text[slash + 1..])
    }

    /// The prefix of the texts of its address and of its length.
    fn from_parts(front: &[u8], rest: &[u8]) -> Option<Prefix>
        ensures { result ≡ prefix_from front.now rest.now }
    {
        let Ok(addr) = Addr::read_bytes(front) else {
            return None;
        };
        let Ok(len) = number::read_u32(rest) else {
            return None;
        };
        if len > u32::from(addr.family.width()) {
            return None;
        }
        Some(Prefix::new(addr, len as u8))
    }

    /// Whether the other prefix is of the same family, not shorter, and has the same first bits.
    pub fn covers(self, other: Prefix) -> bool
        ensures covering { IsTrue result ↔ Covers self other }
        ensures value { result ≡ covers self other }
    {
        if self.family != other.family || self.len > other.len {
            return false;
        }
        let host = self.family.width() - self.len;
        self.bits == without_low(other.bits, host)
    }

    /// The text of this prefix: its first address as `Addr::print` writes it, `/`, and the length.
    pub fn print(self, alloc: Global) -> Result<String, AllocError>
        ensures text { IfOk result (λ text. string_bytes text ≡ prefix_text self) }
        ensures round_trip { SpellsOnly IsPrefixText (prefix_text self) self }
    {
        format!(in alloc; "{self}")
    }
}

impl Display for Prefix {
    ghost use Rattle.std.specs.Prelude.{Some};
    ghost use Rattle.net_base.specs.Prefix.{prefix_text};

    ghost output = { λ p. Some (prefix_text p) };

    fn fmt<W: fmt::Write>(&self, f: &mut fmt::Formatter<W>) -> fmt::Result {
        write!(f, "{}/{}", self.addr(), self.len)
    }
}

/// The place of the first slash.
fn first_slash(text: &[u8]) -> Option<usize>
    ensures place { result ≡ position (λ c. c == 47) text.now }
    ensures within { IfSome result (λ slash. slash < length text.now) }
{
    text.iter().position(|byte| *byte == b'/')
}

/// The number with its low bits cleared, at most 128 of them.
fn without_low(bits: u128, count: u8) -> u128
    requires { count ≤ 128 }
    ensures { result ≡ bits - bits % 2 ^ count }
{
    if count == 128 {
        0
    } else {
        bits >> count << count
    }
}
