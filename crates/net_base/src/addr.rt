ghost use Rattle.std.specs.Prelude.{ℕ, ◌^◌, ◌<◌, ◌≡◌};
ghost use Rattle.net_base.specs.Width.{width_of};

use std::alloc::{AllocError, Global};
use std::fmt;
use std::fmt::Display;
use std::net::{IpAddr, Ipv4Addr, Ipv6Addr};
use thiserror::Error;

/// The family of an address, IPv4 before IPv6.
#[derive(Clone, Copy, Debug, PartialEq, Eq, PartialOrd, Ord, Hash)]
pub enum Family {
    V4,
    V6,
}

/// An address as one number in network order; an IPv4 address stands in the low 32 bits.
///
/// Addresses go by family, then bits. They are printed by RFC 5952, without a dotted part.
#[derive(Clone, Copy, Debug, PartialEq, Eq, PartialOrd, Ord, Hash)]
pub struct Addr {
    pub family: Family,
    pub bits: u128,
    ghost in_family: { bits < 2 ^ width_of family },
}

/// The text spells no address.
#[derive(Clone, Copy, Debug, Drop, PartialEq, Eq, Error)]
#[error("not an IPv4 or IPv6 address")]
pub struct BadAddr;

impl Family {
    /// How many bits an address has.
    pub fn width(self) -> u8
        ensures { result ≡ width_of self }
    {
        match self {
            Family::V4 => 32,
            Family::V6 => 128,
        }
    }
}

impl Addr {
    ghost use Rattle.net_base.specs.declared.addr.Family.TheVariants.{V4};
    ghost use Rattle.std.specs.Prelude.{◌≡◌, IfOk, string_bytes, IsTrue, ◌↔◌};
    ghost use Rattle.std.specs.Result.{result_ok};
    ghost use Rattle.std.specs.Net.Grammar.{Parses};
    ghost use Rattle.net_base.specs.Bits.{addr_of};
    ghost use Rattle.net_base.specs.Addr.{IsAddrText, IsSameV4, IsSameV6, SpellsOnly, addr_text, read_addr};
    ghost use Rattle.std.specs.Net.Addr.{MatchIp};

    /// The address of zeros, `0.0.0.0` or `::`.
    pub fn unspecified(family: Family) -> Self
        ensures { result ≡ addr_of family 0 }
    {
        Addr { family, bits: 0 }
    }

    /// The IPv4 address with these bits.
    pub fn of_v4(bits: u32) -> Self
        ensures { result ≡ addr_of V4 bits }
    {
        Addr {
            family: Family::V4,
            bits: u128::from(bits),
        }
    }

    /// Whether this is the address of zeros.
    pub fn is_unspecified(self) -> bool
        ensures { IsTrue result ↔ (self ≡ addr_of self.family 0) }
    {
        self.bits == 0
    }

    /// Reads the text of an address: four decimal octets without leading zeros, or eight groups of one to
    /// four hexadecimal digits, of which one run of zero groups may be written `::` (RFC 4291, section 2.2,
    /// forms 1 and 2). There is no dotted part and no zone. `BadAddr` comes for every other text.
    pub fn read(text: &str) -> Result<Addr, BadAddr>
        ensures grammar { Parses IsAddrText text.now result }
        ensures value { result_ok result ≡ read_addr text.now }
    {
        Addr::read_bytes(text.as_bytes())
    }

    /// Reads an address as `read` does, from bytes that need not be UTF-8.
    pub fn read_bytes(text: &[u8]) -> Result<Addr, BadAddr>
        ensures grammar { Parses IsAddrText text.now result }
        ensures value { result_ok result ≡ read_addr text.now }
    {
        if let Ok(ip) = Ipv4Addr::parse_ascii(text) {
            return Ok(Addr::from(ip));
        }
        if text.contains(&b'.') {
            return Err(BadAddr);
        }
        match Ipv6Addr::parse_ascii(text) {
            Ok(ip) => Ok(Addr::from(ip)),
            Err(_) => Err(BadAddr),
        }
    }

    /// The text of this address: IPv4 as four decimal octets, IPv6 by RFC 5952 in hexadecimal alone.
    pub fn print(self, alloc: Global) -> Result<String, AllocError>
        ensures text { IfOk result (λ text. string_bytes text ≡ addr_text self) }
        ensures round_trip { SpellsOnly IsAddrText (addr_text self) self }
    {
        format!(in alloc; "{self}")
    }

    /// The same address as a type of std.
    pub fn ip(self) -> IpAddr
        ensures { MatchIp result (IsSameV4 self) (IsSameV6 self) }
    {
        match self.family {
            Family::V4 => IpAddr::V4(Ipv4Addr::from_bits(self.bits as u32)),
            Family::V6 => IpAddr::V6(Ipv6Addr::from_bits(self.bits)),
        }
    }
}

impl Display for Addr {
    ghost use Rattle.std.specs.Prelude.{Some};
    ghost use Rattle.net_base.specs.Addr.{addr_text};

    ghost output = { λ a. Some (addr_text a) };

    fn fmt<W: fmt::Write>(&self, f: &mut fmt::Formatter<W>) -> fmt::Result {
        match self.family {
            Family::V4 => Display::fmt(&Ipv4Addr::from_bits(self.bits as u32), f),
            Family::V6 => Display::fmt(&Ipv6Addr::from_bits(self.bits).hex_groups(), f),
        }
    }
}

impl From<Ipv4Addr> for Addr {
    ghost use Rattle.net_base.specs.Addr.{IsSameV4};

    ghost from_gives = { λ ip a. IsSameV4 a ip };

    fn from(ip: Ipv4Addr) -> Addr {
        Addr {
            family: Family::V4,
            bits: u128::from(u32::from_be_bytes(ip.octets())),
        }
    }
}

impl From<Ipv6Addr> for Addr {
    ghost use Rattle.net_base.specs.Addr.{IsSameV6};

    ghost from_gives = { λ ip a. IsSameV6 a ip };

    fn from(ip: Ipv6Addr) -> Addr {
        Addr {
            family: Family::V6,
            bits: u128::from_be_bytes(ip.octets()),
        }
    }
}

impl From<IpAddr> for Addr {
    ghost use Rattle.std.specs.Net.Addr.{MatchIp};
    ghost use Rattle.net_base.specs.Addr.{IsSameV4, IsSameV6};

    ghost from_gives = { λ ip a. MatchIp ip (IsSameV4 a) (IsSameV6 a) };

    fn from(ip: IpAddr) -> Addr {
        match ip {
            IpAddr::V4(ip) => Addr::from(ip),
            IpAddr::V6(ip) => Addr::from(ip),
        }
    }
}
