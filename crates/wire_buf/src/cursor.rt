ghost use Rattle.std.specs.Prelude.{◌≡◌, ◌↔◌, ◌==◌, [], length, IsTrue, MatchResult};
ghost use Rattle.wire_buf.specs.Field.{Reads, number_at, bytes_at};

use byteorder::{BigEndian, ByteOrder};
use std::marker::Model;
use thiserror::Error;

/// Fewer bytes are left than were asked for.
#[derive(Clone, Copy, Debug, PartialEq, Eq, Error)]
#[error("fewer bytes are left than were asked for")]
pub struct Short;

/// Reads fields from the front of some bytes. Contracts see the bytes that are left.
///
/// Each read answers `Short` exactly where fewer bytes are left than it wants, and then takes nothing.
/// A read costs no more than the bytes that it takes, and copies none.
#[derive(Drop)]
pub struct Cursor<'a> {
    left: &'a [u8],
}

impl<'a> Model for Cursor<'a> {
    ghost use Rattle.std.specs.Prelude.{ℕ, List};

    ghost Value = { List ℕ };

    ghost view = { λ c. c.left.now };
}

impl<'a> Cursor<'a> {
    /// A cursor before the first of the bytes.
    pub fn new(bytes: &'a [u8]) -> Cursor<'a>
        ensures { result ≡ bytes.now }
    {
        Cursor { left: bytes }
    }

    /// The bytes that are left.
    pub fn rest(&self) -> &'a [u8]
        ensures { result.now ≡ self.now }
    {
        self.left
    }

    /// How many bytes are left.
    pub fn len(&self) -> usize
        ensures { result ≡ length self.now }
    {
        self.left.len()
    }

    /// Whether no byte is left.
    pub fn is_empty(&self) -> bool
        ensures { IsTrue result ↔ (self.now ≡ []) }
    {
        self.left.is_empty()
    }

    /// The next byte.
    pub fn u8(&mut self) -> Result<u8, Short>
        ensures { Reads (number_at 1) self.old self.new result }
    {
        match self.left {
            [] => Err(Short),
            [byte, rest @ ..] => {
                self.left = rest;
                Ok(*byte)
            }
        }
    }

    /// The next two bytes as a number in network order.
    pub fn u16(&mut self) -> Result<u16, Short>
        ensures { Reads (number_at 2) self.old self.new result }
    {
        Ok(BigEndian::read_u16(self.bytes(2)?))
    }

    /// The next four bytes as a number in network order.
    pub fn u32(&mut self) -> Result<u32, Short>
        ensures { Reads (number_at 4) self.old self.new result }
    {
        Ok(BigEndian::read_u32(self.bytes(4)?))
    }

    /// The next `n` bytes.
    pub fn bytes(&mut self, n: usize) -> Result<&'a [u8], Short>
        ensures { MatchResult result (λ x. Reads (bytes_at n) self.old self.new (Ok x.now)) (λ short. Reads (bytes_at n) self.old self.new (Err short)) }
    {
        if self.left.len() < n {
            return Err(Short);
        }
        let (front, rest) = self.left.split_at(n);
        self.left = rest;
        Ok(front)
    }
}
