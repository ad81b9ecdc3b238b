ghost use Rattle.std.specs.Prelude.{◌≡◌, ◌≤◌, ◌<◌, ◌↔◌, [], ◌∷◌, ◌++◌, take, drop, length, IsTrue, OnOk, OnErr, vec_len};
ghost use Rattle.byteorder.specs.Endian.{big_bytes};

use byteorder::{BigEndian, ByteOrder};
use std::alloc::{AllocError, Global};
use std::marker::Model;

/// A pipe keeps a block of this many bytes, however few it holds.
const KEPT: usize = 4096;

/// A FIFO of bytes: they are pushed at the end and taken from the front. Contracts see its bytes.
///
/// The bytes stand in one block behind those that were taken. `take` moves the front forward, and
/// only once as many bytes were taken as are left are those that are left moved down. So each move
/// is paid by as many bytes taken, and `push` and `take` cost amortized O(1) a byte, whatever the pipe holds.
/// Behind each `take` and `truncate` a block of more than four times what it holds is given back for one of twice that. So
/// the block is at most eight times what the pipe holds, or `KEPT`, unless the
/// allocator has no smaller block.
#[derive(Drop)]
pub struct Pipe {
    bytes: Vec<u8>,
    taken: usize,
}

impl Model for Pipe {
    ghost use Rattle.std.specs.Prelude.{ℕ, List, drop, vec_len, ◌≤◌};

    ghost Value = { List ℕ };

    ghost view = { λ p. drop p.taken p.bytes.items };

    ghost invariant = { λ p. p.taken ≤ vec_len p.bytes };
}

impl Pipe {
    /// A pipe without bytes, which takes no memory.
    pub fn new(alloc: Global) -> Pipe
        ensures { result ≡ [] }
    {
        Pipe {
            bytes: Vec::new(alloc),
            taken: 0,
        }
    }

    /// How many bytes it holds.
    pub fn len(&self) -> usize
        ensures { result ≡ length self.now }
    {
        self.bytes.len() - self.taken
    }

    /// Whether it holds no byte.
    pub fn is_empty(&self) -> bool
        ensures { IsTrue result ↔ (self.now ≡ []) }
    {
        self.len() == 0
    }

    /// All bytes that it holds, the first to be taken in front.
    pub fn peek(&self) -> &[u8]
        ensures { result.now ≡ self.now }
    {
        &self.bytes[self.taken..]
    }

    /// Puts bytes behind those that it holds. Where memory is refused, it holds what it held.
    pub fn push(&mut self, bytes: &[u8]) -> Result<(), AllocError>
        ensures ok { OnOk result (self.new ≡ self.old ++ bytes.now) }
        ensures err { OnErr result (self.new ≡ self.old) }
    {
        self.bytes.extend_from_slice(bytes)?;
        Ok(())
    }

    /// Drops the first `n` bytes. It takes no memory.
    pub fn take(&mut self, n: usize)
        requires { n ≤ length self.old }
        ensures { self.new ≡ drop n self.old }
    {
        self.taken += n;
        self.settle();
    }

    /// Keeps the first `n` bytes, and drops those behind them. It takes no memory.
    pub fn truncate(&mut self, n: usize)
        requires { n ≤ length self.old }
        ensures { self.new ≡ take n self.old }
    {
        self.bytes.truncate(self.taken + n);
        self.settle();
    }

    /// Hands on how a write behind the first `n` bytes ended. Where it failed, only these are kept.
    pub fn keep_on_err(
        &mut self,
        n: usize,
        written: Result<(), AllocError>,
    ) -> Result<(), AllocError>
        requires { n ≤ length self.old }
        ensures result { result ≡ written }
        ensures ok { OnOk result (self.new ≡ self.old) }
        ensures err { OnErr result (self.new ≡ take n self.old) }
    {
        if written.is_err() {
            self.truncate(n);
        }
        written
    }

    /// How many bytes its block has room for.
    pub fn room(&self) -> usize
        ensures { length self.now ≤ result }
    {
        self.bytes.capacity()
    }

    /// Moves what is left down where at least as much was taken, and gives a block back that is much too large.
    fn settle(&mut self)
        ensures { self.new ≡ self.old }
    {
        let left = self.bytes.len() - self.taken;
        if left <= self.taken {
            self.bytes.drain(..self.taken);
            self.taken = 0;
        }
        give_back(&mut self.bytes);
    }

    /// Puts one byte behind those that it holds. Where memory is refused, it holds what it held.
    pub fn put_u8(&mut self, number: u8) -> Result<(), AllocError>
        ensures ok { OnOk result (self.new ≡ self.old ++ big_bytes 1 number) }
        ensures err { OnErr result (self.new ≡ self.old) }
    {
        self.push(&[number])
    }

    /// Puts a number of two bytes behind those that it holds, in network order. Where memory is refused, it
    /// holds what it held.
    pub fn put_u16(&mut self, number: u16) -> Result<(), AllocError>
        ensures ok { OnOk result (self.new ≡ self.old ++ big_bytes 2 number) }
        ensures err { OnErr result (self.new ≡ self.old) }
    {
        let mut bytes = [0; 2];
        BigEndian::write_u16(&mut bytes, number);
        self.push(&bytes)
    }

    /// Puts a number of four bytes behind those that it holds, in network order. Where memory is refused, it
    /// holds what it held.
    pub fn put_u32(&mut self, number: u32) -> Result<(), AllocError>
        ensures ok { OnOk result (self.new ≡ self.old ++ big_bytes 4 number) }
        ensures err { OnErr result (self.new ≡ self.old) }
    {
        let mut bytes = [0; 4];
        BigEndian::write_u32(&mut bytes, number);
        self.push(&bytes)
    }
}

/// Gives a block back of more than four times what it holds, for one of twice that, or of `KEPT`.
fn give_back(bytes: &mut Vec<u8>)
    ensures { bytes.new.items ≡ bytes.old.items }
{
    let held = bytes.len();
    if bytes.capacity() / 4 > held {
        bytes.shrink_to(std::cmp::max(held * 2, KEPT));
    }
}
