// Where bytes come from.
ghost use Rattle.std.specs.Prelude.{◌≡◌, ◌↔◌, ◌+◌, ◌++◌, ◌<◌, ◌≤◌, ℕ, List, [], Option, None, Some, length, min, take, drop, IfOk, OnErr, IsErr, Contains};
ghost use Rattle.std.specs.Io.KnownBytes.{prepend_known, IsAtEnd};
ghost use Rattle.io_edge.specs.Faults.{last_count, CountsFailure};

use crate::{CallList, Failed, Failures};
use net_base::Bytes;
use std::io::Read;

/// Bytes that come from the outside, in order.
pub trait Source {
    /// The bytes left, where the source tells them; `None` claims nothing.
    ghost left: { Self → Option (List ℕ) };

    /// How many faults it had. The count stands still at the last value of a u64.
    ghost faults: { Self → ℕ };

    /// Moves the first bytes left into the front of `buf`, and answers how many. For a `buf` that isn't empty 0 is the
    /// end, and reads behind it give 0 or fail.
    ///
    /// Failed comes only where the count of faults rose. Then no byte was taken, whatever stands in `buf`.
    fn read(&mut self, buf: &mut [u8]) -> Result<usize, Failed>
        ensures within { IfOk result (λ n. n ≤ length buf.new) }
        ensures bytes { IfOk result (λ n. left self.old ≡ prepend_known (take n buf.new) (left self.new)) }
        ensures end { IfOk result (λ n. n ≡ 0 → 0 < length buf.new → IsAtEnd (left self.new)) }
        ensures failed { OnErr result (left self.new ≡ left self.old) }
        ensures count { CountsFailure (faults self.old) (faults self.new) result };

    /// The count of faults.
    fn faults(&self) -> u64
        ensures { result ≡ faults self.now };
}

/// A source over bytes in memory, which tells them. A read moves at most `most` bytes, and the reads with the planned
/// numbers fail.
#[derive(Debug, Drop)]
pub struct MemorySource {
    bytes: Bytes,
    at: usize,
    most: usize,
    pub failures: Failures,
    ghost within: { at ≤ length bytes },
    ghost moves: { 0 < most },
}

impl MemorySource {
    ghost use Rattle.io_edge.specs.MemorySource.{source_left};

    /// These bytes are left, of which a read moves at most `most`.
    pub fn new(bytes: Bytes, most: usize, failing: CallList) -> Self
        requires { 0 < most }
        ensures left { source_left result ≡ bytes }
        ensures planned { result.failures.planned ≡ failing }
        ensures calls { result.failures.calls ≡ 0 }
        ensures faults { result.failures.faults ≡ 0 }
    {
        MemorySource {
            bytes,
            at: 0,
            most,
            failures: Failures::new(failing),
        }
    }
}

impl Source for MemorySource {
    ghost use Rattle.io_edge.specs.MemorySource.{source_left};

    ghost left = { λ s. Some (source_left s) };

    ghost faults = { λ s. s.failures.faults };

    fn read(&mut self, buf: &mut [u8]) -> Result<usize, Failed>
        ensures within { IfOk result (λ n. n ≤ length buf.new) }
        ensures bytes { IfOk result (λ n. source_left self.old ≡ take n buf.new ++ source_left self.new) }
        ensures end { IfOk result (λ n. n ≡ 0 → 0 < length buf.new → source_left self.new ≡ []) }
        ensures failed { OnErr result (source_left self.new ≡ source_left self.old) }
        ensures count { CountsFailure self.old.failures.faults self.new.failures.faults result }

        // Exactly the planned reads fail.
        ensures planned { IsErr result ↔ Contains self.old.failures.planned self.new.failures.calls }
        ensures plan { self.new.failures.planned ≡ self.old.failures.planned }
        ensures calls { self.new.failures.calls ≡ min (self.old.failures.calls + 1) last_count }
    {
        self.failures.call()?;
        let count = move_front(&self.bytes.as_slice()[self.at..], self.most, buf);
        self.at += count;
        Ok(count)
    }

    fn faults(&self) -> u64 {
        self.failures.faults
    }
}

/// Copies the first bytes left, at most `most` of them, into the front of `buf`, and answers how many.
pub(crate) fn move_front(left: &[u8], most: usize, buf: &mut [u8]) -> usize
    ensures count { result ≡ min (min (length left.now) (length buf.new)) most }
    ensures moved { take result buf.new ≡ take result left.now }
{
    let count = left.len().min(buf.len()).min(most);
    buf[..count].copy_from_slice(&left[..count]);
    count
}

/// A source over a reader of std, as standard input. It tells no content.
#[derive(Debug, Drop)]
pub struct ReaderSource<R> {
    reader: R,
    faults: u64,
}

impl<R: Read> ReaderSource<R> {
    /// No fault was met yet.
    pub fn new(reader: R) -> Self
        ensures { result.faults ≡ 0 }
    {
        ReaderSource { reader, faults: 0 }
    }
}

impl<R: Read> Source for ReaderSource<R> {
    ghost left = { λ _. None };

    ghost faults = { λ s. s.faults };

    fn read(&mut self, buf: &mut [u8]) -> Result<usize, Failed> {
        match self.reader.read(buf) {
            Ok(count) => Ok(count),
            Err(_) => {
                self.faults = self.faults.saturating_add(1);
                Err(Failed)
            }
        }
    }

    fn faults(&self) -> u64 {
        self.faults
    }
}
