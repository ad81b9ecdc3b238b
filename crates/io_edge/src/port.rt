// The control socket, as the one who asks sees it.
ghost use Rattle.std.specs.Prelude.{◌≡◌, ◌<◌, ◌≤◌, ℕ, List, [], Option, None, Some, length, take, drop, IfOk, OnOk, OnErr};
ghost use Rattle.std.specs.Io.KnownBytes.{prepend_known, append_known, IsAtEnd};
ghost use Rattle.io_edge.specs.Faults.{CountsFailure};
ghost use Rattle.io_edge.specs.Sink.{AppendsPrefix};

use crate::source::move_front;
use crate::{CallList, Failed, Failures};
use net_base::Bytes;
use std::alloc::Global;

/// The end of a control socket that sends commands and reads answers.
pub trait CtlPort {
    /// The bytes that come and aren't read yet, where they are told; `None` claims nothing.
    ghost left: { Self → Option (List ℕ) };

    /// The bytes sent, where they are told; `None` claims nothing.
    ghost sent: { Self → Option (List ℕ) };

    /// How many faults there were. The count stands still at the last value of a u64.
    ghost faults: { Self → ℕ };

    /// Connects to the socket of that path. Failed comes only where the count of faults rose.
    fn connect(&mut self, path: &str) -> Result<(), Failed>
        ensures left { left self.new ≡ left self.old }
        ensures sent { sent self.new ≡ sent self.old }
        ensures count { CountsFailure (faults self.old) (faults self.new) result };

    /// Appends all bytes to those sent. Failed comes only where the count of faults rose; then a prefix of the bytes was
    /// appended.
    fn send(&mut self, bytes: &[u8]) -> Result<(), Failed>
        ensures all { OnOk result (sent self.new ≡ append_known (sent self.old) bytes.now) }
        ensures prefix { OnErr result (AppendsPrefix (sent self.old) (sent self.new) bytes.now) }
        ensures left { left self.new ≡ left self.old }
        ensures count { CountsFailure (faults self.old) (faults self.new) result };

    /// Moves the first bytes left into the front of `buf`, and answers how many; for a `buf` that isn't empty 0 is the
    /// end. Failed comes only where the count of faults rose, and then no byte was taken.
    fn read(&mut self, buf: &mut [u8]) -> Result<usize, Failed>
        ensures within { IfOk result (λ n. n ≤ length buf.new) }
        ensures bytes { IfOk result (λ n. left self.old ≡ prepend_known (take n buf.new) (left self.new)) }
        ensures end { IfOk result (λ n. n ≡ 0 → 0 < length buf.new → IsAtEnd (left self.new)) }
        ensures failed { OnErr result (left self.new ≡ left self.old) }
        ensures sent { sent self.new ≡ sent self.old }
        ensures count { CountsFailure (faults self.old) (faults self.new) result };

    /// The count of faults.
    fn faults(&self) -> u64
        ensures { result ≡ faults self.now };
}

/// A port in memory, which tells the bytes left and sent. A read moves at most `most` bytes. The calls with the planned
/// numbers fail, as does a `send` for which memory is refused; a `send` that was to fail sends nothing.
#[derive(Debug, Drop)]
pub struct MemoryPort {
    answers: Bytes,
    at: usize,
    most: usize,
    sent: Bytes,
    pub failures: Failures,
    ghost within: { at ≤ length answers },
    ghost moves: { 0 < most },
}

impl MemoryPort {
    ghost use Rattle.io_edge.specs.MemoryPort.{port_left, port_sent};

    /// These bytes are to be read, at most `most` by one read, and nothing was sent.
    pub fn new(alloc: Global, answers: Bytes, most: usize, failing: CallList) -> Self
        requires { 0 < most }
        ensures left { port_left result ≡ answers }
        ensures sent { port_sent result ≡ [] }
        ensures planned { result.failures.planned ≡ failing }
        ensures calls { result.failures.calls ≡ 0 }
        ensures faults { result.failures.faults ≡ 0 }
    {
        MemoryPort {
            answers,
            at: 0,
            most,
            sent: Bytes::new(alloc),
            failures: Failures::new(failing),
        }
    }

    /// The bytes sent so far.
    pub fn sent(&self) -> &[u8]
        ensures { result.now ≡ port_sent self.now }
    {
        self.sent.as_slice()
    }
}

impl CtlPort for MemoryPort {
    ghost use Rattle.io_edge.specs.MemoryPort.{port_left, port_sent};

    ghost left = { λ s. Some (port_left s) };

    ghost sent = { λ s. Some (port_sent s) };

    ghost faults = { λ s. s.failures.faults };

    fn connect(&mut self, _path: &str) -> Result<(), Failed> {
        self.failures.call()
    }

    fn send(&mut self, bytes: &[u8]) -> Result<(), Failed> {
        self.failures.call()?;
        if self.sent.extend_from_slice(bytes).is_err() {
            self.failures.faults = self.failures.faults.saturating_add(1);
            return Err(Failed);
        }
        Ok(())
    }

    fn read(&mut self, buf: &mut [u8]) -> Result<usize, Failed> {
        self.failures.call()?;
        let count = move_front(&self.answers.as_slice()[self.at..], self.most, buf);
        self.at += count;
        Ok(count)
    }

    fn faults(&self) -> u64 {
        self.failures.faults
    }
}
