// Where bytes go.
ghost use Rattle.std.specs.Prelude.{◌≡◌, ◌++◌, [], ℕ, List, Option, None, Some, is_ok, if◌then◌else◌, OnOk, OnErr};
ghost use Rattle.std.specs.Io.KnownBytes.{append_known};
ghost use Rattle.io_edge.specs.Faults.{CountsFailure};
ghost use Rattle.io_edge.specs.Sink.{AppendsPrefix};

use crate::{CallList, Failed, Failures};
use net_base::Bytes;
use std::alloc::Global;
use std::io::Write;

/// Bytes that go to the outside, in order.
pub trait Sink {
    /// The bytes written, where the sink tells them; `None` claims nothing.
    ghost written: { Self → Option (List ℕ) };

    /// How many faults it had. The count stands still at the last value of a u64.
    ghost faults: { Self → ℕ };

    /// Appends all bytes to those written. Failed comes only where the count of faults rose; then a prefix of the bytes
    /// was appended.
    fn write(&mut self, bytes: &[u8]) -> Result<(), Failed>
        ensures all { OnOk result (written self.new ≡ append_known (written self.old) bytes.now) }
        ensures prefix { OnErr result (AppendsPrefix (written self.old) (written self.new) bytes.now) }
        ensures count { CountsFailure (faults self.old) (faults self.new) result };

    /// The count of faults.
    fn faults(&self) -> u64
        ensures { result ≡ faults self.now };
}

/// A sink in memory, which tells what was written. The writes with the planned numbers fail, as does one for which
/// memory is refused; a planned failure writes the first `kept` bytes.
#[derive(Debug, Drop)]
pub struct MemorySink {
    written: Bytes,
    kept: usize,
    pub failures: Failures,
}

impl MemorySink {
    ghost use Rattle.io_edge.specs.MemorySink.{sink_written};

    /// Nothing was written yet. A planned failure writes the first `kept` bytes of its piece.
    pub fn new(alloc: Global, failing: CallList, kept: usize) -> Self
        ensures written { sink_written result ≡ [] }
        ensures planned { result.failures.planned ≡ failing }
        ensures calls { result.failures.calls ≡ 0 }
        ensures faults { result.failures.faults ≡ 0 }
    {
        MemorySink {
            written: Bytes::new(alloc),
            kept,
            failures: Failures::new(failing),
        }
    }

    /// What was written so far.
    pub fn written(&self) -> &[u8]
        ensures { result.now ≡ sink_written self.now }
    {
        self.written.as_slice()
    }

    // Appends the bytes, or counts a fault where memory is refused.
    fn append(&mut self, bytes: &[u8]) -> Result<(), Failed>
        ensures written { sink_written self.new ≡ (if is_ok result then sink_written self.old ++ bytes.now else sink_written self.old) }
        ensures count { CountsFailure self.old.failures.faults self.new.failures.faults result }
    {
        if self.written.extend_from_slice(bytes).is_err() {
            self.failures.faults = self.failures.faults.saturating_add(1);
            return Err(Failed);
        }
        Ok(())
    }
}

impl Sink for MemorySink {
    ghost written = { λ s. Some s.written };

    ghost faults = { λ s. s.failures.faults };

    fn write(&mut self, bytes: &[u8]) -> Result<(), Failed> {
        if self.failures.call().is_err() {
            let kept = self.kept.min(bytes.len());
            let _ = self.append(&bytes[..kept]);
            return Err(Failed);
        }
        self.append(bytes)
    }

    fn faults(&self) -> u64 {
        self.failures.faults
    }
}

/// A sink over a writer of std, as standard output. It tells no content. A writer that takes nothing of a piece that
/// isn't empty has failed.
#[derive(Debug, Drop)]
pub struct WriterSink<W> {
    writer: W,
    faults: u64,
}

impl<W: Write> WriterSink<W> {
    /// No fault was met yet.
    pub fn new(writer: W) -> Self
        ensures { result.faults ≡ 0 }
    {
        WriterSink { writer, faults: 0 }
    }
}

impl<W: Write> Sink for WriterSink<W> {
    ghost written = { λ _. None };

    ghost faults = { λ s. s.faults };

    fn write(&mut self, bytes: &[u8]) -> Result<(), Failed> {
        match self.writer.write_all(bytes) {
            Ok(()) => Ok(()),
            Err(_) => {
                self.faults = self.faults.saturating_add(1);
                Err(Failed)
            }
        }
    }

    fn faults(&self) -> u64 {
        self.faults
    }
}
