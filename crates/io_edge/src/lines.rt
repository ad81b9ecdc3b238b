// The lines of a source.
ghost use Rattle.std.specs.Prelude.{◌^◌, if◌then◌else◌, ◌≡◌, ◌≢◌, ℕ, ◌+◌, ◌<◌, ◌≤◌, true, false, List, [], ◌∷◌, ◌++◌, length, vec_len, Option, None, Some, Ok, Err, IfOk, IfErr, IfSome, MatchOption, OnOk, OnErr, IsErrOf};
ghost use Rattle.std.specs.List.{All};
ghost use Rattle.std.specs.Option.{option_map};
ghost use Rattle.std.specs.Io.KnownBytes.{IsAtEnd};
ghost use Rattle.io_edge.specs.FileLines.{file_limit, fault_at};
ghost use Rattle.io_edge.specs.Reading.{ahead, lines_ahead, fault_ahead, Ends, IsCutOff, IsLine, IsFirstNewline, Advances, HoldsTooMany, CountsReads, is_spent_by, whole_line};
ghost use Rattle.io_edge.specs.declared.lines.LineFault.TheVariants.{LineTooLong, FileTooLong};

use crate::{Failed, Source};
use net_base::{Bytes, Items};
use std::alloc::{AllocError, Global};
use std::marker::Model;
use std::mem;
use thiserror::Error;

/// How many bytes a line may have, without its LF.
const LINE_LIMIT: usize = 131072;

/// How many bytes a file may have.
const FILE_LIMIT: usize = 268435456;

/// How many bytes a reader of lines asks a source for at once.
const CHUNK: usize = 65536;

/// Why no line is answered.
#[derive(Clone, Copy, Debug, PartialEq, Eq, Error)]
pub enum LineFault {
    /// The source failed.
    #[error("a read failed")]
    ReadFault,
    /// 131073 bytes came without an LF.
    #[error("a line is too long")]
    LineTooLong,
    /// Byte 268435457 of the file came.
    #[error("the file is too long")]
    FileTooLong,
    /// Memory was refused.
    #[error("out of memory")]
    NoMemory,
}

impl From<Failed> for LineFault {
    ghost use Rattle.io_edge.specs.declared.lines.LineFault.TheVariants.{ReadFault};

    ghost from_gives = { λ _ fault. fault ≡ ReadFault };

    fn from(_: Failed) -> Self {
        LineFault::ReadFault
    }
}

impl From<AllocError> for LineFault {
    ghost use Rattle.io_edge.specs.declared.lines.LineFault.TheVariants.{NoMemory};

    ghost from_gives = { λ _ fault. fault ≡ NoMemory };

    fn from(_: AllocError) -> Self {
        LineFault::NoMemory
    }
}

/// A reader of the lines of one source, which asks for 65536 bytes at once.
#[derive(Debug, Drop)]
pub struct Lines {
    alloc: Global,
    passed: usize,
    begun: Vec<u8>,
    buffer: Vec<u8>,
    start: usize,
    end: usize,
    spent: bool,
}

impl Model for Lines {
    ghost use Rattle.std.specs.Prelude.{◌≡◌, ◌≤◌, ◌-◌, take, drop, length};
    ghost use Rattle.io_edge.specs.Reading.{Reading, IsUnderWay};

    ghost Value = { Reading };

    ghost use Rattle.io_edge.specs.Buffer.{reading_of, IsBuffer};

    ghost view = { reading_of };

    ghost invariant = { λ s. IsBuffer s × IsUnderWay (reading_of s) };
}

impl Lines {
    ghost use Rattle.std.specs.Io.KnownBytes.{prepend_known, IsAtEnd};
    ghost use Rattle.io_edge.specs.Faults.{CountsFailure};
    ghost use Rattle.io_edge.specs.Reading.{Reading, ahead, IsUnderWay, EndsLine, GoesOn, KeepsBytes, StepFault, is_end_of_reading, whole_line};

    /// A reader at the beginning of a file.
    pub fn new(alloc: Global) -> Result<Self, AllocError>
        ensures passed { IfOk result (λ lines. lines.passed ≡ 0) }
        ensures spent { IfOk result (λ lines. lines.spent ≡ false) }
        ensures ahead { IfOk result (λ lines. (left : Option (List ℕ)) → ahead lines left ≡ left) }
    {
        Ok(Lines {
            alloc,
            passed: 0,
            begun: Vec::new(alloc),
            buffer: chunk(alloc)?,
            start: 0,
            end: 0,
            spent: false,
        })
    }

    /// Whether a fault ended the reading: the source failed, or a line or the file is too long.
    pub fn spent(&self) -> bool
        ensures { result ≡ self.now.spent }
    {
        self.spent
    }

    /// The next line without its LF, where it came whole already: `read_line` then answers it without a read of the
    /// source, unless memory is refused or a limit is passed.
    pub fn front(&self) -> Option<&[u8]>
        ensures { MatchOption result (whole_line self.now ≡ None) (λ line. whole_line self.now ≡ Some line.now) }
    {
        if !self.begun.is_empty() {
            return None;
        }
        let piece = &self.buffer[self.start..self.end];
        match newline_in(piece) {
            None => None,
            Some(at) => Some(&piece[..at]),
        }
    }

    // Asks the source for bytes where none are buffered, and answers whether any are then.
    fn fill<S: Source>(&mut self, source: &mut S) -> Result<bool, Failed>
        ensures some { result ≡ Ok true → 0 < length self.new.buffered }
        ensures none { result ≡ Ok false → (self.new.buffered ≡ []) × IsAtEnd (S.left source.new) }
        ensures line { (self.new.passed ≡ self.old.passed) × (self.new.begun ≡ self.old.begun) }
        ensures bytes { prepend_known self.old.buffered (S.left source.old) ≡ prepend_known self.new.buffered (S.left source.new) }
        ensures held { 0 < length self.old.buffered → (result ≡ Ok true) × (self.new ≡ self.old) }
        ensures spent { OnOk result (self.new.spent ≡ self.old.spent) }
        ensures failed { OnErr result (self.new.spent ≡ true) }
        ensures count { CountsFailure (S.faults source.old) (S.faults source.new) result }
        ensures under_way { IsUnderWay self.new }
    {
        if self.start < self.end {
            return Ok(true);
        }
        match source.read(&mut self.buffer) {
            Ok(count) => {
                self.start = 0;
                self.end = count;
                Ok(count > 0)
            }
            Err(failed) => {
                self.spent = true;
                Err(failed)
            }
        }
    }

    // Reads on in the buffered bytes: the line that ends there, or None where it goes on behind them.
    fn step(&mut self) -> Result<Option<Bytes>, LineFault>
        ensures line { IfOk result (λ answer. IfSome answer (EndsLine self.old self.new)) }
        ensures on { result ≡ Ok None → GoesOn self.old self.new }
        ensures whole { (line : List ℕ) → whole_line self.old ≡ Some line → IfOk result (λ answer. answer ≡ Some line) }
        ensures spent { OnOk result (self.new.spent ≡ self.old.spent) }
        ensures kept { OnErr result (KeepsBytes self.old self.new) }
        ensures fault { IfErr result (StepFault self.old) }
        ensures end { IfErr result (λ fault. self.new.spent ≡ (if is_end_of_reading fault then true else self.old.spent)) }
        ensures under_way { IsUnderWay self.new }
    {
        let piece = &self.buffer[self.start..self.end];
        match newline_in(piece) {
            Some(at) => {
                let text = self.begun.len() + at;
                if let Some(fault) = fault_at(self.passed, text, text + 1) {
                    self.spent = true;
                    return Err(fault);
                }
                self.begun.extend_from_slice(&piece[..at])?;
                self.start += at + 1;
                self.passed += text + 1;
                let line = mem::replace(&mut self.begun, Vec::new(self.alloc));
                Ok(Some(Items::from_vec(line)))
            }
            None => {
                let text = self.begun.len() + piece.len();
                if let Some(fault) = fault_at(self.passed, text, text) {
                    self.spent = true;
                    return Err(fault);
                }
                self.begun.extend_from_slice(piece)?;
                self.start = self.end;
                Ok(None)
            }
        }
    }

    // What was read of a line that the end of the file cuts off.
    fn last(&mut self) -> Option<Bytes>
        requires { self.old.buffered ≡ [] }
        ensures some { IfSome result (λ line. (line ≡ self.old.begun) × (0 < length line)) }
        ensures none { result ≡ None → self.old.begun ≡ [] }
        ensures new { self.new ≡ record { passed = self.old.passed + length self.old.begun; begun = []; buffered = []; spent = self.old.spent } }
        ensures under_way { IsUnderWay self.old }
    {
        if self.begun.is_empty() {
            return None;
        }
        self.passed += self.begun.len();
        let line = mem::replace(&mut self.begun, Vec::new(self.alloc));
        Some(Items::from_vec(line))
    }
}

// Room for the bytes of one read.
fn chunk(alloc: Global) -> Result<Vec<u8>, AllocError>
    ensures { IfOk result (λ buffer. vec_len buffer ≡ 65536) }
{
    vec![in alloc; 0; CHUNK]
}

// Where the first LF stands.
fn newline_in(bytes: &[u8]) -> Option<usize>
    ensures { MatchOption result (All (λ byte. byte ≢ 10) bytes.now) (IsFirstNewline bytes.now) }
{
    bytes.iter().position(|byte| *byte == b'\n')
}

// The limit that a line passes, `passed` bytes standing before it; it has `text` bytes, and `whole` with its LF.
fn fault_at(passed: usize, text: usize, whole: usize) -> Option<LineFault>
    requires passed { passed ≤ file_limit }
    requires whole { whole < 2 ^ 63 }
    ensures { result ≡ fault_at passed text whole }
{
    if text > LINE_LIMIT && passed + LINE_LIMIT <= FILE_LIMIT {
        Some(LineFault::LineTooLong)
    } else if passed + whole > FILE_LIMIT {
        Some(LineFault::FileTooLong)
    } else {
        None
    }
}

/// The next line of a source without its LF, or None at the end of the file; the last line may lack its LF.
///
/// ReadFault comes only where the source's count of faults rose. LineTooLong comes exactly where 131073 bytes come
/// without an LF, and FileTooLong exactly where byte 268435457 of the file comes, whichever byte is the earlier, and
/// at the same byte LineTooLong. The lines before it are answered. After NoMemory nothing has changed, and the call can
/// be made again; after another fault no call may follow.
pub fn read_line<S: Source>(lines: &mut Lines, source: &mut S) -> Result<Option<Bytes>, LineFault>
    requires { lines.old.spent ≡ false }

    // Each answer is the next of the file's lines, where the source tells its bytes.
    ensures line { IfOk result (λ answer. IfSome answer (λ line.
        lines_ahead lines.old (S.left source.old) ≡ option_map (λ others. line ∷ others) (lines_ahead lines.new (S.left source.new)))) }
    ensures no_fault { OnOk result (fault_ahead lines.new (S.left source.new) ≡ fault_ahead lines.old (S.left source.old)) }
    ensures end { result ≡ Ok None → Ends (lines_ahead lines.old (S.left source.old)) (fault_ahead lines.old (S.left source.old)) None }
    ensures line_too_long { IsErrOf result LineTooLong →
        Ends (lines_ahead lines.old (S.left source.old)) (fault_ahead lines.old (S.left source.old)) (Some LineTooLong) }
    ensures file_too_long { IsErrOf result FileTooLong →
        Ends (lines_ahead lines.old (S.left source.old)) (fault_ahead lines.old (S.left source.old)) (Some FileTooLong) }

    // The same byte by byte.
    ensures cut_off { IfOk result (λ answer. IfSome answer (λ line.
        IsCutOff (ahead lines.old (S.left source.old)) line (ahead lines.new (S.left source.new)))) }
    ensures at_end { result ≡ Ok None → IsAtEnd (ahead lines.old (S.left source.old)) × IsAtEnd (ahead lines.new (S.left source.new)) }
    ensures kept { OnErr result (ahead lines.new (S.left source.new) ≡ ahead lines.old (S.left source.old)) }

    // And for every source.
    ensures is_line { IfOk result (λ answer. IfSome answer IsLine) }
    ensures advances { IfOk result (λ answer. IfSome answer (Advances lines.old lines.new)) }
    ensures passed { (OnErr result (lines.new.passed ≡ lines.old.passed)) × (result ≡ Ok None → lines.new.passed ≡ lines.old.passed) }
    ensures too_many { IfErr result (HoldsTooMany lines.new) }
    ensures whole { (line : List ℕ) → whole_line lines.old ≡ Some line →
        (result ≢ Err LineFault.ReadFault) × IfOk result (λ answer. answer ≡ Some line) }
    ensures count { CountsReads (S.faults source.old) (S.faults source.new) result }
    ensures spent { lines.new.spent ≡ is_spent_by result }
{
    while lines.fill(source)? {
        if let Some(line) = lines.step()? {
            return Ok(Some(line));
        }
    }
    Ok(lines.last())
}
