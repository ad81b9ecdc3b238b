// Files that are read whole, up to a limit.
ghost use Rattle.std.specs.Prelude.{◌≡◌, ◌↔◌, ◌+◌, ◌≤◌, ℕ, List, [], Option, None, Some, length, take, min, IfOk, IfSome, IsTrue, OnOk, OnErr, Contains};
ghost use Rattle.std.specs.Option.{option_map};
ghost use Rattle.io_edge.specs.declared.files.FileReading.{FileReading};
ghost use Rattle.io_edge.specs.Faults.{last_count, Rose};
ghost use Rattle.io_edge.specs.FileFault.{CountsFault};
ghost use Rattle.io_edge.specs.Files.{NotesReading, content_of};

use crate::Failures;
use net_base::{Bytes, Items};
use std::alloc::{AllocError, Global};
use std::fs::File;
use std::io::Read;
use std::{io, rt};
use thiserror::Error;

/// Why a file wasn't read, or a list not given.
#[derive(Clone, Copy, Debug, PartialEq, Eq, Error)]
pub enum FileFault {
    /// The outside failed.
    #[error("the outside failed")]
    Failed,
    /// Memory was refused.
    #[error("out of memory")]
    NoMemory,
}

impl From<AllocError> for FileFault {
    ghost use Rattle.io_edge.specs.declared.files.FileFault.TheVariants.{NoMemory};

    ghost from_gives = { λ _ fault. fault ≡ NoMemory };

    fn from(_: AllocError) -> Self {
        FileFault::NoMemory
    }
}

/// A reading of a file: what was asked for, and the bytes of the answer, or None where it failed.
#[derive(Debug, Drop)]
pub struct FileReading {
    pub name: Bytes,
    pub limit: usize,
    pub bytes: Option<Bytes>,
}

/// Files of the outside, by name.
pub trait Files {
    /// The content of the file of that name, where it is told; `None` claims nothing.
    ghost content: { Self → List ℕ → Option (List ℕ) };

    /// The readings with their answers in order, where they are told.
    ghost given: { Self → Option (List FileReading) };

    /// How many faults there were. The count stands still at the last value of a u64.
    ghost faults: { Self → ℕ };

    /// The first `limit` bytes of the file.
    ///
    /// Failed comes only where the count of faults rose. After NoMemory nothing has changed.
    fn read(&mut self, alloc: Global, name: &str, limit: usize) -> Result<Bytes, FileFault>
        ensures within { IfOk result (λ bytes. length bytes ≤ limit) }
        ensures bytes { IfOk result (λ bytes. IfSome (content self.old name.now) (λ file. bytes ≡ take limit file)) }
        ensures content { content self.new ≡ content self.old }
        ensures given { NotesReading (given self.old) (given self.new) name.now limit result }
        ensures count { CountsFault (faults self.old) (faults self.new) result };

    /// The count of faults.
    fn faults(&self) -> u64
        ensures { result ≡ faults self.now };
}

/// A file in memory.
#[derive(Debug, Drop)]
pub struct MemoryFile {
    pub name: Bytes,
    pub content: Bytes,
}

/// Files in memory, which tell their contents and the readings. The readings with the planned numbers fail, as do those
/// of a name that no file has.
#[derive(Debug, Drop)]
pub struct MemoryFiles {
    files: Items<MemoryFile>,
    given: Items<FileReading>,
    pub failures: Failures,
}

impl MemoryFiles {
    /// These files. Of two with one name the first counts.
    pub fn new(alloc: Global, files: Items<MemoryFile>, failures: Failures) -> Self
        ensures failures { result.failures ≡ failures }
    {
        MemoryFiles {
            files,
            given: Items::new(alloc),
            failures,
        }
    }
}

// The content of the first file of that name.
fn content_in<'a>(files: &'a [MemoryFile], name: &[u8]) -> Option<&'a [u8]>
    ensures { option_map (λ content. content.now) result ≡ content_of files.now name.now }
{
    let file = files.iter().find(|file| file.name.as_slice() == name)?;
    Some(file.content.as_slice())
}

// The answer of a reading, before it is noted.
fn answer_of(
    alloc: Global,
    content: Option<&[u8]>,
    limit: usize,
) -> Result<Option<Bytes>, AllocError>
    ensures { IfOk result (λ answer. answer ≡ option_map (λ bytes. take limit bytes.now) content.entry) }
{
    match content {
        Some(bytes) => {
            let count = limit.min(bytes.len());
            Ok(Some(Bytes::from_slice(alloc, &bytes[..count])?))
        }
        None => Ok(None),
    }
}

// What is noted of a reading.
fn noted(
    alloc: Global,
    name: &str,
    limit: usize,
    answer: &Option<Bytes>,
) -> Result<FileReading, AllocError>
    ensures { IfOk result (λ reading. reading ≡ record { name = name.now; limit = limit; bytes = answer.now }) }
{
    let name = Bytes::from_slice(alloc, name.as_bytes())?;
    let bytes = match answer {
        Some(bytes) => Some(Bytes::from_slice(alloc, bytes.as_slice())?),
        None => None,
    };
    Ok(FileReading { name, limit, bytes })
}

impl Files for MemoryFiles {
    ghost content = { λ s. content_of s.files };

    ghost given = { λ s. Some s.given };

    ghost faults = { λ s. s.failures.faults };

    fn read(&mut self, alloc: Global, name: &str, limit: usize) -> Result<Bytes, FileFault> {
        let content = if self.failures.fails_next() {
            None
        } else {
            content_in(self.files.as_slice(), name.as_bytes())
        };
        let answer = answer_of(alloc, content, limit)?;
        self.given.push(noted(alloc, name, limit, &answer)?)?;
        match answer {
            Some(bytes) => {
                self.failures.passed();
                Ok(bytes)
            }
            None => {
                self.failures.failed();
                Err(FileFault::Failed)
            }
        }
    }

    fn faults(&self) -> u64 {
        self.failures.faults
    }
}

/// The files of the system, by their paths. They tell no content.
#[derive(Debug, Drop)]
pub struct HostFiles<R> {
    runtime: R,
    faults: u64,
}

impl<R: rt::Files> HostFiles<R> {
    /// No fault was met yet.
    pub fn new(runtime: R) -> Self
        ensures { result.faults ≡ 0 }
    {
        HostFiles { runtime, faults: 0 }
    }
}

impl<R: rt::Files> Files for HostFiles<R> {
    ghost content = { λ _ _. None };

    ghost given = { λ _. None };

    ghost faults = { λ s. s.faults };

    fn read(&mut self, alloc: Global, name: &str, limit: usize) -> Result<Bytes, FileFault> {
        match read_front(&self.runtime, alloc, name, limit) {
            Ok(bytes) => Ok(Bytes::from_vec(bytes)),
            Err(_) => {
                self.faults = self.faults.saturating_add(1);
                Err(FileFault::Failed)
            }
        }
    }

    fn faults(&self) -> u64 {
        self.faults
    }
}

// The first `limit` bytes of a file of the system.
fn read_front<R: rt::Files>(
    runtime: &R,
    alloc: Global,
    path: &str,
    limit: usize,
) -> io::Result<Vec<u8>>
    ensures { IfOk result (λ bytes. length bytes.items ≤ limit) }
{
    let mut bytes = Vec::new(alloc);
    let mut front = File::open(runtime, path)?.take(limit as u64);
    front.read_to_end(&mut bytes)?;
    bytes.truncate(limit);
    Ok(bytes)
}
