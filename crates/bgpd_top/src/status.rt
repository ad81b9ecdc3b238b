// How the program ends.
ghost use Rattle.std.specs.Prelude.{◌≡◌, [], IfOk, OnOk, string_bytes};
ghost use Rattle.std.specs.Io.KnownBytes.{append_known};
ghost use Rattle.io_edge.specs.Faults.{CountsFailure};
ghost use Rattle.bgpd_top.specs.Outside.{error_output, Tells};
ghost use Rattle.bgpd_top.specs.Status.{status_code, status_text, refused_text, ToldAs, IsToldOf};
ghost use Rattle.bgpd_top.specs.Words.{usage_text};

use io_edge::{Failed, Sink};
use itoa::Buffer;
use net_base::{ConfFault, NoMemory};
use std::alloc::Global;
use std::fmt::Write;

/// What stands on standard error where the words fit no command.
const USAGE: &str =
    "usage: bgpd replay\n       bgpd -n [-v] -f FILE\n       bgpd --help\n       bgpd --version\n";

/// How the program ends. Each way has a code, with which the process exits, and a text on standard error.
#[derive(Clone, Copy, Debug, PartialEq, Eq)]
pub enum Status {
    /// 0: the command is done, and nothing is told.
    Done,
    /// 1: the configuration file has this fault, told as `FILE:LINE: KIND`.
    Refused(ConfFault),
    /// 2: the words fit no command, and how the program is called is told.
    Usage,
    /// 3: the line of this number, counted from 1, isn't of the grammar of events: `line N: bad event`.
    BadEvent(u32),
    /// 4: standard input failed, or the file couldn't be read: `read fault`.
    ReadFault,
    /// 5: standard output failed: `write fault`.
    WriteFault,
    /// 7: memory was refused: `no memory`.
    NoMemory,
    /// 8: the event file, or a line of it, is past its limit: `too long`.
    TooLong,
}

impl Status {
    /// The code with which the process exits.
    pub fn code(self) -> u8
        ensures { result ≡ status_code self }
    {
        match self {
            Status::Done => 0,
            Status::Refused(_) => 1,
            Status::Usage => 2,
            Status::BadEvent(_) => 3,
            Status::ReadFault => 4,
            Status::WriteFault => 5,
            Status::NoMemory => 7,
            Status::TooLong => 8,
        }
    }
}

/// Tells how the command on the file of this name ended, and answers what was told: want of memory in place of a fault
/// of the file where there is none for its text. A fault of standard error changes nothing.
pub(crate) fn tell<E: Sink>(alloc: Global, err: &mut E, name: &str, status: Status) -> Status
    ensures status { IsToldOf status result }
    ensures told { ToldAs name.now result (error_output (E.written err.old) (E.faults err.old)) (error_output (E.written err.new) (E.faults err.new)) }
{
    match status {
        Status::Done => Status::Done,
        Status::Refused(found) => tell_refused(alloc, err, name, found),
        Status::Usage => tell_text(err, USAGE.as_bytes(), Status::Usage),
        Status::BadEvent(line) => tell_bad_event(err, line),
        Status::ReadFault => tell_text(err, b"read fault\n", Status::ReadFault),
        Status::WriteFault => tell_text(err, b"write fault\n", Status::WriteFault),
        Status::NoMemory => tell_text(err, b"no memory\n", Status::NoMemory),
        Status::TooLong => tell_text(err, b"too long\n", Status::TooLong),
    }
}

/// Tells a status by its text.
fn tell_text<E: Sink>(err: &mut E, text: &[u8], status: Status) -> Status
    ensures status { result ≡ status }
    ensures told { Tells text.now (error_output (E.written err.old) (E.faults err.old)) (error_output (E.written err.new) (E.faults err.new)) }
{
    let _ = err.write(text);
    status
}

/// Tells a fault of the file, unless there is no memory for its text.
fn tell_refused<E: Sink>(alloc: Global, err: &mut E, name: &str, found: ConfFault) -> Status
    ensures status { IsToldOf (Status.Refused found) result }
    ensures told { ToldAs name.now result (error_output (E.written err.old) (E.faults err.old)) (error_output (E.written err.new) (E.faults err.new)) }
{
    match refused_text(alloc, name, found) {
        Ok(text) => tell_text(err, text.as_bytes(), Status::Refused(found)),
        Err(_) => tell_text(err, b"no memory\n", Status::NoMemory),
    }
}

/// The file, the line and the kind of a fault.
fn refused_text(alloc: Global, name: &str, found: ConfFault) -> Result<String, NoMemory>
    ensures { IfOk result (λ text. string_bytes text ≡ refused_text name.now found) }
{
    let mut text = String::new(alloc);
    write!(text, "{name}:{}: {}\n", found.line, found.kind)?;
    Ok(text)
}

/// Tells that a line is no event.
fn tell_bad_event<E: Sink>(err: &mut E, line: u32) -> Status
    ensures status { result ≡ Status.BadEvent line }
    ensures told { Tells (status_text [] (Status.BadEvent line)) (error_output (E.written err.old) (E.faults err.old)) (error_output (E.written err.new) (E.faults err.new)) }
{
    let _ = write_bad_event(err, line);
    Status::BadEvent(line)
}

fn write_bad_event<E: Sink>(err: &mut E, line: u32) -> Result<(), Failed>
    ensures told { OnOk result (E.written err.new ≡ append_known (E.written err.old) (status_text [] (Status.BadEvent line))) }
    ensures count { CountsFailure (E.faults err.old) (E.faults err.new) result }
{
    let mut buffer = Buffer::new();
    let number = buffer.format(line);
    err.write(b"line ")?;
    err.write(number.as_bytes())?;
    err.write(b": bad event\n")?;
    Ok(())
}
