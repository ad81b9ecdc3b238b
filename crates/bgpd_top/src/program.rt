ghost use Rattle.std.specs.Prelude.{◌≡◌, ℕ, List, Option, Some, None, Ok, Err, map, option_map, string_bytes};
ghost use Rattle.bgpd_top.specs.Ahead.{events_of_file};
ghost use Rattle.bgpd_top.specs.Serving.{Ends, CountsServing};
ghost use Rattle.bgpd_top.specs.Command.{word_command, check_command, verbose_command, command_of, file_named};
ghost use Rattle.bgpd_top.specs.Ending.{status_of, EndsReplay, Counts, CountsOf, Causes, EndsBy, ReadsNoFile, ReadsNoInput};
ghost use Rattle.bgpd_top.specs.Outside.{outside, error_output};

use crate::checking::{check_file, write_text};
use crate::replay::EventReader;
use crate::replay_world::ReplayWorld;
use crate::serving::{ServeFault, serve};
use crate::status::{Status, tell};
use cores_link::Router;
use io_edge::{Clock, Files, PeerNet, Sink, Source};
use kroute::Kernel;
use std::alloc::Global;

/// What the words ask for.
#[derive(Clone, Copy, Debug, PartialEq, Eq)]
pub enum Command {
    /// `--help`: how the program is called.
    Help,
    /// `--version`: its version.
    Version,
    /// `replay`: the events of standard input, to a transcript on standard output.
    Replay,
    /// `-n -f FILE`: whether the file has a configuration; with `-v`, which is true, its canonical text besides.
    Check(bool),
}

/// What `--help` prints.
const HELP: &str = "bgpd replay
    reads events from standard input and writes their transcript to standard output
bgpd -n [-v] -f FILE
    checks a configuration file; with -v prints its canonical text first
bgpd --help
    prints this text
bgpd --version
    prints the version

The status is 0 where the command is done, 1 where the configuration file has a fault, 2 where the words fit no
command, 3 where a line of the event file isn't an event, 4 where the input failed, 5 where the output failed, 7 where
memory ran out, and 8 where the event file or a line of it is too long. A text on standard error says which.

docs/EVENTS.md says what event files and transcripts are, docs/CONFIGURATION.md and docs/POLICY.md what a
configuration is.
";

/// What `--version` prints.
const VERSION: &str = "bgpd 0.1\n";

/// The program `bgpd` over the objects that it is handed; the answer is the code of its `Status`, which says when
/// each comes and what stands on standard error.
///
/// A fault of standard error changes no status. A command uses nothing that it doesn't need: the nets, the kernel and
/// the clock stay as they are, the files but for a check, and standard input but for `replay`.
pub fn bgpd_main<F: Files, I: Source, O: Sink, E: Sink, N: PeerNet, K: Kernel, C: Clock>(
    alloc: Global,
    words: &[String],
    files: &mut F,
    input: &mut I,
    out: &mut O,
    err: &mut E,
    net: &mut N,
    other: &mut N,
    kernel: &mut K,
    clock: &mut C,
) -> u8
    // Each status with its cause and its text.
    ensures ends { EndsBy (command_of (map string_bytes words.now)) (file_named (map string_bytes words.now))
        (F.content files.old (file_named (map string_bytes words.now))) result
        (outside (I.left input.old) (O.written out.old) (F.faults files.old) (I.faults input.old) (O.faults out.old))
        (outside (I.left input.new) (O.written out.new) (F.faults files.new) (I.faults input.new) (O.faults out.new))
        (error_output (E.written err.old) (E.faults err.old)) (error_output (E.written err.new) (E.faults err.new)) }

    // What a command doesn't use stays as it is.
    ensures files { ReadsNoFile (command_of (map string_bytes words.now)) → files.new ≡ files.old }
    ensures input { ReadsNoInput (command_of (map string_bytes words.now)) → input.new ≡ input.old }
    ensures nets { (net.new ≡ net.old) × (other.new ≡ other.old) }
    ensures kernel { kernel.new ≡ kernel.old }
    ensures clock { clock.new ≡ clock.old }
{
    let status = run(
        alloc,
        command_of(words),
        file_named(words),
        files,
        input,
        out,
    );
    tell(alloc, err, file_named(words), status).code()
}

/// Runs a command, on the file of this name where it has one.
fn run<F: Files, I: Source, O: Sink>(
    alloc: Global,
    command: Option<Command>,
    name: &str,
    files: &mut F,
    input: &mut I,
    out: &mut O,
) -> Status
    ensures cause { Causes command (F.content files.old name.now) result
        (outside (I.left input.old) (O.written out.old) (F.faults files.old) (I.faults input.old) (O.faults out.old))
        (outside (I.left input.new) (O.written out.new) (F.faults files.new) (I.faults input.new) (O.faults out.new)) }
    ensures counts { CountsOf command result
        (outside (I.left input.old) (O.written out.old) (F.faults files.old) (I.faults input.old) (O.faults out.old))
        (outside (I.left input.new) (O.written out.new) (F.faults files.new) (I.faults input.new) (O.faults out.new)) }
    ensures files { ReadsNoFile command → files.new ≡ files.old }
    ensures input { ReadsNoInput command → input.new ≡ input.old }
{
    match command {
        None => Status::Usage,
        Some(Command::Help) => write_text(out, HELP.as_bytes()),
        Some(Command::Version) => write_text(out, VERSION.as_bytes()),
        Some(Command::Replay) => replay(alloc, input, out),
        Some(Command::Check(verbose)) => check_file(alloc, verbose, name, files, out),
    }
}

/// The file that the last word of a check names.
fn file_named(words: &[String]) -> &str
    ensures { result.now ≡ file_named (map string_bytes words.now) }
{
    match words {
        [_, _, file] => file.as_str(),
        [_, _, _, file] => file.as_str(),
        _ => "",
    }
}

fn command_of(words: &[String]) -> Option<Command>
    ensures { result ≡ command_of (map string_bytes words.now) }
{
    match words {
        [word] => word_command(word.as_bytes()),
        [first, second, _] => check_command(first.as_bytes(), second.as_bytes()),
        [first, second, third, _] => {
            verbose_command(first.as_bytes(), second.as_bytes(), third.as_bytes())
        }
        _ => None,
    }
}

/// `-n -f` before the name of a file.
fn check_command(first: &[u8], second: &[u8]) -> Option<Command>
    ensures { result ≡ check_command first.now second.now }
{
    if first == b"-n".as_slice() && second == b"-f".as_slice() {
        Some(Command::Check(false))
    } else {
        None
    }
}

/// `-n -v -f` before the name of a file.
fn verbose_command(first: &[u8], second: &[u8], third: &[u8]) -> Option<Command>
    ensures { result ≡ verbose_command first.now second.now third.now }
{
    if first == b"-n".as_slice() && second == b"-v".as_slice() && third == b"-f".as_slice() {
        Some(Command::Check(true))
    } else {
        None
    }
}

fn word_command(word: &[u8]) -> Option<Command>
    ensures { result ≡ word_command word.now }
{
    if word == b"replay".as_slice() {
        Some(Command::Replay)
    } else if word == b"--help".as_slice() {
        Some(Command::Help)
    } else if word == b"--version".as_slice() {
        Some(Command::Version)
    } else {
        None
    }
}

/// Serves the events of a source from its beginning.
#[tactic(auto, using(crate::proofs::Causes::replay_cause, crate::proofs::Causes::replay_counts))]
fn replay<I: Source, O: Sink>(alloc: Global, input: &mut I, out: &mut O) -> Status
    ensures cause { EndsReplay (option_map events_of_file (I.left input.old)) result (O.written out.old) (O.written out.new) }
    ensures counts { Counts result (I.faults input.old) (I.faults input.new) (O.faults out.old) (O.faults out.new) }
{
    match serve_events(alloc, input, out) {
        Ok(()) => Status::Done,
        Err(fault) => status_of(fault),
    }
}

/// Serves the events of a source with a Router of its own.
fn serve_events<I: Source, O: Sink>(
    alloc: Global,
    input: &mut I,
    out: &mut O,
) -> Result<(), ServeFault>
    ensures transcript { Ends (option_map events_of_file (I.left input.old)) (O.written out.old) (O.written out.new) result }
    ensures counts { CountsServing (I.faults input.old) (I.faults input.new) (O.faults out.old) (O.faults out.new) result }
{
    let Ok(mut router) = Router::new(alloc) else {
        return Err(ServeFault::NoMemory);
    };
    let Ok(mut reader) = EventReader::new(alloc) else {
        return Err(ServeFault::NoMemory);
    };
    let mut world = ReplayWorld::new(alloc, &mut reader, input);
    serve(alloc, &mut router, &mut world, out)
}

/// The status behind a fault of serving.
fn status_of(fault: ServeFault) -> Status
    ensures { result ≡ status_of (Err fault) }
{
    match fault {
        ServeFault::BadEvent(line) => Status::BadEvent(line),
        ServeFault::ReadFault => Status::ReadFault,
        ServeFault::WriteFault => Status::WriteFault,
        ServeFault::NoMemory => Status::NoMemory,
        ServeFault::TooLong => Status::TooLong,
    }
}
