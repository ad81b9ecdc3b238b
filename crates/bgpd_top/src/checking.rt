// The check of a configuration file.
ghost use Rattle.std.specs.Prelude.{◌≡◌, ℕ, Some, IfOk, IfErr};
ghost use Rattle.conf_tree.specs.Language.{configuration};
ghost use Rattle.bgpd_top.specs.Checking.{good_text, EndsCheck, PrintsConf, IsFaultOf};
ghost use Rattle.bgpd_top.specs.Ending.{EndsPrint, Counts};

use crate::status::Status;
use conf_print::print;
use conf_tree::Conf;
use io_edge::{FileFault, Files, Sink};
use net_base::{Bytes, ConfError, Items, NoMemory};
use reload_stage::{TEXT_LIMIT, read_conf};
use std::alloc::Global;

/// Checks the configuration file of a name, and prints what was found good.
///
/// `Done`: the text has a configuration. `configuration OK` is written, behind the canonical text where `verbose` asks for it.
/// `Refused`: the text has this fault, the first one. `ReadFault`: the file couldn't be read. `WriteFault`: standard
/// output failed. `NoMemory`: memory was refused.
#[tactic(auto, using(crate::proofs::Checked::content_cause))]
pub(crate) fn check_file<F: Files, O: Sink>(
    alloc: Global,
    verbose: bool,
    name: &str,
    files: &mut F,
    out: &mut O,
) -> Status
    ensures cause { EndsCheck verbose (F.content files.old name.now) result (O.written out.old) (O.written out.new) }
    ensures counts { Counts result (F.faults files.old) (F.faults files.new) (O.faults out.old) (O.faults out.new) }
{
    match files.read(alloc, name, TEXT_LIMIT + 1) {
        Ok(content) => check_text(alloc, verbose, content.as_slice(), out),
        Err(FileFault::Failed) => Status::ReadFault,
        Err(FileFault::NoMemory) => Status::NoMemory,
    }
}

/// Checks a text, and prints what was found good.
#[tactic(auto, using(crate::proofs::Checked::printed_cause))]
fn check_text<O: Sink>(alloc: Global, verbose: bool, text: &[u8], out: &mut O) -> Status
    ensures cause { EndsCheck verbose (Some text.now) result (O.written out.old) (O.written out.new) }
    ensures counts { (reads : ℕ) → Counts result reads reads (O.faults out.old) (O.faults out.new) }
{
    match good_text(alloc, verbose, text) {
        Ok(printed) => write_text(out, printed.as_slice()),
        Err(ConfError::Fault(found)) => Status::Refused(found),
        Err(ConfError::NoMemory) => Status::NoMemory,
    }
}

/// Writes a text to standard output.
pub(crate) fn write_text<O: Sink>(out: &mut O, text: &[u8]) -> Status
    ensures cause { EndsPrint text.now result (O.written out.old) (O.written out.new) }
    ensures counts { (reads : ℕ) → Counts result reads reads (O.faults out.old) (O.faults out.new) }
{
    match out.write(text) {
        Ok(()) => Status::Done,
        Err(_) => Status::WriteFault,
    }
}

/// What is printed of a text that has a configuration, or its first fault.
fn good_text(alloc: Global, verbose: bool, text: &[u8]) -> Result<Bytes, ConfError>
    ensures ok { IfOk result (λ printed. PrintsConf verbose printed (configuration text.now)) }
    ensures err { IfErr result (IsFaultOf (configuration text.now)) }
{
    let conf = read_conf(alloc, text, TEXT_LIMIT)?;
    Ok(shown(alloc, verbose, &conf)?)
}

/// What is printed of a configuration.
fn shown(alloc: Global, verbose: bool, conf: &Conf) -> Result<Bytes, NoMemory>
    ensures { IfOk result (λ printed. printed ≡ good_text verbose conf.now) }
{
    let mut printed = if verbose {
        print(alloc, conf)?
    } else {
        Items::new(alloc)
    };
    printed.extend_from_slice(b"configuration OK\n")?;
    Ok(printed)
}
