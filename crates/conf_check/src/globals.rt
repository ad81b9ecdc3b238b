//! The global statements of a text; of a repeated one the last holds.
ghost use Rattle.std.specs.Prelude.{◌≡◌, option_copied};
ghost use Rattle.conf_tree.specs.Said.{last_said, socket_of};

use conf_tree::{Statement, StatementLine, Text};

/// What the global statements say, where there are such.
#[derive(Clone, Copy, Debug)]
pub(crate) struct Globals {
    pub(crate) asn: Option<u32>,
    pub(crate) router_id: Option<u32>,
    pub(crate) hold: Option<u16>,
    pub(crate) hold_min: Option<u16>,
    pub(crate) fib_update: Option<bool>,
    pub(crate) qualify_default: Option<bool>,
    pub(crate) med_always: Option<bool>,
}

impl Globals {
    ghost use Rattle.conf_check.specs.Globals.{globals_of};

    /// The globals of a text; of a repeated one the last holds.
    pub(crate) fn of(lines: &[StatementLine]) -> Globals
        ensures { result ≡ globals_of lines.now }
    {
        let mut globals = Globals {
            asn: None,
            router_id: None,
            hold: None,
            hold_min: None,
            fib_update: None,
            qualify_default: None,
            med_always: None,
        };
        for line in lines {
            match &line.statement {
                Statement::As(asn) => globals.asn = Some(*asn),
                Statement::RouterId(id) => globals.router_id = Some(*id),
                Statement::Hold(seconds) => globals.hold = Some(*seconds),
                Statement::HoldMin(seconds) => globals.hold_min = Some(*seconds),
                Statement::FibUpdate(on) => globals.fib_update = Some(*on),
                Statement::QualifyDefault => globals.qualify_default = Some(true),
                Statement::MedCompare(always) => globals.med_always = Some(*always),
                _ => {}
            }
        }
        globals
    }
}

/// The path of the control socket, where the text has one.
pub(crate) fn socket(lines: &[StatementLine]) -> Option<&Text>
    ensures { option_copied result ≡ last_said socket_of lines.now }
{
    let mut last = None;
    for line in lines {
        if let Statement::Socket(path) = &line.statement {
            last = Some(path);
        }
    }
    last
}
