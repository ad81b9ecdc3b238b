ghost use Rattle.std.specs.Prelude.{◌≡◌, ◌++◌, IfOk, OnOk, flat_map};
ghost use Rattle.ctl_show.specs.Shown.{shown, shown_line};

use core_msgs::{CtlCommand, Row, RowList, print_route, print_summary};
use net_base::{Bytes, Items, NoMemory};
use std::alloc::Global;

/// The rows of a show, each as the command shows it and with its LF.
pub fn show(alloc: Global, rows: &RowList, command: &CtlCommand) -> Result<Bytes, NoMemory>
    ensures { IfOk result (λ text. text ≡ flat_map (shown_line command.now) rows.now) }
{
    let mut out = Items::new(alloc);
    print_rows(rows.as_slice(), command, &mut out)?;
    Ok(out)
}

fn print_rows(rows: &[Row], command: &CtlCommand, out: &mut Bytes) -> Result<(), NoMemory>
    ensures { OnOk result (out.new ≡ out.old ++ flat_map (shown_line command.now) rows.now) }
{
    for row in rows {
        print_row(row, command, out)?;
        out.push(b'\n')?;
    }
    Ok(())
}

/// Puts a row behind some bytes as the command shows it, without an LF.
fn print_row(row: &Row, command: &CtlCommand, out: &mut Bytes) -> Result<(), NoMemory>
    ensures { OnOk result (out.new ≡ out.old ++ shown command.now row.now) }
{
    match (command, row) {
        (
            CtlCommand::ShowSummary,
            Row::Neighbour {
                peer,
                asn,
                state,
                ..
            },
        ) => print_summary(out, *peer, *asn, *state),
        (CtlCommand::ShowRibOut, Row::Route(route)) => print_route(out, "to", route),
        _ => row.print(out),
    }
}
