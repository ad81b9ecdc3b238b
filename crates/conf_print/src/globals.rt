ghost use Rattle.std.specs.Prelude.{◌≡◌, ◌++◌, OnOk, flat_map, codes};
ghost use Rattle.conf_tree.specs.Canonical.{as_line, router_id_line, hold_line, hold_min_line, fib_update_line, qualify_line, med_line, socket_line, listen_line, globals_text};

use crate::printed::Printed;
use crate::words::{print_quoted, yes_no};
use conf_tree::{Conf, Listen};
use net_base::{Addr, Family, NoMemory};

#[tactic(auto, unfolding(conf_tree::specs::Canonical::router_id_line))]
fn print_router_id(text: &mut Printed, bits: u32) -> Result<(), NoMemory>
    ensures { OnOk result (text.new ≡ text.old ++ router_id_line bits) }
{
    let address = Addr {
        family: Family::V4,
        bits: u128::from(bits),
    };
    write!(text, "router-id {address}\n")
}

#[tactic(auto, unfolding(conf_tree::specs::Canonical::hold_line, conf_tree::specs::Canonical::hold_min_line))]
fn print_hold_times(text: &mut Printed, hold: u16, least: u16) -> Result<(), NoMemory>
    ensures { OnOk result (text.new ≡ text.old ++ (hold_line hold ++ hold_min_line least)) }
{
    write!(text, "holdtime {hold}\nholdtime min {least}\n")
}

#[tactic(auto, unfolding(conf_tree::specs::Canonical::qualify_line))]
fn print_qualify(text: &mut Printed, qualifies: bool) -> Result<(), NoMemory>
    ensures { OnOk result (text.new ≡ text.old ++ qualify_line qualifies) }
{
    if qualifies {
        text.push(b"nexthop qualify via default\n")
    } else {
        Ok(())
    }
}

#[tactic(auto, unfolding(conf_tree::specs::Canonical::med_line))]
fn print_med(text: &mut Printed, always: bool) -> Result<(), NoMemory>
    ensures { OnOk result (text.new ≡ text.old ++ med_line always) }
{
    if always {
        text.push(b"rde med compare always\n")
    } else {
        text.push(b"rde med compare strict\n")
    }
}

#[tactic(auto, unfolding(conf_tree::specs::Canonical::socket_line))]
fn print_socket(text: &mut Printed, path: &[u8]) -> Result<(), NoMemory>
    ensures { OnOk result (text.new ≡ text.old ++ socket_line path.now) }
{
    text.push(b"socket ")?;
    print_quoted(text, path)?;
    text.push(b"\n")
}

#[tactic(auto, unfolding(conf_tree::specs::Canonical::listen_line))]
fn print_listen(text: &mut Printed, listen: Listen) -> Result<(), NoMemory>
    ensures { OnOk result (text.new ≡ text.old ++ listen_line listen) }
{
    write!(text, "listen on {} port {}\n", listen.address, listen.port)
}

fn print_listens(text: &mut Printed, listens: &[Listen]) -> Result<(), NoMemory>
    ensures { OnOk result (text.new ≡ text.old ++ flat_map listen_line listens.now) }
{
    for listen in listens {
        print_listen(text, *listen)?;
    }
    Ok(())
}

#[tactic(auto, unfolding(conf_tree::specs::Canonical::as_line))]
fn print_as(text: &mut Printed, asn: u32) -> Result<(), NoMemory>
    ensures { OnOk result (text.new ≡ text.old ++ as_line asn) }
{
    write!(text, "AS {asn}\n")
}

#[tactic(auto, unfolding(conf_tree::specs::Canonical::fib_update_line))]
fn print_fib_update(text: &mut Printed, updates: bool) -> Result<(), NoMemory>
    ensures { OnOk result (text.new ≡ text.old ++ fib_update_line updates) }
{
    write!(text, "fib-update {}\n", yes_no(updates))
}

/// The lines of the values that a configuration has once.
#[tactic(auto, unfolding(conf_tree::specs::Canonical::globals_text))]
pub fn print_globals(text: &mut Printed, conf: &Conf) -> Result<(), NoMemory>
    ensures { OnOk result (text.new ≡ text.old ++ globals_text conf.now) }
{
    print_as(text, conf.asn)?;
    print_router_id(text, conf.router_id)?;
    print_hold_times(text, conf.hold, conf.hold_min)?;
    print_fib_update(text, conf.fib_update)?;
    print_qualify(text, conf.qualify_default)?;
    print_med(text, conf.med_always)?;
    print_socket(text, conf.socket.as_slice())?;
    print_listens(text, conf.listen.as_slice())
}
