ghost use Rattle.std.specs.Prelude.{◌≡◌, ◌++◌, OnOk, codes};
ghost use Rattle.conf_tree.specs.Canonical.{if_set, if_given, unicast, remote_as_line, port_line, local_address_line, descr_line, multihop_line, way_options, link_options, hold_options, families_options, capability_options, open_options, max_prefix_line, rib_option, set_option, route_options, neighbour_text};

use crate::items::print_set;
use crate::printed::Printed;
use crate::words::{print_quoted, print_rib_name, yes_no};
use conf_tree::{Conf, Item, Neighbour, Text};
use net_base::{Addr, NoMemory};

#[tactic(auto, unfolding(conf_tree::specs::Canonical::remote_as_line))]
fn print_remote_as(text: &mut Printed, asn: u32) -> Result<(), NoMemory>
    ensures { OnOk result (text.new ≡ text.old ++ remote_as_line asn) }
{
    write!(text, "\tremote-as {asn}\n")
}

#[tactic(auto, unfolding(conf_tree::specs::Canonical::port_line))]
fn print_port(text: &mut Printed, port: u16) -> Result<(), NoMemory>
    ensures { OnOk result (text.new ≡ text.old ++ port_line port) }
{
    write!(text, "\tport {port}\n")
}

fn print_local_address(text: &mut Printed, address: Option<Addr>) -> Result<(), NoMemory>
    ensures { OnOk result (text.new ≡ text.old ++ if_given local_address_line address) }
{
    match address {
        Some(address) => write!(text, "\tlocal-address {address}\n"),
        None => Ok(()),
    }
}

fn print_description(text: &mut Printed, description: &Option<Text>) -> Result<(), NoMemory>
    ensures { OnOk result (text.new ≡ text.old ++ if_given descr_line description.now) }
{
    match description {
        Some(description) => {
            text.push(b"\tdescr ")?;
            print_quoted(text, description.as_slice())?;
            text.push(b"\n")
        }
        None => Ok(()),
    }
}

fn print_passive(text: &mut Printed, passive: bool) -> Result<(), NoMemory>
    ensures { OnOk result (text.new ≡ text.old ++ if_set passive (codes "\tpassive\n")) }
{
    if passive {
        text.push(b"\tpassive\n")
    } else {
        Ok(())
    }
}

fn print_down(text: &mut Printed, down: bool) -> Result<(), NoMemory>
    ensures { OnOk result (text.new ≡ text.old ++ if_set down (codes "\tdown\n")) }
{
    if down { text.push(b"\tdown\n") } else { Ok(()) }
}

fn print_multihop(text: &mut Printed, hops: Option<u8>) -> Result<(), NoMemory>
    ensures { OnOk result (text.new ≡ text.old ++ if_given multihop_line hops) }
{
    match hops {
        Some(hops) => write!(text, "\tmultihop {hops}\n"),
        None => Ok(()),
    }
}

/// The options from `passive` to `multihop`.
#[tactic(auto, unfolding(conf_tree::specs::Canonical::way_options))]
fn print_way(text: &mut Printed, neighbour: &Neighbour) -> Result<(), NoMemory>
    ensures { OnOk result (text.new ≡ text.old ++ way_options neighbour.now) }
{
    print_passive(text, neighbour.passive)?;
    print_down(text, neighbour.down)?;
    print_multihop(text, neighbour.multihop)
}

/// The options from `remote-as` to `multihop`.
#[tactic(auto, unfolding(conf_tree::specs::Canonical::link_options))]
fn print_link(text: &mut Printed, neighbour: &Neighbour) -> Result<(), NoMemory>
    ensures { OnOk result (text.new ≡ text.old ++ link_options neighbour.now) }
{
    print_remote_as(text, neighbour.remote_as)?;
    print_local_address(text, neighbour.local_address)?;
    print_description(text, &neighbour.description)?;
    print_port(text, neighbour.port)?;
    print_way(text, neighbour)
}

fn unicast(announced: bool) -> &'static str
    ensures { result.now ≡ unicast announced }
{
    if announced { "unicast" } else { "none" }
}

fn print_hold_times(text: &mut Printed, hold: u16, least: u16) -> Result<(), NoMemory>
    ensures { OnOk result (text.new ≡ text.old ++ hold_options hold least) }
{
    write!(text, "\tholdtime {hold}\n\tholdtime min {least}\n")
}

fn print_families(text: &mut Printed, v4: bool, v6: bool) -> Result<(), NoMemory>
    ensures { OnOk result (text.new ≡ text.old ++ families_options v4 v6) }
{
    write!(
        text,
        "\tannounce IPv4 {}\n\tannounce IPv6 {}\n",
        unicast(v4),
        unicast(v6)
    )
}

fn print_capabilities(text: &mut Printed, refresh: bool, as_4byte: bool) -> Result<(), NoMemory>
    ensures { OnOk result (text.new ≡ text.old ++ capability_options refresh as_4byte) }
{
    write!(
        text,
        "\tannounce refresh {}\n\tannounce as-4byte {}\n",
        yes_no(refresh),
        yes_no(as_4byte)
    )
}

/// The options from `holdtime` to `announce as-4byte`.
#[tactic(auto, unfolding(conf_tree::specs::Canonical::open_options))]
fn print_open(text: &mut Printed, neighbour: &Neighbour) -> Result<(), NoMemory>
    ensures { OnOk result (text.new ≡ text.old ++ open_options neighbour.now) }
{
    print_hold_times(text, neighbour.hold, neighbour.hold_min)?;
    print_families(text, neighbour.announce_v4, neighbour.announce_v6)?;
    print_capabilities(
        text,
        neighbour.announce_refresh,
        neighbour.announce_as_4byte,
    )
}

fn print_max_prefix(text: &mut Printed, most: Option<u32>) -> Result<(), NoMemory>
    ensures { OnOk result (text.new ≡ text.old ++ if_given max_prefix_line most) }
{
    match most {
        Some(most) => write!(text, "\tmax-prefix {most}\n"),
        None => Ok(()),
    }
}

#[tactic(auto, unfolding(conf_tree::specs::Canonical::rib_option))]
fn print_rib(text: &mut Printed, conf: &Conf, rib: u8) -> Result<(), NoMemory>
    ensures { OnOk result (text.new ≡ text.old ++ rib_option conf.now rib) }
{
    text.push(b"\trib ")?;
    print_rib_name(text, conf, rib)?;
    text.push(b"\n")
}

fn print_set_option(text: &mut Printed, set: &[Item]) -> Result<(), NoMemory>
    ensures { OnOk result (text.new ≡ text.old ++ set_option set.now) }
{
    if set.is_empty() {
        return Ok(());
    }
    text.push(b"\t")?;
    print_set(text, set)?;
    text.push(b"\n")
}

/// The options from `max-prefix` to `set`.
#[tactic(auto, unfolding(conf_tree::specs::Canonical::route_options))]
fn print_routes(text: &mut Printed, conf: &Conf, neighbour: &Neighbour) -> Result<(), NoMemory>
    ensures { OnOk result (text.new ≡ text.old ++ route_options conf.now neighbour.now) }
{
    print_max_prefix(text, neighbour.max_prefix)?;
    print_rib(text, conf, neighbour.rib)?;
    print_set_option(text, neighbour.set.as_slice())
}

/// A neighbour with its options in the order of the grammar.
#[tactic(auto, unfolding(conf_tree::specs::Canonical::neighbour_text))]
pub fn print_neighbour(
    text: &mut Printed,
    conf: &Conf,
    neighbour: &Neighbour,
) -> Result<(), NoMemory>
    ensures { OnOk result (text.new ≡ text.old ++ neighbour_text conf.now neighbour.now) }
{
    write!(text, "neighbor {} {{\n", neighbour.address)?;
    print_link(text, neighbour)?;
    print_open(text, neighbour)?;
    print_routes(text, conf, neighbour)?;
    text.push(b"}\n")
}
