ghost use Rattle.std.specs.Prelude.{◌≡◌, ◌++◌, OnOk, flat_map};
ghost use Rattle.conf_tree.specs.Canonical.{if_given, table_behind, rib_line, range_text, roa_text, range_line, number_line, roa_line, set_head, prefix_set_text, as_set_text, origin_set_text, roa_set_text, network_line, sets_text};

use crate::items::print_set_behind;
use crate::printed::Printed;
use conf_tree::{AsSetConf, Conf, Network, OriginSetConf, PrefixRange, PrefixSetConf, Rib};
use net_base::{NoMemory, Roa};

fn print_table_behind(text: &mut Printed, table: Option<u8>) -> Result<(), NoMemory>
    ensures { OnOk result (text.new ≡ text.old ++ if_given table_behind table) }
{
    match table {
        Some(table) => write!(text, " rtable {table}"),
        None => Ok(()),
    }
}

#[tactic(auto, unfolding(conf_tree::specs::Canonical::rib_line))]
fn print_rib(text: &mut Printed, rib: &Rib) -> Result<(), NoMemory>
    ensures { OnOk result (text.new ≡ text.old ++ rib_line rib.now) }
{
    text.push(b"rde rib ")?;
    text.push(rib.name.as_slice())?;
    print_table_behind(text, rib.table)?;
    text.push(b"\n")
}

/// The RIBs beside Loc-RIB.
pub fn print_ribs(text: &mut Printed, ribs: &[Rib]) -> Result<(), NoMemory>
    ensures { OnOk result (text.new ≡ text.old ++ flat_map rib_line ribs.now) }
{
    for rib in ribs {
        print_rib(text, rib)?;
    }
    Ok(())
}

/// A prefix and the lengths that are meant.
#[tactic(auto, unfolding(conf_tree::specs::Canonical::range_text))]
pub fn print_range(text: &mut Printed, range: PrefixRange) -> Result<(), NoMemory>
    ensures { OnOk result (text.new ≡ text.old ++ range_text range) }
{
    write!(
        text,
        "{} prefixlen {} - {}",
        range.prefix, range.low, range.high
    )
}

#[tactic(auto, unfolding(conf_tree::specs::Canonical::roa_text))]
fn print_roa(text: &mut Printed, roa: Roa) -> Result<(), NoMemory>
    ensures { OnOk result (text.new ≡ text.old ++ roa_text roa) }
{
    write!(
        text,
        "{} maxlen {} source-as {}",
        roa.prefix, roa.maxlen, roa.source
    )
}

fn print_range_line(text: &mut Printed, range: PrefixRange) -> Result<(), NoMemory>
    ensures { OnOk result (text.new ≡ text.old ++ range_line range) }
{
    text.push(b"\t")?;
    print_range(text, range)?;
    text.push(b"\n")
}

fn print_roa_line(text: &mut Printed, roa: Roa) -> Result<(), NoMemory>
    ensures { OnOk result (text.new ≡ text.old ++ roa_line roa) }
{
    text.push(b"\t")?;
    print_roa(text, roa)?;
    text.push(b"\n")
}

fn print_ranges(text: &mut Printed, entries: &[PrefixRange]) -> Result<(), NoMemory>
    ensures { OnOk result (text.new ≡ text.old ++ flat_map range_line entries.now) }
{
    for entry in entries {
        print_range_line(text, *entry)?;
    }
    Ok(())
}

fn print_numbers(text: &mut Printed, numbers: &[u32]) -> Result<(), NoMemory>
    ensures { OnOk result (text.new ≡ text.old ++ flat_map number_line numbers.now) }
{
    for number in numbers {
        write!(text, "\t{number}\n")?;
    }
    Ok(())
}

fn print_roas(text: &mut Printed, entries: &[Roa]) -> Result<(), NoMemory>
    ensures { OnOk result (text.new ≡ text.old ++ flat_map roa_line entries.now) }
{
    for entry in entries {
        print_roa_line(text, *entry)?;
    }
    Ok(())
}

/// The first line of a set.
#[tactic(auto, unfolding(conf_tree::specs::Canonical::set_head))]
fn print_set_head(text: &mut Printed, kind: &str, name: &[u8]) -> Result<(), NoMemory>
    ensures { OnOk result (text.new ≡ text.old ++ set_head kind.now name.now) }
{
    text.push(kind.as_bytes())?;
    text.push(b" ")?;
    text.push(name)?;
    text.push(b" {\n")
}

#[tactic(auto, unfolding(conf_tree::specs::Canonical::prefix_set_text))]
fn print_prefix_set(text: &mut Printed, set: &PrefixSetConf) -> Result<(), NoMemory>
    ensures { OnOk result (text.new ≡ text.old ++ prefix_set_text set.now) }
{
    print_set_head(text, "prefix-set", set.name.as_slice())?;
    print_ranges(text, set.entries.as_slice())?;
    text.push(b"}\n")
}

#[tactic(auto, unfolding(conf_tree::specs::Canonical::as_set_text))]
fn print_as_set(text: &mut Printed, set: &AsSetConf) -> Result<(), NoMemory>
    ensures { OnOk result (text.new ≡ text.old ++ as_set_text set.now) }
{
    print_set_head(text, "as-set", set.name.as_slice())?;
    print_numbers(text, set.numbers.as_slice())?;
    text.push(b"}\n")
}

#[tactic(auto, unfolding(conf_tree::specs::Canonical::origin_set_text))]
fn print_origin_set(text: &mut Printed, set: &OriginSetConf) -> Result<(), NoMemory>
    ensures { OnOk result (text.new ≡ text.old ++ origin_set_text set.now) }
{
    print_set_head(text, "origin-set", set.name.as_slice())?;
    print_roas(text, set.entries.as_slice())?;
    text.push(b"}\n")
}

fn print_prefix_sets(text: &mut Printed, sets: &[PrefixSetConf]) -> Result<(), NoMemory>
    ensures { OnOk result (text.new ≡ text.old ++ flat_map prefix_set_text sets.now) }
{
    for set in sets {
        print_prefix_set(text, set)?;
    }
    Ok(())
}

fn print_as_sets(text: &mut Printed, sets: &[AsSetConf]) -> Result<(), NoMemory>
    ensures { OnOk result (text.new ≡ text.old ++ flat_map as_set_text sets.now) }
{
    for set in sets {
        print_as_set(text, set)?;
    }
    Ok(())
}

fn print_origin_sets(text: &mut Printed, sets: &[OriginSetConf]) -> Result<(), NoMemory>
    ensures { OnOk result (text.new ≡ text.old ++ flat_map origin_set_text sets.now) }
{
    for set in sets {
        print_origin_set(text, set)?;
    }
    Ok(())
}

/// The roa-set, and nothing where it has no entries.
fn print_roa_set(text: &mut Printed, roas: &[Roa]) -> Result<(), NoMemory>
    ensures { OnOk result (text.new ≡ text.old ++ roa_set_text roas.now) }
{
    if roas.is_empty() {
        return Ok(());
    }
    text.push(b"roa-set {\n")?;
    print_roas(text, roas)?;
    text.push(b"}\n")
}

/// The sets of each kind, and the roa-set.
#[tactic(auto, unfolding(conf_tree::specs::Canonical::sets_text))]
pub fn print_sets(text: &mut Printed, conf: &Conf) -> Result<(), NoMemory>
    ensures { OnOk result (text.new ≡ text.old ++ sets_text conf.now) }
{
    print_prefix_sets(text, conf.prefix_sets.as_slice())?;
    print_as_sets(text, conf.as_sets.as_slice())?;
    print_origin_sets(text, conf.origin_sets.as_slice())?;
    print_roa_set(text, conf.roas.as_slice())
}

#[tactic(auto, unfolding(conf_tree::specs::Canonical::network_line))]
fn print_network(text: &mut Printed, network: &Network) -> Result<(), NoMemory>
    ensures { OnOk result (text.new ≡ text.old ++ network_line network.now) }
{
    write!(text, "network {}", network.prefix)?;
    print_set_behind(text, network.set.as_slice())?;
    text.push(b"\n")
}

/// The networks.
pub fn print_networks(text: &mut Printed, networks: &[Network]) -> Result<(), NoMemory>
    ensures { OnOk result (text.new ≡ text.old ++ flat_map network_line networks.now) }
{
    for network in networks {
        print_network(text, network)?;
    }
    Ok(())
}
