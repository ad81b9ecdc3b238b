ghost use Rattle.std.specs.Prelude.{◌≡◌, ◌++◌, OnOk, IfOk, flat_map};
ghost use Rattle.std.specs.List.{filter};
ghost use Rattle.conf_tree.specs.Canonical.{is_alone, is_of_group, with_name, group_names, neighbour_text, group_text, neighbours_text};

use crate::neighbours::print_neighbour;
use crate::printed::Printed;
use crate::words::print_quoted;
use conf_tree::{Conf, Neighbour, Text};
use net_base::NoMemory;
use std::alloc::Global;
use std::collections::BTreeSet;

fn is_alone(neighbour: &Neighbour) -> bool
    ensures { result ≡ is_alone neighbour.now }
{
    neighbour.group.is_none()
}

fn is_of_group(neighbour: &Neighbour, name: &[u8]) -> bool
    ensures { result ≡ is_of_group name.now neighbour.now }
{
    match &neighbour.group {
        Some(group) => group.as_slice() == name,
        None => false,
    }
}

/// The neighbours that stand in no group.
fn print_alone(text: &mut Printed, conf: &Conf) -> Result<(), NoMemory>
    ensures { OnOk result (text.new ≡ text.old ++ flat_map (neighbour_text conf.now) (filter is_alone conf.now.neighbours)) }
{
    for neighbour in conf.neighbours.as_slice() {
        if is_alone(neighbour) {
            print_neighbour(text, conf, neighbour)?;
        }
    }
    Ok(())
}

/// The neighbours of a group.
fn print_members(text: &mut Printed, conf: &Conf, name: &[u8]) -> Result<(), NoMemory>
    ensures { OnOk result (text.new ≡ text.old ++ flat_map (neighbour_text conf.now) (filter (is_of_group name.now) conf.now.neighbours)) }
{
    for neighbour in conf.neighbours.as_slice() {
        if is_of_group(neighbour, name) {
            print_neighbour(text, conf, neighbour)?;
        }
    }
    Ok(())
}

/// Puts the name of a group among the others, if there is one.
fn add_name(names: &mut BTreeSet<Text>, group: &Option<Text>) -> Result<(), NoMemory>
    ensures { OnOk result (names.new.keys ≡ with_name names.old.keys group.now) }
{
    if let Some(name) = group {
        names.insert(name.clone()?)?;
    }
    Ok(())
}

/// The names of the groups, each once, by their bytes.
#[tactic(auto, unfolding(conf_tree::specs::Canonical::group_names))]
fn group_names(alloc: Global, neighbours: &[Neighbour]) -> Result<BTreeSet<Text>, NoMemory>
    ensures { IfOk result (λ names. names.keys ≡ group_names neighbours.now) }
{
    let mut names = BTreeSet::new(alloc);
    for neighbour in neighbours {
        add_name(&mut names, &neighbour.group)?;
    }
    Ok(names)
}

#[tactic(auto, unfolding(conf_tree::specs::Canonical::group_text))]
fn print_group(text: &mut Printed, conf: &Conf, name: &[u8]) -> Result<(), NoMemory>
    ensures { OnOk result (text.new ≡ text.old ++ group_text conf.now name.now) }
{
    text.push(b"group ")?;
    print_quoted(text, name)?;
    text.push(b" {\n")?;
    print_members(text, conf, name)?;
    text.push(b"}\n")
}

fn print_groups(text: &mut Printed, conf: &Conf, names: &BTreeSet<Text>) -> Result<(), NoMemory>
    ensures { OnOk result (text.new ≡ text.old ++ flat_map (group_text conf.now) names.now.keys) }
{
    for name in names {
        print_group(text, conf, name.as_slice())?;
    }
    Ok(())
}

/// The neighbours without a group, and then each group by name.
#[tactic(auto, unfolding(conf_tree::specs::Canonical::neighbours_text))]
pub fn print_neighbours(alloc: Global, text: &mut Printed, conf: &Conf) -> Result<(), NoMemory>
    ensures { OnOk result (text.new ≡ text.old ++ neighbours_text conf.now) }
{
    print_alone(text, conf)?;
    let names = group_names(alloc, conf.neighbours.as_slice())?;
    print_groups(text, conf, &names)
}
