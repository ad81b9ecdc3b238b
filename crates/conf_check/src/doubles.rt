//! Names, kernel tables and neighbours that come twice.
ghost use Rattle.std.specs.Prelude.{◌≡◌, ◌++◌, ◌∷◌, [], IfOk, OnOk, option_copied, option_map, map, bytes_eq, ◌==◌};
ghost use Rattle.std.specs.Ordering.{eq_by_cmp};
ghost use Rattle.conf_tree.specs.Checks.{double_name, double_of, double_rib, double_table, fault_at, first_double, first_line, named, same_addr};
ghost use Rattle.conf_check.specs.Doubles.{name_of, double_neighbour_in};

use crate::placed::PlacedNeighbour;
use conf_tree::{Statement, StatementLine, Text};
use net_base::{Addr, ConfFault, ConfKind, Items, NoMemory};
use std::alloc::Global;
use std::collections::BTreeSet;

/// What statements give names to. Names of two kinds have nothing to do with each other.
#[derive(Clone, Copy, Debug)]
pub(crate) enum NameKind {
    Rib,
    PrefixSet,
    AsSet,
    OriginSet,
    Group,
}

/// `DoubleName` at the first statement whose name or kernel table an earlier one has. Loc-RIB is taken from the start.
#[tactic(auto, unfolding(conf_tree::specs::Checks::double_name))]
pub(crate) fn double_name(
    alloc: Global,
    lines: &[StatementLine],
) -> Result<Option<ConfFault>, NoMemory>
    ensures { IfOk result (λ fault. fault ≡ double_name lines.now) }
{
    let rib = double_rib(alloc, lines)?;
    let table = double_table(alloc, lines)?;
    let prefix_set = double_of(alloc, NameKind::PrefixSet, lines)?;
    let as_set = double_of(alloc, NameKind::AsSet, lines)?;
    let origin_set = double_of(alloc, NameKind::OriginSet, lines)?;
    let group = double_of(alloc, NameKind::Group, lines)?;
    let set = first_line(
        prefix_set,
        first_line(as_set, first_line(origin_set, group)),
    );
    let line = first_line(rib, first_line(table, set));
    Ok(fault_at(ConfKind::DoubleName, line))
}

/// `DoubleNeighbour` at the first neighbour whose address an earlier one has.
#[tactic(auto, unfolding(crate::specs::Doubles::double_neighbour_in))]
pub(crate) fn double_neighbour(
    alloc: Global,
    all: &[PlacedNeighbour],
) -> Result<Option<ConfFault>, NoMemory>
    ensures { IfOk result (λ fault. fault ≡ double_neighbour_in all.now) }
{
    let addresses = addresses(alloc, all)?;
    let line = double_address(alloc, addresses)?;
    Ok(fault_at(ConfKind::DoubleNeighbour, line))
}

/// A fault at a line, where there is one.
pub(crate) fn fault_at(kind: ConfKind, line: Option<u32>) -> Option<ConfFault>
    ensures { result ≡ option_map (fault_at kind) line }
{
    match line {
        Some(line) => Some(ConfFault { line, kind }),
        None => None,
    }
}

/// The lesser of two lines.
pub(crate) fn first_line(a: Option<u32>, b: Option<u32>) -> Option<u32>
    ensures { result ≡ first_line a b }
{
    match (a, b) {
        (None, b) => b,
        (Some(a), None) => Some(a),
        (Some(a), Some(b)) => Some(if a <= b { a } else { b }),
    }
}

fn double_rib(alloc: Global, lines: &[StatementLine]) -> Result<Option<u32>, NoMemory>
    ensures { IfOk result (λ line. line ≡ double_rib lines.now) }
{
    let mut names = Vec::new(alloc);
    names.push((0, Items::from_slice(alloc, b"Loc-RIB".as_slice())?))?;
    add_named(alloc, &mut names, NameKind::Rib, lines)?;
    double_text(alloc, names)
}

fn double_of(
    alloc: Global,
    kind: NameKind,
    lines: &[StatementLine],
) -> Result<Option<u32>, NoMemory>
    ensures { IfOk result (λ line. line ≡ double_of (name_of kind) lines.now) }
{
    let mut names = Vec::new(alloc);
    add_named(alloc, &mut names, kind, lines)?;
    double_text(alloc, names)
}

fn double_table(alloc: Global, lines: &[StatementLine]) -> Result<Option<u32>, NoMemory>
    ensures { IfOk result (λ line. line ≡ double_table lines.now) }
{
    let mut tables = Vec::new(alloc);
    for line in lines {
        if let Statement::Rib(_, Some(table)) = &line.statement {
            tables.push((line.line, *table))?;
        }
    }
    double_number(alloc, tables)
}

/// Adds the names of one kind, with the lines of their statements.
fn add_named(
    alloc: Global,
    names: &mut Vec<(u32, Text)>,
    kind: NameKind,
    lines: &[StatementLine],
) -> Result<(), NoMemory>
    ensures { OnOk result (names.new.items ≡ names.old.items ++ named (name_of kind) lines.now) }
{
    for line in lines {
        if let Some(name) = name_of(kind, &line.statement) {
            let name = Items::from_slice(alloc, name.as_slice())?;
            names.push((line.line, name))?;
        }
    }
    Ok(())
}

/// The name that a statement gives to something of this kind.
fn name_of(kind: NameKind, statement: &Statement) -> Option<&Text>
    ensures { option_copied result ≡ name_of kind statement.now }
{
    match (kind, statement) {
        (NameKind::Rib, Statement::Rib(name, _)) => Some(name),
        (NameKind::PrefixSet, Statement::PrefixSet(name, _)) => Some(name),
        (NameKind::AsSet, Statement::AsSet(name, _)) => Some(name),
        (NameKind::OriginSet, Statement::OriginSet(name, _)) => Some(name),
        (NameKind::Group, Statement::Group(group)) => Some(&group.name),
        _ => None,
    }
}

fn addresses(alloc: Global, all: &[PlacedNeighbour]) -> Result<Vec<(u32, Addr)>, NoMemory>
    ensures { IfOk result (λ list. list.items ≡ map (λ n. (n.line, n.address)) all.now) }
{
    let mut list = Vec::new(alloc);
    for placed in all {
        list.push((placed.line, placed.address))?;
    }
    Ok(list)
}

fn double_text(alloc: Global, names: Vec<(u32, Text)>) -> Result<Option<u32>, NoMemory>
    ensures { IfOk result (λ line. line ≡ first_double bytes_eq names.items) }
{
    first_double(alloc, names)
}

#[tactic(auto, using(crate::proofs::Orders::number_same))]
fn double_number(alloc: Global, tables: Vec<(u32, u8)>) -> Result<Option<u32>, NoMemory>
    ensures { IfOk result (λ line. line ≡ first_double (λ a b. a == b) tables.items) }
{
    first_double(alloc, tables)
}

#[tactic(auto, using(crate::proofs::Orders::addr_same))]
fn double_address(alloc: Global, addresses: Vec<(u32, Addr)>) -> Result<Option<u32>, NoMemory>
    ensures { IfOk result (λ line. line ≡ first_double same_addr addresses.items) }
{
    first_double(alloc, addresses)
}

/// The line of the first name that comes twice, among names with their lines.
#[tactic(auto, unfolding(conf_tree::specs::Checks::first_double))]
fn first_double<K: Ord + Drop>(alloc: Global, names: Vec<(u32, K)>) -> Result<Option<u32>, NoMemory>
    ensures { IfOk result (λ line. line ≡ first_double (eq_by_cmp K.cmp) names.items) }
{
    let mut earlier = BTreeSet::new(alloc);
    for (line, name) in names {
        if !earlier.insert(name)? {
            return Ok(Some(line));
        }
    }
    Ok(None)
}
