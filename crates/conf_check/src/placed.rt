//! The neighbours of a text with the options that hold for them, in the order of the text.
ghost use Rattle.std.specs.Prelude.{◌≡◌, ◌++◌, ◌∷◌, [], None, Some, IfOk, OnOk, map, option_copied};
ghost use Rattle.conf_tree.specs.Flat.{placed, placed_in};
ghost use Rattle.conf_check.specs.Options.{no_settings};
ghost use Rattle.conf_check.specs.Placed.{seen, placed_with, members_of};

use crate::options::{Settings, copied};
use conf_tree::{GroupBlock, NeighbourBlock, Statement, StatementLine, Text};
use net_base::{Addr, NoMemory};
use std::alloc::Global;

/// A neighbour of the text, with its own options and those of its group.
#[derive(Debug, Drop)]
pub(crate) struct PlacedNeighbour {
    /// The line of the word `neighbor`.
    pub(crate) line: u32,
    pub(crate) address: Addr,
    /// The name of its group, if it stands in one.
    pub(crate) group: Option<Text>,
    pub(crate) settings: Settings,
}

impl PlacedNeighbour {
    #[tactic(auto, unfolding(crate::specs::Placed::placed_with))]
    fn new(
        alloc: Global,
        group: Option<&Text>,
        shared: &Settings,
        block: &NeighbourBlock,
    ) -> Result<PlacedNeighbour, NoMemory>
        ensures { IfOk result (λ n. n ≡ placed_with (option_copied group.entry) shared.now block.now) }
    {
        let own = Settings::of(alloc, block.options.as_slice())?;
        Ok(PlacedNeighbour {
            line: block.line,
            address: block.address,
            group: copied(alloc, group)?,
            settings: own.or(alloc, shared)?,
        })
    }
}

/// The neighbours of a text, with the options that hold for them.
#[tactic(auto, unfolding(conf_tree::specs::Flat::placed))]
pub(crate) fn placed(
    alloc: Global,
    lines: &[StatementLine],
) -> Result<Vec<PlacedNeighbour>, NoMemory>
    ensures { IfOk result (λ all. all.items ≡ map seen (placed lines.now)) }
{
    let mut all = Vec::new(alloc);
    for line in lines {
        place(alloc, &mut all, &line.statement)?;
    }
    Ok(all)
}

/// Adds the neighbours of a statement.
#[tactic(auto, using(crate::proofs::Places::members_seen))]
fn place(
    alloc: Global,
    all: &mut Vec<PlacedNeighbour>,
    statement: &Statement,
) -> Result<(), NoMemory>
    ensures { OnOk result (all.new.items ≡ all.old.items ++ map seen (placed_in statement.now)) }
{
    match statement {
        Statement::Neighbour(block) => place_one(alloc, all, block),
        Statement::Group(group) => place_members(alloc, all, group),
        _ => Ok(()),
    }
}

fn place_one(
    alloc: Global,
    all: &mut Vec<PlacedNeighbour>,
    block: &NeighbourBlock,
) -> Result<(), NoMemory>
    ensures { OnOk result (all.new.items ≡ all.old.items ++ placed_with None no_settings block.now ∷ []) }
{
    let shared = Settings::none();
    let placed = PlacedNeighbour::new(alloc, None, &shared, block)?;
    all.push(placed)?;
    Ok(())
}

fn place_members(
    alloc: Global,
    all: &mut Vec<PlacedNeighbour>,
    group: &GroupBlock,
) -> Result<(), NoMemory>
    ensures { OnOk result (all.new.items ≡ all.old.items ++ members_of group.now) }
{
    let shared = Settings::of(alloc, group.options.as_slice())?;
    for block in group.neighbours.as_slice() {
        place_member(alloc, all, &group.name, &shared, block)?;
    }
    Ok(())
}

fn place_member(
    alloc: Global,
    all: &mut Vec<PlacedNeighbour>,
    group: &Text,
    shared: &Settings,
    block: &NeighbourBlock,
) -> Result<(), NoMemory>
    ensures { OnOk result (all.new.items ≡ all.old.items ++ placed_with (Some group.now) shared.now block.now ∷ []) }
{
    let placed = PlacedNeighbour::new(alloc, Some(group), shared, block)?;
    all.push(placed)?;
    Ok(())
}
