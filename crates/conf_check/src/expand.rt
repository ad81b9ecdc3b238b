//! The configuration of a text that passes the checks.
ghost use Rattle.std.specs.Prelude.{◌≡◌, IfOk};
ghost use Rattle.conf_tree.specs.Checks.{checked};
ghost use Rattle.conf_tree.specs.Gives.{Gives};
ghost use Rattle.conf_check.specs.Names.{HasOrderedSets};
ghost use Rattle.conf_check.specs.Expand.{expanded};

use crate::faults::first_fault;
use crate::frame::frame;
use crate::neighbours::neighbours;
use crate::placed::{PlacedNeighbour, placed};
use crate::rules::rules;
use conf_tree::{Conf, Draft, StatementLine};
use net_base::{ConfError, NoMemory};
use std::alloc::Global;

/// The configuration that a text stands for, or the first fault of its checks.
///
/// The checks go in this order, each over the whole text before the next. `NoAs`, then `NoRouterId`, come at
/// line 0 where the text has no own AS or no identifier. `DoubleName` comes at the first RIB, set, group or
/// kernel table whose name an earlier one of its kind has; Loc-RIB is taken. `DoubleNeighbour` comes at the first
/// neighbour whose address an earlier one has. `NoAs` comes at the first neighbour that has no AS, of its own or
/// of its group. `UnknownName` comes at the first neighbour or rule that names a RIB, set or group that there
/// isn't; a group without neighbours is none. `FamilyMismatch` comes at the first neighbour whose
/// `local-address` is of another family than its address. `NoMemory` says nothing of the text.
pub fn check(alloc: Global, draft: Draft) -> Result<Conf, ConfError>
    ensures { Gives (λ conf. conf) result (checked draft) }
{
    check_lines(alloc, draft.statements.as_slice())
}

#[tactic(auto, unfolding(conf_tree::specs::Checks::checked), using(crate::proofs::Whole::fault_seen, crate::proofs::Whole::expanded_seen))]
fn check_lines(alloc: Global, lines: &[StatementLine]) -> Result<Conf, ConfError>
    ensures { Gives (λ conf. conf) result (checked (record { statements = lines.now })) }
{
    let conf = frame(alloc, lines)?;
    let all = placed(alloc, lines)?;
    if let Some(fault) = first_fault(alloc, lines, &conf, &all)? {
        return Err(ConfError::Fault(fault));
    }
    Ok(expanded(alloc, conf, lines, all)?)
}

/// The configuration with its flat neighbours and rules.
#[tactic(auto, unfolding(crate::specs::Expand::expanded))]
fn expanded(
    alloc: Global,
    conf: Conf,
    lines: &[StatementLine],
    all: Vec<PlacedNeighbour>,
) -> Result<Conf, NoMemory>
    requires { HasOrderedSets conf }
    ensures { IfOk result (λ whole. whole ≡ expanded conf lines.now all.items) }
{
    let mut whole = conf;
    let neighbours = neighbours(alloc, &whole, all)?;
    let rules = rules(alloc, &whole, lines)?;
    whole.neighbours = neighbours;
    whole.rules = rules;
    Ok(whole)
}
