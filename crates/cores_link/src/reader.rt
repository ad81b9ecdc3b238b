//! The configuration that the text of a `reload` brings.

ghost use Rattle.std.specs.Prelude.{◌≡◌, not, find, option_map};
ghost use Rattle.conf_tree.specs.Gives.{Gives};
ghost use Rattle.run_record.specs.Taken.{is_built, first_not_built, unless_not_built, taken_of, taken};

use conf_check::check;
use conf_tree::{Conf, Draft, Statement, StatementLine};
use net_base::{ConfError, ConfFault, ConfKind};
use reload_stage::{TEXT_LIMIT, read_draft};
use std::alloc::Global;

/// Reads the text of a `reload`.
///
/// The error is the first fault of the text; `NotBuilt` at the first statement that isn't built yet, for a text
/// that has a configuration; or `NoMemory`.
#[tactic(auto, unfolding(run_record::specs::Taken::taken))]
pub fn read(alloc: Global, text: &[u8]) -> Result<Conf, ConfError>
    ensures { Gives (λ conf. conf) result (taken text.now) }
{
    let draft = read_draft(alloc, text, TEXT_LIMIT)?;
    taken_of(alloc, draft)
}

/// The configuration that a draft brings.
#[tactic(auto, unfolding(run_record::specs::Taken::taken_of))]
fn taken_of(alloc: Global, draft: Draft) -> Result<Conf, ConfError>
    ensures { Gives (λ conf. conf) result (taken_of draft) }
{
    let not_built = first_not_built(draft.statements.as_slice());
    let conf = check(alloc, draft)?;
    match not_built {
        None => Ok(conf),
        Some(line) => Err(ConfError::Fault(ConfFault {
            line,
            kind: ConfKind::NotBuilt,
        })),
    }
}

/// The line of the first statement that isn't built yet.
fn first_not_built(statements: &[StatementLine]) -> Option<u32>
    ensures { result ≡ first_not_built statements.now }
{
    match statements.iter().find(|line| !is_built(&line.statement)) {
        Some(found) => Some(found.line),
        None => None,
    }
}

/// Whether the speaker takes a statement.
fn is_built(statement: &Statement) -> bool
    ensures { result ≡ is_built statement.now }
{
    match statement {
        Statement::As(_)
        | Statement::RouterId(_)
        | Statement::FibUpdate(_)
        | Statement::Socket(_)
        | Statement::Listen(_) => true,
        Statement::Network(_, set) => set.is_empty(),
        _ => false,
    }
}
