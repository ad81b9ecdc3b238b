//! The parser of the configuration language: a list of tokens in, a draft or the first fault out.
#![tactic(auto)]

mod conditions;
mod cursor;
mod entries;
mod items;
mod lists;
mod names;
mod neighbours;
mod room;
mod rules;
mod sets;
mod settings;
mod statements;
mod values;

ghost use Rattle.std.specs.Prelude.{◌≡◌};
ghost use Rattle.conf_tree.specs.Gives.{Gives};
ghost use Rattle.conf_tree.specs.StatementReading.{draft_of};

use conf_tree::{Draft, TokenList};
use net_base::ConfError;
use std::alloc::Global;

/// Reads the draft that the tokens of a configuration text write (bgpd.conf(5)).
///
/// The error is the fault at the first token with which no good text goes on, or `NoMemory`. Its kind is
/// the first that holds of `NotInProfile`, `UnexpectedWord`, `NumberRange` and `TooMany`.
#[tactic(auto, unfolding(conf_tree::specs::StatementReading::draft_of))]
pub fn parse(alloc: Global, tokens: &TokenList) -> Result<Draft, ConfError>
    ensures { Gives (λ draft. draft) result (draft_of tokens.now) }
{
    let statements = statements::statements_of(alloc, tokens.as_slice())?;
    Ok(Draft { statements })
}
