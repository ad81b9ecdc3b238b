//! Texts of the configuration language.

ghost use Rattle.std.specs.Prelude.{◌≡◌, ◌≤◌};
ghost use Rattle.conf_tree.specs.Gives.{Gives};
ghost use Rattle.conf_tree.specs.Language.{configuration_within, draft_within};

use conf_check::check;
use conf_lex::tokens;
use conf_parser::parse;
use conf_tree::{Conf, Draft};
use net_base::ConfError;
use std::alloc::Global;

/// The most bytes of the text of a stage. No canonical text is longer.
pub const STAGE_LIMIT: usize = 134_217_728;

/// The configuration that a text of at most `limit` bytes stands for (bgpd.conf(5)).
///
/// The error is the first fault of its tokens; of a text whose tokens have none, the first fault of its statements;
/// of one whose statements have none, the first fault of the checks; or `NoMemory`, which says nothing of the text.
#[tactic(auto, unfolding(conf_tree::specs::Language::configuration_within))]
pub fn read_conf(alloc: Global, text: &[u8], limit: usize) -> Result<Conf, ConfError>
    requires { limit ≤ 134217728 }
    ensures { Gives (λ conf. conf) result (configuration_within limit text.now) }
{
    let draft = read_draft(alloc, text, limit)?;
    check(alloc, draft)
}

/// What a text of at most `limit` bytes writes, before it is checked. The errors are the first two of `read_conf`,
/// and `NoMemory`.
#[tactic(auto, unfolding(conf_tree::specs::Language::draft_within))]
pub fn read_draft(alloc: Global, text: &[u8], limit: usize) -> Result<Draft, ConfError>
    requires { limit ≤ 134217728 }
    ensures { Gives (λ draft. draft) result (draft_within limit text.now) }
{
    let tokens = tokens(alloc, text, limit)?;
    parse(alloc, &tokens)
}
