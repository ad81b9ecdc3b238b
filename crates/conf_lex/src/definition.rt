//! A line with its macros replaced, and what it defines.

ghost use Rattle.std.specs.Prelude.{◌≡◌};
ghost use Rattle.std.specs.List.{list_any};
ghost use Rattle.conf_tree.specs.Macros as defining;
ghost use Rattle.conf_lex.specs.Tables.{macros_of};
ghost use Rattle.conf_lex.specs.Asking.{asks_for_macro, Replaces};
ghost use Rattle.conf_lex.specs.Short.{AllShort};

use crate::expanding::{Expanded, is_word, with_macros_replaced};
use crate::macros::Macros;
use crate::names::asked;
use crate::values::defined;
use conf_tree::{Token, TokenList};
use net_base::{Bytes, ConfError};
use std::alloc::Global;

/// A line with its macros replaced, and the NAME and the value that it defines.
#[derive(Drop)]
pub(crate) struct Replaced {
    pub line: Expanded,
    pub definition: Option<(Bytes, TokenList)>,
}

// Whether a token is a word that begins with `$NAME`.
fn asks_for_macro(token: &Token) -> bool
    ensures { result ≡ asks_for_macro token.now }
{
    is_word(token.kind) && asked(token.text.as_slice()).is_some()
}

// Whether a line has such a word.
fn has_macros(line: &[Token]) -> bool
    ensures { result ≡ list_any asks_for_macro line.now }
{
    line.iter().any(|token| asks_for_macro(token))
}

/// A line with its macros replaced, and what it defines, or the first fault. A line without macros isn't copied.
#[tactic(auto, using(crate::proofs::Asking::no_macro_asked))]
pub(crate) fn with_definition(
    alloc: Global,
    macros: &Macros,
    size: usize,
    line: TokenList,
) -> Result<Replaced, ConfError>
    requires { AllShort line }
    ensures { Replaces (macros_of macros.now) size line result }
{
    if has_macros(line.as_slice()) {
        let expanded = with_macros_replaced(alloc, macros, size, &line)?;
        let definition = defined(alloc, line.as_slice(), expanded.tokens.as_slice())?;
        return Ok(Replaced {
            line: expanded,
            definition,
        });
    }
    let definition = defined(alloc, line.as_slice(), line.as_slice())?;
    Ok(Replaced {
        line: Expanded { tokens: line, size },
        definition,
    })
}
