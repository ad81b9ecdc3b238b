//! The tokens of a configuration text.

ghost use Rattle.std.specs.Prelude.{◌≡◌, ◌≤◌, ◌++◌, length, List, OnOk};
ghost use Rattle.conf_tree.specs.Joined as joined_lines;
ghost use Rattle.conf_tree.specs.Tokens as defining;
ghost use Rattle.conf_tree.specs.declared.token.Token.{Token};
ghost use Rattle.conf_lex.specs.Views.{rules_of};
ghost use Rattle.conf_lex.specs.Tables.{macros_of};
ghost use Rattle.conf_lex.specs.Puts.{expanded_of};
ghost use Rattle.conf_lex.specs.Gives.{Gives};
ghost use Rattle.conf_lex.specs.Reading.{put_line, PutsLine};

use crate::definition::{Replaced, with_definition};
use crate::expanding::Expanded;
use crate::line::{Line, first_line};
use crate::macros::Macros;
use crate::reader::Reader;
use crate::rules::{Rules, front};
use conf_tree::{Token, TokenList};
use net_base::{Bytes, ConfError, Items, NoMemory};
use std::alloc::Global;

/// The most bytes of a configuration text.
pub const TEXT_LIMIT: usize = 1_048_576;

// Puts tokens behind others.
fn append(tokens: &mut TokenList, more: TokenList) -> Result<(), NoMemory>
    ensures { OnOk result (tokens.new ≡ tokens.old ++ more) }
{
    for token in more.into_vec() {
        tokens.push(token)?;
    }
    Ok(())
}

// Puts the tokens of a line that was read behind others, or defines the macro that it defines.
fn finish(
    definition: Option<(Bytes, TokenList)>,
    line: Expanded,
    end: Token,
    macros: &mut Macros,
    tokens: &mut TokenList,
) -> Result<(), NoMemory>
    ensures { OnOk result ((rest : List joined_lines.Seen) → put_line tokens.old (defining.line_with (macros_of macros.old) (expanded_of line) (end, rest) definition) ≡ record { tokens = tokens.new; macros = macros_of macros.new; size = line.size; rest = rest }) }
{
    match definition {
        Some((name, value)) => macros.define(name, value)?,
        None => append(tokens, line.tokens)?,
    }
    tokens.push(end)
}

// Puts the tokens of the first line of a text behind others, and defines the macro that it defines. Answers how many
// bytes replacements have given behind it.
fn read_line(
    alloc: Global,
    rules: Rules,
    reader: &mut Reader<'_>,
    macros: &mut Macros,
    size: usize,
    tokens: &mut TokenList,
) -> Result<usize, ConfError>
    requires { length reader.old ≤ 134217729 }
    ensures { PutsLine (defining.line_read (rules_of rules) (macros_of macros.old) size reader.old) tokens.old tokens.new macros.new reader.new result }
{
    let Line { tokens: line, end } = first_line(alloc, rules, reader)?;
    let Replaced { line, definition } = match with_definition(alloc, macros, size, line) {
        Ok(replaced) => replaced,
        Err(error) => return Err(error),
    };
    let end = match end {
        Ok(end) => end,
        Err(fault) => return Err(ConfError::Fault(fault)),
    };
    let after = line.size;
    finish(definition, line, end, macros, tokens)?;
    Ok(after)
}

/// The tokens of a configuration text of at most `limit` bytes, with its macros replaced. The limit is at most
/// 134217728.
///
/// Lines are joined where a backslash stands before LF; `#` begins a comment up to the end of the line; `NAME =
/// value` at the beginning of a line defines a macro, and `$NAME` is replaced by the latest definition above. Each
/// line gives a `LineEnd` behind its tokens, also one that defines a macro; the last token is the `LineEnd` of the
/// end of the text.
///
/// # Errors
///
/// `Fault` has the first fault of the text and its line:
/// - `TooLong` where the text has more than `limit` bytes, at the line of the first byte behind them. The bytes
///   behind the limit are not looked at, and faults that can be told before it come first. Also where replacements
///   give more than 1048576 bytes in all, at the line of the word that passes them.
/// - `BadByte` at a byte outside quotes that is no printable ASCII, blank, tab or LF, and in quotes at the first
///   byte of a sequence that isn't UTF-8.
/// - `OpenQuote` where a quoted text doesn't end on its line, at the line of its first `"`.
/// - `UnknownMacro` at a word that begins with `$NAME` where NAME isn't defined above, or isn't one token and
///   further bytes follow.
///
/// `NoMemory` comes where memory was refused.
pub fn tokens(alloc: Global, text: &[u8], limit: usize) -> Result<TokenList, ConfError>
    requires { limit ≤ 134217728 }
    ensures { Gives (defining.tokens limit text.now) result }
{
    let rules = Rules::up_to(text, limit);
    let mut reader = Reader::new(front(text, limit));
    let mut macros = Macros::new(alloc);
    let mut size = 0;
    let mut tokens = Items::new(alloc);
    while !reader.is_done() {
        size = match read_line(alloc, rules, &mut reader, &mut macros, size, &mut tokens) {
            Ok(after) => after,
            Err(error) => return Err(error),
        };
    }
    Ok(tokens)
}
