//! What a line defines.

ghost use Rattle.std.specs.Prelude.{◌≡◌, ◌++◌, ◌∷◌, drop, map, IfOk};
ghost use Rattle.std.specs.List.{list_all};
ghost use Rattle.conf_tree.specs.Kinds.{is_word, is_quoted, is_mark};
ghost use Rattle.conf_tree.specs.Macros as macros;
ghost use Rattle.conf_lex.specs.Short.{AllShort};

use crate::expanding::{copied, is_word};
use crate::line::split;
use crate::names::is_name;
use conf_tree::{Token, TokenKind, TokenList};
use net_base::{Bytes, Items, NoMemory};
use std::alloc::Global;

fn is_quoted(kind: TokenKind) -> bool
    ensures { result ≡ is_quoted kind }
{
    match kind {
        TokenKind::Quoted => true,
        TokenKind::Word | TokenKind::Mark | TokenKind::LineEnd => false,
    }
}

fn is_mark(kind: TokenKind) -> bool
    ensures { result ≡ is_mark kind }
{
    match kind {
        TokenKind::Mark => true,
        TokenKind::Word | TokenKind::Quoted | TokenKind::LineEnd => false,
    }
}

// Whether a line begins with `NAME =`.
fn begins_definition(name: &Token, equals: &Token) -> bool
    ensures { result ≡ macros.begins_definition name.now equals.now }
{
    is_word(name.kind)
        && is_name(name.text.as_slice())
        && is_mark(equals.kind)
        && equals.text.as_slice() == b"=".as_slice()
}

// Whether tokens are words alone.
fn are_words(tokens: &[Token]) -> bool
    ensures { result ≡ list_all (λ token. is_word token.kind) tokens.now }
{
    tokens.iter().all(|token| is_word(token.kind))
}

// The tokens behind the first two.
fn behind_two(tokens: &[Token]) -> &[Token]
    ensures { result.now ≡ drop 2 tokens.now }
{
    match tokens {
        [_, _, rest @ ..] => rest,
        _ => &[],
    }
}

// Copies of tokens.
fn copies(alloc: Global, tokens: &[Token]) -> Result<TokenList, NoMemory>
    ensures { IfOk result (λ list. list ≡ tokens.now) }
{
    let mut list = Items::new(alloc);
    for token in tokens {
        list.push(copied(alloc, token)?)?;
    }
    Ok(list)
}

// A value that is one quoted text.
fn quoted_value(alloc: Global, tokens: &[Token]) -> Result<Option<TokenList>, NoMemory>
    requires { AllShort tokens.now }
    ensures { IfOk result (λ value. value ≡ macros.quoted_value tokens.now) }
{
    match tokens {
        [token] if is_quoted(token.kind) => Ok(Some(split(alloc, token.text.as_slice())?)),
        _ => Ok(None),
    }
}

// The value behind `NAME =`, which is given also with its macros replaced.
fn value_of(
    alloc: Global,
    tokens: &[Token],
    replaced: &[Token],
) -> Result<Option<TokenList>, NoMemory>
    requires { AllShort tokens.now }
    ensures { IfOk result (λ value. value ≡ macros.value_of tokens.now replaced.now) }
{
    if are_words(tokens) {
        Ok(Some(copies(alloc, replaced)?))
    } else {
        quoted_value(alloc, tokens)
    }
}

/// The NAME and the value that a line defines, or None where it isn't of that form. The line is given also with
/// its macros replaced.
pub(crate) fn defined(
    alloc: Global,
    tokens: &[Token],
    replaced: &[Token],
) -> Result<Option<(Bytes, TokenList)>, NoMemory>
    requires { AllShort tokens.now }
    ensures { IfOk result (λ definition. definition ≡ macros.defined tokens.now replaced.now) }
{
    match tokens {
        [name, equals, value @ ..] if begins_definition(name, equals) => {
            match value_of(alloc, value, behind_two(replaced))? {
                Some(value) => {
                    let name = Items::from_slice(alloc, name.text.as_slice())?;
                    Ok(Some((name, value)))
                }
                None => Ok(None),
            }
        }
        _ => Ok(None),
    }
}
