//! Macros replaced in the tokens of a line.

ghost use Rattle.std.specs.Prelude.{◌≡◌, ◌+◌, ◌≤◌, ◌++◌, ◌∷◌, [], true, false, length, nat_le, OnOk, IfOk, MatchOption, map};
ghost use Rattle.net_base.specs.declared.conf.ConfError.TheVariants.{Fault};
ghost use Rattle.conf_tree.specs.Kinds.{is_word};
ghost use Rattle.conf_tree.specs.Macros as replacing;
ghost use Rattle.conf_lex.specs.Puts.{Puts, Expands, given_if, glued_word};
ghost use Rattle.conf_lex.specs.Tables.{macros_of};

use crate::macros::Macros;
use crate::names::asked;
use conf_tree::{Token, TokenKind, TokenList};
use net_base::{Bytes, ConfError, ConfFault, ConfKind, Items, NoMemory};
use std::alloc::Global;

/// The most bytes that the replacements of a text give.
const MOST_REPLACED: usize = 1_048_576;

/// Tokens, and how many bytes replacements have given by then.
#[derive(Drop)]
pub(crate) struct Expanded {
    pub tokens: TokenList,
    pub size: usize,
}

// A fault at a word.
fn fault_at(word: &Token, kind: ConfKind) -> ConfError
    ensures { result ≡ Fault (record { line = word.now.line; kind = kind }) }
{
    ConfError::Fault(ConfFault {
        line: word.line,
        kind,
    })
}

/// Whether a token is a word.
pub(crate) fn is_word(kind: TokenKind) -> bool
    ensures { result ≡ is_word kind }
{
    match kind {
        TokenKind::Word => true,
        TokenKind::Quoted | TokenKind::Mark | TokenKind::LineEnd => false,
    }
}

/// A copy of a token.
pub(crate) fn copied(alloc: Global, token: &Token) -> Result<Token, NoMemory>
    ensures { IfOk result (λ copy. copy ≡ token.now) }
{
    Ok(Token {
        line: token.line,
        start: token.start,
        end: token.end,
        kind: token.kind,
        text: Items::from_slice(alloc, token.text.as_slice())?,
    })
}

// A token in the place of a word.
fn moved(alloc: Global, word: &Token, token: &Token) -> Result<Token, NoMemory>
    ensures { IfOk result (λ there. there ≡ replacing.moved word.now token.now) }
{
    Ok(Token {
        line: word.line,
        start: word.start,
        end: word.end,
        kind: token.kind,
        text: Items::from_slice(alloc, token.text.as_slice())?,
    })
}

// The word of a token and the bytes behind it.
fn glued(alloc: Global, token: &Token, more: &[u8]) -> Result<Token, NoMemory>
    ensures { IfOk result (λ word. word ≡ glued_word token.now more.now) }
{
    let mut text: Bytes = Items::from_slice(alloc, token.text.as_slice())?;
    text.extend_from_slice(more)?;
    Ok(Token {
        line: token.line,
        start: token.start,
        end: token.end,
        kind: TokenKind::Word,
        text,
    })
}

// How many bytes replacements have given behind these, unless they are too many.
fn size_behind(size: usize, value: &TokenList) -> Option<usize>
    ensures { MatchOption result (nat_le (size + replacing.text_size value.now) replacing.most_replaced ≡ false) (λ after. (after ≡ size + replacing.text_size value.now) × (after ≤ replacing.most_replaced)) }
{
    if size > MOST_REPLACED {
        return None;
    }
    let mut after = size;
    let items = value.as_slice();
    for token in items {
        if token.text.len() > MOST_REPLACED - after {
            return None;
        }
        after += token.text.len();
    }
    Some(after)
}

// Puts tokens behind others, in the place of a word.
fn put_all(
    alloc: Global,
    word: &Token,
    value: &TokenList,
    tokens: &mut TokenList,
) -> Result<(), NoMemory>
    ensures { OnOk result (tokens.new ≡ tokens.old ++ map (replacing.moved word.now) value.now) }
{
    let items = value.as_slice();
    for token in items {
        tokens.push(moved(alloc, word, token)?)?;
    }
    Ok(())
}

impl Expanded {
    ghost use Rattle.std.specs.Prelude.{◌≡◌, ◌++◌, ◌∷◌, [], OnOk, length};
    ghost use Rattle.conf_tree.specs.Macros as replacing;
    ghost use Rattle.conf_lex.specs.Puts.{Puts, given_if};
    ghost use Rattle.conf_lex.specs.Tables.{macros_of};

    /// No tokens yet.
    pub(crate) fn new(alloc: Global, size: usize) -> Expanded
        ensures { result ≡ record { tokens = []; size = size } }
    {
        Expanded {
            tokens: Items::new(alloc),
            size,
        }
    }

    // A token that isn't replaced.
    fn keep(&mut self, alloc: Global, token: &Token) -> Result<(), NoMemory>
        ensures { OnOk result (self.new ≡ record { tokens = self.old.tokens ++ token.now ∷ []; size = self.old.size }) }
    {
        self.tokens.push(copied(alloc, token)?)
    }

    // The tokens that take the place of a word.
    fn give(&mut self, alloc: Global, word: &Token, value: &TokenList) -> Result<(), ConfError>
        ensures { Puts (replacing.given word.now self.old.size value.now) self.old self.new result }
    {
        let Some(size) = size_behind(self.size, value) else {
            return Err(fault_at(word, ConfKind::TooLong));
        };
        put_all(alloc, word, value, &mut self.tokens)?;
        self.size = size;
        Ok(())
    }

    // What takes the place of a word: a value, with further bytes behind it.
    fn give_followed(
        &mut self,
        alloc: Global,
        word: &Token,
        value: &TokenList,
        more: &[u8],
    ) -> Result<(), ConfError>
        ensures { Puts (given_if word.now self.old.size (replacing.followed value.now more.now)) self.old self.new result }
    {
        if more.is_empty() {
            return self.give(alloc, word, value);
        }
        match value.as_slice() {
            [token] => {
                let mut glued_alone = Items::new(alloc);
                glued_alone.push(glued(alloc, token, more)?)?;
                self.give(alloc, word, &glued_alone)
            }
            _ => Err(fault_at(word, ConfKind::UnknownMacro)),
        }
    }

    // What takes the place of a word that begins with `$NAME`.
    fn give_for(
        &mut self,
        alloc: Global,
        macros: &Macros,
        word: &Token,
        name: &[u8],
        more: &[u8],
    ) -> Result<(), ConfError>
        ensures { Puts (replacing.given_for (macros_of macros.now) self.old.size word.now (name.now, more.now)) self.old self.new result }
    {
        let name: Bytes = Items::from_slice(alloc, name)?;
        match macros.get(&name) {
            Some(value) => self.give_followed(alloc, word, value, more),
            None => Err(fault_at(word, ConfKind::UnknownMacro)),
        }
    }

    /// Puts what a token gives behind the others.
    #[tactic(auto, unfolding(conf_tree::specs::Macros::replaced))]
    fn put(&mut self, alloc: Global, macros: &Macros, token: &Token) -> Result<(), ConfError>
        ensures { Puts (replacing.replaced (macros_of macros.now) self.old.size token.now) self.old self.new result }
    {
        if is_word(token.kind) {
            if let Some((name, more)) = asked(token.text.as_slice()) {
                return self.give_for(alloc, macros, token, name, more);
            }
        }
        self.keep(alloc, token)?;
        Ok(())
    }
}

/// The tokens of a line with its macros replaced, or the first fault.
pub(crate) fn with_macros_replaced(
    alloc: Global,
    macros: &Macros,
    size: usize,
    tokens: &TokenList,
) -> Result<Expanded, ConfError>
    ensures { Expands (replacing.expanded (macros_of macros.now) size tokens.now) result }
{
    let mut all = Expanded::new(alloc, size);
    let items = tokens.as_slice();
    for token in items {
        match all.put(alloc, macros, token) {
            Ok(()) => {}
            Err(error) => return Err(error),
        }
    }
    Ok(all)
}
