//! A cursor over the tokens of a text.

ghost use Rattle.std.specs.Prelude.{◌≡◌, ◌==◌, ◌≤◌, codes, if◌then◌else◌, length, option_copied};
ghost use Rattle.std.specs.List.{list_any, prefix_len};
ghost use Rattle.conf_tree.specs.Kinds.{is_line_end, is_mark, is_quoted};
ghost use Rattle.conf_tree.specs.Reading.{after_separators, behind, ends_line, is_separator, keyword_at, line_end_at, line_of, mark_at, mark_is, text_of, word_in, word_is, word_of};
ghost use Rattle.conf_tree.specs.NeighbourReading.{after_line_ends};
ghost use Rattle.conf_tree.specs.StatementReading.{after_empty_lines};
ghost use Rattle.conf_tree.specs.Values.{in_range, spelled};
ghost use Rattle.conf_parser.specs.Reads.{Passes, Reads};

use conf_tree::{Token, TokenKind};
use net_base::{ConfError, ConfFault, ConfKind, Counted};
use std::marker::Model;

/// Reads from the front of some tokens. Contracts see the tokens that are left.
///
/// A call that reads a value stands behind it then, or answers the fault at the first token with which no
/// good text goes on. Behind a fault nothing is read.
#[derive(Drop)]
pub(crate) struct Cursor<'a> {
    left: &'a [Token],
}

impl<'a> Model for Cursor<'a> {
    ghost use Rattle.std.specs.Prelude.{List};
    ghost use Rattle.conf_tree.specs.declared.token.Token.{Token};

    ghost Value = { List Token };

    ghost view = { λ cursor. cursor.left.now };
}

impl<'a> Cursor<'a> {
    /// A cursor before the first of the tokens.
    pub(crate) fn new(tokens: &'a [Token]) -> Cursor<'a>
        ensures { result ≡ tokens.now }
    {
        Cursor { left: tokens }
    }

    /// How many tokens are left.
    pub(crate) fn len(&self) -> usize
        ensures { result ≡ length self.now }
    {
        self.left.len()
    }

    /// Whether no token is left.
    pub(crate) fn is_empty(&self) -> bool
        ensures { result ≡ (length self.now == 0) }
    {
        self.left.len() == 0
    }

    /// The line of the next token. Where the tokens are those of a text, a line end is always left.
    pub(crate) fn line(&self) -> u32
        ensures { result ≡ line_of self.now }
    {
        match self.left {
            [] => 0,
            [token, ..] => token.line,
        }
    }

    /// The fault of this kind at the next token.
    pub(crate) fn fault(&self, kind: ConfKind) -> ConfError
        ensures { result ≡ ConfError.Fault (record { line = line_of self.now; kind = kind }) }
    {
        ConfError::Fault(ConfFault {
            line: self.line(),
            kind,
        })
    }

    /// The fault of a token that nothing expects here.
    pub(crate) fn unexpected(&self) -> ConfError
        ensures { result ≡ ConfError.Fault (record { line = line_of self.now; kind = ConfKind.UnexpectedWord }) }
    {
        self.fault(ConfKind::UnexpectedWord)
    }

    /// Goes past the next token.
    pub(crate) fn advance(&mut self)
        ensures { self.new ≡ behind self.old }
    {
        if let [_, rest @ ..] = self.left {
            self.left = rest;
        }
    }

    /// The text of the next token, if that is a word.
    #[tactic(auto, unfolding(conf_tree::specs::Reading::text_of))]
    pub(crate) fn word(&self) -> Option<&'a [u8]>
        ensures { option_copied result ≡ word_of self.now }
    {
        match self.left {
            [
                Token {
                    kind: TokenKind::Word,
                    text,
                    ..
                },
                ..
            ] => Some(text.as_slice()),
            _ => None,
        }
    }

    /// The text of the next token, if that is a quoted text.
    #[tactic(auto, unfolding(conf_tree::specs::Reading::text_of))]
    pub(crate) fn quoted(&self) -> Option<&'a [u8]>
        ensures { option_copied result ≡ text_of is_quoted self.now }
    {
        match self.left {
            [
                Token {
                    kind: TokenKind::Quoted,
                    text,
                    ..
                },
                ..
            ] => Some(text.as_slice()),
            _ => None,
        }
    }

    /// The text of the next token, if that is a mark.
    #[tactic(auto, unfolding(conf_tree::specs::Reading::text_of))]
    fn mark(&self) -> Option<&'a [u8]>
        ensures { option_copied result ≡ text_of is_mark self.now }
    {
        match self.left {
            [
                Token {
                    kind: TokenKind::Mark,
                    text,
                    ..
                },
                ..
            ] => Some(text.as_slice()),
            _ => None,
        }
    }

    /// Whether the next token is this word.
    #[tactic(auto, unfolding(conf_tree::specs::Reading::word_is))]
    pub(crate) fn word_is(&self, name: &[u8]) -> bool
        ensures { result ≡ word_is name.now self.now }
    {
        match self.word() {
            Some(text) => name == text,
            None => false,
        }
    }

    /// Whether the next token is one of these words.
    pub(crate) fn word_in(&self, names: &[&[u8]]) -> bool
        ensures { result ≡ list_any (λ n. word_is n.now self.now) names.now }
    {
        names.iter().any(|name| self.word_is(name))
    }

    /// Whether the next token is this mark.
    #[tactic(auto, unfolding(conf_tree::specs::Reading::mark_is))]
    pub(crate) fn mark_is(&self, name: &[u8]) -> bool
        ensures { result ≡ mark_is name.now self.now }
    {
        match self.mark() {
            Some(text) => name == text,
            None => false,
        }
    }

    /// Whether the next token ends a line.
    #[tactic(auto, unfolding(conf_tree::specs::Reading::ends_line))]
    pub(crate) fn ends_line(&self) -> bool
        ensures { result ≡ ends_line self.now }
    {
        match self.left {
            [
                Token {
                    kind: TokenKind::LineEnd,
                    ..
                },
                ..
            ] => true,
            _ => false,
        }
    }

    /// Goes past this word, if it is the next token.
    pub(crate) fn takes(&mut self, name: &[u8]) -> bool
        ensures answer { result ≡ word_is name.now self.old }
        ensures left { self.new ≡ (if word_is name.now self.old then behind self.old else self.old) }
    {
        if !self.word_is(name) {
            return false;
        }
        self.advance();
        true
    }

    /// Goes past this mark, if it is the next token.
    pub(crate) fn takes_mark(&mut self, name: &[u8]) -> bool
        ensures answer { result ≡ mark_is name.now self.old }
        ensures left { self.new ≡ (if mark_is name.now self.old then behind self.old else self.old) }
    {
        if !self.mark_is(name) {
            return false;
        }
        self.advance();
        true
    }

    /// Goes past a word that must stand here.
    #[tactic(auto, unfolding(conf_tree::specs::Reading::keyword_at))]
    pub(crate) fn keyword(&mut self, name: &[u8]) -> Result<(), ConfError>
        ensures { Passes (keyword_at name.now) self.old self.new result }
    {
        if !self.takes(name) {
            return Err(self.unexpected());
        }
        Ok(())
    }

    /// Goes past a `{` that must stand here.
    #[tactic(auto, unfolding(conf_tree::specs::Reading::mark_at))]
    pub(crate) fn open_brace(&mut self) -> Result<(), ConfError>
        ensures { Passes (mark_at (codes "{")) self.old self.new result }
    {
        if !self.takes_mark(b"{") {
            return Err(self.unexpected());
        }
        Ok(())
    }

    /// Goes past a line end that must stand here.
    #[tactic(auto, unfolding(conf_tree::specs::Reading::line_end_at))]
    pub(crate) fn line_end(&mut self) -> Result<(), ConfError>
        ensures { Passes line_end_at self.old self.new result }
    {
        if !self.ends_line() {
            return Err(self.unexpected());
        }
        self.advance();
        Ok(())
    }

    /// Takes the value of the next token, or answers `NumberRange` where its field can't hold one.
    pub(crate) fn in_range<A: Copy>(&mut self, value: Option<A>) -> Result<A, ConfError>
        ensures { Reads (λ tokens. in_range tokens value) self.old self.new result }
    {
        let Some(value) = value else {
            return Err(self.fault(ConfKind::NumberRange));
        };
        self.advance();
        Ok(value)
    }

    /// Takes the value that the next token spells, or answers `UnexpectedWord` where it spells none.
    pub(crate) fn spelled<A: Copy>(&mut self, value: Option<A>) -> Result<A, ConfError>
        ensures { Reads (λ tokens. spelled tokens value) self.old self.new result }
    {
        let Some(value) = value else {
            return Err(self.unexpected());
        };
        self.advance();
        Ok(value)
    }

    /// Goes past line ends and commas, but not past the end of the text.
    #[tactic(auto, unfolding(conf_tree::specs::Reading::after_separators))]
    pub(crate) fn skip_separators(&mut self)
        ensures { self.new ≡ after_separators self.old }
    {
        let skipped = separators(self.left).min(self.left.len().saturating_sub(1));
        self.left = self.left.split_at(skipped).1;
    }

    /// Goes past line ends, but not past the end of the text.
    #[tactic(auto, unfolding(conf_tree::specs::NeighbourReading::after_line_ends))]
    pub(crate) fn skip_line_ends(&mut self)
        ensures { self.new ≡ after_line_ends self.old }
    {
        let skipped = line_ends(self.left).min(self.left.len().saturating_sub(1));
        self.left = self.left.split_at(skipped).1;
    }

    /// Goes past all line ends.
    #[tactic(auto, unfolding(conf_tree::specs::StatementReading::after_empty_lines))]
    pub(crate) fn skip_empty_lines(&mut self)
        ensures { self.new ≡ after_empty_lines self.old }
    {
        self.left = self.left.split_at(line_ends(self.left)).1;
    }
}

/// The fault of one more than there may be of something, which stands on this line.
pub(crate) fn too_many(counted: Counted, line: u32) -> ConfError
    ensures { result ≡ ConfError.Fault (record { line = line; kind = ConfKind.TooMany counted }) }
{
    ConfError::Fault(ConfFault {
        line,
        kind: ConfKind::TooMany(counted),
    })
}

/// Whether a token is a line end or a comma.
fn is_separator(token: &Token) -> bool
    ensures { result ≡ is_separator token.now }
{
    match token.kind {
        TokenKind::LineEnd => true,
        TokenKind::Mark => b",".as_slice() == token.text.as_slice(),
        TokenKind::Word | TokenKind::Quoted => false,
    }
}

/// How many separators stand in front.
fn separators(tokens: &[Token]) -> usize
    ensures { result ≡ prefix_len is_separator tokens.now }
{
    tokens
        .iter()
        .take_while(|token| is_separator(token))
        .count()
}

/// How many line ends stand in front.
fn line_ends(tokens: &[Token]) -> usize
    ensures value { result ≡ prefix_len (λ token. is_line_end token.kind) tokens.now }
    ensures within { result ≤ length tokens.now }
{
    tokens
        .iter()
        .take_while(|token| token.kind == TokenKind::LineEnd)
        .count()
}
