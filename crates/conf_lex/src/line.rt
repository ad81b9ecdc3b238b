//! The tokens of one joined line, before macros are looked at.

ghost use Rattle.std.specs.Prelude.{◌≡◌, ◌≤◌, length, IfOk};
ghost use Rattle.conf_tree.specs.Kinds.{is_line_end};
ghost use Rattle.conf_tree.specs.Cuts as cuts;
ghost use Rattle.conf_lex.specs.Views.{rules_of};
ghost use Rattle.conf_lex.specs.Lines.{LineIs, EndIs};

use crate::cut::next_token;
use crate::reader::Reader;
use crate::rules::{PLAIN, Rules};
use conf_tree::{Token, TokenKind, TokenList};
use net_base::{ConfError, ConfFault, Items, NoMemory};
use std::alloc::{AllocError, Global};

/// The tokens of a joined line, and its end or the fault before it.
#[derive(Drop)]
pub(crate) struct Line {
    pub tokens: TokenList,
    pub end: Result<Token, ConfFault>,
}

// Whether a token ends a line.
fn is_line_end(kind: TokenKind) -> bool
    ensures { result ≡ is_line_end kind }
{
    match kind {
        TokenKind::Word | TokenKind::Quoted | TokenKind::Mark => false,
        TokenKind::LineEnd => true,
    }
}

// Takes the next token, or gives the fault where it stands.
fn next_cut(
    alloc: Global,
    rules: Rules,
    reader: &mut Reader<'_>,
) -> Result<Result<Token, ConfFault>, NoMemory>
    ensures { IfOk result (λ cut. EndIs (cuts.first_cut (rules_of rules) reader.old) cut reader.new) }
{
    match next_token(alloc, rules, reader) {
        Ok(token) => Ok(Ok(token)),
        Err(ConfError::Fault(fault)) => Ok(Err(fault)),
        Err(ConfError::NoMemory) => Err(AllocError),
    }
}

/// Takes the first line of a text.
pub(crate) fn first_line(
    alloc: Global,
    rules: Rules,
    reader: &mut Reader<'_>,
) -> Result<Line, NoMemory>
    ensures { IfOk result (λ line. LineIs (cuts.first_line (rules_of rules) reader.old) line reader.new) }
{
    let mut tokens = Items::new(alloc);
    loop {
        let token = match next_cut(alloc, rules, reader)? {
            Ok(token) => token,
            Err(fault) => {
                return Ok(Line {
                    tokens,
                    end: Err(fault),
                });
            }
        };
        if is_line_end(token.kind) {
            return Ok(Line {
                tokens,
                end: Ok(token),
            });
        }
        tokens.push(token)?;
    }
}

/// The tokens of the text of a quoted value, which has no more than 134217729 bytes.
#[tactic(auto, unfolding(conf_tree::specs::Cuts::split))]
pub(crate) fn split(alloc: Global, text: &[u8]) -> Result<TokenList, NoMemory>
    requires { length text.now ≤ 134217729 }
    ensures { IfOk result (λ tokens. tokens ≡ cuts.split text.now) }
{
    let mut reader = Reader::new(text);
    let line = first_line(alloc, PLAIN, &mut reader)?;
    Ok(line.tokens)
}
