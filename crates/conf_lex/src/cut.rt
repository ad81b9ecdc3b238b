//! One token from the front of a text, before macros are looked at.

ghost use Rattle.std.specs.Prelude.{◌≡◌, ◌-◌, List, take, drop, OnOk, ◌+◌, ◌≤◌, ◌<◌, ◌∷◌, [], length, IfOk, Ok, Err, option_map};
ghost use Rattle.net_base.specs.declared.conf.ConfError.TheVariants.{Fault};
ghost use Rattle.conf_tree.specs.Joined as joined_lines;
ghost use Rattle.conf_tree.specs.Cuts as cuts;
ghost use Rattle.conf_tree.specs.declared.token.TokenKind.TheVariants.{LineEnd, Word};
ghost use Rattle.conf_lex.specs.Views.{seen_of, rules_of};
ghost use Rattle.conf_lex.specs.Parts.{goes_on, token_with, taken_behind};
ghost use Rattle.conf_lex.specs.Gives.{Gives, Reads};

use crate::reader::{Reader, Seen};
use crate::rules::Rules;
use crate::run::{Part, Taken, begins_with, mark_size, pass};
use conf_tree::{Token, TokenKind};
use net_base::{Bytes, ConfError, ConfFault, ConfKind, Items, NoMemory};
use std::alloc::Global;

/// What is answered where not even the end of a text is left. Nobody asks there.
const NOTHING_LEFT: ConfFault = ConfFault {
    line: 0,
    kind: ConfKind::BadByte,
};

// A fault at a byte.
fn fault_at(seen: Seen, kind: ConfKind) -> ConfError
    ensures { result ≡ Fault (cuts.fault_at (seen_of seen) kind) }
{
    ConfError::Fault(ConfFault {
        line: seen.line,
        kind,
    })
}

// The end of a line.
fn line_end(alloc: Global, seen: Seen, end: u32) -> Token
    ensures { result ≡ cuts.token_at (seen_of seen) LineEnd end [] }
{
    Token {
        line: seen.line,
        start: seen.place,
        end,
        kind: TokenKind::LineEnd,
        text: Items::new(alloc),
    }
}

// A token of bytes that were taken.
fn token_of(kind: TokenKind, seen: Seen, taken: Taken) -> Token
    ensures { result ≡ token_with kind (seen_of seen) taken }
{
    Token {
        line: seen.line,
        start: seen.place,
        end: taken.end,
        kind,
        text: taken.text,
    }
}

// The end of the text.
fn text_end(alloc: Global, rules: Rules, seen: Seen) -> Result<Token, ConfError>
    ensures { (rest : List joined_lines.Seen) → Reads (cuts.text_end (rules_of rules) (seen_of seen) rest) result rest }
{
    if rules.cut {
        Err(fault_at(seen, ConfKind::TooLong))
    } else {
        Ok(line_end(alloc, seen, seen.place))
    }
}

// Takes the bytes of a mark behind its first one.
fn take_second(size: usize, taken: &mut Taken, reader: &mut Reader<'_>) -> Result<(), NoMemory>
    requires some { 0 < size }
    requires most { size ≤ 2 }
    ensures { OnOk result ((taken.new ≡ taken_behind taken.old (take (size - 1) reader.old)) × (reader.new ≡ drop (size - 1) reader.old)) }
{
    if size == 1 {
        return Ok(());
    }
    let Some(second) = reader.next() else {
        return Ok(());
    };
    taken.push(second)
}

// A mark of one or two bytes, whose first byte was taken.
#[tactic(auto, using(crate::proofs::Runs::token_taken), unfolding(conf_tree::specs::Cuts::mark_cut))]
fn mark(alloc: Global, seen: Seen, size: usize, reader: &mut Reader<'_>) -> Result<Token, ConfError>
    requires within { seen.place ≤ 134217729 }
    requires some { 0 < size }
    requires most { size ≤ 2 }
    ensures { Reads (cuts.mark_cut size (seen_of seen) reader.old) result reader.new }
{
    let mut taken = Taken::none(alloc, seen.place);
    taken.push(seen)?;
    take_second(size, &mut taken, reader)?;
    Ok(token_of(TokenKind::Mark, seen, taken))
}

// The end of the text, where it stands in front.
fn end_in_front(reader: &Reader<'_>) -> Option<Seen>
    ensures { option_map seen_of result ≡ cuts.end_in_front reader.now }
{
    let mut ahead = reader.again();
    let seen = ahead.next()?;
    if seen.byte.is_none() {
        Some(seen)
    } else {
        None
    }
}

// A word, unless it reaches a limit.
fn ended(rules: Rules, word: Token, reader: &Reader<'_>) -> Result<Token, ConfError>
    ensures { Reads (cuts.word_ended (rules_of rules) word reader.now) result reader.now }
{
    if !rules.cut {
        return Ok(word);
    }
    match end_in_front(reader) {
        Some(end) => Err(fault_at(end, ConfKind::TooLong)),
        None => Ok(word),
    }
}

// A word, whose first byte was taken.
#[tactic(auto, using(crate::proofs::Runs::token_taken), unfolding(conf_tree::specs::Cuts::word_cut))]
fn word(
    alloc: Global,
    rules: Rules,
    seen: Seen,
    reader: &mut Reader<'_>,
) -> Result<Token, ConfError>
    requires { seen.place ≤ 134217729 }
    ensures { Reads (cuts.word_cut (rules_of rules) (seen_of seen) reader.old) result reader.new }
{
    let mut taken = Taken::none(alloc, seen.place);
    taken.push(seen)?;
    taken.take_run(rules, Part::Word, reader)?;
    ended(rules, token_of(TokenKind::Word, seen, taken), reader)
}

// A quoted text whose bytes were taken.
fn closed(
    rules: Rules,
    opening: Seen,
    text: Bytes,
    reader: &mut Reader<'_>,
) -> Result<Token, ConfError>
    ensures { Reads (cuts.closed (rules_of rules) (seen_of opening) text reader.old) result reader.new }
{
    let Some(seen) = reader.next() else {
        return Err(fault_at(opening, ConfKind::OpenQuote));
    };
    match seen.byte {
        None if rules.cut => Err(fault_at(seen, ConfKind::TooLong)),
        Some(b'"') => Ok(Token {
            line: opening.line,
            start: opening.place,
            end: seen.place + 1,
            kind: TokenKind::Quoted,
            text,
        }),
        None | Some(b'\n') => Err(fault_at(opening, ConfKind::OpenQuote)),
        Some(_) => Err(fault_at(seen, ConfKind::BadByte)),
    }
}

// A quoted text whose `"` was taken.
#[tactic(auto, unfolding(conf_tree::specs::Cuts::quoted_cut))]
fn quoted(
    alloc: Global,
    rules: Rules,
    opening: Seen,
    reader: &mut Reader<'_>,
) -> Result<Token, ConfError>
    ensures { Reads (cuts.quoted_cut (rules_of rules) (seen_of opening) reader.old) result reader.new }
{
    let mut taken = Taken::none(alloc, opening.place);
    taken.take_run(rules, Part::Quotes, reader)?;
    closed(rules, opening, taken.text, reader)
}

// The token that begins with a byte that was taken.
#[tactic(auto, unfolding(conf_tree::specs::Cuts::cut_at))]
fn token_at(
    alloc: Global,
    rules: Rules,
    seen: Seen,
    reader: &mut Reader<'_>,
) -> Result<Token, ConfError>
    requires { seen.place ≤ 134217729 }
    ensures { Reads (cuts.cut_at (rules_of rules) (seen_of seen) reader.old) result reader.new }
{
    let Some(byte) = seen.byte else {
        return text_end(alloc, rules, seen);
    };
    if byte == b'\n' {
        return Ok(line_end(alloc, seen, seen.place + 1));
    }
    if byte == b'"' {
        return quoted(alloc, rules, seen, reader);
    }
    let size = mark_size(seen, reader);
    if size > 0 {
        return mark(alloc, seen, size, reader);
    }
    if rules.is_word_byte(byte) {
        return word(alloc, rules, seen, reader);
    }
    Err(fault_at(seen, ConfKind::BadByte))
}

// Leaves a comment in front behind.
fn pass_comment(rules: Rules, reader: &mut Reader<'_>)
    ensures { reader.new ≡ cuts.behind_comment (rules_of rules) reader.old }
{
    if begins_with(reader, b'#') {
        pass(rules, Part::Comment, reader);
    }
}

/// Takes the next token, or gives the fault where it stands.
#[tactic(auto, unfolding(conf_tree::specs::Cuts::first_cut, conf_tree::specs::Cuts::behind_blanks))]
pub(crate) fn next_token(
    alloc: Global,
    rules: Rules,
    reader: &mut Reader<'_>,
) -> Result<Token, ConfError>
    ensures { Reads (cuts.first_cut (rules_of rules) reader.old) result reader.new }
{
    pass(rules, Part::Blanks, reader);
    pass_comment(rules, reader);
    let Some(seen) = reader.next() else {
        return Err(ConfError::Fault(NOTHING_LEFT));
    };
    token_at(alloc, rules, seen, reader)
}
