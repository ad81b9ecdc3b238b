//! The bytes of a text, each with its line and place, after lines were joined.

ghost use Rattle.std.specs.Prelude.{◌≡◌, ◌+◌, ◌<◌, ◌≤◌, ◌↔◌, IsTrue, [], ◌∷◌, length, MatchOption, IfSome, false};
ghost use Rattle.conf_tree.specs.Joined.{joined_from, joined, line_behind};
ghost use Rattle.conf_lex.specs.Views.{seen_of};
ghost use Rattle.conf_lex.specs.Readers.{begins_join};
ghost use Rattle.conf_lex.specs.Spots.{IsInRange};

use std::marker::Model;

/// A byte with the line and place where it stands. At the end of a text there is none.
#[derive(Clone, Copy)]
pub(crate) struct Seen {
    pub byte: Option<u8>,
    pub line: u32,
    pub place: u32,
}

// The bytes that are left of a text, and the line and place where they begin.
#[derive(Clone, Copy)]
struct Spot<'a> {
    rest: &'a [u8],
    line: u32,
    place: u32,
}

/// Reads a text from its front. Contracts see what is left of it once its lines are joined, with its end.
#[derive(Drop)]
pub(crate) struct Reader<'a> {
    spot: Spot<'a>,
    ended: bool,
}

impl<'a> Model for Reader<'a> {
    ghost use Rattle.std.specs.Prelude.{List};
    ghost use Rattle.conf_tree.specs.Joined.{Seen};
    ghost use Rattle.conf_lex.specs.Readers.{left_of};
    ghost use Rattle.conf_lex.specs.Spots.{IsInRange};

    ghost Value = { List Seen };

    ghost view = { λ r. left_of r.ended r.spot.line r.spot.place r.spot.rest.now };

    ghost invariant = { λ r. IsInRange r.spot };
}

impl<'a> Reader<'a> {
    /// A reader before the first byte of a text.
    pub(crate) fn new(text: &'a [u8]) -> Reader<'a>
        requires { length text.now ≤ 134217729 }
        ensures { result ≡ joined text.now }
    {
        Reader {
            spot: Spot {
                rest: text,
                line: 1,
                place: 0,
            },
            ended: false,
        }
    }

    /// Another reader of what is left.
    pub(crate) fn again(&self) -> Reader<'a>
        ensures { result ≡ self.now }
    {
        Reader {
            spot: self.spot,
            ended: self.ended,
        }
    }

    /// Whether not even the end of the text is left.
    pub(crate) fn is_done(&self) -> bool
        ensures { IsTrue result ↔ (self.now ≡ []) }
    {
        self.ended
    }

    /// Takes the next byte, or the end of the text. None where not even that is left.
    pub(crate) fn next(&mut self) -> Option<Seen>
        ensures taken { MatchOption result ((self.old ≡ []) × (self.new ≡ [])) (λ seen. self.old ≡ seen_of seen ∷ self.new) }
        ensures within { IfSome result (λ seen. seen.place ≤ 134217729) }
    {
        if self.ended {
            return None;
        }
        let spot = past_joins(self.spot);
        let Some((byte, rest)) = spot.rest.split_first() else {
            self.ended = true;
            return Some(Seen {
                byte: None,
                line: spot.line,
                place: spot.place,
            });
        };
        self.spot = Spot {
            rest,
            line: line_after(spot.line, *byte),
            place: spot.place + 1,
        };
        Some(Seen {
            byte: Some(*byte),
            line: spot.line,
            place: spot.place,
        })
    }
}

// The line of the byte behind this one.
fn line_after(line: u32, byte: u8) -> u32
    requires { line < 4294967295 }
    ensures lines { result ≡ line_behind line byte }
    ensures next { result ≤ line + 1 }
{
    if byte == b'\n' { line + 1 } else { line }
}

// Whether two lines are joined in front.
fn is_join(text: &[u8]) -> bool
    ensures { result ≡ begins_join text.now }
{
    match text {
        [first, second, ..] => *first == b'\\' && *second == b'\n',
        _ => false,
    }
}

// The spot behind the joins of lines in front.
fn past_joins(spot: Spot<'_>) -> Spot<'_>
    requires { IsInRange spot }
    ensures within { IsInRange result }
    ensures same { joined_from false result.line result.place result.rest.now ≡ joined_from false spot.entry.line spot.entry.place spot.entry.rest.now }
    ensures settled { begins_join result.rest.now ≡ false }
{
    let mut at = spot;
    while is_join(at.rest) {
        at = Spot {
            rest: &at.rest[2..],
            line: at.line + 1,
            place: at.place + 2,
        };
    }
    at
}
