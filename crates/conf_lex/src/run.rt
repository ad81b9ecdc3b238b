//! Runs of bytes with which blanks, a comment, a word or a quoted text go on.

ghost use Rattle.std.specs.Prelude.{◌≡◌, ◌==◌, ◌∷◌, ◌++◌, ◌≤◌, ◌<◌, length, true, false, IfOk, IfSome, OnOk, MatchOption};
ghost use Rattle.conf_tree.specs.Cuts as cuts;
ghost use Rattle.conf_lex.specs.Views.{seen_of, rules_of};
ghost use Rattle.conf_lex.specs.Parts.{goes_on};

use crate::classes::{is_blank, is_compare, is_mark};
use crate::reader::{Reader, Seen};
use crate::rules::Rules;
use net_base::{Bytes, Items, NoMemory};
use std::alloc::Global;

/// What a run of bytes belongs to.
#[derive(Clone, Copy)]
pub(crate) enum Part {
    Blanks,
    Comment,
    Word,
    Quotes,
}

/// Takes the byte in front where the part goes on with it.
pub(crate) fn next_in(rules: Rules, part: Part, reader: &mut Reader<'_>) -> Option<Seen>
    ensures taken { MatchOption result ((goes_on (rules_of rules) part reader.old ≡ false) × (reader.new ≡ reader.old)) (λ seen. (goes_on (rules_of rules) part reader.old ≡ true) × (reader.old ≡ seen_of seen ∷ reader.new)) }
    ensures within { IfSome result (λ seen. seen.place ≤ 134217729) }
{
    if fits(rules, part, reader) {
        reader.next()
    } else {
        None
    }
}

// Whether the part goes on with the byte in front.
fn fits(rules: Rules, part: Part, reader: &Reader<'_>) -> bool
    ensures { result ≡ goes_on (rules_of rules) part reader.now }
{
    let mut ahead = reader.again();
    let Some(seen) = ahead.next() else {
        return false;
    };
    let Some(byte) = seen.byte else {
        return false;
    };
    match part {
        Part::Blanks => is_blank(byte),
        Part::Comment => rules.is_comment_byte(byte),
        Part::Word => rules.is_word_byte(byte) && mark_size(seen, &ahead) == 0,
        Part::Quotes => byte != b'"' && byte != b'\n' && seen.place as usize != rules.bad,
    }
}

/// How many bytes the mark has that begins with this byte, or 0 where none does. The reader stands behind the
/// byte.
pub(crate) fn mark_size(seen: Seen, behind: &Reader<'_>) -> usize
    ensures size { result ≡ cuts.mark_size (seen_of seen ∷ behind.now) }
    ensures most { result ≤ 2 }
{
    let Some(byte) = seen.byte else {
        return 0;
    };
    if is_mark(byte) {
        1
    } else if is_compare(byte) && begins_with(behind, b'=') {
        2
    } else {
        0
    }
}

/// Whether this byte stands in front.
pub(crate) fn begins_with(reader: &Reader<'_>, byte: u8) -> bool
    ensures { result ≡ cuts.front_is (λ b. b == byte) reader.now }
{
    let mut ahead = reader.again();
    let Some(seen) = ahead.next() else {
        return false;
    };
    match seen.byte {
        Some(first) => first == byte,
        None => false,
    }
}

/// Leaves the run of bytes in front behind.
pub(crate) fn pass(rules: Rules, part: Part, reader: &mut Reader<'_>)
    ensures { reader.new ≡ cuts.behind (goes_on (rules_of rules) part) reader.old }
{
    while next_in(rules, part, reader).is_some() {}
}

/// Some bytes, and the place behind the last one.
#[derive(Drop)]
pub(crate) struct Taken {
    pub text: Bytes,
    pub end: u32,
}

impl Taken {
    ghost use Rattle.std.specs.Prelude.{[]};
    ghost use Rattle.conf_lex.specs.Views.{seen_of, rules_of};
    ghost use Rattle.conf_lex.specs.Parts.{goes_on, taken_behind};

    /// No bytes yet at this place.
    pub(crate) fn none(alloc: Global, place: u32) -> Taken
        ensures { result ≡ record { text = []; end = place } }
    {
        Taken {
            text: Items::new(alloc),
            end: place,
        }
    }

    /// Puts a byte behind the others.
    pub(crate) fn push(&mut self, seen: Seen) -> Result<(), NoMemory>
        requires { seen.place ≤ 134217729 }
        ensures { OnOk result (self.new ≡ taken_behind self.old (seen_of seen ∷ [])) }
    {
        if let Some(byte) = seen.byte {
            self.text.push(byte)?;
        }
        self.end = seen.place + 1;
        Ok(())
    }

    /// Puts the run of bytes in front behind the others.
    pub(crate) fn take_run(
        &mut self,
        rules: Rules,
        part: Part,
        reader: &mut Reader<'_>,
    ) -> Result<(), NoMemory>
        ensures { OnOk result ((self.new ≡ taken_behind self.old (cuts.run (goes_on (rules_of rules) part) reader.old)) × (reader.new ≡ cuts.behind (goes_on (rules_of rules) part) reader.old)) }
    {
        while let Some(seen) = next_in(rules, part, reader) {
            self.push(seen)?;
        }
        Ok(())
    }
}
