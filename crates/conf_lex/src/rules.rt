//! What the tokens of a text depend on beside its bytes.

ghost use Rattle.std.specs.Prelude.{◌≡◌, take};
ghost use Rattle.conf_tree.specs.Cuts as cuts;
ghost use Rattle.conf_lex.specs.Views.{rules_of};

use crate::classes::{is_blank, is_printable};
use std::str;

/// What the tokens of a text depend on beside its bytes.
#[derive(Clone, Copy)]
pub(crate) struct Rules {
    /// Whether only printable ASCII, blanks, tabs and LF may stand outside quotes.
    pub strict: bool,

    /// The place of the first byte that is no UTF-8.
    pub bad: usize,

    /// Whether the end of the text is a limit behind which more bytes stand.
    pub cut: bool,
}

/// The rules of the text of a quoted value.
pub(crate) const PLAIN: Rules = Rules {
    strict: false,
    bad: 0,
    cut: false,
};

impl Rules {
    ghost use Rattle.conf_lex.specs.Views.{rules_of};

    /// The rules of a text up to a limit.
    pub(crate) fn up_to(text: &[u8], limit: usize) -> Rules
        ensures { rules_of result ≡ cuts.rules_of limit text.now }
    {
        let cut = limit < text.len();
        Rules {
            strict: true,
            bad: bad_place(cut, front(text, limit)),
            cut,
        }
    }

    /// Whether a comment goes on with a byte.
    pub(crate) fn is_comment_byte(self, byte: u8) -> bool
        ensures { result ≡ cuts.is_comment_byte (rules_of self) byte }
    {
        if self.strict {
            is_printable(byte) || is_blank(byte)
        } else {
            byte != b'\n'
        }
    }

    /// Whether a word is made of such bytes, where no mark begins.
    pub(crate) fn is_word_byte(self, byte: u8) -> bool
        ensures { result ≡ cuts.is_word_byte (rules_of self) byte }
    {
        if byte == b'"' || byte == b'#' {
            return false;
        }
        if self.strict {
            is_printable(byte)
        } else {
            !(is_blank(byte) || byte == b'\n')
        }
    }
}

/// The text up to a limit.
pub(crate) fn front(text: &[u8], limit: usize) -> &[u8]
    ensures { result.now ≡ take limit text.now }
{
    if limit < text.len() {
        &text[..limit]
    } else {
        text
    }
}

// The place of the first byte that is no UTF-8, or of the end. A character that the limit cuts through is good.
fn bad_place(cut: bool, text: &[u8]) -> usize
    ensures { result ≡ cuts.bad_place cut text.now }
{
    match str::from_utf8(text) {
        Ok(_) => text.len(),
        Err(error) if cut && error.error_len().is_none() => text.len(),
        Err(error) => error.valid_up_to(),
    }
}
