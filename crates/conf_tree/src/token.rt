use crate::Text;
use net_base::Items;

/// What a token of a configuration text is.
#[derive(Clone, Copy, Debug, PartialEq, Eq)]
pub enum TokenKind {
    /// A run of bytes that stand for themselves, as a keyword, a number or a name.
    Word,

    /// What stands between `"` and `"`, without them.
    Quoted,

    /// `{`, `}`, `,`, `=`, `>=` or `<=`.
    Mark,

    /// The end of a line that isn't joined to the next one, or the end of the text.
    LineEnd,
}

/// A token of a configuration text, after macros were replaced.
#[derive(Debug, Drop)]
pub struct Token {
    /// The line of the text where its first byte stands, counted from 1. Each LF begins a line, also one
    /// that joins two lines. A token that a macro gave has the line of the `$NAME`.
    pub line: u32,

    /// The place of its first byte in the text, counted from 0; of a quoted text, of its `"`. A token that a
    /// macro gave has the place of the `$NAME`.
    pub start: u32,

    /// The place behind its last byte.
    pub end: u32,

    pub kind: TokenKind,

    /// Its bytes, without the `"` of a quoted text and without a backslash and LF that join two lines. The
    /// end of a line has none.
    pub text: Text,
}

/// The tokens of a text in order. Each line that isn't joined to the next one gives a `LineEnd` behind its
/// tokens, with the line and place of its LF. The last token is the `LineEnd` of the last line, which ends
/// at the end of the text: its line is 1 + the LFs of the text, its place the size of the text.
pub type TokenList = Items<Token>;
