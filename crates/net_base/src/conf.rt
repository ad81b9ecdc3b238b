ghost use Rattle.std.specs.Prelude.{◌≡◌, Some};
ghost use Rattle.net_base.specs.declared.conf.ConfError.{ConfError};
ghost use Rattle.net_base.specs.Conf.{counted_word, kind_text, fault_text};

use crate::NoMemory;
use std::fmt;
use std::fmt::Display;
use thiserror::Error;

/// What a configuration has too many of. `Names` says that a name or a quoted text is too long.
#[derive(Clone, Copy, Debug, PartialEq, Eq, PartialOrd, Ord, Hash)]
pub enum Counted {
    Neighbours,
    Groups,
    Ribs,
    Rules,
    Networks,
    Entries,
    Conditions,
    Items,
    Listens,
    Names,
}

/// Why a configuration is refused. Each kind is printed as its name, `TooMany` with the word behind it.
#[derive(Clone, Copy, Debug, PartialEq, Eq, PartialOrd, Ord, Hash)]
pub enum ConfKind {
    /// The text, or what its macros give, is longer than the limit.
    TooLong,

    /// A byte that can't stand outside quotes, or a text that isn't UTF-8.
    BadByte,

    /// A quoted text doesn't end on its line.
    OpenQuote,

    /// A macro that isn't defined above, or one of another number of tokens inside a word.
    UnknownMacro,

    /// A word of bgpd.conf(5) that this profile leaves out.
    NotInProfile,

    /// A word that can't stand here.
    UnexpectedWord,

    /// A number outside its range.
    NumberRange,

    /// More of something than there is room for.
    TooMany(Counted),

    /// No own AS number, or a neighbour without `remote-as`.
    NoAs,

    /// No `router-id`.
    NoRouterId,

    /// A name or a kernel table that comes twice.
    DoubleName,

    /// An address of a neighbour that comes twice.
    DoubleNeighbour,

    /// A set, RIB or group that isn't defined.
    UnknownName,

    /// A neighbour's `local-address` of another family than its address.
    FamilyMismatch,

    /// A statement of the language that can't be read yet.
    NotBuilt,
}

/// The first fault of a configuration, and the line of its text where it stands, counted from 1. A fault of
/// the whole text stands at line 0.
///
/// It is printed as the line, a blank, and the kind.
#[derive(Clone, Copy, Debug, PartialEq, Eq, PartialOrd, Ord, Hash)]
pub struct ConfFault {
    pub line: u32,
    pub kind: ConfKind,
}

/// Why no configuration came of a text.
#[derive(Clone, Copy, Debug, PartialEq, Eq, Error)]
pub enum ConfError {
    /// The text is no good configuration.
    #[error("line {0}")]
    Fault(ConfFault),

    /// Memory was refused. Nothing is said about the text.
    #[error("out of memory")]
    NoMemory,
}

impl From<NoMemory> for ConfError {
    ghost from_gives = { λ _ error. error ≡ ConfError.NoMemory };

    fn from(_: NoMemory) -> ConfError {
        ConfError::NoMemory
    }
}

impl Display for Counted {
    ghost output = { λ counted. Some (counted_word counted) };

    fn fmt<W: fmt::Write>(&self, f: &mut fmt::Formatter<W>) -> fmt::Result {
        f.write_str(match self {
            Counted::Neighbours => "neighbours",
            Counted::Groups => "groups",
            Counted::Ribs => "ribs",
            Counted::Rules => "rules",
            Counted::Networks => "networks",
            Counted::Entries => "entries",
            Counted::Conditions => "conditions",
            Counted::Items => "items",
            Counted::Listens => "listens",
            Counted::Names => "names",
        })
    }
}

impl Display for ConfKind {
    ghost output = { λ kind. Some (kind_text kind) };

    fn fmt<W: fmt::Write>(&self, f: &mut fmt::Formatter<W>) -> fmt::Result {
        match self {
            ConfKind::TooLong => f.write_str("TooLong"),
            ConfKind::BadByte => f.write_str("BadByte"),
            ConfKind::OpenQuote => f.write_str("OpenQuote"),
            ConfKind::UnknownMacro => f.write_str("UnknownMacro"),
            ConfKind::NotInProfile => f.write_str("NotInProfile"),
            ConfKind::UnexpectedWord => f.write_str("UnexpectedWord"),
            ConfKind::NumberRange => f.write_str("NumberRange"),
            ConfKind::TooMany(counted) => write!(f, "TooMany {counted}"),
            ConfKind::NoAs => f.write_str("NoAs"),
            ConfKind::NoRouterId => f.write_str("NoRouterId"),
            ConfKind::DoubleName => f.write_str("DoubleName"),
            ConfKind::DoubleNeighbour => f.write_str("DoubleNeighbour"),
            ConfKind::UnknownName => f.write_str("UnknownName"),
            ConfKind::FamilyMismatch => f.write_str("FamilyMismatch"),
            ConfKind::NotBuilt => f.write_str("NotBuilt"),
        }
    }
}

impl Display for ConfFault {
    ghost output = { λ fault. Some (fault_text fault) };

    fn fmt<W: fmt::Write>(&self, f: &mut fmt::Formatter<W>) -> fmt::Result {
        write!(f, "{} {}", self.line, self.kind)
    }
}
