ghost use Rattle.std.specs.Prelude.{◌≡◌, is_some};
ghost use Rattle.std.specs.List.{list_all};
ghost use Rattle.conf_tree.specs.Names.{is_name_byte, is_name};
ghost use Rattle.ctl_show.specs.Commands.{fits, is_table_name, number_of_word};

use net_base::{Addr, number};

/// The most bytes of the name of a RIB.
const MOST_NAME_BYTES: usize = 31;

/// What stands at a place of a command: a word of the language, or a value.
#[derive(Clone, Copy, Debug, PartialEq, Eq)]
pub(crate) enum Piece {
    Show,
    Summary,
    Neighbor,
    Sets,
    Tables,
    Rib,
    Table,
    In,
    Out,
    Memory,
    Fib,
    Nexthop,
    Couple,
    Decouple,
    Up,
    Down,
    Clear,
    Refresh,
    /// The address of a neighbour.
    Peer,
    /// The name of a RIB.
    Name,
    /// The number of a kernel table, below 2^32.
    Number,
}

/// Whether a word can stand where this piece is.
pub(crate) fn fits(piece: Piece, word: &[u8]) -> bool
    ensures { result ≡ fits piece word.now }
{
    match piece {
        Piece::Show => word == b"show".as_slice(),
        Piece::Summary => word == b"summary".as_slice(),
        Piece::Neighbor => word == b"neighbor".as_slice(),
        Piece::Sets => word == b"sets".as_slice(),
        Piece::Tables => word == b"tables".as_slice(),
        Piece::Rib => word == b"rib".as_slice(),
        Piece::Table => word == b"table".as_slice(),
        Piece::In => word == b"in".as_slice(),
        Piece::Out => word == b"out".as_slice(),
        Piece::Memory => word == b"memory".as_slice(),
        Piece::Fib => word == b"fib".as_slice(),
        Piece::Nexthop => word == b"nexthop".as_slice(),
        Piece::Couple => word == b"couple".as_slice(),
        Piece::Decouple => word == b"decouple".as_slice(),
        Piece::Up => word == b"up".as_slice(),
        Piece::Down => word == b"down".as_slice(),
        Piece::Clear => word == b"clear".as_slice(),
        Piece::Refresh => word == b"refresh".as_slice(),
        Piece::Peer => Addr::read_bytes(word).is_ok(),
        Piece::Name => is_table_name(word),
        Piece::Number => read_number(word).is_some(),
    }
}

/// The number that a word says, below 2^32.
pub(crate) fn read_number(word: &[u8]) -> Option<u32>
    ensures { result ≡ number_of_word word.now }
{
    number::read_u32(word).ok()
}

fn is_table_name(word: &[u8]) -> bool
    ensures { result ≡ is_table_name word.now }
{
    is_name(word) && word.len() <= MOST_NAME_BYTES
}

#[tactic(auto, unfolding(conf_tree::specs::Names::is_name))]
fn is_name(word: &[u8]) -> bool
    ensures { result ≡ is_name word.now }
{
    match word {
        [] => false,
        [first, rest @ ..] => first.is_ascii_alphabetic() && are_name_bytes(rest),
    }
}

fn are_name_bytes(text: &[u8]) -> bool
    ensures { result ≡ list_all is_name_byte text.now }
{
    text.iter().all(|b| is_name_byte(*b))
}

fn is_name_byte(b: u8) -> bool
    ensures { result ≡ is_name_byte b }
{
    b.is_ascii_alphanumeric() || b == b'_' || b == b'-'
}
