//! The classes of bytes.

ghost use Rattle.std.specs.Prelude.{◌≡◌};
ghost use Rattle.conf_tree.specs.Joined as joined_lines;
ghost use Rattle.conf_tree.specs.Cuts as cuts;
ghost use Rattle.conf_tree.specs.Names.{is_name_byte};

/// A blank or a tab.
pub(crate) fn is_blank(byte: u8) -> bool
    ensures { result ≡ cuts.is_blank byte }
{
    byte == b' ' || byte == b'\t'
}

/// Printable ASCII but the blank.
pub(crate) fn is_printable(byte: u8) -> bool
    ensures { result ≡ cuts.is_printable byte }
{
    b'!' <= byte && byte <= b'~'
}

/// A mark of one byte.
pub(crate) fn is_mark(byte: u8) -> bool
    ensures { result ≡ cuts.is_mark byte }
{
    byte == b'{' || byte == b'}' || byte == b',' || byte == b'='
}

/// The first byte of a mark of two.
pub(crate) fn is_compare(byte: u8) -> bool
    ensures { result ≡ cuts.is_compare byte }
{
    byte == b'<' || byte == b'>'
}

/// A byte of a name behind its first letter.
pub(crate) fn is_name_byte(byte: u8) -> bool
    ensures { result ≡ is_name_byte byte }
{
    byte.is_ascii_alphanumeric() || byte == b'_' || byte == b'-'
}
