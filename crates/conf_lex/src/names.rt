//! The names of macros in the words of a text.

ghost use Rattle.std.specs.Prelude.{◌≡◌, ◌≤◌, length, option_map};
ghost use Rattle.std.specs.List.{prefix_len, list_all};
ghost use Rattle.conf_tree.specs.Names.{is_name_byte, is_name};
ghost use Rattle.conf_tree.specs.Macros as macros;

use crate::classes::is_name_byte;

// Whether a NAME may go on with these bytes.
fn are_name_bytes(text: &[u8]) -> bool
    ensures { result ≡ list_all is_name_byte text.now }
{
    text.iter().all(|byte| is_name_byte(*byte))
}

/// Whether a text has the form of a NAME.
#[tactic(auto, unfolding(conf_tree::specs::Names::is_name))]
pub(crate) fn is_name(text: &[u8]) -> bool
    ensures { result ≡ is_name text.now }
{
    match text.split_first() {
        Some((first, rest)) => first.is_ascii_alphabetic() && are_name_bytes(rest),
        None => false,
    }
}

// How many bytes in front may stand in a NAME.
#[tactic(auto, using(crate::proofs::NameBytes::name_bytes_within))]
fn name_size(text: &[u8]) -> usize
    ensures size { result ≡ prefix_len is_name_byte text.now }
    ensures within { result ≤ length text.now }
{
    text.iter().take_while(|byte| is_name_byte(**byte)).count()
}

// The NAME in front, as long as can be, and the bytes behind it.
fn name_in_front(text: &[u8]) -> Option<(&[u8], &[u8])>
    ensures { option_map (λ found. (found.0.now, found.1.now)) result ≡ macros.asked_name text.now }
{
    let (first, rest) = text.split_first()?;
    if !first.is_ascii_alphabetic() {
        return None;
    }
    let size = 1 + name_size(rest);
    Some((&text[..size], &text[size..]))
}

/// The NAME behind the `$` with which a word begins, as long as can be, and the further bytes.
pub(crate) fn asked(word: &[u8]) -> Option<(&[u8], &[u8])>
    ensures { option_map (λ found. (found.0.now, found.1.now)) result ≡ macros.asked word.now }
{
    let (first, rest) = word.split_first()?;
    if *first == b'$' {
        name_in_front(rest)
    } else {
        None
    }
}
