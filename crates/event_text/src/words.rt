ghost use Rattle.std.specs.Prelude.{◌≡◌, ◌<◌, ◌≤◌, ◌∷◌, [], length, IfSome, MatchOption, MatchResult};
ghost use Rattle.std.specs.List.{slice_split, position_or_len};
ghost use Rattle.net_base.specs.Addr.{read_addr};
ghost use Rattle.net_base.specs.Prefix.{read_prefix};
ghost use Rattle.event_text.specs.declared.words.Unread.{Unread};
ghost use Rattle.event_text.specs.Cursor.{Reads, Gives};
ghost use Rattle.event_text.specs.Grammar.{is_blank, words_of, word_at, kind_of, link_of, way_of, kernel_of, bytes_of, count_of, moment_of, call_of};

use core_msgs::LinkName;
use hex::FromHexError;
use net_base::{Addr, Bytes, Items, NoMemory, Prefix, Way, number};
use std::alloc::Global;
use std::marker::Model;

/// The kind of an event, as its first word says.
#[derive(Clone, Copy, Debug, PartialEq, Eq)]
pub(crate) enum Kind {
    Time,
    Open,
    Bytes,
    Close,
    KernelRoute,
    Deliver,
    Work,
    Write,
    Stall,
    Flow,
    Turn,
    Settle,
    Cut,
    KernelFail,
    Stop,
}

/// Why words give nothing.
#[derive(Clone, Copy, Debug, PartialEq, Eq)]
pub(crate) enum Unread {
    /// They aren't of the grammar.
    Outside,
    /// Memory was refused.
    NoMemory,
}

impl From<NoMemory> for Unread {
    ghost use Rattle.event_text.specs.declared.words.Unread.TheVariants.{NoMemory};

    ghost from_gives = { λ _ fault. fault ≡ NoMemory };

    fn from(_: NoMemory) -> Self {
        Unread::NoMemory
    }
}

/// Reads words from the front of a line. Contracts see the words that are left.
#[derive(Drop)]
pub(crate) struct Words<'a> {
    /// What stands behind the words that were read.
    left: &'a [u8],
    /// Whether the last word was read.
    ended: bool,
}

impl<'a> Model for Words<'a> {
    ghost use Rattle.std.specs.Prelude.{ℕ, List, [], if◌then◌else◌};
    ghost use Rattle.event_text.specs.Grammar.{words_of};

    ghost Value = { List (List ℕ) };

    ghost view = { λ w. if w.ended then [] else words_of w.left.now };
}

impl<'a> Words<'a> {
    /// The words of a line, before the first of them.
    pub(crate) fn new(line: &'a [u8]) -> Words<'a>
        ensures { result ≡ words_of line.now }
    {
        Words {
            left: line,
            ended: false,
        }
    }

    /// The next word, or Outside behind the last.
    fn word(&mut self) -> Result<&'a [u8], Unread>
        ensures { MatchResult result (λ word. self.old ≡ word.now ∷ self.new) (λ fault. (self.old ≡ []) × (fault ≡ Unread.Outside)) }
    {
        if self.ended {
            return Err(Unread::Outside);
        }
        match split_word(self.left) {
            Some((word, behind)) => {
                self.left = behind;
                Ok(word)
            }
            None => {
                self.ended = true;
                Ok(self.left)
            }
        }
    }

    /// The end of the words, or Outside where a word is left.
    #[tactic(auto, using(crate::proofs::Splits::some_word))]
    pub(crate) fn end(&self) -> Result<(), Unread>
        ensures { MatchResult result (λ _. self.now ≡ []) (λ fault. (0 < length self.now) × (fault ≡ Unread.Outside)) }
    {
        if self.ended {
            Ok(())
        } else {
            Err(Unread::Outside)
        }
    }

    /// The kind of an event.
    pub(crate) fn kind(&mut self) -> Result<Kind, Unread>
        ensures { Reads (word_at kind_of) self.old self.new result }
    {
        match read_kind(self.word()?) {
            Some(kind) => Ok(kind),
            None => Err(Unread::Outside),
        }
    }

    /// The address of a neighbour.
    pub(crate) fn peer(&mut self) -> Result<Addr, Unread>
        ensures { Reads (word_at read_addr) self.old self.new result }
    {
        match Addr::read_bytes(self.word()?) {
            Ok(peer) => Ok(peer),
            Err(_) => Err(Unread::Outside),
        }
    }

    /// A prefix.
    pub(crate) fn prefix(&mut self) -> Result<Prefix, Unread>
        ensures { Reads (word_at read_prefix) self.old self.new result }
    {
        match Prefix::read_bytes(self.word()?) {
            Ok(prefix) => Ok(prefix),
            Err(_) => Err(Unread::Outside),
        }
    }

    /// Who made a connection.
    pub(crate) fn way(&mut self) -> Result<Way, Unread>
        ensures { Reads (word_at way_of) self.old self.new result }
    {
        let word = self.word()?;
        if word == b"in".as_slice() {
            Ok(Way::In)
        } else if word == b"out".as_slice() {
            Ok(Way::Out)
        } else {
            Err(Unread::Outside)
        }
    }

    /// Whether a route of the kernel came or went.
    pub(crate) fn kernel_change(&mut self) -> Result<bool, Unread>
        ensures { Reads (word_at kernel_of) self.old self.new result }
    {
        let word = self.word()?;
        if word == b"up".as_slice() {
            Ok(true)
        } else if word == b"down".as_slice() {
            Ok(false)
        } else {
            Err(Unread::Outside)
        }
    }

    /// A link.
    pub(crate) fn link(&mut self) -> Result<LinkName, Unread>
        ensures { Reads (word_at link_of) self.old self.new result }
    {
        match read_link(self.word()?) {
            Some(link) => Ok(link),
            None => Err(Unread::Outside),
        }
    }

    /// A count, below 2^32.
    pub(crate) fn count(&mut self) -> Result<u32, Unread>
        ensures { Reads (word_at count_of) self.old self.new result }
    {
        match read_count(self.word()?) {
            Some(count) => Ok(count),
            None => Err(Unread::Outside),
        }
    }

    /// The number of a call, counted from 1 and below 2^32.
    pub(crate) fn call(&mut self) -> Result<u32, Unread>
        ensures { Reads (word_at call_of) self.old self.new result }
    {
        match read_count(self.word()?) {
            Some(0) => Err(Unread::Outside),
            Some(call) => Ok(call),
            None => Err(Unread::Outside),
        }
    }

    /// A moment in seconds, below 2^63.
    pub(crate) fn moment(&mut self) -> Result<u64, Unread>
        ensures { Reads (word_at moment_of) self.old self.new result }
    {
        match read_moment(self.word()?) {
            Some(moment) => Ok(moment),
            None => Err(Unread::Outside),
        }
    }

    /// Bytes in hexadecimal digits, at least one byte.
    pub(crate) fn bytes(&mut self, alloc: Global) -> Result<Bytes, Unread>
        ensures { Reads (word_at bytes_of) self.old self.new result }
    {
        read_hex(alloc, self.word()?)
    }
}

/// The kind of an event by its first word.
fn read_kind(word: &[u8]) -> Option<Kind>
    ensures { result ≡ kind_of word.now }
{
    if word == b"time".as_slice() {
        Some(Kind::Time)
    } else if word == b"open".as_slice() {
        Some(Kind::Open)
    } else if word == b"bytes".as_slice() {
        Some(Kind::Bytes)
    } else if word == b"close".as_slice() {
        Some(Kind::Close)
    } else if word == b"kroute".as_slice() {
        Some(Kind::KernelRoute)
    } else if word == b"deliver".as_slice() {
        Some(Kind::Deliver)
    } else if word == b"work".as_slice() {
        Some(Kind::Work)
    } else if word == b"write".as_slice() {
        Some(Kind::Write)
    } else if word == b"stall".as_slice() {
        Some(Kind::Stall)
    } else if word == b"flow".as_slice() {
        Some(Kind::Flow)
    } else if word == b"turn".as_slice() {
        Some(Kind::Turn)
    } else if word == b"settle".as_slice() {
        Some(Kind::Settle)
    } else if word == b"cut".as_slice() {
        Some(Kind::Cut)
    } else if word == b"kfail".as_slice() {
        Some(Kind::KernelFail)
    } else if word == b"stop".as_slice() {
        Some(Kind::Stop)
    } else {
        None
    }
}

fn read_link(word: &[u8]) -> Option<LinkName>
    ensures { result ≡ link_of word.now }
{
    if word == b"ps".as_slice() {
        Some(LinkName::Ps)
    } else if word == b"sp".as_slice() {
        Some(LinkName::Sp)
    } else if word == b"pr".as_slice() {
        Some(LinkName::Pr)
    } else if word == b"rp".as_slice() {
        Some(LinkName::Rp)
    } else if word == b"sr".as_slice() {
        Some(LinkName::Sr)
    } else if word == b"rs".as_slice() {
        Some(LinkName::Rs)
    } else {
        None
    }
}

#[tactic(auto, using(crate::proofs::Below::below, crate::proofs::Below::bad))]
fn read_count(word: &[u8]) -> Option<u32>
    ensures { result ≡ count_of word.now }
{
    match number::read_u32(word) {
        Ok(count) => Some(count),
        Err(_) => None,
    }
}

#[tactic(auto, using(crate::proofs::Below::below, crate::proofs::Below::not_below, crate::proofs::Below::bad))]
fn read_moment(word: &[u8]) -> Option<u64>
    ensures { result ≡ moment_of word.now }
{
    match number::read_u64(word) {
        Ok(moment) if moment < MOMENT_LIMIT => Some(moment),
        Ok(_) => None,
        Err(_) => None,
    }
}

/// Moments stay below this number of seconds.
const MOMENT_LIMIT: u64 = 1 << 63;

/// The bytes that hexadecimal digits write, at least one.
fn read_hex(alloc: Global, word: &[u8]) -> Result<Bytes, Unread>
    ensures { Gives (bytes_of word.now) result }
{
    if word.is_empty() {
        return Err(Unread::Outside);
    }
    match hex::decode(alloc, word) {
        Ok(bytes) => Ok(Items::from_vec(bytes)),
        Err(FromHexError::OutOfMemory) => Err(Unread::NoMemory),
        Err(_) => Err(Unread::Outside),
    }
}

/// How many bytes stand before the first blank.
pub(crate) fn word_length(line: &[u8]) -> usize
    ensures value { result ≡ position_or_len is_blank line.now }
    ensures within { result ≤ length line.now }
{
    line.iter().take_while(|b| **b != b' ').count()
}

/// What stands before the first blank and behind it, or None where there is no blank.
#[tactic(auto, using(crate::proofs::Splits::split_none, crate::proofs::Splits::split_first))]
pub(crate) fn split_word(text: &[u8]) -> Option<(&[u8], &[u8])>
    ensures parts { MatchOption result (slice_split is_blank text.now ≡ text.now ∷ [])
        (λ found. slice_split is_blank text.now ≡ found.0.now ∷ slice_split is_blank found.1.now) }
    ensures shorter { IfSome result (λ found. length found.1.now < length text.now) }
{
    let length = word_length(text);
    if length == text.len() {
        return None;
    }
    Some((text.split_at(length).0, text.split_at(length + 1).1))
}
