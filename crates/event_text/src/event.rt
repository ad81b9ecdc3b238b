ghost use Rattle.std.specs.Prelude.{◌≡◌, ◌+◌, ◌<◌, ◌^◌, [], drop, false, OnOk, IfOk, Some, None, if◌then◌else◌, bytes_eq, codes};
ghost use Rattle.std.specs.List.{slice_split};
ghost use Rattle.std.specs.Str.{is_utf8};
ghost use Rattle.event_text.specs.Held.{held_event, ReadsEvent};
ghost use Rattle.event_text.specs.Cursor.{Reads, Gives};
ghost use Rattle.event_text.specs.Grammar.{is_blank, first_word, control_words, words_of, event_behind, event_at, whole, line_event, is_reload, is_skipped};

use crate::words::{Kind, Unread, Words, split_word, word_length};
use core_msgs::{Event, WordList};
use net_base::{Bytes, Items, NoMemory};
use std::alloc::Global;
use std::str;
use thiserror::Error;

/// Why lines give no event.
#[derive(Clone, Copy, Debug, PartialEq, Eq, Error)]
pub enum EventFault {
    /// The line of this number, counted from 1, isn't of the grammar of events.
    #[error("line {0}: bad event")]
    BadEvent(u32),
    /// Memory was refused.
    #[error("out of memory")]
    NoMemory,
}

impl From<NoMemory> for EventFault {
    ghost use Rattle.event_text.specs.declared.event.EventFault.TheVariants.{NoMemory};

    ghost from_gives = { λ _ fault. fault ≡ NoMemory };

    fn from(_: NoMemory) -> Self {
        EventFault::NoMemory
    }
}

/// The lines of one event of an event file, each without its LF.
#[derive(Debug, Drop)]
pub struct LinesHeld {
    /// The number of the first line, counted from 1.
    pub first: u32,
    /// The number of the last line.
    pub last: u32,
    /// The first line.
    pub head: Bytes,
    /// The lines of a configuration's text behind it, each with an LF.
    pub text: Bytes,
    /// Whether the line that ends the text came.
    pub ended: bool,
}

/// Whether a line of an event file is passed over: an empty line or a comment.
pub fn is_skipped(line: &[u8]) -> bool
    ensures { result ≡ is_skipped line.now }
{
    match line {
        [] => true,
        [first, ..] => *first == b'#',
    }
}

/// Whether a line begins a `reload`, whose text stands in the lines behind it.
pub fn is_reload(line: &[u8]) -> bool
    ensures { result ≡ is_reload line.now }
{
    line == b"reload".as_slice()
}

impl LinesHeld {
    ghost use Rattle.event_text.specs.Held.{wants_more, held_then};

    /// The first line of an event.
    pub fn new(alloc: Global, number: u32, head: Bytes) -> Self
        ensures { result ≡ record { first = number; last = number; head = head; text = []; ended = false } }
    {
        LinesHeld {
            first: number,
            last: number,
            head,
            text: Items::new(alloc),
            ended: false,
        }
    }

    /// Whether the event goes on in the next line: in the text of a configuration.
    pub fn wants_more(&self) -> bool
        ensures { result ≡ wants_more self.now }
    {
        is_reload(self.head.as_slice()) && !self.ended
    }

    /// Takes the next line. Where memory is refused, the lines held before are as they were.
    pub fn push(&mut self, line: &[u8]) -> Result<(), NoMemory>
        requires { self.old.last + 1 < 2 ^ 32 }
        ensures ok { OnOk result (self.new ≡ held_then self.old line.now) }
    {
        if line == b".".as_slice() {
            self.ended = true;
        } else {
            self.text.extend_from_slice(line)?;
            self.text.push(b'\n')?;
        }
        self.last += 1;
        Ok(())
    }
}

/// Reads the event that some lines are.
///
/// `BadEvent` comes exactly where the lines aren't of the grammar of events: at the line itself, and at the last one
/// where a text isn't ended.
pub fn read_event(alloc: Global, lines: &LinesHeld) -> Result<Event, EventFault>
    ensures { ReadsEvent (held_event lines.now) result }
{
    if is_reload(lines.head.as_slice()) {
        if !lines.ended {
            return Err(EventFault::BadEvent(lines.last));
        }
        return Ok(Event::Reload(Items::from_slice(alloc, lines.text.as_slice())?));
    }
    match read_line(alloc, lines.head.as_slice()) {
        Ok(event) => Ok(event),
        Err(Unread::Outside) => Err(EventFault::BadEvent(lines.first)),
        Err(Unread::NoMemory) => Err(EventFault::NoMemory),
    }
}

/// Reads the event of one line that is no `reload`.
fn read_line(alloc: Global, line: &[u8]) -> Result<Event, Unread>
    ensures { Gives (line_event line.now) result }
{
    if first_word(line) == b"ctl".as_slice() {
        read_control(alloc, line)
    } else {
        read_words(alloc, line)
    }
}

/// Reads the event of a line of words.
#[tactic(auto, using(crate::proofs::Splits::words_left, crate::proofs::Splits::no_word_left))]
fn read_words(alloc: Global, line: &[u8]) -> Result<Event, Unread>
    ensures { Gives (whole (event_at (words_of line.now))) result }
{
    let mut words = Words::new(line);
    let event = event_of_words(alloc, &mut words)?;
    words.end()?;
    Ok(event)
}

fn event_of_words(alloc: Global, words: &mut Words) -> Result<Event, Unread>
    ensures { Reads event_at words.old words.new result }
{
    let kind = words.kind()?;
    event_behind(alloc, kind, words)
}

/// Reads the words behind the first of an event of this kind.
#[tactic(auto, unfolding(crate::specs::Grammar::event_behind))]
fn event_behind(alloc: Global, kind: Kind, words: &mut Words) -> Result<Event, Unread>
    ensures { Reads (event_behind kind) words.old words.new result }
{
    match kind {
        Kind::Time => Ok(Event::Time(words.moment()?)),
        Kind::Open => {
            let peer = words.peer()?;
            Ok(Event::Open(peer, words.way()?))
        }
        Kind::Bytes => {
            let peer = words.peer()?;
            Ok(Event::Bytes(peer, words.bytes(alloc)?))
        }
        Kind::Close => Ok(Event::Close(words.peer()?)),
        Kind::KernelRoute => {
            let prefix = words.prefix()?;
            Ok(Event::KernelRoute(prefix, words.kernel_change()?))
        }
        Kind::Deliver => {
            let link = words.link()?;
            Ok(Event::Deliver(link, words.count()?))
        }
        Kind::Work => Ok(Event::Work(words.count()?)),
        Kind::Write => {
            let peer = words.peer()?;
            Ok(Event::Write(peer, words.count()?))
        }
        Kind::Stall => Ok(Event::Stall(words.peer()?)),
        Kind::Flow => Ok(Event::Flow(words.peer()?)),
        Kind::Turn => Ok(Event::Turn(words.count()?)),
        Kind::Settle => Ok(Event::Settle),
        Kind::Cut => Ok(Event::Cut(words.link()?)),
        Kind::KernelFail => {
            let table = words.count()?;
            Ok(Event::KernelFail(table, words.call()?))
        }
        Kind::Stop => Ok(Event::Stop),
    }
}

fn first_word(line: &[u8]) -> &[u8]
    ensures { result.now ≡ first_word line.now }
{
    line.split_at(word_length(line)).0
}

/// A control command, whose line has to be UTF-8.
fn read_control(alloc: Global, line: &[u8]) -> Result<Event, Unread>
    ensures { Gives (if is_utf8 line.now then Some (Event.Ctl (control_words (drop 4 line.now))) else None) result }
{
    if !is_utf8(line) {
        return Err(Unread::Outside);
    }
    Ok(Event::Ctl(control_words(alloc, behind_ctl(line))?))
}

#[tactic(auto, using(crate::proofs::Splits::utf8_yes, crate::proofs::Splits::utf8_no))]
fn is_utf8(line: &[u8]) -> bool
    ensures { result ≡ is_utf8 line.now }
{
    match str::from_utf8(line) {
        Ok(_) => true,
        Err(_) => false,
    }
}

/// What stands behind `ctl` and a blank.
fn behind_ctl(line: &[u8]) -> &[u8]
    ensures { result.now ≡ drop 4 line.now }
{
    line.split_at(line.len().min(4)).1
}

fn control_words(alloc: Global, text: &[u8]) -> Result<WordList, NoMemory>
    ensures { IfOk result (λ words. words ≡ control_words text.now) }
{
    if text.is_empty() {
        return Ok(Items::new(alloc));
    }
    let words = split_words(alloc, text)?;
    Ok(words)
}

/// The parts of a text between its blanks.
fn split_words(alloc: Global, text: &[u8]) -> Result<WordList, NoMemory>
    ensures { IfOk result (λ words. words ≡ slice_split is_blank text.now) }
{
    let mut words = Items::new(alloc);
    let mut rest = text;
    while let Some((word, behind)) = split_word(rest) {
        words.push(Items::from_slice(alloc, word)?)?;
        rest = behind;
    }
    words.push(Items::from_slice(alloc, rest)?)?;
    Ok(words)
}
