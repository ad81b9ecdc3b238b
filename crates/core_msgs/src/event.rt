ghost use Rattle.std.specs.Prelude.{◌≡◌, ◌+◌, ◌*◌, length, ◌<◌, ◌≤◌, ◌^◌};
ghost use Rattle.core_msgs.specs.EventText.{ended, missing_end, words_text, event_line, lines_behind};

use crate::LinkName;
use net_base::number::digits;
use net_base::{Addr, Bytes, Items, Prefix, Way};

/// The words of a control command, each of them UTF-8 text.
pub type WordList = Items<Bytes>;

/// What happens to the speaker.
#[derive(Debug, Drop)]
pub enum Event {
    /// The moment in seconds, below 2^63.
    Time(u64),
    /// A connection with a neighbour was made, by it or by this speaker.
    Open(Addr, Way),
    /// The next bytes of a neighbour, at least one.
    Bytes(Addr, Bytes),
    /// The connection with a neighbour was lost.
    Close(Addr),
    /// A route that isn't BGP's came into the kernel, or went, which `false` says.
    KernelRoute(Prefix, bool),
    /// A new configuration by its text.
    Reload(Bytes),
    /// So many bytes of a link come to their core.
    Deliver(LinkName, u32),
    /// So many units of background work are done.
    Work(u32),
    /// So many bytes at most are sent to a neighbour.
    Write(Addr, u32),
    /// A neighbour takes no bytes any more.
    Stall(Addr),
    /// A stalled neighbour takes bytes again.
    Flow(Addr),
    /// So many turns are made.
    Turn(u32),
    /// Everything that is left to do is done.
    Settle,
    /// A control command.
    Ctl(WordList),
    /// A link fails.
    Cut(LinkName),
    /// The call of the kernel on a table with this number, counted from 1 and from now on, fails.
    KernelFail(u32, u32),
    /// The sessions end, and so does the run.
    Stop,
}

impl Event {
    ghost use Rattle.core_msgs.specs.EventText.{event_text};

    /// The length in bytes of the event's text in an event file, its line ends included.
    #[tactic(auto, unfolding(crate::specs::EventText::event_text))]
    pub fn size(&self) -> u128
        ensures { result ≡ length (event_text self.now) }
    {
        let behind = match self {
            Event::Reload(text) => ended_length(text.as_slice()) + 2,
            _ => 0,
        };
        line_length(self) + 1 + behind
    }
}

/// The length of an event's line, and of a reload's first one, without its LF.
fn line_length(event: &Event) -> u128
    ensures value { result ≡ length (event_line event.now) }
    ensures small { result < 2 ^ 127 + 4 }
{
    match event {
        Event::Time(moment) => 5 + digits(*moment) as u128,
        Event::Open(peer, Way::In) => 8 + peer.text_length() as u128,
        Event::Open(peer, Way::Out) => 9 + peer.text_length() as u128,
        Event::Bytes(peer, bytes) => { 7 + peer.text_length() as u128 + 2 * bytes.len() as u128 }
        Event::Close(peer) => 6 + peer.text_length() as u128,
        Event::KernelRoute(prefix, true) => 10 + prefix.text_length() as u128,
        Event::KernelRoute(prefix, false) => 12 + prefix.text_length() as u128,
        Event::Reload(_) => 6,
        Event::Deliver(_, count) => 11 + digits(u64::from(*count)) as u128,
        Event::Work(count) => 5 + digits(u64::from(*count)) as u128,
        Event::Write(peer, count) => {
            7 + peer.text_length() as u128 + digits(u64::from(*count)) as u128
        }
        Event::Stall(peer) => 6 + peer.text_length() as u128,
        Event::Flow(peer) => 5 + peer.text_length() as u128,
        Event::Turn(count) => 5 + digits(u64::from(*count)) as u128,
        Event::Settle => 6,
        Event::Ctl(words) => 3 + words_length(words.as_slice()),
        Event::Cut(_) => 6,
        Event::KernelFail(table, call) => {
            7 + digits(u64::from(*table)) as u128 + digits(u64::from(*call)) as u128
        }
        Event::Stop => 4,
    }
}

/// The length of a reload's text with its last line ended.
fn ended_length(text: &[u8]) -> u128
    ensures value { result ≡ length (ended text.now) }
    ensures small { result < 2 ^ 65 }
{
    text.len() as u128 + missing_end_length(text.last().copied())
}

fn missing_end_length(last: Option<u8>) -> u128
    ensures value { result ≡ length (missing_end last) }
    ensures small { result ≤ 1 }
{
    match last {
        None | Some(b'\n') => 0,
        Some(_) => 1,
    }
}

/// The length of words, each with the blank before it.
fn words_length(words: &[Bytes]) -> u128
    ensures value { result ≡ length (words_text words.now) }
    ensures small { result < 2 ^ 127 }
{
    let mut length = 0;
    for word in words {
        length += 1 + word.len() as u128;
    }
    length
}
