ghost use Rattle.std.specs.Prelude.{◌≡◌, ℕ, List, [], ◌∷◌, ◌++◌, ◌≤◌, ◌<◌, ◌↔◌, IsTrue, length, take, drop, OnOk, OnErr, IsSomeAnd};
ghost use Rattle.std.specs.Option.{ForSome};
ghost use Rattle.bgp_wire.specs.Message.{Message, after_cut, cut_of, messages};
ghost use Rattle.peer_io.specs.Reading.{CameAs, IsJudged, message_in};

use bgp_wire::{Cut, HEADER_LENGTH, cut};
use byteorder::{BigEndian, ByteOrder};
use net_base::NoMemory;
use std::alloc::Global;
use std::marker::Model;
use wire_buf::Pipe;

/// The bytes of a peer that aren't handled yet, in the order in which they came.
///
/// Messages are read where they lie. The header of a message is judged once when its 19 bytes are there and once when
/// the message is whole; in between a piece costs a comparison.
#[derive(Drop)]
pub struct Inbox {
    held: Pipe,
    /// The length of the message in front, where its header is good and the message wasn't whole.
    judged: Option<u16>,
}

impl Model for Inbox {
    ghost use Rattle.std.specs.Prelude.{ℕ, List};
    ghost use Rattle.std.specs.Option.{ForSome};
    ghost use Rattle.peer_io.specs.Reading.{IsJudged};

    ghost Value = { List ℕ };

    ghost view = { λ i. i.held };

    ghost invariant = { λ i. ForSome i.judged (IsJudged i.held) };
}

impl Inbox {
    /// An inbox without bytes, which takes no memory.
    pub fn new(alloc: Global) -> Inbox
        ensures state { result ≡ [] }
        ensures came { CameAs [] [] result }
    {
        Inbox {
            held: Pipe::new(alloc),
            judged: None,
        }
    }

    /// Puts bytes behind those that it holds. Where memory is refused, it holds what it held.
    pub fn feed(&mut self, bytes: &[u8]) -> Result<(), NoMemory>
        ensures ok { OnOk result (self.new ≡ self.old ++ bytes.now) }
        ensures err { OnErr result (self.new ≡ self.old) }
        ensures came { OnOk result ((before : List ℕ) (given : List Message) →
            CameAs before given self.old → CameAs (before ++ bytes.now) given self.new) }
    {
        self.held.push(bytes)
    }

    /// What stands at the front: no whole message yet, a message of a type and so many bytes, or a header that is to be
    /// answered by a NOTIFICATION (RFC 4271, sections 4.1 and 6.1). It takes nothing.
    pub fn front(&mut self) -> Cut
        ensures cut { result ≡ cut_of self.old }
        ensures same { self.new ≡ self.old }
        ensures messages { messages self.old ≡ after_cut result self.old }
    {
        if is_awaited(self.judged, self.held.len()) {
            return Cut::More;
        }
        let front = cut(self.held.peek());
        self.judged = judged(front, self.held.peek());
        front
    }

    /// The body of the message of `size` bytes at the front, where it lies.
    pub fn body(&self, size: usize) -> &[u8]
        requires whole { size ≤ length self.now }
        requires header { 19 ≤ size }
        ensures { result.now ≡ drop 19 (take size self.now) }
    {
        &self.held.peek()[HEADER_LENGTH..size]
    }

    /// Drops the message of `size` bytes at the front.
    pub fn pass(&mut self, size: usize)
        requires { size ≤ length self.old }
        ensures state { self.new ≡ drop size self.old }
        // What came is then the messages so far and this one, and what is left.
        ensures came { (kind : ℕ) → cut_of self.old ≡ Cut.Message kind size →
            (came : List ℕ) (given : List Message) → CameAs came given self.old →
            CameAs came (given ++ message_in kind size self.old ∷ []) self.new }
    {
        self.held.take(size);
        self.judged = None;
    }

    /// Drops all bytes. It takes no memory.
    pub fn clear(&mut self)
        ensures state { self.new ≡ [] }
        ensures came { CameAs [] [] self.new }
    {
        self.held.truncate(0);
        self.judged = None;
    }
}

/// Whether the message with a header that was judged so isn't whole yet.
fn is_awaited(judged: Option<u16>, held: usize) -> bool
    ensures { IsTrue result ↔ IsSomeAnd judged (λ size. held < size) }
{
    match judged {
        Some(size) => held < usize::from(size),
        None => false,
    }
}

/// The length that the header at the front says, where it is good and the message isn't whole.
fn judged(front: Cut, bytes: &[u8]) -> Option<u16>
    requires { front ≡ cut_of bytes.now }
    ensures { ForSome result (IsJudged bytes.now) }
{
    match front {
        Cut::More if bytes.len() >= HEADER_LENGTH => Some(BigEndian::read_u16(&bytes[16..])),
        _ => None,
    }
}
