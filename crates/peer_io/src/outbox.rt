ghost use Rattle.std.specs.Prelude.{◌≡◌, ℕ, List, ◌+◌, ◌-◌, [], ◌∷◌, ◌++◌, ◌≤◌, ◌<◌, ◌^◌, length, take, drop, flat_map, IfOk, OnOk, OnErr, IsTrue, ◌↔◌, count_by};
ghost use Rattle.bgp_wire.specs.Message.{Message, message_bytes};
ghost use Rattle.bgp_wire.specs.Written.{notification};
ghost use Rattle.peer_io.specs.Queue.{IsFirst, begun_of, ended, rest_of, unsent};

use crate::Outgoing;
use bgp_wire::write_notification;
use net_base::{Bytes, NoMemory};
use std::alloc::Global;
use std::collections::VecDeque;
use std::marker::Model;
use wire_buf::Pipe;

/// A message that isn't sent whole.
#[derive(Clone, Copy, Debug, PartialEq, Eq)]
pub struct Waiting {
    /// How many bytes the whole message has.
    pub size: u16,
    /// Whether it is an UPDATE.
    pub is_update: bool,
}

/// What a write took.
#[derive(Debug, Drop)]
pub struct Sent {
    pub bytes: Bytes,
    /// How many UPDATEs had their last byte among them.
    pub updates: usize,
}

/// The messages of one connection that wait to be sent, in the order in which they were put in.
///
/// Their bytes stand in one block, and of each message its length is kept. A write costs as much as the bytes that it
/// takes, whatever waits behind them.
#[derive(Drop)]
pub struct Outbox {
    bytes: Pipe,
    waiting: VecDeque<Waiting>,
    /// How many bytes of the first message were sent.
    begun: u16,
}

impl Model for Outbox {
    ghost use Rattle.peer_io.specs.Queue.{Queue, IsQueue};

    ghost Value = { Queue };

    ghost view = { λ o. record { bytes = o.bytes; waiting = o.waiting.items; begun = o.begun } };

    ghost invariant = { λ o. IsQueue o.bytes o.waiting.items o.begun };
}

impl Outbox {
    ghost use Rattle.peer_io.specs.Queue.{behind, begun_rest, nothing_waits, taken};
    ghost use Rattle.peer_io.specs.Sending.{Pushes, Sends, started, updates_sent};

    /// An outbox without messages, which takes no memory.
    pub fn new(alloc: Global) -> Outbox
        ensures state { result ≡ nothing_waits }
        ensures sends { Sends result [] [] }
    {
        Outbox {
            bytes: Pipe::new(alloc),
            waiting: VecDeque::new(alloc),
            begun: 0,
        }
    }

    /// The bytes that wait.
    pub fn as_slice(&self) -> &[u8]
        ensures { result.now ≡ self.now.bytes }
    {
        self.bytes.peek()
    }

    /// How many UPDATEs wait whose last byte isn't sent.
    pub fn waiting_updates(&self) -> usize
        ensures { result ≡ count_by (λ w. w.is_update) self.now.waiting }
    {
        self.waiting.iter().filter(|w| w.is_update).count()
    }

    /// Puts a message behind the others. Where memory is refused, the outbox is as it was.
    pub fn push<M: Outgoing>(&mut self, message: &M) -> Result<(), NoMemory>
        requires { M.can_write message.now }
        ensures ok { OnOk result (Pushes (M.message message.now) self.old self.new) }
        ensures err { OnErr result (self.new ≡ self.old) }
    {
        let held = self.bytes.len();
        message.write(&mut self.bytes)?;
        note(
            &mut self.bytes,
            &mut self.waiting,
            held,
            message.is_update(),
        )
    }

    /// Takes the first `n` bytes, or all where they are fewer. Where memory is refused, the outbox is as it was.
    pub fn write(&mut self, alloc: Global, n: usize) -> Result<Sent, NoMemory>
        ensures bytes { IfOk result (λ s. s.bytes ≡ take (taken n self.old) self.old.bytes) }
        ensures updates { IfOk result (λ s. s.updates ≡ ended (self.old.begun + taken n self.old) self.old.waiting) }
        ensures state { OnOk result (self.new ≡ behind (taken n self.old) self.old) }
        ensures err { OnErr result (self.new ≡ self.old) }
        // The connection has then sent these bytes, and as many UPDATEs more have their last byte among them.
        ensures sends { IfOk result (λ s. (sent : List ℕ) (ms : List Message) → Sends self.old sent ms →
            Sends self.new (sent ++ s.bytes) ms) }
        ensures ends { IfOk result (λ s. (sent : List ℕ) (ms : List Message) → Sends self.old sent ms →
            updates_sent (sent ++ s.bytes) ms ≡ updates_sent sent ms + s.updates) }
    {
        let n = n.min(self.bytes.len());
        let bytes = Bytes::from_slice(alloc, &self.bytes.peek()[..n])?;
        self.bytes.take(n);
        let updates = pass(&mut self.waiting, &mut self.begun, n);
        Ok(Sent { bytes, updates })
    }

    /// The last bytes of a connection that ends with a NOTIFICATION of this code and subcode: the rest of the message
    /// that is begun, and the NOTIFICATION. Messages of which no byte was sent aren't among them.
    pub fn last(&self, alloc: Global, code: u8, sub: u8) -> Result<Bytes, NoMemory>
        ensures bytes { IfOk result (λ last. last ≡
            take (begun_rest self.now) self.now.bytes ++ message_bytes (notification code sub)) }
        // All that the connection sent is then whole messages: those of which a byte was sent, and the NOTIFICATION.
        ensures sends { IfOk result (λ last. (sent : List ℕ) (ms : List Message) → Sends self.now sent ms →
            sent ++ last ≡ flat_map message_bytes (started (length sent) ms ++ notification code sub ∷ [])) }
    {
        let rest = self.begun_rest();
        let mut last = Bytes::from_slice(alloc, &self.bytes.peek()[..rest])?;
        let mut notification = Pipe::new(alloc);
        write_notification(code, sub, &mut notification)?;
        last.extend_from_slice(notification.peek())?;
        Ok(last)
    }

    /// How many bytes are left of a message that is begun.
    fn begun_rest(&self) -> usize
        ensures rest { result ≡ begun_rest self.now }
        ensures there { result ≤ length self.now.bytes }
    {
        match self.waiting.front() {
            Some(first) if self.begun > 0 => usize::from(first.size - self.begun),
            _ => 0,
        }
    }

    /// Drops all messages. It takes no memory.
    pub fn clear(&mut self)
        ensures state { self.new ≡ nothing_waits }
        ensures sends { Sends self.new [] [] }
    {
        self.bytes.truncate(0);
        self.waiting.clear();
        self.begun = 0;
    }
}

/// Notes the message whose bytes stand behind the first `held` ones. Where memory is refused, they are dropped.
fn note(
    bytes: &mut Pipe,
    waiting: &mut VecDeque<Waiting>,
    held: usize,
    is_update: bool,
) -> Result<(), NoMemory>
    requires behind { held ≤ length bytes.old }
    requires short { length bytes.old - held < 2 ^ 16 }
    ensures ok { OnOk result (waiting.new.items ≡
        waiting.old.items ++ record { size = length bytes.old - held; is_update = is_update } ∷ []) }
    ensures bytes { OnOk result (bytes.new ≡ bytes.old) }
    ensures dropped { OnErr result (bytes.new ≡ take held bytes.old) }
    ensures err { OnErr result (waiting.new.items ≡ waiting.old.items) }
{
    let size = (bytes.len() - held) as u16;
    let noted = waiting.push_back(Waiting { size, is_update });
    bytes.keep_on_err(held, noted.map_err(|failed| NoMemory::from(failed)))
}

/// Drops the messages that end within the next `n` bytes, where so many bytes of the first were sent, and tells how many
/// of them are UPDATEs. `begun` is then how many bytes of the first that is left were sent.
fn pass(waiting: &mut VecDeque<Waiting>, begun: &mut u16, n: usize) -> usize
    requires { IsFirst begun.old waiting.old.items }
    ensures waiting { waiting.new.items ≡ unsent (begun.old + n) waiting.old.items }
    ensures begun { begun.new ≡ begun_of (begun.old + n) waiting.old.items }
    ensures updates { result ≡ ended (begun.old + n) waiting.old.items }
{
    let mut left = n;
    let mut updates = 0;
    while let Some(first) = waiting.front().copied() {
        let rest = usize::from(first.size - *begun);
        if left < rest {
            *begun += left as u16;
            return updates;
        }
        let _ = waiting.pop_front();
        *begun = 0;
        left -= rest;
        updates += usize::from(first.is_update);
    }
    updates
}
