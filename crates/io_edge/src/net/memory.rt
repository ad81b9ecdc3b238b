// A net in memory.
ghost use Rattle.std.specs.Prelude.{◌≡◌, ◌≤◌, ℕ, [], true, false, None, length, take, min, IfOk, OnOk, OnErr, IsTrue, ◌↔◌};
ghost use Rattle.std.specs.Option.{option_map};
ghost use Rattle.io_edge.specs.Told.{StillTells};
ghost use Rattle.io_edge.specs.Net.{IsPiece, BringsPiece, IsExpected, ChangesHeld};
ghost use Rattle.io_edge.specs.MemoryNet.{told_calls, holds};

use super::{NetCall, NetEvent, NetFault, PeerNet};
use crate::{CallList, Failed, Failures};
use net_base::{Addr, Bytes, Items, Way};
use std::alloc::{AllocError, Global};
use std::collections::BTreeMap;

/// Events that are to come, in order.
pub type EventList = Items<NetEvent>;

/// The calls of a net in order, while there was memory for all of them.
#[derive(Debug, Drop)]
pub struct NetRecord {
    pub calls: Items<NetCall>,
    pub tells: bool,
}

impl NetRecord {
    ghost use Rattle.io_edge.specs.MemoryNet.{told_calls};

    // Notes a call, for whose copy memory may be refused.
    fn note(&mut self, call: Result<NetCall, AllocError>)
        ensures noted { IfOk call (StillTells (told_calls self.old) (told_calls self.new)) }
        ensures refused { OnErr call (told_calls self.new ≡ None) }
    {
        match call {
            Ok(call) => {
                if self.calls.push(call).is_err() {
                    self.tells = false;
                }
            }
            Err(_) => self.tells = false,
        }
    }
}

fn copy_of(alloc: Global, event: &NetEvent) -> Result<NetEvent, AllocError>
    ensures { IfOk result (λ copy. copy ≡ event.now) }
{
    match event {
        NetEvent::Opened(peer, way) => Ok(NetEvent::Opened(*peer, *way)),
        NetEvent::Data(peer, bytes) => Ok(NetEvent::Data(
            *peer,
            Bytes::from_slice(alloc, bytes.as_slice())?,
        )),
        NetEvent::Lost(peer) => Ok(NetEvent::Lost(*peer)),
        NetEvent::Words(conn, bytes) => Ok(NetEvent::Words(
            *conn,
            Bytes::from_slice(alloc, bytes.as_slice())?,
        )),
        NetEvent::Nothing => Ok(NetEvent::Nothing),
    }
}

fn is_piece(bytes: &Bytes) -> bool
    ensures { IsTrue result ↔ IsPiece bytes.now }
{
    1 <= bytes.len() && bytes.len() <= 16384
}

// Whether the event can come while these connections are held.
fn can_come(event: &NetEvent, held: &BTreeMap<Addr, Way>) -> bool
    ensures { IsTrue result → BringsPiece event.now × IsExpected (holds ⟦<Addr as Ord>⟧.cmp held.now) event.now }
{
    match event {
        NetEvent::Opened(peer, _) => !held.contains_key(peer),
        NetEvent::Data(peer, bytes) => is_piece(bytes) && held.contains_key(peer),
        NetEvent::Words(_, bytes) => is_piece(bytes),
        NetEvent::Lost(_) | NetEvent::Nothing => true,
    }
}

// The connections after the event. Where memory is refused nothing changes.
fn hold(held: &mut BTreeMap<Addr, Way>, event: &NetEvent) -> Result<(), AllocError>
    requires { IsExpected (holds ⟦<Addr as Ord>⟧.cmp held.old) event.now }
    ensures ok { OnOk result (ChangesHeld ⟦<Addr as Ord>⟧.cmp (holds ⟦<Addr as Ord>⟧.cmp held.old) (holds ⟦<Addr as Ord>⟧.cmp held.new) event.now) }
    ensures err { OnErr result (holds ⟦<Addr as Ord>⟧.cmp held.new ≡ holds ⟦<Addr as Ord>⟧.cmp held.old) }
{
    match event {
        NetEvent::Opened(peer, way) => {
            held.insert(*peer, *way)?;
        }
        NetEvent::Lost(peer) => {
            held.remove(peer);
        }
        NetEvent::Data(_, _) | NetEvent::Words(_, _) | NetEvent::Nothing => {}
    }
    Ok(())
}

/// A net in memory, which tells its calls while there is memory for them. Events come as they are planned, but one that
/// can't come then, as bytes of a peer without a connection, is passed over as Nothing; so is each behind the last. A
/// write takes at most `takes` bytes. Of the calls of `listen` and `next` those with the planned numbers fail.
#[derive(Drop)]
pub struct MemoryNet {
    alloc: Global,
    events: EventList,
    at: usize,
    takes: usize,
    held: BTreeMap<Addr, Way>,
    noted: NetRecord,
    pub failures: Failures,
}

impl MemoryNet {
    /// No connection is held, and no call was made yet.
    pub fn new(alloc: Global, events: EventList, takes: usize, failing: CallList) -> Self
        ensures planned { result.failures.planned ≡ failing }
        ensures calls { result.failures.calls ≡ 0 }
        ensures faults { result.failures.faults ≡ 0 }
    {
        MemoryNet {
            alloc,
            events,
            at: 0,
            takes,
            held: BTreeMap::new(alloc),
            noted: NetRecord {
                calls: Items::new(alloc),
                tells: true,
            },
            failures: Failures::new(failing),
        }
    }

    /// The calls so far, while there was memory for all of them.
    pub fn calls(&self) -> Option<&[NetCall]>
        ensures { option_map (λ calls. calls.now) result ≡ told_calls self.now.noted }
    {
        if self.noted.tells {
            Some(self.noted.calls.as_slice())
        } else {
            None
        }
    }
}

// The planned event at that place, or Nothing where it can't come.
fn event_at(
    alloc: Global,
    events: &EventList,
    at: usize,
    held: &BTreeMap<Addr, Way>,
) -> Result<NetEvent, AllocError>
    ensures { IfOk result (λ event. BringsPiece event × IsExpected (holds ⟦<Addr as Ord>⟧.cmp held.now) event) }
{
    match events.as_slice().get(at) {
        Some(event) if can_come(event, held) => copy_of(alloc, event),
        _ => Ok(NetEvent::Nothing),
    }
}

impl PeerNet for MemoryNet {
    ghost held = { λ s. holds ⟦<Addr as Ord>⟧.cmp s.held };

    ghost calls = { λ s. told_calls s.noted };

    ghost faults = { λ s. s.failures.faults };

    fn listen(&mut self, addr: Addr, port: u16) -> Result<(), Failed> {
        let result = self.failures.call();
        self.noted
            .note(Ok(NetCall::Listen(addr, port, result.is_ok())));
        result
    }

    fn connect(&mut self, peer: Addr, port: u16) {
        self.noted.note(Ok(NetCall::Connect(peer, port)));
    }

    fn next(&mut self, alloc: Global) -> Result<NetEvent, NetFault> {
        if self.failures.fails_next() {
            self.failures.failed();
            self.noted.note(Ok(NetCall::Next(Err(NetFault::Failed))));
            return Err(NetFault::Failed);
        }
        let event = event_at(alloc, &self.events, self.at, &self.held)?;
        let copy = copy_of(alloc, &event)?;
        hold(&mut self.held, &event)?;
        self.at = self.at.saturating_add(1);
        self.failures.passed();
        self.noted.note(Ok(NetCall::Next(Ok(copy))));
        Ok(event)
    }

    fn write(&mut self, peer: Addr, bytes: &[u8]) -> usize {
        let count = bytes.len().min(self.takes);
        let call = Bytes::from_slice(self.alloc, &bytes[..count]).map(|taken| NetCall::Write(
            peer, taken,
        ));
        self.noted.note(call);
        count
    }

    fn write_last(&mut self, peer: Addr, bytes: &[u8]) {
        self.held.remove(&peer);
        let call = Bytes::from_slice(self.alloc, bytes).map(|all| NetCall::WriteLast(peer, all));
        self.noted.note(call);
    }

    fn reply(&mut self, conn: u32, bytes: &[u8]) {
        let call = Bytes::from_slice(self.alloc, bytes).map(|all| NetCall::Reply(conn, all));
        self.noted.note(call);
    }

    fn faults(&self) -> u64 {
        self.failures.faults
    }
}
