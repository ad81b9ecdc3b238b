ghost use Rattle.std.specs.Prelude.{◌≡◌, ◌≢◌, ◌↔◌, ℕ, Bool, true, false, not, ◌&&◌, if◌then◌else◌, List, [], ◌++◌, length, take, drop, Option, Some, None, OnOk, IfOk, IsTrue, ◌+◌, ◌≤◌};
ghost use Rattle.session_fsm.specs.declared.event.SessionEvent.TheVariants as events;
ghost use Rattle.session_fsm.specs.Table.{follows, has_connection_in, is_up};
ghost use Rattle.bgp_wire.specs.Message.{cut_of, fits_kind};
ghost use Rattle.bgp_wire.specs.declared.front.Cut.TheVariants as cuts;
ghost use Rattle.peer_io.specs.Queue.{behind, ended, taken};
ghost use Rattle.peer_session.specs.declared.neighbour.Reason.TheVariants as reasons;
ghost use Rattle.peer_session.specs.Neighbour.{Course, Does, course, is_connected, is_established, sends_where, without_connection};
ghost use Rattle.peer_session.specs.Hearing.{heard_in};
ghost use Rattle.peer_session.specs.Frames.{update_frames};
ghost use Rattle.peer_session.specs.Steps.{Goes, Handles, agreed_of, comes_up_where, connect_lines, down_frames, down_lines, ends, ends_where, feeds, goes_on, handles, handles_front, is_agreed, is_there, keeps_alive, last_lines, refresh_frames, takes, tells_refresh, tells_update, up_frame};
ghost use Rattle.peer_session.specs.Calls.{AreRoutes, IsSame, Refuses, asks, clears, comes, comes_back, comes_back_where, configures, connection_refusal, credit_frame, credit_frames, ends_for_rules, exceeds, expires, fresh, goes_down, hold_of, leaves, loses, loss_refusal_in, number_of, open_refusal_in, opens, refresh_refusal, routes_to, sent_lines, writes};

use crate::SessionRefusal;
use crate::hearing::{Heard, hear};
use crate::routes::push_routes;
use crate::update_message::UpdateMessage;
use crate::writable::can_write;
use attr_model::Attrs;
use bgp_wire::{Cut, Encoding, OpenFacts, OpenRules};
use core_msgs::{Agreed, Core, Done, Frame, Line, LineList, SendList, SessionAction};
use net_base::{Addr, Bytes, Family, NoMemory, PrefixList};
use peer_io::{Inbox, Keepalive, Open, Outbox, Outgoing, RouteRefresh, Sent};
use session_fsm::{Actions, Peer, SessionEvent, State, step};
use std::alloc::Global;
use std::marker::Model;
use update_codec::{OutUpdate, Update};

/// What the configuration says of the sessions with a neighbour.
#[derive(Clone, Copy, Debug, PartialEq, Eq)]
pub struct Settings {
    /// The own OPEN, and what is asked of the peer's.
    pub rules: OpenRules,
    /// Whether the peer is left to connect.
    pub passive: bool,
    /// Whether the session is administratively down.
    pub down: bool,
}

/// Why a connection ended, where no NOTIFICATION of this speaker says it.
#[derive(Clone, Copy, Debug, PartialEq, Eq)]
pub(crate) enum Reason {
    /// The NOTIFICATION that is sent says it.
    Code,
    /// The connection was lost.
    Lost,
    /// The peer sent a NOTIFICATION of this code and subcode.
    Received(u8, u8),
    /// The peer announced more prefixes than it may: so many are held, so many may be.
    MaxPrefix { held: u64, most: u32 },
}

/// A neighbour with its session: the state of the session, and of its connection the bytes that aren't handled yet, the
/// messages that aren't sent, what the peer's OPEN said, and the number of the session.
///
/// Each call is one event. What it reports and writes stands behind what `done` holds. Where memory is refused, nothing is said
/// of the neighbour and of `done`, and another refusal leaves both as they were. Times are in seconds.
#[derive(Drop)]
pub struct NeighbourSession {
    alloc: Global,
    peer: Addr,
    settings: Settings,
    fsm: Peer,
    inbox: Inbox,
    outbox: Outbox,
    facts: Option<OpenFacts>,
    /// That of its last session that came up, 0 before the first.
    number: u32,
    stalled: bool,
}

impl Model for NeighbourSession {
    ghost use Rattle.peer_session.specs.Neighbour.{Neighbour};

    ghost Value = { Neighbour };

    ghost view = { λ n. record {
      peer = n.peer;
      settings = n.settings;
      fsm = n.fsm;
      held = n.inbox;
      outbox = n.outbox;
      facts = n.facts;
      number = n.number;
      stalled = n.stalled;
    } };
}

impl NeighbourSession {
    /// A neighbour that just came into the configuration, in Idle, or in Down where the settings say so. It takes no memory.
    pub fn new(alloc: Global, peer: Addr, settings: Settings) -> NeighbourSession
        ensures { result ≡ fresh peer settings }
    {
        let fsm = Peer {
            state: if settings.down {
                State::Down
            } else {
                State::Idle
            },
            passive: settings.passive,
            hold: 0,
            hold_at: None,
            keep_at: None,
            idle_at: None,
        };
        NeighbourSession {
            alloc,
            peer,
            settings,
            fsm,
            inbox: Inbox::new(alloc),
            outbox: Outbox::new(alloc),
            facts: None,
            number: 0,
            stalled: false,
        }
    }

    /// Its address.
    pub fn peer(&self) -> Addr
        ensures { result ≡ self.now.peer }
    {
        self.peer
    }

    /// Its AS number.
    pub fn asn(&self) -> u32
        ensures { result ≡ self.now.settings.rules.remote_as }
    {
        self.settings.rules.remote_as
    }

    /// The state of its session.
    pub fn state(&self) -> State
        ensures { result ≡ self.now.fsm.state }
    {
        self.fsm.state
    }

    /// Whether a connection stands.
    pub fn is_connected(&self) -> bool
        ensures { result ≡ is_connected self.now }
    {
        self.fsm.state.has_connection()
    }

    /// Whether its session is up.
    fn is_established(&self) -> bool
        ensures { result ≡ is_established self.now }
    {
        self.fsm.state == State::Established
    }

    /// The number of its session, while that is up.
    pub fn number(&self) -> Option<u32>
        ensures { result ≡ number_of self.now }
    {
        if self.is_established() {
            Some(self.number)
        } else {
            None
        }
    }

    /// Whether it takes no bytes for now.
    pub fn is_stalled(&self) -> bool
        ensures { result ≡ self.now.stalled }
    {
        self.stalled
    }

    /// The hold time in seconds: as agreed on the present connection, or as configured where none is agreed.
    pub fn hold(&self) -> u16
        ensures { result ≡ hold_of self.now.facts self.now.settings }
    {
        match self.facts {
            Some(facts) => facts.hold,
            None => self.settings.rules.hold,
        }
    }

    /// The bytes that wait to be sent.
    pub fn outbox(&self) -> &[u8]
        ensures { result.now ≡ self.now.outbox.bytes }
    {
        self.outbox.as_slice()
    }

    /// The neighbour begins: it connects, or waits for the peer's connection, unless it is administratively down.
    pub fn comes(&mut self, now: u64, done: &mut Done) -> Result<(), NoMemory>
        ensures { OnOk result (Does (comes now) self.old self.new done.old done.new) }
    {
        self.take(&SessionEvent::Comes, Reason::Code, now, done)
    }

    /// A connection with the peer stands (RFC 4271, section 8.2.2).
    ///
    /// `AdminDown` comes exactly where the neighbour is administratively down, `AlreadyOpen` exactly where a connection stands.
    pub fn opened(&mut self, now: u64, done: &mut Done) -> Result<(), SessionRefusal>
        ensures ok { OnOk result (Does (opens now) self.old self.new done.old done.new) }
        ensures refused { Refuses (open_refusal_in self.old.fsm.state) (IsSame self.old self.new done.old done.new) result }
    {
        match self.fsm.state {
            State::Down => return Err(SessionRefusal::AdminDown),
            State::OpenSent | State::OpenConfirm | State::Established => {
                return Err(SessionRefusal::AlreadyOpen);
            }
            State::Idle | State::Connect | State::Active => (),
        }
        self.take(&SessionEvent::Opened, Reason::Code, now, done)?;
        Ok(())
    }

    /// The connection is lost, or couldn't be made. `NoConnection` comes exactly where none stands and none is being made.
    pub fn lost(&mut self, now: u64, done: &mut Done) -> Result<(), SessionRefusal>
        ensures ok { OnOk result (Does (loses now) self.old self.new done.old done.new) }
        ensures refused { Refuses (loss_refusal_in self.old.fsm.state) (IsSame self.old self.new done.old done.new) result }
    {
        match self.fsm.state {
            State::Down | State::Idle | State::Active => return Err(SessionRefusal::NoConnection),
            State::Connect | State::OpenSent | State::OpenConfirm | State::Established => (),
        }
        self.take(&SessionEvent::Lost, Reason::Lost, now, done)?;
        Ok(())
    }

    /// The time is told, and at most one deadline is reached: hold before keepalive before idle.
    pub fn time(&mut self, now: u64, done: &mut Done) -> Result<(), NoMemory>
        ensures { OnOk result (Does (expires now) self.old self.new done.old done.new) }
    {
        self.take(&SessionEvent::Deadline, Reason::Code, now, done)
    }

    /// Bytes of the peer come, and each message that is whole is handled. What stands behind a message that ends the connection
    /// is dropped. A session that comes up has the number `number`.
    ///
    /// `NoConnection` comes exactly where no connection stands.
    pub fn bytes(
        &mut self,
        piece: &[u8],
        number: u32,
        now: u64,
        done: &mut Done,
    ) -> Result<(), SessionRefusal>
        ensures ok { OnOk result (Handles number now (feeds piece.now (course self.old done.old)) (course self.new done.new)) }
        ensures refused { Refuses (connection_refusal self.old) (IsSame self.old self.new done.old done.new) result }
    {
        if !self.is_connected() {
            return Err(SessionRefusal::NoConnection);
        }
        self.feed(piece)?;
        self.handle_all(number, now, done)?;
        Ok(())
    }

    /// Puts bytes behind those that aren't handled.
    fn feed(&mut self, piece: &[u8]) -> Result<(), NoMemory>
        ensures { OnOk result (self.new ≡ record self.old { held = self.old.held ++ piece.now }) }
    {
        self.inbox.feed(piece)
    }

    /// What stands in front of them.
    fn front(&mut self) -> Cut
        ensures cut { result ≡ cut_of self.old.held }
        ensures same { self.new ≡ self.old }
    {
        self.inbox.front()
    }

    /// The message in front, of so many bytes, is handled.
    fn pass(&mut self, size: usize)
        requires { size ≤ length self.old.held }
        ensures { self.new ≡ record self.old { held = drop size self.old.held } }
    {
        self.inbox.pass(size);
    }

    /// Handles the messages that are whole.
    fn handle_all(&mut self, number: u32, now: u64, done: &mut Done) -> Result<(), NoMemory>
        ensures { OnOk result (Handles number now (course self.old done.old) (course self.new done.new)) }
    {
        let mut goes = true;
        while goes {
            let went = self.handle_next(number, now, done)?;
            goes = went;
        }
        Ok(())
    }

    /// Handles what stands in front of the peer's bytes, if the connection stands and it is whole, and tells whether it was there.
    fn handle_next(&mut self, number: u32, now: u64, done: &mut Done) -> Result<bool, NoMemory>
        ensures { IfOk result (λ went. Goes number now went self.old self.new done.old done.new) }
    {
        if !self.is_connected() {
            return Ok(false);
        }
        let front = self.front();
        if !is_there(front) {
            return Ok(false);
        }
        self.handle_front(front, number, now, done)?;
        Ok(true)
    }

    /// Handles what stands in front of the peer's bytes.
    fn handle_front(
        &mut self,
        front: Cut,
        number: u32,
        now: u64,
        done: &mut Done,
    ) -> Result<(), NoMemory>
        requires { front ≡ cut_of self.old.held }
        ensures { OnOk result (Does (handles_front number now front) self.old self.new done.old done.new) }
    {
        match front {
            Cut::More => Ok(()),
            Cut::Message { kind, length } => {
                let heard = self.hear_front(kind, length)?;
                self.pass(length);
                self.handle(heard, number, now, done)
            }
            Cut::Notify(fault) => {
                let event = SessionEvent::Bad(fault.code, fault.sub);
                self.take(&event, Reason::Code, now, done)
            }
        }
    }

    /// What the message in front says.
    fn hear_front(&self, kind: u8, length: usize) -> Result<Heard, NoMemory>
        requires { cut_of self.now.held ≡ cuts.Message kind length }
        ensures { IfOk result (λ heard. heard ≡ heard_in self.now.fsm.state self.now.settings.rules self.now.facts kind
            (drop 19 (take length self.now.held))) }
    {
        let body = self.inbox.body(length);
        hear(
            self.alloc,
            self.fsm.state,
            &self.settings.rules,
            self.facts,
            kind,
            body,
        )
    }

    /// Handles a message.
    fn handle(
        &mut self,
        heard: Heard,
        number: u32,
        now: u64,
        done: &mut Done,
    ) -> Result<(), NoMemory>
        ensures { OnOk result (Does (handles number now heard) self.old self.new done.old done.new) }
    {
        match heard {
            Heard::Open(facts) => {
                self.agree(facts);
                self.take(&SessionEvent::Open(facts.hold), Reason::Code, now, done)
            }
            Heard::Keepalive => self.keepalive(number, now, done),
            Heard::Update(update) => {
                self.take(&SessionEvent::Update, Reason::Code, now, done)?;
                self.tell_update(update, done)
            }
            Heard::Refresh(family) => {
                self.take(&SessionEvent::Refresh, Reason::Code, now, done)?;
                self.tell_refresh(family, done)
            }
            Heard::Received(code, sub) => {
                let reason = Reason::Received(code, sub);
                self.take(&SessionEvent::Received, reason, now, done)
            }
            Heard::Bad(fault) => {
                let event = SessionEvent::Bad(fault.code, fault.sub);
                self.take(&event, Reason::Code, now, done)
            }
            Heard::Other => self.take(&SessionEvent::Other, Reason::Code, now, done),
        }
    }

    /// The peer's OPEN is acceptable.
    fn agree(&mut self, facts: OpenFacts)
        ensures { self.new ≡ record self.old { facts = Some facts } }
    {
        self.facts = Some(facts);
    }

    /// Tells the decision core the routes of an UPDATE, where the session is up.
    fn tell_update(&mut self, update: Update, done: &mut Done) -> Result<(), NoMemory>
        ensures { OnOk result (Does (tells_update update) self.old self.new done.old done.new) }
    {
        if !self.is_established() {
            return Ok(());
        }
        push_routes(self.alloc, self.number, update, &mut done.frames)
    }

    /// Tells the decision core that the peer asks for the routes of a family again, where the session is up.
    fn tell_refresh(&mut self, family: Option<Family>, done: &mut Done) -> Result<(), NoMemory>
        ensures { OnOk result (Does (tells_refresh family) self.old self.new done.old done.new) }
    {
        if !self.is_established() {
            return Ok(());
        }
        push_refresh(self.number, self.facts, family, &mut done.frames)
    }

    /// A KEEPALIVE, which may bring the session up.
    fn keepalive(&mut self, number: u32, now: u64, done: &mut Done) -> Result<(), NoMemory>
        ensures { OnOk result (Does (keeps_alive number now) self.old self.new done.old done.new) }
    {
        let was_up = self.is_established();
        self.take(&SessionEvent::Keepalive, Reason::Code, now, done)?;
        let is_new = !was_up && self.is_established();
        self.come_up_where(is_new, number, done)
    }

    /// The session is up with this number, where it is new.
    fn come_up_where(&mut self, is_new: bool, number: u32, done: &mut Done) -> Result<(), NoMemory>
        ensures { OnOk result (Does (comes_up_where is_new number) self.old self.new done.old done.new) }
    {
        match self.facts {
            Some(facts) if is_new => {
                self.number = number;
                done.lines.push(Line::Up(self.peer))?;
                done.frames.push(up_frame(number, self.peer, facts))
            }
            _ => Ok(()),
        }
    }

    /// Routes for the peer, as one UPDATE. What can't be written by what was agreed is passed over, and the credit for it goes at
    /// once: routes with LOCAL_PREF for an external peer or without it for an internal one, with a weight, without a prefix or of a
    /// family that wasn't agreed, and more than 4096 bytes. Without an established session nothing is done.
    ///
    /// The attributes are valid, and the prefixes of the family of their next hop.
    pub fn routes(
        &mut self,
        withdrawn: PrefixList,
        announced: Option<(Attrs, PrefixList)>,
        done: &mut Done,
    ) -> Result<(), NoMemory>
        requires { AreRoutes withdrawn announced }
        ensures { OnOk result (Does (routes_to withdrawn announced) self.old self.new done.old done.new) }
    {
        let facts = match self.facts {
            Some(facts) if self.is_established() => facts,
            _ => return Ok(()),
        };
        let encoding = facts.encoding;
        let update = match announced {
            None => OutUpdate::Withdraw(withdrawn),
            Some((attrs, prefixes)) => OutUpdate::Announce(attrs, prefixes),
        };
        if !can_write(encoding, &update) {
            return done.frames.push(credit_frame(self.number, 1));
        }
        self.push_where(true, &UpdateMessage { encoding, update })
    }

    /// The session is to end, since the peer announced more prefixes than it may: so many are held, so many may be.
    pub fn close(&mut self, held: u64, most: u32, now: u64, done: &mut Done) -> Result<(), NoMemory>
        ensures { OnOk result (Does (exceeds held most now) self.old self.new done.old done.new) }
    {
        let reason = Reason::MaxPrefix { held, most };
        self.take(&SessionEvent::Close, reason, now, done)
    }

    /// So many bytes at most are sent. UPDATEs whose last byte is among them are credited together.
    ///
    /// `NoConnection` comes exactly where no connection stands.
    pub fn write(&mut self, n: usize, done: &mut Done) -> Result<(), SessionRefusal>
        ensures ok { OnOk result (Does (writes n) self.old self.new done.old done.new) }
        ensures refused { Refuses (connection_refusal self.old) (IsSame self.old self.new done.old done.new) result }
    {
        if !self.is_connected() {
            return Err(SessionRefusal::NoConnection);
        }
        let Sent { bytes, updates } = self.send(n)?;
        push_sent(self.peer(), bytes, &mut done.lines)?;
        push_credit(self.number(), updates, &mut done.frames)?;
        Ok(())
    }

    /// Takes the next bytes of the outbox, so many at most.
    fn send(&mut self, n: usize) -> Result<Sent, NoMemory>
        ensures bytes { IfOk result (λ s. s.bytes ≡ take (taken n self.old.outbox) self.old.outbox.bytes) }
        ensures updates { IfOk result (λ s. s.updates ≡
            ended (self.old.outbox.begun + taken n self.old.outbox) self.old.outbox.waiting) }
        ensures state { OnOk result (self.new ≡ record self.old { outbox = behind (taken n self.old.outbox) self.old.outbox }) }
    {
        self.outbox.write(self.alloc, n)
    }

    /// The peer takes no bytes for now, or takes them again. It ends with the connection.
    ///
    /// `NoConnection` comes exactly where no connection stands.
    pub fn stall(&mut self, stalled: bool) -> Result<(), SessionRefusal>
        ensures ok { OnOk result (self.new ≡ record self.old { stalled = stalled }) }
        ensures refused { Refuses (connection_refusal self.old) (self.new ≡ self.old) result }
    {
        if !self.is_connected() {
            return Err(SessionRefusal::NoConnection);
        }
        self.stalled = stalled;
        Ok(())
    }

    /// An operator takes the session down, or brings it up again.
    pub fn set_down(&mut self, down: bool, now: u64, done: &mut Done) -> Result<(), NoMemory>
        ensures { OnOk result (Does (if down then goes_down now else comes_back now) self.old self.new done.old done.new) }
    {
        if down {
            self.take(&SessionEvent::AdminDown, Reason::Code, now, done)
        } else {
            self.take(&SessionEvent::AdminUp, Reason::Code, now, done)
        }
    }

    /// An operator ends the connection. `NoConnection` comes exactly where none stands.
    pub fn clear(&mut self, now: u64, done: &mut Done) -> Result<(), SessionRefusal>
        ensures ok { OnOk result (Does (clears now) self.old self.new done.old done.new) }
        ensures refused { Refuses (connection_refusal self.old) (IsSame self.old self.new done.old done.new) result }
    {
        if !self.is_connected() {
            return Err(SessionRefusal::NoConnection);
        }
        self.take(&SessionEvent::Clear, Reason::Code, now, done)?;
        Ok(())
    }

    /// Asks the peer for the routes of each agreed family (RFC 2918). `NoRefresh` comes exactly where the session isn't up, or
    /// route refresh wasn't agreed.
    pub fn refresh(&mut self) -> Result<(), SessionRefusal>
        ensures ok { OnOk result (self.new ≡ asks self.old) }
        ensures refused { Refuses (refresh_refusal self.old) (self.new ≡ self.old) result }
    {
        let facts = match self.facts {
            Some(facts) if self.is_established() && facts.encoding.refresh => facts,
            _ => return Err(SessionRefusal::NoRefresh),
        };
        self.push_where(facts.encoding.v4, &RouteRefresh(Family::V4))?;
        self.push_where(facts.encoding.v6, &RouteRefresh(Family::V6))?;
        Ok(())
    }

    /// New settings. A neighbour that they newly take down ends with 6/2, one that they no longer take down begins again, and a
    /// session whose rules changed ends with 6/6 (RFC 4486).
    pub fn configure(
        &mut self,
        settings: Settings,
        now: u64,
        done: &mut Done,
    ) -> Result<(), NoMemory>
        ensures changed { self.old.settings.rules ≢ settings.rules →
            OnOk result (Does (configures true settings now) self.old self.new done.old done.new) }
        ensures same { self.old.settings.rules ≡ settings.rules →
            OnOk result (Does (configures false settings now) self.old self.new done.old done.new) }
    {
        let was = self.settings();
        let goes_down = is_only_first(settings.down, was.down);
        let comes_back = is_only_first(was.down, settings.down);
        let changed = differ(was.rules, settings.rules);
        self.set(settings);
        if goes_down {
            return self.take(&SessionEvent::AdminDown, Reason::Code, now, done);
        }
        self.come_back_where(comes_back, now, done)?;
        self.end_for_rules_where(changed, now, done)?;
        Ok(())
    }

    fn settings(&self) -> Settings
        ensures { result ≡ self.now.settings }
    {
        self.settings
    }

    /// Takes settings, which change no state by themselves.
    fn set(&mut self, settings: Settings)
        ensures { self.new ≡ record self.old { settings = settings; fsm = record self.old.fsm { passive = settings.passive } } }
    {
        self.settings = settings;
        self.fsm.passive = settings.passive;
    }

    /// The neighbour is no longer administratively down, where that is wanted.
    fn come_back_where(
        &mut self,
        is_wanted: bool,
        now: u64,
        done: &mut Done,
    ) -> Result<(), NoMemory>
        ensures { OnOk result (Does (comes_back_where is_wanted now) self.old self.new done.old done.new) }
    {
        if !is_wanted {
            return Ok(());
        }
        self.take(&SessionEvent::AdminUp, Reason::Code, now, done)
    }

    /// The session ends with 6/6, where its rules changed.
    fn end_for_rules_where(
        &mut self,
        changed: bool,
        now: u64,
        done: &mut Done,
    ) -> Result<(), NoMemory>
        ensures { OnOk result (Does (ends_for_rules changed now) self.old self.new done.old done.new) }
    {
        if !changed {
            return Ok(());
        }
        self.take(&SessionEvent::Ends(6), Reason::Code, now, done)
    }

    /// The neighbour leaves the configuration: its session ends with 6/3 (RFC 4486).
    pub fn leave(&mut self, now: u64, done: &mut Done) -> Result<(), NoMemory>
        ensures { OnOk result (Does (leaves now) self.old self.new done.old done.new) }
    {
        self.take(&SessionEvent::Ends(3), Reason::Code, now, done)
    }

    /// Takes an event: what its row of the table asks for is done.
    #[tactic(auto, unfolding(crate::specs::Steps::takes))]
    fn take(
        &mut self,
        event: &SessionEvent,
        reason: Reason,
        now: u64,
        done: &mut Done,
    ) -> Result<(), NoMemory>
        ensures { OnOk result (Does (takes event.now reason now) self.old self.new done.old done.new) }
    {
        let peer = self.peer();
        let own = Open(self.rules());
        let stood = self.is_connected();
        let actions = self.follow(event, now);
        let is_ended = self.has_ended(stood);
        self.push_where(actions.send_open, &own)?;
        self.push_where(actions.keepalive, &Keepalive)?;
        self.end_where(is_ended, reason, &actions, done)?;
        push_connect(actions.connect, peer, &mut done.lines)?;
        Ok(())
    }

    /// Whether a connection that stood stands no longer.
    fn has_ended(&self, stood: bool) -> bool
        ensures { result ≡ (stood && not (is_connected self.now)) }
    {
        stood && !self.is_connected()
    }

    /// The state follows the row of an event, and the row's actions are what is to be done.
    fn follow(&mut self, event: &SessionEvent, now: u64) -> Actions
        ensures state { self.new ≡ record self.old { fsm = (follows self.old.fsm event.now now).peer } }
        ensures actions { result ≡ (follows self.old.fsm event.now now).actions }
    {
        step(&mut self.fsm, event, now)
    }

    /// The own OPEN, and what is asked of the peer's.
    fn rules(&self) -> OpenRules
        ensures { result ≡ self.now.settings.rules }
    {
        self.settings.rules
    }

    /// Puts a message into the outbox, where it is to be sent.
    fn push_where<M: Outgoing>(&mut self, wanted: bool, message: &M) -> Result<(), NoMemory>
        requires { M.can_write message.now }
        ensures { OnOk result (self.new ≡ sends_where wanted (M.message message.now) self.old) }
    {
        if !wanted {
            return Ok(());
        }
        self.outbox.push(message)
    }

    /// The connection ends, where it is to: the rest of a begun message and the NOTIFICATION are its last bytes, and nothing of it
    /// is left.
    fn end_where(
        &mut self,
        is_ended: bool,
        reason: Reason,
        actions: &Actions,
        done: &mut Done,
    ) -> Result<(), NoMemory>
        ensures { OnOk result (Does (ends_where is_ended reason actions.now) self.old self.new done.old done.new) }
    {
        if !is_ended {
            return Ok(());
        }
        push_last(
            self.alloc,
            self.peer,
            &self.outbox,
            actions.notify,
            &mut done.lines,
        )?;
        push_down(self.peer, reason, actions.notify, &mut done.lines)?;
        push_down_frame(actions.down, self.number, &mut done.frames)?;
        self.forget();
        Ok(())
    }

    /// Nothing of the connection is left.
    fn forget(&mut self)
        ensures { self.new ≡ without_connection self.old }
    {
        self.inbox.clear();
        self.outbox.clear();
        self.facts = None;
        self.stalled = false;
    }
}

fn is_only_first(first: bool, second: bool) -> bool
    ensures { result ≡ (first && not second) }
{
    first && !second
}

/// Whether the rules of two OPENs differ.
fn differ(one: OpenRules, other: OpenRules) -> bool
    ensures yes { one ≢ other → result ≡ true }
    ensures no { one ≡ other → result ≡ false }
{
    one != other
}

/// Whether a whole message or a bad header stands in front.
fn is_there(front: Cut) -> bool
    ensures { result ≡ is_there front }
{
    match front {
        Cut::More => false,
        Cut::Message { .. } | Cut::Notify(_) => true,
    }
}

/// Reports the last bytes of a connection that ends with a NOTIFICATION.
fn push_last(
    alloc: Global,
    peer: Addr,
    outbox: &Outbox,
    notify: Option<(u8, u8)>,
    lines: &mut LineList,
) -> Result<(), NoMemory>
    ensures { OnOk result (lines.new ≡ lines.old ++ last_lines peer outbox.now notify) }
{
    let Some((code, sub)) = notify else {
        return Ok(());
    };
    let last = outbox.last(alloc, code, sub)?;
    lines.push(Line::Last(peer, last))
}

/// Reports why a connection ended.
fn push_down(
    peer: Addr,
    reason: Reason,
    notify: Option<(u8, u8)>,
    lines: &mut LineList,
) -> Result<(), NoMemory>
    ensures { OnOk result (lines.new ≡ lines.old ++ down_lines peer reason notify) }
{
    match reason {
        Reason::Code => match notify {
            Some((code, sub)) => lines.push(Line::Down(peer, code, sub)),
            None => Ok(()),
        },
        Reason::Lost => lines.push(Line::DownLost(peer)),
        Reason::Received(code, sub) => lines.push(Line::DownReceived(peer, code, sub)),
        Reason::MaxPrefix { held, most } => lines.push(Line::DownMaxPrefix { peer, held, most }),
    }
}

/// Tells the decision core that a session went down, where it was up.
fn push_down_frame(is_down: bool, session: u32, frames: &mut SendList) -> Result<(), NoMemory>
    ensures { OnOk result (frames.new ≡ frames.old ++ down_frames is_down session) }
{
    if !is_down {
        return Ok(());
    }
    frames.push((Core::Decision, Frame::Down { session }))
}

/// Asks for a connection, where it is wanted.
fn push_connect(connect: bool, peer: Addr, lines: &mut LineList) -> Result<(), NoMemory>
    ensures { OnOk result (lines.new ≡ lines.old ++ connect_lines connect peer) }
{
    if !connect {
        return Ok(());
    }
    lines.push(Line::Connect(peer))
}

/// Reports bytes that were sent, if there are some.
fn push_sent(peer: Addr, bytes: Bytes, lines: &mut LineList) -> Result<(), NoMemory>
    ensures { OnOk result (lines.new ≡ lines.old ++ sent_lines peer bytes) }
{
    if bytes.is_empty() {
        return Ok(());
    }
    lines.push(Line::Sent(peer, bytes))
}

/// Credits UPDATEs of a session that is up, if there are some.
fn push_credit(session: Option<u32>, updates: usize, frames: &mut SendList) -> Result<(), NoMemory>
    ensures { OnOk result (frames.new ≡ frames.old ++ credit_frames session updates) }
{
    match session {
        Some(session) if updates > 0 => {
            let messages = updates.min(u32::MAX as usize) as u32;
            frames.push(credit_frame(session, messages))
        }
        _ => Ok(()),
    }
}

/// Tells the decision core that the peer asks for the routes of a family again, where that was agreed.
fn push_refresh(
    session: u32,
    facts: Option<OpenFacts>,
    family: Option<Family>,
    frames: &mut SendList,
) -> Result<(), NoMemory>
    ensures { OnOk result (frames.new ≡ frames.old ++ refresh_frames session facts family) }
{
    match (facts, family) {
        (Some(facts), Some(family)) if may_refresh(facts.encoding, family) => {
            frames.push((Core::Decision, Frame::Refresh { session, family }))
        }
        _ => Ok(()),
    }
}

/// Whether a peer may ask for the routes of a family again.
fn may_refresh(encoding: Encoding, family: Family) -> bool
    ensures { result ≡ (encoding.refresh && is_agreed encoding family) }
{
    let agreed = match family {
        Family::V4 => encoding.v4,
        Family::V6 => encoding.v6,
    };
    encoding.refresh && agreed
}

fn up_frame(session: u32, peer: Addr, facts: OpenFacts) -> (Core, Frame)
    ensures { result ≡ up_frame session peer facts }
{
    let encoding = facts.encoding;
    let agreed = Agreed {
        v4: encoding.v4,
        v6: encoding.v6,
        as4: encoding.as4,
        refresh: encoding.refresh,
    };
    let frame = Frame::Up {
        session,
        peer,
        asn: facts.asn,
        id: facts.id,
        agreed,
    };
    (Core::Decision, frame)
}

fn credit_frame(session: u32, messages: u32) -> (Core, Frame)
    ensures { result ≡ credit_frame session messages }
{
    (Core::Decision, Frame::Credit { session, messages })
}
