ghost use Rattle.std.specs.Prelude.{◌≡◌, ◌+◌, ◌<◌, ◌^◌, ℕ, [], ◌∷◌, ◌++◌, true, false, Option, None, IfOk, IfErr, IsTrue, OnOk, Err};
ghost use Rattle.conf_tree.specs.Language.{configuration_within, most_canonical_bytes};
ghost use Rattle.reload_stage.specs.Stages.{is_whole};
ghost use Rattle.reload_stage.specs.declared.assembly.Progress.TheVariants.{Whole};
ghost use Rattle.peer_session.specs.declared.refusal.SessionRefusal.TheVariants.{NoMemory as Memory};
ghost use Rattle.session_core.specs.declared.event.AllEvent.TheVariants.{Deadline as Expires, Stop as Stops};
ghost use Rattle.session_core.specs.declared.event.PeerEvent.TheVariants as events;
ghost use Rattle.session_core.specs.Calls.{Answers, CanTake, Finishes, Gives, Hears, IsRefused, Notes, Refuses, all_reply, answer_reply, applied, apply_reply, command_refusal, command_reply, commit_reply, emptied, event_reply, frame_reply, is_show, item_reply, read_reply, refused_by, session_reply, still, time_refusal, time_reply};
ghost use Rattle.peer_session.specs.Neighbour.{Neighbour};
ghost use Rattle.peer_session.specs.Calls.{Refuses as PeerRefuses};
ghost use Rattle.session_core.specs.Courses.{courses};
ghost use Rattle.session_core.specs.Events.{CanHappen, bytes_refusal, lost_refusal, opened_refusal, refusal_at, stall_refusal, write_refusal};
ghost use Rattle.session_core.specs.Reloads.{plan_of, reloads};
ghost use Rattle.session_core.specs.History as history;
ghost use Rattle.session_core.specs.History.{Follows};
ghost use Rattle.session_core.specs.Sessions.{live_peer, new_sessions, outbox_at, peer_at, stalled_at};

use crate::event::{AllEvent, PeerEvent};
use crate::live::LiveSessions;
use crate::neighbours::Neighbours;
use crate::shows::{couple, refuse_rib, refuse_table};
use conf_shows::show_sets;
use conf_tree::Conf;
use core_msgs::{Core, CtlCommand, Done, Frame, Line};
use net_base::{Addr, Items, NoMemory, Way};
use peer_session::{NeighbourSession, SessionRefusal};
use reload_stage::{Assembly, StageFault, StageItem};
use std::alloc::Global;
use std::collections::btree_map::Keys;
use std::marker::Model;
use std::mem;

/// The session core: its configuration, the neighbours of it with their sessions, and the time in seconds.
///
/// Each call is one event, and gives the lines that it reports and the frames that it writes, in their order. A call that runs out
/// of memory leaves the core spent: it refuses every later call with `Spent`, before all else. A call that is refused for another
/// reason leaves it as it was.
#[derive(Drop)]
pub struct Session {
    alloc: Global,
    conf: Conf,
    /// The time that was told last, in seconds.
    moment: u64,
    neighbours: Neighbours,
    live: LiveSessions,
    assembly: Assembly,
    spent: bool,
}

impl Model for Session {
    ghost use Rattle.session_core.specs.Sessions.{Sessions};

    ghost Value = { Sessions };

    ghost view = { λ s. record {
      conf = s.conf;
      moment = s.moment;
      neighbours = s.neighbours;
      live = s.live;
      assembly = s.assembly;
      spent = s.spent;
    } };
}

impl Session {
    /// The session core at time 0, with the empty configuration.
    pub fn new(alloc: Global) -> Result<Session, NoMemory>
        ensures { IfOk result (λ core. core ≡ new_sessions) }
    {
        Ok(Session {
            alloc,
            conf: Conf::empty(alloc),
            moment: 0,
            neighbours: Neighbours::new(alloc),
            live: LiveSessions::new(alloc),
            assembly: Assembly::new(alloc),
            spent: false,
        })
    }

    /// Whether an earlier call ran out of memory.
    pub fn is_spent(&self) -> bool
        ensures { result ≡ self.now.spent }
    {
        self.spent
    }

    /// How many sessions came up so far, which is the number of the last one.
    pub fn ups(&self) -> u32
        ensures { result ≡ self.now.live.last }
    {
        self.live.last()
    }

    /// The bytes that wait to be sent to a neighbour; none without a connection.
    pub fn outbox(&self, peer: Addr) -> &[u8]
        ensures { result.now ≡ outbox_at (peer_at peer self.now.neighbours) }
    {
        self.neighbours.outbox(peer)
    }

    /// The configuration that holds: the empty one before the first.
    pub fn conf(&self) -> &Conf
        ensures { result.now ≡ self.now.conf }
    {
        &self.conf
    }

    /// The neighbours of the configuration, by address.
    pub fn peers(&self) -> Keys<'_, Addr, NeighbourSession> {
        self.neighbours.peers()
    }

    /// Whether a neighbour takes no bytes for now.
    pub fn stalled(&self, peer: Addr) -> bool
        ensures { result ≡ stalled_at (peer_at peer self.now.neighbours) }
    {
        self.neighbours.is_stalled(peer)
    }

    /// A connection with a neighbour stands (RFC 4271, section 8.2.2).
    ///
    /// `UnknownNeighbour` comes exactly where the configuration lacks the neighbour, `AdminDown` exactly where it is administratively
    /// down, and `AlreadyOpen` exactly where it has a connection.
    pub fn opened(&mut self, peer: Addr, _way: Way) -> Result<Done, SessionRefusal>
        ensures refused { Refuses (refused_by self.old (opened_refusal (peer_at peer self.old.neighbours))) self.old self.new result }
        ensures gives { IfOk result (λ done. Gives (event_reply peer events.Opened self.old) self.new done) }
        ensures history { IfOk result (λ done. Follows (history.Opened peer) self.old self.new done) }
    {
        self.event(peer, PeerEvent::Opened)
    }

    /// Bytes of a neighbour come, and each message that is whole is handled. `NoConnection` comes exactly where it has no connection.
    ///
    /// Fewer than 2^32 - 1 sessions came up.
    pub fn bytes(&mut self, peer: Addr, piece: &[u8]) -> Result<Done, SessionRefusal>
        requires { self.old.live.last + 1 < 2 ^ 32 }
        ensures refused { Refuses (refused_by self.old (bytes_refusal (peer_at peer self.old.neighbours))) self.old self.new result }
        ensures gives { IfOk result (λ done. Hears peer piece.now self.old self.new done) }
        ensures history { IfOk result (λ done. Follows (history.Heard peer piece.now) self.old self.new done) }
    {
        if self.spent {
            return Err(SessionRefusal::Spent);
        }
        let mut done = nothing(self.alloc);
        let number = self.live.last() + 1;
        let outcome = self
            .neighbours
            .bytes(peer, piece, number, self.moment, &mut done);
        self.finish(done, outcome)
    }

    /// The connection with a neighbour is lost, or couldn't be made. `NoConnection` comes exactly where none stands and none is
    /// being made.
    pub fn lost(&mut self, peer: Addr) -> Result<Done, SessionRefusal>
        ensures refused { Refuses (refused_by self.old (lost_refusal (peer_at peer self.old.neighbours))) self.old self.new result }
        ensures gives { IfOk result (λ done. Gives (event_reply peer events.Lost self.old) self.new done) }
        ensures history { IfOk result (λ done. Follows (history.Lost peer) self.old self.new done) }
    {
        self.event(peer, PeerEvent::Lost)
    }

    /// The time is told. `TimeBack` comes exactly where it lies before the time that was told last, which it names.
    pub fn time(&mut self, now: u64) -> Result<Done, SessionRefusal>
        ensures refused { Refuses (refused_by self.old (time_refusal now self.old)) self.old self.new result }
        ensures gives { IfOk result (λ done. Gives (time_reply now self.old) self.new done) }
        ensures history { IfOk result (λ done. Follows (history.Told now) self.old self.new done) }
    {
        if self.spent {
            return Err(SessionRefusal::Spent);
        }
        if now < self.moment {
            return Err(SessionRefusal::TimeBack(self.moment));
        }
        self.moment = now;
        self.all_event(AllEvent::Deadline)
    }

    /// Every session ends with 6/2 (RFC 4486), by address. No refusal comes but `NoMemory` and `Spent`.
    pub fn stop(&mut self) -> Result<Done, SessionRefusal>
        ensures refused { Refuses (refused_by self.old None) self.old self.new result }
        ensures gives { IfOk result (λ done. Gives (all_reply Stops self.old) self.new done) }
        ensures history { IfOk result (λ done. Follows history.Stopped self.old self.new done) }
    {
        if self.spent {
            return Err(SessionRefusal::Spent);
        }
        self.all_event(AllEvent::Stop)
    }

    /// So many bytes at most are sent to a neighbour. UPDATEs whose last byte is among them are credited together.
    ///
    /// `UnknownNeighbour` comes exactly where the configuration lacks the neighbour, `NoConnection` exactly where it has no connection.
    pub fn write(&mut self, peer: Addr, n: usize) -> Result<Done, SessionRefusal>
        ensures refused { Refuses (refused_by self.old (write_refusal n (peer_at peer self.old.neighbours))) self.old self.new result }
        ensures gives { IfOk result (λ done. Gives (event_reply peer (events.Write n) self.old) self.new done) }
        ensures history { IfOk result (λ done. Follows (history.Wrote peer n) self.old self.new done) }
    {
        self.event(peer, PeerEvent::Write(n))
    }

    /// A neighbour takes no bytes for now. It ends with the connection. The refusals are those of `write`.
    pub fn stall(&mut self, peer: Addr) -> Result<Done, SessionRefusal>
        ensures refused { Refuses (refused_by self.old (stall_refusal true (peer_at peer self.old.neighbours))) self.old self.new result }
        ensures gives { IfOk result (λ done. Gives (event_reply peer (events.Stall true) self.old) self.new done) }
        ensures history { IfOk result (λ done. Follows (history.Stalled peer true) self.old self.new done) }
    {
        self.event(peer, PeerEvent::Stall(true))
    }

    /// A neighbour takes bytes again. The refusals are those of `write`.
    pub fn flow(&mut self, peer: Addr) -> Result<Done, SessionRefusal>
        ensures refused { Refuses (refused_by self.old (stall_refusal false (peer_at peer self.old.neighbours))) self.old self.new result }
        ensures gives { IfOk result (λ done. Gives (event_reply peer (events.Stall false) self.old) self.new done) }
        ensures history { IfOk result (λ done. Follows (history.Stalled peer false) self.old self.new done) }
    {
        self.event(peer, PeerEvent::Stall(false))
    }

    /// A frame of another core. One that no core writes to this one is passed over, and so are a stage item that can't follow those
    /// before it and frames of sessions that aren't up. No refusal comes but `NoMemory` and `Spent`.
    ///
    /// Routes have valid attributes, and prefixes of the family of their next hop. Those that can't be one UPDATE by what was agreed
    /// with the neighbour are passed over, and credited.
    pub fn frame(&mut self, frame: Frame) -> Result<Done, SessionRefusal>
        requires { CanTake frame }
        ensures refused { Refuses (refused_by self.old None) self.old self.new result }
        ensures gives { IfOk result (λ done. Gives (frame_reply frame self.old) self.new done) }
        ensures history { IfOk result (λ done. Follows (history.Took frame) self.old self.new done) }
    {
        if self.spent {
            return Err(SessionRefusal::Spent);
        }
        match frame {
            Frame::Begin { generation, length } => {
                self.stage(StageItem::Begin { generation, length })
            }
            Frame::Piece(piece) => self.stage(StageItem::Piece(piece)),
            Frame::Commit(generation) => self.commit(generation),
            Frame::Close {
                session,
                held,
                most,
                ..
            } => self.session_event(session, PeerEvent::Close { held, most }),
            Frame::Routes {
                session,
                withdrawn,
                announced,
                ..
            } => {
                let event = PeerEvent::Routes {
                    withdrawn,
                    announced,
                };
                self.session_event(session, event)
            }
            _ => Ok(nothing(self.alloc)),
        }
    }

    /// A new configuration of this generation holds. No refusal comes but `NoMemory` and `Spent`.
    pub fn apply(&mut self, conf: Conf, generation: u32) -> Result<Done, SessionRefusal>
        ensures refused { Refuses (refused_by self.old None) self.old self.new result }
        ensures gives { IfOk result (λ done. Gives (apply_reply conf generation self.old) self.new done) }
        ensures history { IfOk result (λ done. Follows (history.Applied conf generation) self.old self.new done) }
    {
        if self.spent {
            return Err(SessionRefusal::Spent);
        }
        self.apply_conf(conf, generation)
    }

    /// A control command.
    pub fn command(&mut self, command: &CtlCommand) -> Result<Done, SessionRefusal>
        ensures refused { Refuses (refused_by self.old (command_refusal command.now self.old)) self.old self.new result }
        ensures gives { IfOk result (λ done. Gives (command_reply command.now self.old) self.new done) }
        ensures history { IfOk result (λ done. Follows (history.Commanded command.now) self.old self.new done) }
    {
        if self.spent {
            return Err(SessionRefusal::Spent);
        }
        match command {
            CtlCommand::Neighbour(peer, action) => {
                self.event(*peer, PeerEvent::Operator(*action))
            }
            _ => self.show(command),
        }
    }
}

impl Session {
    /// Something happens to one neighbour.
    fn event(&mut self, peer: Addr, event: PeerEvent) -> Result<Done, SessionRefusal>
        requires { CanHappen event }
        ensures refused { Refuses (refused_by self.old (refusal_at event (peer_at peer self.old.neighbours))) self.old self.new result }
        ensures gives { IfOk result (λ done. Gives (event_reply peer event self.old) self.new done) }
    {
        if self.spent {
            return Err(SessionRefusal::Spent);
        }
        let mut done = nothing(self.alloc);
        let outcome = self.neighbours.happen(peer, event, self.moment, &mut done);
        self.finish(done, outcome)
    }

    /// The same to the neighbour of a session that is up, by its number.
    fn session_event(&mut self, session: u32, event: PeerEvent) -> Result<Done, SessionRefusal>
        requires live { self.old.spent ≡ false }
        requires sound { CanHappen event }
        requires free { (o : Option Neighbour) → refusal_at event o ≡ None }
        ensures refused { IfErr result (λ why. (why ≡ Memory) × IsTrue self.new.spent) }
        ensures gives { IfOk result (λ done. Gives (session_reply session event self.old) self.new done) }
    {
        match self.live.peer_of(session) {
            Some(peer) => self.event(peer, event),
            None => Ok(nothing(self.alloc)),
        }
    }

    /// Something happens to all neighbours, by address.
    fn all_event(&mut self, event: AllEvent) -> Result<Done, SessionRefusal>
        ensures refused { IfErr result (λ why. (why ≡ Memory) × IsTrue self.new.spent) }
        ensures gives { IfOk result (λ done. Gives (all_reply event self.old) self.new done) }
    {
        let mut done = nothing(self.alloc);
        match self.neighbours.happen_to_all(event, self.moment, &mut done) {
            Ok(()) => self.note(done),
            Err(_) => self.spend(),
        }
    }

    /// Takes an item of the next configuration, if it can follow those before it.
    fn stage(&mut self, item: StageItem) -> Result<Done, SessionRefusal>
        ensures refused { IfErr result (λ why. (why ≡ Memory) × IsTrue self.new.spent) }
        ensures gives { IfOk result (λ done. Gives (item_reply item self.old) self.new done) }
    {
        match self.assembly.take(item) {
            Err(StageFault::NoMemory) => self.spend(),
            _ => Ok(nothing(self.alloc)),
        }
    }

    /// The next configuration is whole.
    fn commit(&mut self, generation: u32) -> Result<Done, SessionRefusal>
        ensures refused { IfErr result (λ why. (why ≡ Memory) × IsTrue self.new.spent) }
        ensures gives { IfOk result (λ done. Gives (commit_reply generation self.old) self.new done) }
    {
        match self.assembly.take(StageItem::Commit(generation)) {
            Ok(()) => self.take_up(),
            Err(StageFault::NoMemory) => self.spend(),
            Err(_) => Ok(nothing(self.alloc)),
        }
    }

    /// Takes up the configuration that is whole.
    fn take_up(&mut self) -> Result<Done, SessionRefusal>
        requires { is_whole self.old.assembly.progress ≡ true }
        ensures refused { IfErr result (λ why. (why ≡ Memory) × IsTrue self.new.spent) }
        ensures gives { IfOk result (λ done. (generation : ℕ) → self.old.assembly.progress ≡ Whole generation →
            Gives (read_reply (configuration_within most_canonical_bytes self.old.assembly.text) generation (emptied self.old)) self.new done) }
    {
        let assembly = mem::replace(&mut self.assembly, Assembly::new(self.alloc));
        match assembly.done() {
            Ok((generation, conf)) => self.apply_conf(conf, generation),
            Err(StageFault::NoMemory) => self.spend(),
            Err(_) => Ok(nothing(self.alloc)),
        }
    }

    /// A configuration of this generation holds.
    fn apply_conf(&mut self, conf: Conf, generation: u32) -> Result<Done, SessionRefusal>
        ensures refused { IfErr result (λ why. (why ≡ Memory) × IsTrue self.new.spent) }
        ensures gives { IfOk result (λ done. Gives (apply_reply conf generation self.old) self.new done) }
    {
        let mut done = nothing(self.alloc);
        match self.take_conf(conf, generation, &mut done) {
            Ok(()) => self.note(done),
            Err(_) => self.spend(),
        }
    }

    fn take_conf(&mut self, conf: Conf, generation: u32, done: &mut Done) -> Result<(), NoMemory>
        ensures courses { OnOk result (courses self.new.neighbours done.new ≡
            applied generation (reloads (plan_of conf self.old.neighbours) self.old.moment (courses self.old.neighbours done.old))) }
        ensures state { OnOk result (self.new ≡ record self.old { conf = conf; neighbours = self.new.neighbours }) }
    {
        self.neighbours.apply(&conf, self.moment, done)?;
        self.conf = conf;
        done.lines.push(Line::AppliedSession(generation))?;
        done.frames.push((Core::Parent, Frame::Ack(generation)))
    }

    /// Answers a command that changes nothing here.
    fn show(&mut self, command: &CtlCommand) -> Result<Done, SessionRefusal>
        requires { is_show command.now ≡ true }
        ensures refused { Refuses (command_refusal command.now self.old) self.old self.new result }
        ensures gives { IfOk result (λ done. Gives (answer_reply command.now self.old) self.new done) }
    {
        let mut done = nothing(self.alloc);
        match self.answer(command, &mut done) {
            Ok(()) => Ok(done),
            Err(refusal) => self.refuse(refusal),
        }
    }

    /// The rows and frames that answer it.
    fn answer(&self, command: &CtlCommand, done: &mut Done) -> Result<(), SessionRefusal>
        requires { is_show command.now ≡ true }
        ensures ok { OnOk result (Answers (answer_reply command.now self.now) done.old done.new) }
        ensures refused { PeerRefuses (command_refusal command.now self.now) (done.new ≡ done.old) result }
    {
        match command {
            CtlCommand::ShowSummary => Ok(self.neighbours.show_summary(done)?),
            CtlCommand::ShowNeighbour(peer) => self.neighbours.show(*peer, done),
            CtlCommand::ShowSets => Ok(show_sets(&self.conf, &mut done.lines)?),
            CtlCommand::ShowRib(name) => refuse_rib(&self.conf, name),
            CtlCommand::ShowFib(table) => refuse_table(&self.conf, *table),
            CtlCommand::Couple(table, on) => couple(&self.conf, *table, *on, &mut done.frames),
            _ => Ok(()),
        }
    }

    /// What a call answers whose work came to this outcome.
    fn finish(
        &mut self,
        done: Done,
        outcome: Result<(), SessionRefusal>,
    ) -> Result<Done, SessionRefusal>
        ensures { Finishes outcome done self.old self.new result }
    {
        match outcome {
            Ok(()) => self.note(done),
            Err(refusal) => self.refuse(refusal),
        }
    }

    /// Keeps the numbers of the sessions by what was written.
    fn note(&mut self, done: Done) -> Result<Done, SessionRefusal>
        ensures { Notes done self.old self.new result }
    {
        match self.live.note_all(&done.frames) {
            Ok(()) => Ok(done),
            Err(_) => self.spend(),
        }
    }

    /// Refuses a call, and is spent where that is for memory.
    fn refuse(&mut self, refusal: SessionRefusal) -> Result<Done, SessionRefusal>
        ensures { IsRefused refusal self.old self.new result }
    {
        if refusal == SessionRefusal::NoMemory {
            return self.spend();
        }
        Err(refusal)
    }

    /// Memory ran out.
    fn spend(&mut self) -> Result<Done, SessionRefusal>
        ensures says { result ≡ Err Memory }
        ensures spent { IsTrue self.new.spent }
    {
        self.spent = true;
        Err(SessionRefusal::NoMemory)
    }
}

/// Nothing is reported, and nothing written.
fn nothing(alloc: Global) -> Done
    ensures { result ≡ record { lines = []; frames = [] } }
{
    Done {
        lines: Items::new(alloc),
        frames: Items::new(alloc),
    }
}
