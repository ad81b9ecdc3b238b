ghost use Rattle.std.specs.Prelude.{◌≡◌, ◌++◌, [], map, None, Some, IfOk, OnOk};
ghost use Rattle.std.specs.Map.{keys_of, values_of};
ghost use Rattle.peer_session.specs.Calls.{Refuses};
ghost use Rattle.peer_session.specs.Neighbour.{Does};
ghost use Rattle.session_core.specs.declared.event.PeerEvent.TheVariants.{All};
ghost use Rattle.session_core.specs.Courses.{HandlesAt, at_neighbour, courses, for_all};
ghost use Rattle.session_core.specs.Events.{CanHappen, bytes_refusal, happens, refusal_at};
ghost use Rattle.session_core.specs.Reloads.{changes_found, comes_at, leaving, plan_of, reconfigures, reloads};
ghost use Rattle.session_core.specs.Sessions.{outbox_at, peer_at, stalled_at};
ghost use Rattle.session_core.specs.Shows.{neighbour_row, neighbour_rows, row_of, row_refusal, rows_refusal, summary_row};

use crate::event::{AllEvent, PeerEvent};
use crate::settings::settings_of;
use crate::shows::{push_row, push_summary};
use conf_tree::Conf;
use core_msgs::Done;
use net_base::{Addr, Items, NoMemory};
use peer_session::{NeighbourSession, SessionRefusal, Settings};
use std::alloc::Global;
use std::collections::BTreeMap;
use std::collections::btree_map::Keys;
use std::marker::Model;

/// What becomes of each neighbour that is there or is to come, by address: its settings, or none where it goes.
type Plan = BTreeMap<Addr, Option<Settings>>;

/// The neighbours of the configuration with their sessions, by address.
#[derive(Drop)]
pub(crate) struct Neighbours {
    alloc: Global,
    by_address: BTreeMap<Addr, NeighbourSession>,
}

impl Model for Neighbours {
    ghost use Rattle.session_core.specs.Sessions.{Peers};

    ghost Value = { Peers };

    ghost view = { λ n. n.by_address.entries };
}

impl Neighbours {
    /// There is none.
    pub(crate) fn new(alloc: Global) -> Neighbours
        ensures { result ≡ [] }
    {
        Neighbours {
            alloc,
            by_address: BTreeMap::new(alloc),
        }
    }

    /// The bytes that wait to be sent to a neighbour; none without a connection.
    pub(crate) fn outbox(&self, peer: Addr) -> &[u8]
        ensures { result.now ≡ outbox_at (peer_at peer self.now) }
    {
        match self.by_address.get(&peer) {
            Some(neighbour) => neighbour.outbox(),
            None => &[],
        }
    }

    /// Whether a neighbour takes no bytes for now.
    pub(crate) fn is_stalled(&self, peer: Addr) -> bool
        ensures { result ≡ stalled_at (peer_at peer self.now) }
    {
        match self.by_address.get(&peer) {
            Some(neighbour) => neighbour.is_stalled(),
            None => false,
        }
    }

    /// The neighbours, by address.
    pub(crate) fn peers(&self) -> Keys<'_, Addr, NeighbourSession> {
        self.by_address.keys()
    }

    /// Something happens to one neighbour. Where it isn't there, that is refused, or passed over.
    pub(crate) fn happen(
        &mut self,
        peer: Addr,
        event: PeerEvent,
        now: u64,
        done: &mut Done,
    ) -> Result<(), SessionRefusal>
        requires { CanHappen event }
        ensures ok { OnOk result (courses self.new done.new ≡ at_neighbour peer (happens event now) (courses self.old done.old)) }
        ensures refused { Refuses (refusal_at event (peer_at peer self.old)) (courses self.new done.new ≡ courses self.old done.old) result }
    {
        let Some(neighbour) = self.by_address.get_mut(&peer) else {
            return match event.unknown_refusal() {
                Some(refusal) => Err(refusal),
                None => Ok(()),
            };
        };
        event.happen(neighbour, now, done)
    }

    /// Bytes of a neighbour come. A session that comes up has the number `number`.
    pub(crate) fn bytes(
        &mut self,
        peer: Addr,
        piece: &[u8],
        number: u32,
        now: u64,
        done: &mut Done,
    ) -> Result<(), SessionRefusal>
        ensures ok { OnOk result (HandlesAt peer piece.now number now (courses self.old done.old) (courses self.new done.new)) }
        ensures refused { Refuses (bytes_refusal (peer_at peer self.old)) (courses self.new done.new ≡ courses self.old done.old) result }
    {
        let Some(neighbour) = self.by_address.get_mut(&peer) else {
            return Err(SessionRefusal::NoConnection);
        };
        neighbour.bytes(piece, number, now, done)
    }

    /// Something happens to all neighbours, by address. Only memory can stop it.
    pub(crate) fn happen_to_all(
        &mut self,
        event: AllEvent,
        now: u64,
        done: &mut Done,
    ) -> Result<(), NoMemory>
        ensures { OnOk result (courses self.new done.new ≡ for_all (happens (All event) now) (courses self.old done.old)) }
    {
        let addresses = self.addresses()?;
        for peer in &addresses {
            self.happen_to(*peer, event, now, done)?;
        }
        Ok(())
    }

    /// The addresses in their order.
    fn addresses(&self) -> Result<Items<Addr>, NoMemory>
        ensures { IfOk result (λ addresses. addresses ≡ keys_of self.now) }
    {
        let addresses = self.by_address.keys().copied().collect(self.alloc)?;
        Ok(Items::from_vec(addresses))
    }

    /// It happens to one of them.
    fn happen_to(
        &mut self,
        peer: Addr,
        event: AllEvent,
        now: u64,
        done: &mut Done,
    ) -> Result<(), NoMemory>
        ensures { OnOk result (courses self.new done.new ≡ at_neighbour peer (happens (All event) now) (courses self.old done.old)) }
    {
        let Some(neighbour) = self.by_address.get_mut(&peer) else {
            return Ok(());
        };
        event.happen(neighbour, now, done)
    }

    /// The neighbours become those of a configuration, one by one by address.
    pub(crate) fn apply(&mut self, conf: &Conf, now: u64, done: &mut Done) -> Result<(), NoMemory>
        ensures { OnOk result (courses self.new done.new ≡ reloads (plan_of conf.now self.old) now (courses self.old done.old)) }
    {
        let plan = self.plan(conf)?;
        for (peer, wanted) in &plan {
            self.change(*peer, *wanted, now, done)?;
        }
        Ok(())
    }

    /// What becomes of each neighbour under a configuration.
    fn plan(&self, conf: &Conf) -> Result<Plan, NoMemory>
        ensures { IfOk result (λ plan. plan.entries ≡ plan_of conf.now self.now) }
    {
        let mut plan = self.plan_to_leave()?;
        for neighbour in &conf.neighbours {
            plan.insert(neighbour.address, Some(settings_of(conf, neighbour)))?;
        }
        Ok(plan)
    }

    /// Each neighbour goes.
    fn plan_to_leave(&self) -> Result<Plan, NoMemory>
        ensures { IfOk result (λ plan. plan.entries ≡ leaving (keys_of self.now) []) }
    {
        let mut plan = BTreeMap::new(self.alloc);
        for peer in self.by_address.keys() {
            plan.insert(*peer, None)?;
        }
        Ok(plan)
    }

    fn change(
        &mut self,
        peer: Addr,
        wanted: Option<Settings>,
        now: u64,
        done: &mut Done,
    ) -> Result<(), NoMemory>
        ensures { OnOk result (courses self.new done.new ≡ changes_found peer wanted now (peer_at peer self.old) (courses self.old done.old)) }
    {
        match wanted {
            Some(settings) => self.configure(peer, settings, now, done),
            None => self.leave(peer, now, done),
        }
    }

    /// A neighbour comes, or has new settings.
    fn configure(
        &mut self,
        peer: Addr,
        settings: Settings,
        now: u64,
        done: &mut Done,
    ) -> Result<(), NoMemory>
        ensures { OnOk result (courses self.new done.new ≡ changes_found peer (Some settings) now (peer_at peer self.old) (courses self.old done.old)) }
    {
        let Some(neighbour) = self.by_address.get_mut(&peer) else {
            return self.come(peer, settings, now, done);
        };
        reconfigure(neighbour, settings, now, done)
    }

    /// A neighbour comes.
    fn come(
        &mut self,
        peer: Addr,
        settings: Settings,
        now: u64,
        done: &mut Done,
    ) -> Result<(), NoMemory>
        ensures { OnOk result (courses self.new done.new ≡ comes_at peer settings now (courses self.old done.old)) }
    {
        let mut neighbour = NeighbourSession::new(self.alloc, peer, settings);
        neighbour.comes(now, done)?;
        self.by_address.insert(peer, neighbour)?;
        Ok(())
    }

    /// A neighbour goes.
    fn leave(&mut self, peer: Addr, now: u64, done: &mut Done) -> Result<(), NoMemory>
        ensures { OnOk result (courses self.new done.new ≡ changes_found peer None now (peer_at peer self.old) (courses self.old done.old)) }
    {
        let Some(mut neighbour) = self.by_address.remove(&peer) else {
            return Ok(());
        };
        neighbour.leave(now, done)
    }

    /// A row for each neighbour, by address: its AS number and the state of its session.
    pub(crate) fn show_summary(&self, done: &mut Done) -> Result<(), NoMemory>
        ensures { OnOk result (done.new ≡ record done.old { lines = done.old.lines ++ map summary_row self.now }) }
    {
        for (peer, neighbour) in &self.by_address {
            push_summary(*peer, neighbour, &mut done.lines)?;
        }
        Ok(())
    }

    /// A longer row for each neighbour, by address, or for one.
    pub(crate) fn show(&self, peer: Option<Addr>, done: &mut Done) -> Result<(), SessionRefusal>
        ensures ok { OnOk result (done.new ≡ record done.old { lines = done.old.lines ++ neighbour_rows peer self.now }) }
        ensures refused { Refuses (rows_refusal peer self.now) (done.new ≡ done.old) result }
    {
        match peer {
            Some(peer) => self.show_one(peer, done),
            None => Ok(self.show_all(done)?),
        }
    }

    fn show_all(&self, done: &mut Done) -> Result<(), NoMemory>
        ensures { OnOk result (done.new ≡ record done.old { lines = done.old.lines ++ map neighbour_row (values_of self.now) }) }
    {
        for neighbour in self.by_address.values() {
            push_row(neighbour, &mut done.lines)?;
        }
        Ok(())
    }

    fn show_one(&self, peer: Addr, done: &mut Done) -> Result<(), SessionRefusal>
        ensures ok { OnOk result (done.new ≡ record done.old { lines = done.old.lines ++ row_of (peer_at peer self.now) }) }
        ensures refused { Refuses (row_refusal (peer_at peer self.now)) (done.new ≡ done.old) result }
    {
        let Some(neighbour) = self.by_address.get(&peer) else {
            return Err(SessionRefusal::UnknownNeighbour);
        };
        push_row(neighbour, &mut done.lines)?;
        Ok(())
    }
}

/// A neighbour that is there has new settings.
fn reconfigure(
    neighbour: &mut NeighbourSession,
    settings: Settings,
    now: u64,
    done: &mut Done,
) -> Result<(), NoMemory>
    ensures { OnOk result (Does (reconfigures settings now) neighbour.old neighbour.new done.old done.new) }
{
    neighbour.configure(settings, now, done)
}
