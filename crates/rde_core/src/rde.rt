ghost use Rattle.std.specs.Prelude.{◌≡◌, ◌↔◌, true, false, [], OnOk, OnErr, Err, IfOk, IfErr, IsErrOf, IsOk, IsTrue};
ghost use Rattle.std.specs.List.{list_all};
ghost use Rattle.rde_core.specs.Given.{ReportsApplied, applied};
ghost use Rattle.rde_core.specs.Rows.{is_row_of};
ghost use Rattle.rde_core.specs.Units.{CanBeDone};
ghost use Rattle.net_base.specs.declared.core_fault.CoreFault.TheVariants as CoreFault;
ghost use Rattle.rde_tables.specs.Routes.{IsExact};

use crate::building::build;
use crate::refreshing::refresh;
use crate::sending::given;
use crate::showing;
use crate::staging::{committed, stage};
use crate::swapping::follow_swap;
use crate::tables::Tables;
use crate::taking::{ask_again, credit, down, next_hop, routes, up};
use crate::units::{LastUnits, Unit, next_unit};
use core_msgs::{Done, Frame, RowList, SendList, Table};
use filter_engine::Steps;
use net_base::{Addr, CoreFault, Items, NoMemory, Prefix};
use rde_view::{Live, View};
use reload_stage::{Assembly, StageItem};
use std::alloc::Global;
use std::marker::Model;
use std::sync::ledger::Ledger;

/// The decision core (RFC 4271 section 9): its view, the tables that follow from it, and which unit of work comes next.
///
/// Each call is one step, and gives the lines that it reports and the frames that it writes, in their order. A call that runs out
/// of memory leaves the core spent: it refuses every later call with `Spent`.
///
/// Contracts see the view, the routes, the known prefixes, and whether memory ran out.
#[derive(Drop)]
pub struct Decision {
    alloc: Global,
    view: View,
    tables: Tables,
    assembly: Assembly,
    last: LastUnits,
    spent: bool,
}

impl Model for Decision {
    ghost use Rattle.rde_core.specs.State.{DecisionState};

    ghost Value = { DecisionState };

    ghost view = { λ core. record {
      view = core.view;
      routes = core.tables.routes;
      known = core.tables.known;
      spent = core.spent;
    } };
}

impl Decision {
    /// A core that was told nothing, with the empty configuration, which has Loc-RIB and its kernel table 0.
    pub fn new(alloc: Global) -> Result<Decision, NoMemory>
        ensures live { IfOk result (λ core. core.spent ≡ false) }
        ensures known { IfOk result (λ core. core.known ≡ []) }
        ensures exact { IfOk result (λ core. IsExact core.routes) }
    {
        Ok(Decision {
            alloc,
            view: View::new(alloc)?,
            tables: Tables::new(alloc)?,
            assembly: Assembly::new(alloc),
            last: LastUnits {
                was_build: false,
                build: None,
            },
            spent: false,
        })
    }

    /// Takes a frame of another core; the answer is what this core reports and writes.
    ///
    /// - Begin, Piece and Commit hand over a configuration, which holds from its Commit on. Next hops that only RIBs have which are
    ///   gone are no longer tracked, each prefix known before or behind is marked in every RIB and queued for every session, and Ack
    ///   is written. An item that can't follow those before it is passed over.
    /// - Up and Down: a session comes up, and every known prefix is queued for it; or it goes, and what it held is marked. One whose
    ///   number or neighbour is up, or a 257th, doesn't come up.
    /// - Routes changes what a session holds, and marks it. Close is written once where that is more than it may be.
    /// - Credit: messages in flight are no longer, as many as there are. Refresh: what the session was told of a family is queued to be
    ///   told again.
    /// - Nexthop answers whether a tracked next hop is valid, and marks where candidates have it.
    ///
    /// Frames of sessions that aren't up, and every other frame, are passed over. The errors are `NoMemory`, behind which the core is
    /// spent, and `Spent`.
    pub fn frame(&mut self, frame: Frame) -> Result<Done, CoreFault>
        ensures reports { IfOk result (λ done. ReportsApplied done.lines) }
        ensures live { OnOk result (self.new.spent ≡ false) }
        ensures spent { OnErr result (IsTrue self.new.spent) }
        ensures was_spent { IsErrOf result CoreFault.Spent ↔ IsTrue self.old.spent }
        ensures same { IsTrue self.old.spent → self.new ≡ self.old }
    {
        if self.spent {
            return Err(CoreFault::Spent);
        }
        let mut frames = Items::new(self.alloc);
        let outcome = self.take(frame, &mut frames);
        self.finish(frames, outcome)
    }

    /// Makes one unit of work, or none where there is none.
    ///
    /// A unit is a refresh where a prefix is marked and the last unit was a build or no build is possible; otherwise it is a build.
    /// A refresh goes over the least marked prefix of the lowest RIB with a mark again. A build is for the next session by address
    /// behind that of the last build, round the list, with fewer than 16 messages in flight and a queued prefix that isn't marked in
    /// its RIB. It looks at the first 64 such prefixes. The errors are `NoMemory`, behind which the core is spent, and `Spent`.
    pub fn unit<L: Ledger>(&mut self, steps: &mut Steps<L>) -> Result<Done, CoreFault>
        ensures reports { IfOk result (λ done. done.lines ≡ []) }
        ensures live { OnOk result (self.new.spent ≡ false) }
        ensures spent { OnErr result (IsTrue self.new.spent) }
        ensures was_spent { IsErrOf result CoreFault.Spent ↔ IsTrue self.old.spent }
        ensures same { IsTrue self.old.spent → self.new ≡ self.old }
    {
        if self.spent {
            return Err(CoreFault::Spent);
        }
        let mut frames = Items::new(self.alloc);
        match self.work(steps, &mut frames) {
            Ok(()) => self.finish(frames, Ok(None)),
            Err(_) => self.spend(),
        }
    }

    /// Whether there is a unit of work.
    pub fn has_unit(&self) -> bool {
        next_unit(&self.view, &self.tables, self.last).is_some()
    }

    /// What the core was told.
    pub fn view(&self) -> &View
        ensures { result.now ≡ self.now.view }
    {
        &self.view
    }

    /// Whether an earlier call ran out of memory.
    pub fn spent(&self) -> bool
        ensures { result ≡ self.now.spent }
    {
        self.spent
    }

    /// The rows of a table, in the order in which they are shown. Where memory is refused, the core stays as it is.
    pub fn rows(&self, what: Table) -> Result<RowList, CoreFault>
        ensures kind { IfOk result (λ rows. list_all (is_row_of what) rows ≡ true) }
        ensures was_spent { IsErrOf result CoreFault.Spent ↔ IsTrue self.now.spent }
    {
        if self.spent {
            return Err(CoreFault::Spent);
        }
        match showing::rows(self.alloc, &self.view, &self.tables, what) {
            Ok(rows) => Ok(rows),
            Err(_) => Err(CoreFault::NoMemory),
        }
    }

    /// The row of a prefix that the last FibSet or FibDel for them left in a kernel table since that was configured.
    pub fn fib_told(&self, table: u32, prefix: Prefix) -> Option<Addr> {
        self.tables.fib.row(table, prefix)
    }

    /// The lowest RIB with a mark.
    pub fn marked(&self) -> Option<u8> {
        self.tables.marked()
    }

    /// Whether a prefix is queued for the session of a neighbour.
    pub fn queued(&self, peer: Addr) -> bool {
        match self.view.session(peer) {
            Some(live) => self
                .tables
                .routes
                .outs()
                .first_queued(live.number)
                .is_some(),
            None => false,
        }
    }

    /// How many messages of the session of a neighbour are built and not credited, at most 16.
    pub fn in_flight(&self, peer: Addr) -> usize {
        match self.view.session(peer) {
            Some(live) => self.tables.routes.outs().in_flight(live.number),
            None => 0,
        }
    }
}

impl Decision {
    /// What a call answers that wrote these frames, and took up a configuration of this generation, if it took one up.
    fn finish(
        &mut self,
        frames: SendList,
        outcome: Result<Option<u32>, NoMemory>,
    ) -> Result<Done, CoreFault>
        ensures reports { IfOk result (λ done. IfOk outcome (λ generation. done.lines ≡ applied generation)) }
        ensures took { OnOk result (IsOk outcome) }
        ensures live { OnOk result (self.new ≡ self.old) }
        ensures spent { OnErr result (IsTrue self.new.spent) }
        ensures fault { IfErr result (λ fault. fault ≡ CoreFault.NoMemory) }
    {
        let Ok(generation) = outcome else {
            return self.spend();
        };
        match given(self.alloc, generation, frames) {
            Ok(done) => Ok(done),
            Err(_) => self.spend(),
        }
    }

    /// Memory ran out.
    fn spend(&mut self) -> Result<Done, CoreFault>
        ensures says { result ≡ Err CoreFault.NoMemory }
        ensures spent { IsTrue self.new.spent }
    {
        self.spent = true;
        Err(CoreFault::NoMemory)
    }

    /// Takes a frame. The answer is the generation of the configuration that it took up, if it took one up.
    fn take(&mut self, frame: Frame, frames: &mut SendList) -> Result<Option<u32>, NoMemory>
        ensures { self.new.spent ≡ self.old.spent }
    {
        match frame {
            Frame::Commit(generation) => return self.commit(generation, frames),
            Frame::Begin { generation, length } => {
                stage(&mut self.assembly, StageItem::Begin { generation, length })?;
            }
            Frame::Piece(piece) => stage(&mut self.assembly, StageItem::Piece(piece))?,
            Frame::Nexthop { hop, valid } => {
                next_hop(&mut self.view, &mut self.tables, hop, valid)?;
            }
            frame => self.take_of_session(frame, frames)?,
        }
        Ok(None)
    }

    /// Takes a frame of the session core that isn't of a stage.
    fn take_of_session(&mut self, frame: Frame, frames: &mut SendList) -> Result<(), NoMemory>
        ensures { self.new.spent ≡ self.old.spent }
    {
        match frame {
            Frame::Up {
                session,
                peer,
                asn,
                id,
                agreed,
            } => {
                let live = Live {
                    number: session,
                    peer,
                    asn,
                    id,
                    agreed,
                };
                up(&mut self.view, &mut self.tables, live)
            }
            Frame::Down { session } => down(&mut self.view, &mut self.tables, session),
            Frame::Routes {
                session,
                withdrawn,
                announced,
                ..
            } => routes(
                &self.view,
                &mut self.tables,
                session,
                &withdrawn,
                announced,
                frames,
            ),
            Frame::Credit { session, messages } => {
                credit(&mut self.tables, session, messages);
                Ok(())
            }
            Frame::Refresh { session, family } => {
                ask_again(&self.view, &mut self.tables, session, family)
            }
            _ => Ok(()),
        }
    }

    /// The next configuration is whole, and holds from now on. A Commit that can't follow what came before it is passed over.
    fn commit(&mut self, generation: u32, frames: &mut SendList) -> Result<Option<u32>, NoMemory>
        ensures { self.new.spent ≡ self.old.spent }
    {
        let Some((generation, conf)) = committed(self.alloc, &mut self.assembly, generation)? else {
            return Ok(None);
        };
        let ribs = self.view.ribs();
        self.view.set_conf(generation, conf)?;
        follow_swap(self.alloc, &mut self.view, &mut self.tables, ribs, frames)?;
        Ok(Some(generation))
    }

    /// Makes the next unit.
    fn work<L: Ledger>(
        &mut self,
        steps: &mut Steps<L>,
        frames: &mut SendList,
    ) -> Result<(), NoMemory>
        ensures { self.new.spent ≡ self.old.spent }
    {
        match next_unit(&self.view, &self.tables, self.last) {
            None => Ok(()),
            Some(unit) => self.make(unit, steps, frames),
        }
    }

    /// Makes a unit.
    fn make<L: Ledger>(
        &mut self,
        unit: Unit,
        steps: &mut Steps<L>,
        frames: &mut SendList,
    ) -> Result<(), NoMemory>
        requires { CanBeDone self.old.routes unit }
        ensures { self.new.spent ≡ self.old.spent }
    {
        match unit {
            Unit::Refresh(rib) => {
                self.last.was_build = false;
                refresh(
                    self.alloc,
                    &mut self.view,
                    &mut self.tables,
                    rib,
                    steps,
                    frames,
                )
            }
            Unit::Build(live) => {
                self.last = LastUnits {
                    was_build: true,
                    build: Some(live.peer),
                };
                build(
                    self.alloc,
                    &self.view,
                    &mut self.tables,
                    live,
                    steps,
                    frames,
                )
            }
        }
    }
}
