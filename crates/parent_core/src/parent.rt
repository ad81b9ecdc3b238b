ghost use Rattle.std.specs.Prelude.{◌≡◌, ℕ, ◌+◌, ◌*◌, ◌<◌, ◌^◌, [], ◌∷◌, ◌++◌, length, map, false, Option, Ok, IfOk, OnOk, OnErr, IsErrOf, IsTrue, ◌↔◌};
ghost use Rattle.conf_tree.specs.declared.conf.Conf.{Conf};
ghost use Rattle.conf_tree.specs.Language.{configuration};
ghost use Rattle.conf_tree.specs.Empty.{empty_conf};
ghost use Rattle.core_msgs.specs.declared.parts.Core.TheVariants.{Decision};
ghost use Rattle.kroute.specs.Table.{wants, wants_no};
ghost use Rattle.kroute.specs.Tables.{LowestJob, SetsArranged};
ghost use Rattle.nexthop_track.specs.Changes.{answers_changed};
ghost use Rattle.reload_stage.specs.Stages.{CanBeStaged};
ghost use Rattle.parent_core.specs.Calls.{Accepts, Acks, Advances, AnswersReload, Changes, ChangesKernelTable, Routes, Takes, Tracks, Untracks, Works};
ghost use Rattle.parent_core.specs.Cost.{Bounds, Costs, CostsUnit, IsWithin, Weights, load, reload_cost, taking_cost};
ghost use Rattle.parent_core.specs.Frames.{answered, only_frames, staged};
ghost use Rattle.parent_core.specs.History.{Accepted, Arranged, Follows, History, Routed, Stands, Took, Worked};
ghost use Rattle.parent_core.specs.KernelTables.{Configures, switched_to};
ghost use Rattle.parent_core.specs.Reloads.{idle, under_way};

use crate::fault::ReloadRefusal;
use crate::kernel_tables::{configure, switch};
use crate::reloads::{Reloads, Stage};
use crate::sending::{answer, answers, copied, loss, nothing, only_frames, only_line, push_stage};
use conf_tree::Conf;
use core_msgs::{Core, Done, Frame, Line};
use kroute::{Kernel, Tables};
use net_base::{Addr, CoreFault, Items, NoMemory, Prefix};
use nexthop_track::{HopChange, NextHops};
use reload_stage::{StageList, TEXT_LIMIT, frames, read_conf};
use std::alloc::Global;
use std::marker::Model;
use std::mem;

/// The parent core. It accepts configurations and hands each to the session core, and behind its Ack to the decision core; it
/// answers which next hops are valid by the kernel routes that are up; and it puts the kernel tables right.
#[derive(Drop)]
pub struct Parent {
    alloc: Global,
    reloads: Reloads,
    conf: Conf,
    tables: Tables,
    hops: NextHops,
    spent: bool,
}

impl Model for Parent {
    ghost use Rattle.parent_core.specs.State.{ParentState};

    ghost Value = { ParentState };

    ghost view = { λ s. record { reloads = s.reloads; conf = s.conf; tables = s.tables; hops = s.hops; spent = s.spent } };
}

impl Parent {
    /// A parent that has accepted nothing, with the empty configuration and no kernel table. It takes no memory.
    pub fn new(alloc: Global) -> Self
        ensures { result ≡ record {
          reloads = idle 0;
          conf = empty_conf;
          tables = record { tables = []; arranged = [] };
          hops = record { routes = []; qualify_default = false; tracked = [] };
          spent = false;
        } }
    {
        Parent {
            alloc,
            reloads: Reloads::new(),
            conf: Conf::empty(alloc),
            tables: Tables::new(alloc),
            hops: NextHops::new(alloc),
            spent: false,
        }
    }

    /// Reads the text of a configuration, at most 1048576 bytes, and hands it to the session core. The answer is its
    /// generation, with its stage as frames.
    ///
    /// The refusals are tested in this order: `Spent` where memory ran out in an earlier call; `UnderWay` where a generation
    /// is accepted and isn't done; `Refused` where the text has a fault, the first one; `NoMemory`. On each of them nothing
    /// changes, and `NoMemory` leaves the parent as it was.
    pub fn reload(&mut self, text: &[u8]) -> Result<(u32, Done), ReloadRefusal>
        requires { self.old.reloads.generation + 1 < 2 ^ 32 }
        ensures answer { AnswersReload text.now self.old self.new result }
        ensures refused { OnErr result (self.new ≡ self.old) }
        ensures history { IfOk result (λ given. (conf : Conf) → configuration text.now ≡ Ok conf → Follows (Accepted conf) self.old self.new given.1) }
        ensures cost { IfOk result (λ given. (w : Weights) (b : Bounds) (conf : Conf) → configuration text.now ≡ Ok conf →
            Costs w b 0 (reload_cost w b given.0 conf) self.old self.new given.1) }
    {
        if self.spent {
            return Err(ReloadRefusal::Spent);
        }
        if let Some(generation) = self.under_way() {
            return Err(ReloadRefusal::UnderWay(generation));
        }
        let conf = read_conf(self.alloc, text, TEXT_LIMIT)?;
        let given = self.accept(conf)?;
        Ok(given)
    }

    /// Takes a frame of another core; the answer is what the parent reports and writes.
    ///
    /// - Ack of the generation under way: the session core's lets the parent take up the configuration (its kernel tables, and
    ///   whether default routes qualify next hops), and hands its stage to the decision core; the decision core's ends the
    ///   reload.
    /// - Track is answered whether the next hop is valid, and Untrack ends that.
    /// - FibSet, FibDel and Couple change a kernel table that is configured.
    ///
    /// Every other frame is passed over. The errors are `NoMemory`, behind which the parent is spent, and `Spent`.
    pub fn frame(&mut self, frame: Frame) -> Result<Done, CoreFault>
        ensures taken { IfOk result (λ done. Takes frame self.old self.new done) }
        ensures history { IfOk result (λ done. Follows (Took frame) self.old self.new done) }
        ensures cost { IfOk result (λ done. (w : Weights) (b : Bounds) → IsWithin b self.old →
            Costs w b 1 (taking_cost w b frame) self.old self.new done) }
        ensures spent { OnErr result (IsTrue self.new.spent) }
        ensures was_spent { IsErrOf result CoreFault.Spent ↔ IsTrue self.old.spent }
        ensures same { IsTrue self.old.spent → self.new ≡ self.old }
    {
        if self.spent {
            return Err(CoreFault::Spent);
        }
        match self.take(frame) {
            Ok(done) => Ok(done),
            Err(_) => {
                self.spent = true;
                Err(CoreFault::NoMemory)
            }
        }
    }

    /// A kernel route comes up or goes down. A Nexthop frame goes out for each tracked next hop whose validity it changes, by
    /// address. The errors are `NoMemory`, behind which the parent is spent, and `Spent`.
    pub fn kernel_route(&mut self, prefix: Prefix, up: bool) -> Result<Done, CoreFault>
        ensures routed { IfOk result (λ done. Routes prefix up self.old self.new done) }
        ensures history { IfOk result (λ done. Follows (Routed prefix up) self.old self.new done) }
        ensures cost { IfOk result (λ done. (w : Weights) (b : Bounds) → IsWithin b self.old →
            Costs w b 0 (length b.hops * w.nexthop) self.old self.new done) }
        ensures spent { OnErr result (IsTrue self.new.spent) }
        ensures was_spent { IsErrOf result CoreFault.Spent ↔ IsTrue self.old.spent }
        ensures same { IsTrue self.old.spent → self.new ≡ self.old }
    {
        if self.spent {
            return Err(CoreFault::Spent);
        }
        match self.set_route(prefix, up) {
            Ok(done) => Ok(done),
            Err(_) => {
                self.spent = true;
                Err(CoreFault::NoMemory)
            }
        }
    }

    /// One unit of work: a kernel call of the lowest table with a job, or none where there is no job or a failure falls due
    /// that was arranged. A table that is lost by it is reported. The errors are `NoMemory`, behind which the parent is
    /// spent, and `Spent`.
    pub fn unit<K: Kernel>(&mut self, kernel: &mut K) -> Result<Done, CoreFault>
        ensures worked { IfOk result (λ done. Works self.old self.new done
            (record { held = K.held kernel.old; faults = K.faults kernel.old; listed = K.listed kernel.old })
            (record { held = K.held kernel.new; faults = K.faults kernel.new; listed = K.listed kernel.new })) }
        ensures history { IfOk result (λ done. (lost : Option ℕ) × Follows (Worked lost) self.old self.new done) }
        ensures cost { OnOk result ((w : Weights) (b : Bounds) → IsWithin b self.old →
            CostsUnit w b (K.listed kernel.old) (K.listed kernel.new) self.old self.new) }
        ensures spent { OnErr result (IsTrue self.new.spent) }
        ensures was_spent { IsErrOf result CoreFault.Spent ↔ IsTrue self.old.spent }
        ensures same { IsTrue self.old.spent → self.new ≡ self.old }
    {
        if self.spent {
            return Err(CoreFault::Spent);
        }
        match self.work(kernel) {
            Ok(done) => Ok(done),
            Err(_) => {
                self.spent = true;
                Err(CoreFault::NoMemory)
            }
        }
    }

    /// Lets the `n`-th next call on a table number fail without being made; with 0 no call fails. It replaces what was
    /// arranged for the number before. The errors are `NoMemory`, behind which the parent is spent, and `Spent`.
    pub fn arrange(&mut self, table: u32, n: u32) -> Result<(), CoreFault>
        ensures arranged { OnOk result (SetsArranged n table self.old.tables self.new.tables) }
        ensures tables { self.new.tables.tables ≡ self.old.tables.tables }
        ensures rest { OnOk result (self.new ≡ record self.old { tables = self.new.tables }) }
        ensures history { OnOk result ((h : History) → Stands self.old h → Stands self.new (Arranged table n ∷ h)) }
        ensures cost { OnOk result ((w : Weights) (b : Bounds) → load w b self.new ≡ load w b self.old) }
        ensures spent { OnErr result (IsTrue self.new.spent) }
        ensures was_spent { IsErrOf result CoreFault.Spent ↔ IsTrue self.old.spent }
        ensures same { IsTrue self.old.spent → self.new ≡ self.old }
    {
        if self.spent {
            return Err(CoreFault::Spent);
        }
        match self.tables.arrange(table, n) {
            Ok(()) => Ok(()),
            Err(_) => {
                self.spent = true;
                Err(CoreFault::NoMemory)
            }
        }
    }
}

impl Parent {
    /// The generation that was accepted last, 0 before the first.
    pub fn accepted(&self) -> u32
        ensures { result ≡ self.now.reloads.generation }
    {
        self.reloads.generation
    }

    /// The generation that is accepted and isn't done yet.
    pub fn under_way(&self) -> Option<u32>
        ensures { result ≡ under_way self.now.reloads }
    {
        self.reloads.under_way()
    }

    /// The lowest table with a job.
    pub fn job(&self) -> Option<u32>
        ensures { LowestJob self.now.tables result }
    {
        self.tables.job()
    }

    /// Whether memory ran out in a call.
    pub fn spent(&self) -> bool
        ensures { result ≡ self.now.spent }
    {
        self.spent
    }

    /// The configuration that the parent has taken up: the empty one before the first.
    pub fn conf(&self) -> &Conf
        ensures { result.now ≡ self.now.conf }
    {
        &self.conf
    }

    /// The kernel tables of that configuration.
    pub fn tables(&self) -> &Tables
        ensures { result.now ≡ self.now.tables }
    {
        &self.tables
    }

    /// The tracked next hops, and the kernel routes that are up.
    pub fn next_hops(&self) -> &NextHops
        ensures { result.now ≡ self.now.hops }
    {
        &self.hops
    }
}

impl Parent {
    /// Accepts a configuration. Its text is printed once. Where memory is refused, nothing changes.
    fn accept(&mut self, conf: Conf) -> Result<(u32, Done), NoMemory>
        requires few { self.old.reloads.generation + 1 < 2 ^ 32 }
        requires said { CanBeStaged conf }
        ensures ok { IfOk result (λ given. Accepts conf given self.old self.new) }
        ensures err { OnErr result (self.new ≡ self.old) }
    {
        let generation = self.reloads.generation + 1;
        let items = frames(self.alloc, &conf, generation)?;
        let sent = copied(self.alloc, Core::Session, &items)?;
        self.reloads = Reloads {
            generation,
            stage: Stage::AtSession(conf, items),
        };
        Ok((generation, only_frames(self.alloc, sent)))
    }

    /// Takes a frame.
    fn take(&mut self, frame: Frame) -> Result<Done, NoMemory>
        ensures taken { IfOk result (λ done. Takes frame self.old self.new done) }
    {
        match frame {
            Frame::Ack(generation) => self.ack(generation),
            Frame::Track(addr) => self.track(addr),
            Frame::Untrack(addr) => Ok(self.untrack(addr)),
            Frame::FibSet { table, prefix, hop } => self.want(table, prefix, hop),
            Frame::FibDel { table, prefix } => self.want_none(table, prefix),
            Frame::Couple { table, on } => self.couple(table, on),
            _ => Ok(nothing(self.alloc)),
        }
    }

    /// Tracks a next hop, and answers whether it is valid.
    fn track(&mut self, addr: Addr) -> Result<Done, NoMemory>
        ensures { IfOk result (λ done. Tracks addr self.old self.new done) }
    {
        let valid = self.hops.track(addr)?;
        let mut frames = Items::new(self.alloc);
        frames.push(answer(HopChange { addr, valid }))?;
        Ok(only_frames(self.alloc, frames))
    }

    /// Tracks a next hop no longer.
    fn untrack(&mut self, addr: Addr) -> Done
        ensures { Untracks addr self.old self.new result }
    {
        self.hops.untrack(addr);
        nothing(self.alloc)
    }

    /// A row is wanted of a table, if it is configured.
    fn want(&mut self, table: u32, prefix: Prefix, hop: Addr) -> Result<Done, NoMemory>
        ensures { IfOk result (λ done. Changes (wants prefix hop) table self.old self.new done) }
    {
        self.tables.set(table, prefix, hop)?;
        Ok(nothing(self.alloc))
    }

    /// No row of a prefix is wanted of a table, if it is configured.
    fn want_none(&mut self, table: u32, prefix: Prefix) -> Result<Done, NoMemory>
        ensures { IfOk result (λ done. Changes (wants_no prefix) table self.old self.new done) }
    {
        self.tables.del(table, prefix)?;
        Ok(nothing(self.alloc))
    }

    /// Couples or decouples a table, if it is configured.
    fn couple(&mut self, table: u32, on: bool) -> Result<Done, NoMemory>
        ensures { IfOk result (λ done. Changes (switched_to on) table self.old self.new done) }
    {
        switch(&mut self.tables, table, on)?;
        Ok(nothing(self.alloc))
    }

    /// A kernel route comes up or goes down.
    fn set_route(&mut self, prefix: Prefix, up: bool) -> Result<Done, NoMemory>
        ensures { IfOk result (λ done. Routes prefix up self.old self.new done) }
    {
        let changes = self.hops.kernel_route(self.alloc, prefix, up)?;
        let frames = answers(self.alloc, &changes)?;
        Ok(only_frames(self.alloc, frames))
    }

    /// Makes a unit of work.
    fn work<K: Kernel>(&mut self, kernel: &mut K) -> Result<Done, NoMemory>
        ensures worked { IfOk result (λ done. Works self.old self.new done
            (record { held = K.held kernel.old; faults = K.faults kernel.old; listed = K.listed kernel.old })
            (record { held = K.held kernel.new; faults = K.faults kernel.new; listed = K.listed kernel.new })) }
    {
        let lost = self.tables.unit(kernel)?;
        loss(self.alloc, lost)
    }
}

impl Parent {
    /// A core has taken up the configuration of a generation. An Ack of another generation than the last is passed over.
    fn ack(&mut self, generation: u32) -> Result<Done, NoMemory>
        ensures { IfOk result (λ done. Acks generation self.old self.new done) }
    {
        if generation != self.reloads.generation {
            return Ok(nothing(self.alloc));
        }
        self.advance()
    }

    /// A core has taken up the last configuration: the session core, or the decision core.
    fn advance(&mut self) -> Result<Done, NoMemory>
        ensures { IfOk result (λ done. Advances self.old.reloads.stage self.old self.new done) }
    {
        let next = self.reloads.stage.next();
        match mem::replace(&mut self.reloads.stage, next) {
            Stage::Idle => Ok(nothing(self.alloc)),
            Stage::AtSession(conf, items) => self.take_up(conf, items),
            Stage::AtDecision => only_line(self.alloc, Line::Reloaded(self.reloads.generation)),
        }
    }

    /// Takes up a configuration, and hands its stage to the decision core.
    fn take_up(&mut self, conf: Conf, items: StageList) -> Result<Done, NoMemory>
        ensures tables { OnOk result (Configures self.old.conf conf self.old.tables self.new.tables) }
        ensures arranged { OnOk result (self.new.tables.arranged ≡ self.old.tables.arranged) }
        ensures rest { OnOk result (self.new ≡ record {
          reloads = self.old.reloads;
          conf = conf;
          tables = self.new.tables;
          hops = record self.old.hops { qualify_default = conf.qualify_default };
          spent = self.old.spent;
        }) }
        ensures given { IfOk result (λ done. done ≡ only_frames
            (map answered (answers_changed self.old.hops self.new.hops) ++ staged Decision items)) }
    {
        configure(self.alloc, &mut self.tables, &self.conf, &conf)?;
        let changes = self.hops.qualify_default(self.alloc, conf.qualify_default)?;
        let mut frames = answers(self.alloc, &changes)?;
        push_stage(&mut frames, Core::Decision, items)?;
        self.conf = conf;
        Ok(only_frames(self.alloc, frames))
    }
}
