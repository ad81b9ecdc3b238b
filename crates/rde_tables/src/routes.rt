ghost use Rattle.std.specs.Prelude.{◌≡◌, ◌≢◌, ◌≤◌, ◌<◌, ℕ, [], ◌++◌, length, map, true, IfOk, OnOk, OnErr};
ghost use Rattle.net_base.specs.PrefixSet.{IsLeastOf};
ghost use Rattle.std.specs.List.{AllByRecursion};
ghost use Rattle.adj_rib_out.specs.Out.{out_at, is_queued};
ghost use Rattle.adj_rib_out.specs.Message.{IsInOrder, FitsAlone};
ghost use Rattle.rde_tables.specs.Wants.{look_of};
ghost use Rattle.rib_multi.specs.Rows.{is_marked_at};
ghost use Rattle.rde_tables.specs.Routes.{refs, IsExact};

use crate::giving::{give, give_change, give_routes};
use crate::holding::hold_all;
use crate::keeping::{numbered, outcome_of};
use crate::telling::{looks_of, told_of};
use crate::{Outcome, Told, WantList};
use adj_rib_in::{AdjRibIn, DroppedList};
use adj_rib_out::AdjRibOut;
use attr_intern::AttrTable;
use attr_model::Attrs;
use bgp_wire::Encoding;
use decision::{FoundList, MOST_CANDIDATES};
use net_base::{Items, NoMemory, Prefix, PrefixList, PrefixSet};
use rib_multi::{MOST_RIBS, RibMulti};
use std::alloc::Global;
use std::marker::Model;

/// What sessions hold, what the RIBs keep, and what sessions were told, with the table of their attributes. Each route is one use
/// of its attributes in that table. Where a step is refused memory, uses may be lost, and nothing else.
///
/// Contracts see the four tables.
#[derive(Drop)]
pub struct Routes {
    alloc: Global,
    table: AttrTable,
    held: AdjRibIn,
    ribs: RibMulti,
    outs: AdjRibOut,
}

impl Model for Routes {
    ghost use Rattle.attr_intern.specs.Table.{CameFrom};
    ghost use Rattle.rde_tables.specs.Routes.{AllRoutes, refs};

    ghost Value = { AllRoutes };

    ghost view = { λ routes. record { table = routes.table; held = routes.held; ribs = routes.ribs; outs = routes.outs } };

    ghost invariant = { λ routes. CameFrom routes.table (refs (record { table = routes.table; held = routes.held; ribs = routes.ribs; outs = routes.outs })) };
}

impl Routes {
    /// No routes.
    pub fn new(alloc: Global) -> Result<Routes, NoMemory>
        ensures exact { IfOk result IsExact }
    {
        Ok(Routes {
            alloc,
            table: AttrTable::new(alloc)?,
            held: AdjRibIn::new(alloc)?,
            ribs: RibMulti::new(alloc)?,
            outs: AdjRibOut::new(alloc),
        })
    }

    /// The table of the attributes.
    pub fn table(&self) -> &AttrTable
        ensures { result.now ≡ self.now.table }
    {
        &self.table
    }

    /// What sessions hold.
    pub fn held(&self) -> &AdjRibIn
        ensures { result.now ≡ self.now.held }
    {
        &self.held
    }

    /// What the RIBs keep, with their marks.
    pub fn ribs(&self) -> &RibMulti
        ensures { result.now ≡ self.now.ribs }
    {
        &self.ribs
    }

    /// What sessions were told, their queues, and their messages in flight.
    pub fn outs(&self) -> &AdjRibOut
        ensures { result.now ≡ self.now.outs }
    {
        &self.outs
    }

    /// A session holds routes to these prefixes with these attributes from now on. The answer is to how many of them it held none.
    pub fn announce(
        &mut self,
        session: u32,
        attrs: Attrs,
        prefixes: &[Prefix],
    ) -> Result<usize, NoMemory>
        ensures exact { IsExact self.old → OnOk result (IsExact self.new) }
        ensures ribs { self.new.ribs ≡ self.old.ribs }
        ensures outs { self.new.outs ≡ self.old.outs }
    {
        let one = self.table.intern(attrs)?;
        let more = hold_all(&mut self.table, &mut self.held, session, &one, prefixes)?;
        self.table.give_back(one);
        Ok(more)
    }

    /// A session holds no route to a prefix from now on. The answer is whether it held one.
    pub fn withdraw(&mut self, session: u32, prefix: Prefix) -> bool
        ensures exact { IsExact self.old → IsExact self.new }
        ensures ribs { self.new.ribs ≡ self.old.ribs }
        ensures outs { self.new.outs ≡ self.old.outs }
    {
        let old = self.held.unset(prefix, session);
        let was_held = old.is_some();
        give(&mut self.table, old);
        was_held
    }

    /// A session holds nothing from now on, and was told nothing. The answer is what it held.
    pub fn end(&mut self, session: u32) -> Result<PrefixList, NoMemory>
        ensures exact { IsExact self.old → OnOk result (IsExact self.new) }
        ensures ribs { self.new.ribs ≡ self.old.ribs }
    {
        let dropped = self.held.drop_session(session)?;
        let prefixes = prefixes_in(self.alloc, &dropped);
        give_routes(&mut self.table, dropped);
        self.outs.end(&mut self.table, session);
        prefixes
    }

    /// Keeps these candidates of the least marked prefix of a RIB in the place of those before, and takes its mark away.
    pub fn refresh(
        &mut self,
        known: &PrefixSet,
        rib: u8,
        prefix: Prefix,
        found: FoundList,
        med_always: bool,
    ) -> Result<Outcome, NoMemory>
        requires least { IsLeastOf (is_marked_at known.now self.old.ribs rib) prefix }
        requires few { length found ≤ MOST_CANDIDATES }
        ensures exact { IsExact self.old → OnOk result (IsExact self.new) }
        ensures held { self.new.held ≡ self.old.held }
        ensures outs { self.new.outs ≡ self.old.outs }
    {
        let candidates = numbered(self.alloc, &mut self.table, found)?;
        let change = self.ribs.refresh(
            known,
            &mut self.table,
            rib,
            prefix,
            candidates,
            med_always,
        )?;
        let outcome = outcome_of(&change);
        give_change(&mut self.table, change);
        Ok(outcome)
    }

    /// Builds the next message of a session from what it is to be told of queued prefixes (RFC 4271 section 9.2). None where it was told
    /// all of it already.
    pub fn build(
        &mut self,
        session: u32,
        enc: Encoding,
        wants: WantList,
    ) -> Result<Option<Told>, NoMemory>
        requires window { length (out_at self.old.outs session).flight < 16 }
        requires queued { AllByRecursion (λ look. is_queued (out_at self.old.outs session) look.prefix ≡ true) (map look_of wants) }
        requires order { IsInOrder (map look_of wants) }
        requires alone { AllByRecursion (FitsAlone enc) (map look_of wants) }
        ensures exact { IsExact self.old → OnOk result (IsExact self.new) }
        ensures held { self.new.held ≡ self.old.held }
        ensures ribs { self.new.ribs ≡ self.old.ribs }
    {
        let looks = looks_of(self.alloc, &mut self.table, wants)?;
        let built = self.outs.build(&mut self.table, session, enc, looks)?;
        told_of(&mut self.table, built)
    }

    /// Drops all that the RIBs from a number on keep, and their marks.
    pub fn shrink(&mut self, ribs: u8)
        ensures exact { IsExact self.old → IsExact self.new }
        ensures held { self.new.held ≡ self.old.held }
        ensures outs { self.new.outs ≡ self.old.outs }
    {
        self.ribs.shrink(&mut self.table, ribs);
    }

    /// Marks a prefix in a RIB.
    pub fn mark(&mut self, rib: u8, prefix: Prefix) -> Result<(), NoMemory>
        requires { rib < MOST_RIBS }
        ensures exact { IsExact self.old → IsExact self.new }
        ensures held { self.new.held ≡ self.old.held }
        ensures outs { self.new.outs ≡ self.old.outs }
    {
        self.ribs.mark(rib, prefix)
    }

    /// Marks every known prefix in a RIB, and takes every other mark in it away.
    pub fn start(&mut self, rib: u8)
        requires { rib < MOST_RIBS }
        ensures exact { IsExact self.old → IsExact self.new }
        ensures held { self.new.held ≡ self.old.held }
        ensures outs { self.new.outs ≡ self.old.outs }
    {
        self.ribs.start(rib);
    }

    /// Takes the memory that a session needs before it is told anything.
    pub fn begin(&mut self, session: u32) -> Result<(), NoMemory>
        ensures exact { IsExact self.old → IsExact self.new }
        ensures held { self.new.held ≡ self.old.held }
        ensures ribs { self.new.ribs ≡ self.old.ribs }
    {
        self.outs.begin(session)
    }

    /// Queues a prefix for a session, to be told again where `again` says so.
    pub fn queue(&mut self, session: u32, prefix: Prefix, again: bool) -> Result<(), NoMemory>
        ensures exact { IsExact self.old → IsExact self.new }
        ensures held { self.new.held ≡ self.old.held }
        ensures ribs { self.new.ribs ≡ self.old.ribs }
    {
        self.outs.queue(session, prefix, again)
    }

    /// That many messages of a session are in flight no longer, the oldest first.
    pub fn credit(&mut self, session: u32, messages: u32)
        requires { messages ≤ length (out_at self.old.outs session).flight }
        ensures exact { IsExact self.old → IsExact self.new }
        ensures held { self.new.held ≡ self.old.held }
        ensures ribs { self.new.ribs ≡ self.old.ribs }
    {
        self.outs.credit(session, messages);
    }
}

/// The prefixes of routes.
fn prefixes_in(alloc: Global, routes: &DroppedList) -> Result<PrefixList, NoMemory> {
    let mut prefixes = Items::new(alloc);
    for (prefix, _) in routes.iter() {
        prefixes.push(*prefix)?;
    }
    Ok(prefixes)
}
