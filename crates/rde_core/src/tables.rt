//! What the decision core has beside its view.

ghost use Rattle.std.specs.Prelude.{◌≡◌, ◌<◌, [], IfOk, IfSome};
ghost use Rattle.rde_tables.specs.Routes.{IsExact};
ghost use Rattle.rde_core.specs.Ready.{IsReady, first_unmarked};

use crate::fib::FibTold;
use crate::hops::HopUses;
use crate::limits::HeldCounts;
use net_base::{Items, NoMemory, Prefix, PrefixList, PrefixSet};
use rde_tables::Routes;
use rde_view::View;
use rib_multi::MOST_RIBS;
use std::alloc::Global;
use std::collections::BTreeSet;

/// The routes that are held, kept and told, what kernel tables were told, where next hops are used, how many routes sessions hold,
/// and which prefixes are known.
#[derive(Drop)]
pub(crate) struct Tables {
    pub(crate) routes: Routes,
    pub(crate) fib: FibTold,
    pub(crate) hops: HopUses,
    pub(crate) counts: HeldCounts,
    pub(crate) known: PrefixSet,
}

impl Tables {
    /// Tables that keep nothing, of which kernel table 0 is configured.
    pub(crate) fn new(alloc: Global) -> Result<Tables, NoMemory>
        ensures known { IfOk result (λ tables. tables.known ≡ []) }
        ensures exact { IfOk result (λ tables. IsExact tables.routes) }
    {
        let mut fib = FibTold::new(alloc);
        fib.configure(&[0])?;
        Ok(Tables {
            routes: Routes::new(alloc)?,
            fib,
            hops: HopUses::new(alloc),
            counts: HeldCounts::new(alloc),
            known: PrefixSet::new(alloc),
        })
    }

    /// Whether some RIB keeps anything of the prefix.
    fn has_row(&self, prefix: Prefix) -> bool {
        for rib in 0..MOST_RIBS {
            if self.routes.ribs().has_row(rib, prefix) {
                return true;
            }
        }
        false
    }

    /// Whether some session was told the prefix.
    fn is_told(&self, view: &View, prefix: Prefix) -> bool {
        for (_, live) in view.sessions().iter() {
            if self.routes.outs().told(live.number, prefix).is_some() {
                return true;
            }
        }
        false
    }

    /// Whether a prefix is known: a session holds a route to it, it is a network, or some table says something of it.
    fn is_known(&self, view: &View, prefix: Prefix) -> bool {
        !self.routes.held().of(prefix).is_empty()
            || view.network(prefix).is_some()
            || self.has_row(prefix)
            || self.fib.has(prefix)
            || self.is_told(view, prefix)
    }

    /// Sees to it that a prefix is in the set of those that are known, or isn't.
    pub(crate) fn note(&mut self, view: &View, prefix: Prefix) -> Result<(), NoMemory> {
        if self.is_known(view, prefix) {
            self.known.add(prefix)
        } else {
            self.known.remove(prefix);
            Ok(())
        }
    }

    /// The same for each of these prefixes.
    pub(crate) fn note_all(&mut self, view: &View, prefixes: &[Prefix]) -> Result<(), NoMemory> {
        for prefix in prefixes {
            self.note(view, *prefix)?;
        }
        Ok(())
    }

    /// Marks a prefix in every RIB.
    pub(crate) fn mark(&mut self, view: &View, prefix: Prefix) -> Result<(), NoMemory> {
        for rib in 0..view.ribs() {
            self.routes.mark(rib, prefix)?;
        }
        Ok(())
    }

    /// Marks prefixes that were touched, and sees to it that they are known or not.
    pub(crate) fn touch_all(&mut self, view: &View, prefixes: &[Prefix]) -> Result<(), NoMemory> {
        for prefix in prefixes {
            self.mark(view, *prefix)?;
            self.note(view, *prefix)?;
        }
        Ok(())
    }

    /// Queues every known prefix for a session.
    pub(crate) fn queue_known(&mut self, session: u32) -> Result<(), NoMemory> {
        for prefix in self.known.in_order().iter() {
            self.routes.queue(session, *prefix, false)?;
        }
        Ok(())
    }

    /// The lowest RIB with a mark.
    pub(crate) fn marked(&self) -> Option<u8>
        ensures { IfSome result (λ rib. rib < 16) }
    {
        for rib in 0..MOST_RIBS {
            if self.routes.ribs().least(rib, &self.known).is_some() {
                return Some(rib);
            }
        }
        None
    }

    /// Whether a prefix is queued for a session that isn't marked in a RIB.
    pub(crate) fn has_ready(&self, session: u32, rib: u8) -> bool {
        match self.routes.outs().waiting(session) {
            Some(queue) => queue.in_order().iter().any(|prefix| !self
                .routes
                .ribs()
                .is_marked(rib, &self.known, *prefix)),
            None => false,
        }
    }

    /// The first prefixes, so many at most, that are queued for a session and aren't marked in a RIB, in order.
    pub(crate) fn ready(
        &self,
        alloc: Global,
        session: u32,
        rib: u8,
        most: usize,
    ) -> Result<PrefixList, NoMemory>
        ensures { IfOk result (IsReady self.now.routes.outs session) }
    {
        match self.routes.outs().waiting(session) {
            Some(queue) => {
                let _ascending = queue.in_order().len();
                self.unmarked(alloc, queue, rib, most)
            }
            None => Ok(Items::new(alloc)),
        }
    }

    /// The first of these prefixes, so many at most, that aren't marked in a RIB.
    fn unmarked(
        &self,
        alloc: Global,
        prefixes: &PrefixSet,
        rib: u8,
        most: usize,
    ) -> Result<PrefixList, NoMemory>
        ensures ready { IfOk result (λ ready. ready ≡ first_unmarked self.now.known self.now.routes.ribs rib most prefixes.now) }
    {
        let ready = self.first_unmarked(alloc, prefixes.in_order(), rib, most)?;
        Ok(Items::from_vec(ready))
    }

    /// The same of a set in order.
    fn first_unmarked(
        &self,
        alloc: Global,
        prefixes: &BTreeSet<Prefix>,
        rib: u8,
        most: usize,
    ) -> Result<Vec<Prefix>, NoMemory>
        ensures { IfOk result (λ ready. ready.items ≡ first_unmarked self.now.known self.now.routes.ribs rib most prefixes.now.keys) }
    {
        let ready = prefixes
            .iter()
            .filter(|prefix| !self.routes.ribs().is_marked(rib, &self.known, **prefix))
            .take(most)
            .copied()
            .collect(alloc)?;
        Ok(ready)
    }
}
