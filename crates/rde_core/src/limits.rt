use net_base::NoMemory;
use std::alloc::Global;
use std::collections::{BTreeMap, BTreeSet};

/// How many routes each session holds, and for which sessions Close was written.
#[derive(Drop)]
pub(crate) struct HeldCounts {
    counts: BTreeMap<u32, usize>,
    closed: BTreeSet<u32>,
}

impl HeldCounts {
    /// No session holds anything. It takes no memory.
    pub(crate) fn new(alloc: Global) -> Self {
        HeldCounts {
            counts: BTreeMap::new(alloc),
            closed: BTreeSet::new(alloc),
        }
    }

    /// How many routes a session holds.
    pub(crate) fn of(&self, session: u32) -> usize {
        match self.counts.get(&session) {
            Some(count) => *count,
            None => 0,
        }
    }

    /// A session holds so many routes more.
    pub(crate) fn count_more(&mut self, session: u32, more: usize) -> Result<(), NoMemory> {
        let count = self.of(session).saturating_add(more);
        self.counts.insert(session, count)?;
        Ok(())
    }

    /// A session holds one route less.
    pub(crate) fn count_less(&mut self, session: u32) {
        if let Some(count) = self.counts.get_mut(&session) {
            *count = count.saturating_sub(1);
        }
    }

    /// Notes that Close is written for a session. The answer is whether it wasn't before.
    pub(crate) fn close(&mut self, session: u32) -> Result<bool, NoMemory> {
        if self.closed.contains(&session) {
            return Ok(false);
        }
        self.closed.insert(session)?;
        Ok(true)
    }

    /// A session ended.
    pub(crate) fn end(&mut self, session: u32) {
        self.counts.remove(&session);
        self.closed.remove(&session);
    }
}
