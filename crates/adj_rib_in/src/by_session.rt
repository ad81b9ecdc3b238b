ghost use Rattle.std.specs.Prelude.{◌≡◌, ◌≢◌, ℕ, true, not, ◌&&◌, ◌==◌, [], length, IfOk, OnOk};
ghost use Rattle.std.specs.List.Sorted.{IsStrictlySortedBy};
ghost use Rattle.net_base.specs.declared.prefix.Prefix.{Prefix};
ghost use Rattle.net_base.specs.Order.{prefix_cmp};
ghost use Rattle.adj_rib_in.specs.Held.{is_same};
ghost use Rattle.adj_rib_in.specs.Listed.{listed_of, is_listed};

use net_base::{NoMemory, Prefix};
use std::alloc::{AllocError, Global};
use std::collections::{BTreeMap, BTreeSet};
use std::marker::Model;

/// The prefixes to which each session has a route, by which the routes of one are found without a walk over those of all.
/// A prefix may stand here that has no route any more.
#[derive(Drop)]
pub(crate) struct PrefixesBySession {
    alloc: Global,
    sessions: BTreeMap<u32, BTreeSet<Prefix>>,
}

impl Model for PrefixesBySession {
    ghost use Rattle.adj_rib_in.specs.Listed.{Listed};

    ghost Value = { Listed };

    ghost view = { λ s. s.sessions.entries };
}

impl PrefixesBySession {
    /// No session has a prefix. It takes no memory.
    pub(crate) fn new(alloc: Global) -> Self
        ensures { result ≡ [] }
    {
        PrefixesBySession {
            alloc,
            sessions: BTreeMap::new(alloc),
        }
    }

    /// Lists a prefix for a session. Where memory is refused, all that was listed still is.
    pub(crate) fn add(&mut self, session: u32, prefix: Prefix) -> Result<(), NoMemory>
        ensures added { OnOk result (is_listed self.new session prefix ≡ true) }
        ensures stays { (s : ℕ) (p : Prefix) → is_listed self.old s p ≡ true → is_listed self.new s p ≡ true }
    {
        self.begin(session)?;
        self.add_to(session, prefix)
    }

    /// Lists a prefix no longer.
    pub(crate) fn remove(&mut self, session: u32, prefix: Prefix)
        ensures { (s : ℕ) (p : Prefix) → is_listed self.new s p
            ≡ (not (session == s && is_same prefix p) && is_listed self.old s p) }
    {
        let Some(prefixes) = self.sessions.get_mut(&session) else {
            return;
        };
        prefixes.remove(&prefix);
    }

    /// How many prefixes are listed for a session.
    pub(crate) fn count(&self, session: u32) -> usize
        ensures count { result ≡ length (listed_of self.now session) }
        ensures order { IsStrictlySortedBy prefix_cmp (listed_of self.now session) }
    {
        match self.sessions.get(&session) {
            Some(prefixes) => prefixes.len(),
            None => 0,
        }
    }

    /// Takes the prefixes of a session out.
    pub(crate) fn take(&mut self, session: u32) -> BTreeSet<Prefix>
        ensures prefixes { result.keys ≡ listed_of self.old session }
        ensures others { (s : ℕ) → s ≢ session → listed_of self.new s ≡ listed_of self.old s }
    {
        match self.sessions.remove(&session) {
            Some(prefixes) => prefixes,
            None => BTreeSet::new(self.alloc),
        }
    }

    /// Sees to it that a session has a list.
    fn begin(&mut self, session: u32) -> Result<(), NoMemory>
        ensures { (s : ℕ) → listed_of self.new s ≡ listed_of self.old s }
    {
        if self.sessions.contains_key(&session) {
            return Ok(());
        }
        self.sessions.insert(session, BTreeSet::new(self.alloc))?;
        Ok(())
    }

    /// Lists a prefix for a session that has a list.
    fn add_to(&mut self, session: u32, prefix: Prefix) -> Result<(), NoMemory>
        ensures added { OnOk result (is_listed self.new session prefix ≡ true) }
        ensures stays { (s : ℕ) (p : Prefix) → is_listed self.old s p ≡ true → is_listed self.new s p ≡ true }
    {
        let Some(prefixes) = self.sessions.get_mut(&session) else {
            return Err(AllocError);
        };
        prefixes.insert(prefix)?;
        Ok(())
    }
}
