ghost use Rattle.std.specs.Prelude.{◌≡◌, ◌≢◌, ℕ, ◌<◌, ◌≤◌, ◌&&◌, true, [], ◌++◌, length, drop, is_some, MatchOption, option_copied, option_map, OnOk, OnErr, IfOk, IsTrue};
ghost use Rattle.std.specs.List.{AllByRecursion, list_any};
ghost use Rattle.std.specs.Ordering.{is_lt};
ghost use Rattle.net_base.specs.Order.{prefix_cmp};
ghost use Rattle.net_base.specs.PrefixSet.{IsLeast};
ghost use Rattle.attr_intern.specs.Table.{CameFrom};
ghost use Rattle.adj_rib_out.specs.Out.{nothing, told_at, is_queued, is_again, out_at, kept};
ghost use Rattle.adj_rib_out.specs.Rows.{told_prefixes};
ghost use Rattle.adj_rib_out.specs.Message.{has_news, message_of, built_of, IsInOrder, FitsAlone};
ghost use Rattle.adj_rib_out.specs.Uses.{Trades};
ghost use Rattle.adj_rib_out.specs.Looks.{wanted_in, used_by};
ghost use Rattle.adj_rib_out.specs.Steps.{IsSame, Queues};
ghost use Rattle.adj_rib_out.specs.Tells.{Tells, FitsIn};
ghost use Rattle.adj_rib_out.specs.Queue.{IsNth, is_above};

use crate::building;
use crate::look::{Built, LookList};
use crate::session::SessionOut;
use attr_intern::AttrTable;
use attr_model::AttrRef;
use bgp_wire::Encoding;
use net_base::{Items, NoMemory, Prefix, PrefixList, PrefixSet};
use std::alloc::{AllocError, Global};
use std::collections::BTreeMap;
use std::marker::Model;

/// What each session was told, its queue, and its messages in flight, by the number of the session. One that never began, or has
/// ended, has nothing.
#[derive(Drop)]
pub struct AdjRibOut {
    alloc: Global,
    sessions: BTreeMap<u32, SessionOut>,
}

impl Model for AdjRibOut {
    ghost use Rattle.adj_rib_out.specs.Out.{Outs};

    ghost Value = { Outs };

    ghost view = { λ outs. outs.sessions.entries };
}

impl AdjRibOut {
    /// No session has anything.
    pub fn new(alloc: Global) -> Self
        ensures { result ≡ [] }
    {
        AdjRibOut {
            alloc,
            sessions: BTreeMap::new(alloc),
        }
    }

    /// Takes the memory that a session needs before it is told anything. What each session has stays.
    pub fn begin(&mut self, session: u32) -> Result<(), NoMemory>
        ensures same { (other : ℕ) → out_at self.new other ≡ out_at self.old other }
        ensures kept { kept self.new ≡ kept self.old }
    {
        if self.sessions.contains_key(&session) {
            return Ok(());
        }
        let out = SessionOut::new(self.alloc)?;
        self.sessions.insert(session, out)?;
        Ok(())
    }

    /// Drops all that a session has. The references of what it was told go back to the table.
    pub fn end(&mut self, table: &mut AttrTable, session: u32)
        requires { CameFrom table.old (kept self.old) }
        ensures ended { out_at self.new session ≡ nothing }
        ensures others { (other : ℕ) → other ≢ session → out_at self.new other ≡ out_at self.old other }
        ensures uses { Trades table.old table.new (kept self.old) (kept self.new) }
    {
        let Some(out) = self.sessions.remove(&session) else {
            return;
        };
        out.end(table);
    }

    /// What a session has, or None where it has nothing.
    fn of(&self, session: u32) -> Option<&SessionOut>
        ensures { MatchOption result (out_at self.now session ≡ nothing) (λ out. out_at self.now session ≡ out.now) }
    {
        match self.sessions.get(&session) {
            Some(out) => Some(out),
            None => None,
        }
    }

    /// What a session was told of a prefix.
    pub fn told(&self, session: u32, prefix: Prefix) -> Option<&AttrRef>
        ensures { option_copied result ≡ told_at (out_at self.now session) prefix }
    {
        match self.of(session) {
            Some(out) => out.told(prefix),
            None => None,
        }
    }

    /// The prefixes of which a session was told anything, in order.
    pub fn told_to(&self, session: u32) -> Result<PrefixList, NoMemory>
        ensures { IfOk result (λ prefixes. prefixes ≡ told_prefixes (out_at self.now session).rows) }
    {
        match self.of(session) {
            Some(out) => out.told_prefixes(self.alloc),
            None => Ok(Items::new(self.alloc)),
        }
    }

    /// The prefixes that are queued for a session, or None where it has nothing.
    pub fn waiting(&self, session: u32) -> Option<&PrefixSet>
        ensures { MatchOption result (out_at self.now session ≡ nothing) (λ queue. queue.now ≡ (out_at self.now session).queue) }
    {
        match self.of(session) {
            Some(out) => Some(out.waiting()),
            None => None,
        }
    }

    /// Whether a prefix is to be told to a session again, which then is queued.
    pub fn is_again(&self, session: u32, prefix: Prefix) -> bool
        ensures value { result ≡ is_again (out_at self.now session) prefix }
        ensures queued { IsTrue result → is_queued (out_at self.now session) prefix ≡ true }
    {
        match self.of(session) {
            Some(out) => out.is_again(prefix),
            None => false,
        }
    }

    /// Whether a prefix is queued for a session.
    pub fn is_queued(&self, session: u32, prefix: Prefix) -> bool
        ensures { result ≡ is_queued (out_at self.now session) prefix }
    {
        match self.of(session) {
            Some(out) => out.is_queued(prefix),
            None => false,
        }
    }

    /// The least prefix that is queued for a session.
    pub fn first_queued(&self, session: u32) -> Option<Prefix>
        ensures { IsLeast (is_queued (out_at self.now session)) result }
    {
        match self.of(session) {
            Some(out) => out.first_queued(),
            None => None,
        }
    }

    /// The next prefix above `after` that is queued for a session.
    pub fn queued_after(&self, session: u32, after: Prefix) -> Option<Prefix>
        ensures { IsLeast (λ p. is_queued (out_at self.now session) p && is_lt (prefix_cmp after p)) result }
    {
        match self.of(session) {
            Some(out) => out.queued_after(after),
            None => None,
        }
    }

    /// The prefix with `at` queued ones before it, in order. It walks these, so whoever walks the queue asks for `first_queued` and
    /// then for `queued_after`.
    #[tactic(auto, using(crate::proofs::Nth::nth_more, crate::proofs::Nth::none_until))]
    pub fn queued(&self, session: u32, at: usize) -> Option<Prefix>
        ensures { IsNth (is_queued (out_at self.now session)) at result }
    {
        let mut found = self.first_queued(session);
        for _before in 0..at {
            if found.is_none() {
                return None;
            }
            found = self.next_after(session, found);
        }
        found
    }

    /// The next prefix above the one before, where there is one.
    #[tactic(auto, using(crate::proofs::Nth::no_more))]
    fn next_after(&self, session: u32, before: Option<Prefix>) -> Option<Prefix>
        ensures { IsLeast (λ p. is_queued (out_at self.now session) p && is_above before p) result }
    {
        match before {
            Some(prefix) => self.queued_after(session, prefix),
            None => None,
        }
    }

    /// How many messages of a session are in flight.
    pub fn in_flight(&self, session: u32) -> usize
        ensures value { result ≡ length (out_at self.now session).flight }
        ensures window { result ≤ 16 }
    {
        match self.of(session) {
            Some(out) => out.in_flight(),
            None => 0,
        }
    }

    /// Queues a prefix for a session, once. It is to be told again where `again` says so or it already was. Where memory is
    /// refused, all is as it was.
    pub fn queue(&mut self, session: u32, prefix: Prefix, again: bool) -> Result<(), NoMemory>
        ensures ok { OnOk result (Queues prefix again (out_at self.old session) (out_at self.new session)) }
        ensures others { (other : ℕ) → other ≢ session → out_at self.new other ≡ out_at self.old other }
        ensures kept { kept self.new ≡ kept self.old }
        ensures err { OnErr result (IsSame (out_at self.old session) (out_at self.new session)) }
    {
        self.begin(session)?;
        self.queue_in(session, prefix, again)
    }

    /// The same, where the session began.
    fn queue_in(&mut self, session: u32, prefix: Prefix, again: bool) -> Result<(), NoMemory>
        ensures ok { OnOk result (Queues prefix again (out_at self.old session) (out_at self.new session)) }
        ensures others { (other : ℕ) → other ≢ session → out_at self.new other ≡ out_at self.old other }
        ensures kept { kept self.new ≡ kept self.old }
        ensures err { OnErr result (IsSame (out_at self.old session) (out_at self.new session)) }
    {
        let Some(out) = self.sessions.get_mut(&session) else {
            return Err(AllocError);
        };
        out.queue(prefix, again)
    }

    /// Drops the `n` oldest of the lengths in flight of a session, of which at least `n` are there.
    pub fn credit(&mut self, session: u32, n: u32)
        requires { n ≤ length (out_at self.old session).flight }
        ensures credited { out_at self.new session ≡ record (out_at self.old session) { flight = drop n (out_at self.old session).flight } }
        ensures others { (other : ℕ) → other ≢ session → out_at self.new other ≡ out_at self.old other }
        ensures kept { kept self.new ≡ kept self.old }
    {
        let Some(out) = self.sessions.get_mut(&session) else {
            return;
        };
        out.credit(n as usize);
    }

    /// Makes a session's next message from looks at queued prefixes (RFC 4271 section 9.2). The first look whose value differs from
    /// what was told, or that is to be told again, fixes kind, family and attributes; later such looks join where these are the same
    /// and the message still fits. What the session was told changes by the message, whose length is then in flight. The prefixes of
    /// the message and the looks that are as told leave the queue. A reference that is replaced, or whose look doesn't join, goes
    /// back to `table`; the one in the answer is the caller's. None where no look has news. Where memory is refused, what the
    /// session has stays, and the references of the looks go back.
    ///
    /// Fewer than 16 messages are in flight; the looks are in order of prefix without repeats, and each wanted value fits with its
    /// prefix alone. All references came from `table`.
    pub fn build(
        &mut self,
        table: &mut AttrTable,
        session: u32,
        enc: Encoding,
        looks: LookList,
    ) -> Result<Option<Built>, NoMemory>
        requires window { length (out_at self.old session).flight < 16 }
        requires queued { AllByRecursion (λ look. is_queued (out_at self.old session) look.prefix ≡ true) looks }
        requires order { IsInOrder looks }
        requires alone { AllByRecursion (FitsAlone enc) looks }
        requires came { CameFrom table.old (kept self.old ++ wanted_in looks) }
        ensures tells { OnOk result (Tells (message_of enc (out_at self.old session) looks) looks (out_at self.old session) (out_at self.new session)) }
        ensures built { IfOk result (λ built. built ≡ option_map built_of (message_of enc (out_at self.old session) looks)) }
        ensures none { IfOk result (λ built. is_some built ≡ list_any (has_news (out_at self.old session)) looks) }
        ensures fits { IfOk result (λ _. FitsIn (message_of enc (out_at self.old session) looks)) }
        ensures uses { IfOk result (λ built. Trades table.old table.new (kept self.old ++ wanted_in looks) (kept self.new ++ used_by built)) }
        ensures others { (other : ℕ) → other ≢ session → out_at self.new other ≡ out_at self.old other }
        ensures err { OnErr result (IsSame (out_at self.old session) (out_at self.new session)) }
        ensures back { OnErr result (Trades table.old table.new (kept self.old ++ wanted_in looks) (kept self.new)) }
    {
        let Some(out) = self.sessions.get_mut(&session) else {
            return Ok(None);
        };
        building::build(out, self.alloc, table, enc, looks)
    }
}
