ghost use Rattle.std.specs.Prelude.{◌≡◌, ℕ, ◌+◌, ◌<◌, ◌≤◌, ◌&&◌, ◌||◌, not, true, false, [], ◌∷◌, ◌++◌, length, drop, option_copied, OnOk, OnErr, IfOk, IsTrue, if◌then◌else◌};
ghost use Rattle.std.specs.List.{AllByRecursion};
ghost use Rattle.std.specs.Ordering.{is_lt};
ghost use Rattle.net_base.specs.declared.prefix.Prefix.{Prefix};
ghost use Rattle.net_base.specs.Order.{prefix_cmp};
ghost use Rattle.net_base.specs.PrefixSet.{IsLeast};
ghost use Rattle.attr_intern.specs.Table.{Table, times, IsOf, CameFrom};
ghost use Rattle.adj_rib_out.specs.Same.{same_number};
ghost use Rattle.adj_rib_out.specs.Rows.{is_same, one_or_none, told_prefixes};
ghost use Rattle.adj_rib_out.specs.Out.{nothing, told_at, is_queued, is_again, kept_of};
ghost use Rattle.adj_rib_out.specs.Uses.{Moves};
ghost use Rattle.adj_rib_out.specs.Steps.{IsSame, Queues};

use crate::rows::Rows;
use attr_intern::AttrTable;
use attr_model::AttrRef;
use circular_buffer::HeapCircularBuffer;
use net_base::{NoMemory, Prefix, PrefixList, PrefixSet};
use std::alloc::Global;
use std::marker::Model;

/// How many messages of a session may be in flight.
pub(crate) const WINDOW: usize = 16;

/// What one session was told, its queue, and the lengths of its messages in flight.
#[derive(Drop)]
pub struct SessionOut {
    rows: Rows,
    queue: PrefixSet,
    flight: HeapCircularBuffer<usize>,
}

impl Model for SessionOut {
    ghost use Rattle.std.specs.Prelude.{◌≡◌};
    ghost use Rattle.adj_rib_out.specs.Out.{Out};
    ghost use Rattle.adj_rib_out.specs.Keeps.{IsKept};

    ghost Value = { Out };

    ghost view = { λ s. record { rows = s.rows; queue = s.queue; flight = s.flight.items } };

    ghost invariant = { λ s. IsKept s.rows s.queue × (s.flight.capacity ≡ 16) };
}

impl SessionOut {
    /// A session that was told nothing.
    pub(crate) fn new(alloc: Global) -> Result<Self, NoMemory>
        ensures { IfOk result (λ out. out ≡ nothing) }
    {
        Ok(SessionOut {
            rows: Rows::new(alloc),
            queue: PrefixSet::new(alloc),
            flight: HeapCircularBuffer::with_capacity(alloc, WINDOW)?,
        })
    }

    /// What the session was told of the prefix.
    pub(crate) fn told(&self, prefix: Prefix) -> Option<&AttrRef>
        ensures { option_copied result ≡ told_at self.now prefix }
    {
        self.rows.told(prefix)
    }

    /// The prefixes of which the session was told anything, in order.
    pub(crate) fn told_prefixes(&self, alloc: Global) -> Result<PrefixList, NoMemory>
        ensures { IfOk result (λ prefixes. prefixes ≡ told_prefixes self.now.rows) }
    {
        self.rows.told_prefixes(alloc)
    }

    /// The queued prefixes.
    pub(crate) fn waiting(&self) -> &PrefixSet
        ensures { result.now ≡ self.now.queue }
    {
        &self.queue
    }

    /// Whether the prefix is to be told again.
    pub(crate) fn is_again(&self, prefix: Prefix) -> bool
        ensures value { result ≡ is_again self.now prefix }
        ensures queued { IsTrue result → is_queued self.now prefix ≡ true }
    {
        self.rows.is_again(prefix)
    }

    /// The least queued prefix.
    pub(crate) fn first_queued(&self) -> Option<Prefix>
        ensures { IsLeast (is_queued self.now) result }
    {
        self.queue.first()
    }

    /// The next queued prefix above `after`.
    pub(crate) fn queued_after(&self, after: Prefix) -> Option<Prefix>
        ensures { IsLeast (λ p. is_queued self.now p && is_lt (prefix_cmp after p)) result }
    {
        self.queue.first_after(after)
    }

    /// Whether the prefix is queued.
    pub(crate) fn is_queued(&self, prefix: Prefix) -> bool
        ensures { result ≡ is_queued self.now prefix }
    {
        self.queue.has(prefix)
    }

    /// How many messages are in flight.
    pub(crate) fn in_flight(&self) -> usize
        ensures value { result ≡ length self.now.flight }
        ensures window { result ≤ 16 }
    {
        self.flight.len()
    }

    /// Queues a prefix. Where memory is refused, nothing changes.
    pub(crate) fn queue(&mut self, prefix: Prefix, again: bool) -> Result<(), NoMemory>
        ensures ok { OnOk result (Queues prefix again self.old self.new) }
        ensures err { OnErr result (IsSame self.old self.new) }
        ensures kept { kept_of self.new ≡ kept_of self.old }
    {
        self.rows.keep(prefix)?;
        self.queue.add(prefix)?;
        if again {
            self.rows.mark(prefix);
        }
        Ok(())
    }

    /// Drops the oldest of the lengths in flight, `n` of them.
    pub(crate) fn credit(&mut self, n: usize)
        requires { n ≤ length self.old.flight }
        ensures { self.new ≡ record self.old { flight = drop n self.old.flight } }
    {
        let left = self.flight.len() - n;
        self.flight.truncate_front(left);
    }

    /// Whether what is wanted of a prefix differs from what was told, or is to be told again.
    pub(crate) fn has_news(&self, prefix: Prefix, wanted: &Option<AttrRef>) -> bool
        ensures { result ≡ (is_again self.now prefix || not (same_number wanted.now (told_at self.now prefix))) }
    {
        self.rows.has_news(prefix, wanted)
    }

    /// Takes a prefix that isn't to be told again out of the queue.
    pub(crate) fn pass(&mut self, prefix: Prefix)
        requires { is_again self.old prefix ≡ false }
        ensures told { (p : Prefix) → told_at self.new p ≡ told_at self.old p }
        ensures queued { (p : Prefix) → is_queued self.new p ≡ (not (is_same p prefix) && is_queued self.old p) }
        ensures again { (p : Prefix) → is_again self.new p ≡ is_again self.old p }
        ensures flight { self.new.flight ≡ self.old.flight }
        ensures kept { kept_of self.new ≡ kept_of self.old }
    {
        self.queue.remove(prefix);
        self.rows.tidy(prefix);
    }

    /// Notes what is told of a queued prefix, which leaves the queue, and hands out what was told before.
    pub(crate) fn tell(&mut self, prefix: Prefix, wanted: Option<AttrRef>) -> Option<AttrRef>
        requires { is_queued self.old prefix ≡ true }
        ensures value { result ≡ told_at self.old prefix }
        ensures told { (p : Prefix) → told_at self.new p ≡ (if is_same p prefix then wanted else told_at self.old p) }
        ensures queued { (p : Prefix) → is_queued self.new p ≡ (not (is_same p prefix) && is_queued self.old p) }
        ensures again { (p : Prefix) → is_again self.new p ≡ (not (is_same p prefix) && is_again self.old p) }
        ensures flight { self.new.flight ≡ self.old.flight }
        ensures uses { (number : ℕ) → times number (kept_of self.new) + times number (one_or_none result)
            ≡ times number (kept_of self.old) + times number (one_or_none wanted) }
        ensures each { (table : Table) → AllByRecursion (IsOf table) (kept_of self.old) → AllByRecursion (IsOf table) (one_or_none wanted)
            → AllByRecursion (IsOf table) (kept_of self.new) }
        ensures gone { (table : Table) → AllByRecursion (IsOf table) (kept_of self.old) → AllByRecursion (IsOf table) (one_or_none result) }
    {
        let old = self.rows.replace(prefix, wanted);
        self.queue.remove(prefix);
        self.rows.tidy(prefix);
        old
    }

    /// Puts a message of so many bytes in flight, behind the others.
    pub(crate) fn send(&mut self, size: usize)
        requires { length self.old.flight < 16 }
        ensures { self.new ≡ record self.old { flight = self.old.flight ++ size ∷ [] } }
    {
        let _ = self.flight.try_push_back(size);
    }

    /// Ends the session: what it was told goes back to the table.
    pub(crate) fn end(self, table: &mut AttrTable)
        requires { CameFrom table.old (kept_of self) }
        ensures { Moves table.old table.new (kept_of self) [] }
    {
        let SessionOut { rows, .. } = self;
        rows.end(table);
    }
}
