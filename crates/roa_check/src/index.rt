ghost use Rattle.std.specs.Prelude.{◌≡◌, ◌≤◌, ◌<◌, ℕ, length};
ghost use Rattle.lane_scan.specs.Covering.{covers_at};
ghost use Rattle.roa_check.specs.Index.{comes_before, IsIndex, IsWhole, IsParent, IsRepeat, AllBefore, AreBefore, NoneCover, IsLastCovering};

use lane_scan::{Columns, Slot, next_covering};
use net_base::NoMemory;
use std::alloc::Global;
use std::marker::Model;

/// Up to so many prefixes are walked by lanes.
const SHORT: usize = 16;

/// Prefixes of one family in order, of which each names the nearest one that covers it. Contracts see the list of the
/// prefixes.
#[derive(Debug, Drop)]
pub struct CoverIndex {
    columns: Columns,
    /// For each prefix the place behind the nearest other one that covers it, or 0.
    parents: Vec<usize>,
    ghost built: { IsIndex columns parents.items },
}

impl Model for CoverIndex {
    ghost use Rattle.std.specs.Prelude.{List};
    ghost use Rattle.lane_scan.specs.declared.columns.Slot.{Slot};

    ghost Value = { List Slot };

    ghost view = { λ index. index.columns };
}

impl CoverIndex {
    ghost use Rattle.std.specs.Prelude.{[], ◌∷◌, ◌++◌, OnOk, OnErr, IsTrue, ◌↔◌, true};

    /// No prefixes, which takes no memory.
    pub fn new(alloc: Global) -> Self
        ensures { result ≡ [] }
    {
        CoverIndex {
            columns: Columns::new(alloc),
            parents: Vec::new(alloc),
        }
    }

    /// Puts a prefix behind the others, none of which comes behind it. Where memory is refused, nothing changes.
    pub fn push(&mut self, slot: Slot) -> Result<(), NoMemory>
        requires whole { IsWhole slot }
        requires last { AllBefore self.old slot }
        ensures ok { OnOk result (self.new ≡ self.old ++ slot ∷ []) }
        ensures err { OnErr result (self.new ≡ self.old) }
    {
        let parent = self.parent_of(slot);
        self.parents.reserve(1)?;
        self.columns.push(slot)?;
        self.parents.push(parent)?;
        Ok(())
    }

    /// The last prefix that covers, or None where none does.
    pub fn nearest(&self, slot: Slot) -> Option<usize>
        requires { slot.len ≤ 128 }
        ensures { IsLastCovering self.now slot (length self.now) result }
    {
        if self.columns.len() <= SHORT {
            self.last_of_all(slot)
        } else {
            self.climb(slot, self.count_before(slot))
        }
    }

    /// The last prefix that covers, found by lanes over all of them.
    fn last_of_all(&self, slot: Slot) -> Option<usize>
        requires { slot.len ≤ 128 }
        ensures { IsLastCovering self.now slot (length self.now) result }
    {
        let mut last = None;
        let mut from = 0;
        while let Some(at) = next_covering(&self.columns, slot.bits, slot.len, from) {
            last = Some(at);
            from = at + 1;
        }
        last
    }

    /// The last prefix in front of one that covers which covers too.
    pub fn above(&self, slot: Slot, at: usize) -> Option<usize>
        requires within { at < length self.now }
        requires covering { covers_at self.now slot at ≡ true }
        ensures { IsLastCovering self.now slot at result }
    {
        if self.is_repeat(at) {
            Some(at - 1)
        } else {
            self.climb(slot, self.parents[at])
        }
    }

    /// Whether the prefix in front of this one is the same.
    fn is_repeat(&self, at: usize) -> bool
        requires { at < length self.now }
        ensures { IsTrue result ↔ IsRepeat self.now at }
    {
        at > 0 && self.columns.at(at - 1) == self.columns.at(at)
    }

    /// The last of so many prefixes that covers, found by the parents. None of them comes behind.
    fn climb(&self, slot: Slot, count: usize) -> Option<usize>
        requires within { count ≤ length self.now }
        requires before { AreBefore self.now slot count }
        ensures { IsLastCovering self.now slot count result }
    {
        let mut count = count;
        while count > 0 {
            if self.columns.at(count - 1).covers(slot) {
                return Some(count - 1);
            }
            count = self.parents[count - 1];
        }
        None
    }

    /// The parent of a prefix that is to be pushed.
    fn parent_of(&self, slot: Slot) -> usize
        requires last { AllBefore self.now slot }
        ensures { IsParent self.now slot (length self.now) result }
    {
        let count = self.columns.len();
        if count > 0 && self.columns.at(count - 1) == slot {
            return self.parents[count - 1];
        }
        match self.climb(slot, count) {
            Some(at) => at + 1,
            None => 0,
        }
    }

    /// How many prefixes don't come behind this one. Those that do don't cover it.
    fn count_before(&self, slot: Slot) -> usize
        ensures within { result ≤ length self.now }
        ensures before { AreBefore self.now slot result }
        ensures behind { NoneCover self.now slot result }
    {
        let mut low = 0;
        let mut high = self.columns.len();
        while low < high {
            let middle = low + (high - low) / 2;
            if comes_before(self.columns.at(middle), slot) {
                low = middle + 1;
            } else {
                high = middle;
            }
        }
        low
    }
}

/// The order of prefixes of one family: by bits, then by length.
fn comes_before(one: Slot, other: Slot) -> bool
    ensures { result ≡ comes_before one other }
{
    one.bits < other.bits || (one.bits == other.bits && one.len <= other.len)
}
