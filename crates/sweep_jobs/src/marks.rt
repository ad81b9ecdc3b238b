ghost use Rattle.std.specs.Prelude.{◌≡◌, Bool, true, false, List, not, ◌&&◌, ◌||◌, OnOk, OnErr, IfSome, IfNone};
ghost use Rattle.std.specs.Ordering.{eq_by_cmp};
ghost use Rattle.net_base.specs.declared.prefix.Prefix.{Prefix};
ghost use Rattle.net_base.specs.Order.{prefix_cmp};
ghost use Rattle.net_base.specs.PrefixSet.{is_in, IsLeast};

use crate::cursor::Cursor;
use net_base::{NoMemory, Prefix, PrefixSet};
use std::alloc::Global;
use std::marker::Model;

/// The marked prefixes, seen as a set over the prefixes that are known: those that a sweep has still ahead, as long as
/// they are known, and those that were touched, known or not.
#[derive(Drop)]
pub struct Marks {
    cursor: Cursor,
    touched: PrefixSet,
}

impl Model for Marks {
    ghost use Rattle.sweep_jobs.specs.Marks.{MarkedPrefixes};

    ghost Value = { MarkedPrefixes };

    ghost view = { λ s. record { cursor = s.cursor; touched = s.touched } };
}

impl Marks {
    ghost use Rattle.sweep_jobs.specs.Marks.{is_marked};

    /// No prefix is marked. It takes no memory.
    pub fn new(alloc: Global) -> Self
        ensures { (known : List Prefix) (q : Prefix) → is_marked known result q ≡ false }
    {
        Marks {
            cursor: Cursor::Idle,
            touched: PrefixSet::new(alloc),
        }
    }

    /// Marks every known prefix, and takes every other mark away. It takes no memory, and no walk but over the touched
    /// prefixes that it drops.
    pub fn start(&mut self)
        ensures { (known : List Prefix) (q : Prefix) → is_marked known self.new q ≡ is_in known q }
    {
        self.cursor = Cursor::Before;
        self.touched.clear();
    }

    /// Marks one prefix, known or not, wherever a sweep stands. Where memory is refused, the marks are as they were.
    pub fn touch(&mut self, prefix: Prefix) -> Result<(), NoMemory>
        ensures ok { OnOk result ((known : List Prefix) (q : Prefix) →
            is_marked known self.new q ≡ (eq_by_cmp prefix_cmp q prefix || is_marked known self.old q)) }
        ensures err { OnErr result (self.new ≡ self.old) }
    {
        self.touched.add(prefix)
    }

    /// Whether the prefix is marked.
    pub fn is_marked(&self, known: &PrefixSet, prefix: Prefix) -> bool
        ensures { result ≡ is_marked known.now self.now prefix }
    {
        self.touched.has(prefix) || (known.has(prefix) && self.cursor.is_ahead(prefix))
    }

    /// The least marked prefix, or None where none is marked.
    pub fn least(&self, known: &PrefixSet) -> Option<Prefix>
        ensures { IsLeast (is_marked known.now self.now) result }
    {
        lesser(self.touched.first(), self.cursor.first_ahead(known))
    }

    /// The least marked prefix, which is then no longer marked, or None where none is marked. All other marks stay, and
    /// whatever else may be known, no mark comes.
    pub fn next(&mut self, known: &PrefixSet) -> Option<Prefix>
        ensures least { IsLeast (is_marked known.now self.old) result }
        ensures taken { IfSome result (λ p. (q : Prefix) →
            is_marked known.now self.new q ≡ (not (eq_by_cmp prefix_cmp q p) && is_marked known.now self.old q)) }
        ensures none_comes { (others : List Prefix) (q : Prefix) →
            is_marked others self.new q ≡ true → is_marked others self.old q ≡ true }
        ensures none { IfNone result (self.new ≡ self.old) }
    {
        let prefix = self.least(known)?;
        self.touched.remove(prefix);
        if self.cursor.is_ahead(prefix) {
            self.cursor = Cursor::Behind(prefix);
        }
        Some(prefix)
    }
}

/// The lesser of two prefixes, or the one that there is.
fn lesser(one: Option<Prefix>, other: Option<Prefix>) -> Option<Prefix>
    ensures { (here there : Prefix → Bool) → IsLeast here one → IsLeast there other →
        IsLeast (λ p. here p || there p) result }
{
    match (one, other) {
        (Some(one), Some(other)) => Some(if other < one { other } else { one }),
        (one, None) => one,
        (None, other) => other,
    }
}
