// The one fault of the outside, and the failures that an object in memory is asked for.
ghost use Rattle.std.specs.Prelude.{◌≡◌, ◌↔◌, ◌+◌, min, Contains, IsErr, IsTrue};
ghost use Rattle.io_edge.specs.Faults.{last_count, Rose, CountsFailure};

use net_base::Items;
use thiserror::Error;

/// The outside failed. What failed, and with which code, isn't kept.
#[derive(Clone, Copy, Debug, PartialEq, Eq, Error)]
#[error("the outside failed")]
pub struct Failed;

/// Numbers of calls of one object, the first call being number 1.
pub type CallList = Items<u64>;

/// Which calls of an object in memory are to fail, how many calls it had, and how many of them failed.
///
/// Both counts stand still at the last value of a u64.
#[derive(Debug, Drop)]
pub struct Failures {
    pub planned: CallList,
    pub calls: u64,
    pub faults: u64,
}

impl Failures {
    /// No call was made yet, and those with these numbers are to fail.
    pub fn new(planned: CallList) -> Self
        ensures planned { result.planned ≡ planned }
        ensures calls { result.calls ≡ 0 }
        ensures faults { result.faults ≡ 0 }
    {
        Failures {
            planned,
            calls: 0,
            faults: 0,
        }
    }

    /// Whether the next call is to fail.
    pub fn fails_next(&self) -> bool
        ensures { IsTrue result ↔ Contains self.now.planned (min (self.now.calls + 1) last_count) }
    {
        let next = self.calls.saturating_add(1);
        self.planned.as_slice().contains(&next)
    }

    /// Counts a call that didn't fail.
    pub fn passed(&mut self)
        ensures planned { self.new.planned ≡ self.old.planned }
        ensures calls { self.new.calls ≡ min (self.old.calls + 1) last_count }
        ensures faults { self.new.faults ≡ self.old.faults }
    {
        self.calls = self.calls.saturating_add(1);
    }

    /// Counts a call that failed.
    pub fn failed(&mut self)
        ensures planned { self.new.planned ≡ self.old.planned }
        ensures calls { self.new.calls ≡ min (self.old.calls + 1) last_count }
        ensures faults { Rose self.old.faults self.new.faults }
    {
        self.calls = self.calls.saturating_add(1);
        self.faults = self.faults.saturating_add(1);
    }

    /// Counts a call, and answers Failed exactly where it is to fail.
    pub fn call(&mut self) -> Result<(), Failed>
        ensures planned { self.new.planned ≡ self.old.planned }
        ensures calls { self.new.calls ≡ min (self.old.calls + 1) last_count }
        ensures failed { IsErr result ↔ Contains self.old.planned self.new.calls }
        ensures count { CountsFailure self.old.faults self.new.faults result }
    {
        if self.fails_next() {
            self.failed();
            return Err(Failed);
        }
        self.passed();
        Ok(())
    }
}
