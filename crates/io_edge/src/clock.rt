// The time of the outside.
ghost use Rattle.std.specs.Prelude.{◌≡◌, ℕ, ◌^◌, ◌<◌, ◌≤◌, List, Option, None, Some, take, length, if◌then◌else◌, slice_index};
ghost use Rattle.std.specs.List.{All};
ghost use Rattle.std.specs.List.Sorted.{IsNonDecreasing};
ghost use Rattle.io_edge.specs.Told.{StillTells};

use net_base::Items;
use std::rt;

/// One more than the greatest moment.
const MOMENTS: u64 = 1 << 63;

/// Seconds since some start.
pub trait Clock {
    /// The last moment given, 0 before any.
    ghost last: { Self → ℕ };

    /// The moments given in order, where they are told.
    ghost given: { Self → Option (List ℕ) };

    /// The moment in seconds. It is below 2^63 and never less than one given before.
    fn now(&mut self) -> u64
        ensures range { result < 2 ^ 63 }
        ensures order { last self.old ≤ result }
        ensures last { last self.new ≡ result }
        ensures given { StillTells (given self.old) (given self.new) result };
}

/// The clock of the system, which never goes back. Where it can't be read, the moment stays as it was. It tells no
/// moments.
#[derive(Debug, Drop)]
pub struct HostClock<R> {
    runtime: R,
    last: u64,
    ghost range: { last < 2 ^ 63 },
}

impl<R: rt::Clock> HostClock<R> {
    /// No moment was given yet.
    pub fn new(runtime: R) -> Self
        ensures { result.last ≡ 0 }
    {
        HostClock { runtime, last: 0 }
    }
}

impl<R: rt::Clock> Clock for HostClock<R> {
    ghost last = { λ s. s.last };

    ghost given = { λ _. None };

    fn now(&mut self) -> u64 {
        if let Ok(time) = self.runtime.monotonic() {
            self.last = self.last.max(time.as_secs().min(MOMENTS - 1));
        }
        self.last
    }
}

/// A clock in memory that gives these moments one after another, and then the last of them again. It tells the moments
/// that it gave until they have run out.
#[derive(Debug, Drop)]
pub struct MemoryClock {
    moments: Items<u64>,
    at: usize,
    last: u64,
    ran_out: bool,
    ghost range: { last < 2 ^ 63 },
    ghost in_range: { All (λ moment. moment < 2 ^ 63) moments },
    ghost order: { (k : ℕ) → at ≤ k → k < length moments → last ≤ slice_index moments k },
    ghost ordered: { IsNonDecreasing moments },
}

impl MemoryClock {
    /// No moment was given yet.
    pub fn new(moments: Items<u64>) -> Self
        requires range { All (λ moment. moment < 2 ^ 63) moments }
        requires order { IsNonDecreasing moments }
    {
        MemoryClock {
            moments,
            at: 0,
            last: 0,
            ran_out: false,
        }
    }
}

impl Clock for MemoryClock {
    ghost last = { λ s. s.last };

    ghost given = { λ s. if s.ran_out then None else Some (take s.at s.moments) };

    fn now(&mut self) -> u64 {
        match self.moments.as_slice().get(self.at) {
            Some(moment) => {
                self.last = *moment;
                self.at += 1;
            }
            None => self.ran_out = true,
        }
        self.last
    }
}
