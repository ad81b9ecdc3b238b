// Where events come from, and where the lines of their answers go.
ghost use Rattle.std.specs.Prelude.{◌≡◌, ◌≢◌, ◌+◌, ◌<◌, ◌^◌, ℕ, Bool, false, List, [], IfOk, IfSome, OnOk};
ghost use Rattle.std.specs.Borrow.{GName};
ghost use Rattle.bgpd_top.specs.World.{Talk, Gave, Closed, Noted, Heard, said_by, given_by, end_behind};
ghost use Rattle.bgpd_top.specs.Faults.{CountsWorld};
ghost use Rattle.bgpd_top.specs.declared.world.WorldEnd.{WorldEnd};
ghost use Rattle.cores_link.specs.Routers.{events_taken};

use core_msgs::{Event, Line};
use cores_link::Router;
use io_edge::LineFault;
use net_base::{Bytes, NoMemory};
use std::alloc::Global;
use thiserror::Error;

/// Why a world gives no event.
#[derive(Clone, Copy, Debug, PartialEq, Eq, Error)]
pub enum WorldFault {
    /// The line of this number, counted from 1, isn't of the grammar of events.
    #[error("line {0}: bad event")]
    BadEvent(u32),
    /// The outside failed.
    #[error("read fault")]
    ReadFault,
    /// A line or the file is past its limit.
    #[error("too long")]
    TooLong,
    /// Memory was refused.
    #[error("no memory")]
    NoMemory,
}

impl From<LineFault> for WorldFault {
    ghost use Rattle.std.specs.Prelude.{◌≡◌};
    ghost use Rattle.bgpd_top.specs.Faults.{of_line};

    ghost from_gives = { λ cause fault. fault ≡ of_line cause };

    fn from(cause: LineFault) -> Self {
        match cause {
            LineFault::ReadFault => WorldFault::ReadFault,
            LineFault::LineTooLong | LineFault::FileTooLong => WorldFault::TooLong,
            LineFault::NoMemory => WorldFault::NoMemory,
        }
    }
}

impl From<NoMemory> for WorldFault {
    ghost use Rattle.std.specs.Prelude.{◌≡◌};
    ghost use Rattle.bgpd_top.specs.declared.world.WorldFault.TheVariants.{NoMemory};

    ghost from_gives = { λ _ fault. fault ≡ NoMemory };

    fn from(_: NoMemory) -> Self {
        WorldFault::NoMemory
    }
}

/// Whether a world still gives events.
#[derive(Clone, Copy, Debug, PartialEq, Eq)]
pub enum WorldEnd {
    /// It may give more.
    Open,
    /// It gave all of its events.
    Ended,
    /// It failed.
    Failed(WorldFault),
}

/// A world gives events one by one, and is handed the lines of their answers.
///
/// What passes in its calls is a talk, and the talk says all that is asked of a world: the events given, the lines
/// heard since the last one, what was noted, and how it ended.
pub trait World {
    /// This passed in a call, between the first state and the second.
    ghost passes: { Self → Talk → Self → Type 0 };

    /// How many events it gave in all.
    ghost events: { Self → ℕ };

    /// Whether it still gives events.
    ghost end: { Self → WorldEnd };

    /// Whether `next` may ask the outside, and so wait for it.
    ghost asks: { Self → Bool };

    /// How many faults its outside had.
    ghost faults: { Self → ℕ };

    /// The borrows that it holds, by their names.
    ghost borrows: { Self → List GName };

    /// Whether a world of this kind ever notes anything.
    ghost notes: { Bool };

    /// The next event, or None at the end. A world gives at most 2^31 - 1 events.
    ///
    /// `ReadFault` comes only where the count of faults rose, and only where the outside may be asked.
    fn next(&mut self, alloc: Global, router: &Router) -> Result<Option<Event>, WorldFault>
        requires open { end self.old ≡ WorldEnd.Open }
        requires agrees { events self.old ≡ events_taken router.now }
        ensures passed { passes self.old (said_by result) self.new }
        ensures borrows { borrows self.new ≡ borrows self.old }
        ensures events { events self.new ≡ events self.old + given_by result }
        ensures few { IfOk result (λ answer. IfSome answer (λ _. events self.new < 2 ^ 31)) }
        ensures end { end self.new ≡ end_behind result }
        ensures asked { asks self.old ≡ false → result ≢ Err WorldFault.ReadFault }
        ensures counts { CountsWorld (faults self.old) (faults self.new) result };

    /// Is handed one line of an answer.
    fn carry(&mut self, line: &Line) -> Result<(), NoMemory>
        ensures passed { OnOk result (passes self.old (Heard line.now) self.new) }
        ensures borrows { borrows self.new ≡ borrows self.old }
        ensures events { events self.new ≡ events self.old }
        ensures end { end self.new ≡ end self.old }
        ensures counts { faults self.new ≡ faults self.old };

    /// The bytes that stand in the transcript behind an answer of `next`, before the event's own answer.
    fn ahead(&mut self) -> Result<Bytes, NoMemory>
        ensures passed { IfOk result (λ bytes. passes self.old (Noted bytes) self.new) }
        ensures mute { notes ≡ false → result ≡ Ok [] }
        ensures borrows { borrows self.new ≡ borrows self.old }
        ensures events { events self.new ≡ events self.old }
        ensures end { end self.new ≡ end self.old }
        ensures counts { faults self.new ≡ faults self.old };

    /// Whether `next` may ask the outside, and so wait for it.
    fn asks(&self) -> bool
        ensures { result ≡ asks self.now };
}
