ghost use Rattle.cores_link.specs.Generations.{accepted_generation};
ghost use Rattle.run_record.specs.Answers.{IsRefusal};
ghost use Rattle.std.specs.Prelude.{◌≡◌, ◌+◌, ◌<◌, ◌≤◌, ◌^◌, ◌∷◌, [], IfOk, OnOk, OnErr, IsOk, false, IsErrOf, IsTrue, ◌↔◌};

use crate::accepted::Accepted;
use core_msgs::{Answer, Event, Part};
use net_base::NoMemory;
use std::alloc::Global;
use thiserror::Error;

/// Why the Router gives no answer.
#[derive(Clone, Copy, Debug, PartialEq, Eq, Error)]
pub enum RouterFault {
    /// Memory ran out in this call. The Router is spent from now on.
    #[error("out of memory")]
    NoMemory,
    /// An earlier call left the Router spent.
    #[error("the router is spent")]
    Spent,
}

impl From<NoMemory> for RouterFault {
    ghost use Rattle.cores_link.specs.declared.router.RouterFault.TheVariants.{NoMemory};

    ghost from_gives = { λ _ fault. fault ≡ NoMemory };

    fn from(_: NoMemory) -> Self {
        RouterFault::NoMemory
    }
}

/// Whether something is left to do.
#[derive(Clone, Copy, Debug, PartialEq, Eq)]
pub enum Quiet {
    /// Nothing is left.
    Yes,
    /// This part has something to do.
    Pending(Part),
}

/// The speaker: it takes events and answers them.
#[derive(Drop)]
pub struct Router {
    alloc: Global,
    accepted: Accepted,
    events: u32,
    size: u128,
    spent: bool,
    ghost few: { accepted_generation accepted ≤ events },
}

impl Router {
    ghost use Rattle.cores_link.specs.Routers.{Stands, StandsAfter, events_taken, is_spent, IsReload, OnlyCounts, quiet_of};
    ghost use Rattle.run_record.specs.Run.{History, under_way};

    /// A Router before its first event, with the empty configuration.
    pub fn new(alloc: Global) -> Result<Self, NoMemory>
        ensures { IfOk result (λ router. Stands router []) }
    {
        Ok(Router {
            alloc,
            accepted: Accepted::new(alloc),
            events: 0,
            size: 0,
            spent: false,
        })
    }

    /// How many events were taken.
    pub fn events(&self) -> u32
        ensures { result ≡ events_taken self.now }
    {
        self.events
    }

    /// Whether memory ran out in a call. A spent Router answers nothing any more.
    pub fn spent(&self) -> bool
        ensures { result ≡ is_spent self.now }
    {
        self.spent
    }

    /// Whether something is left to do.
    pub fn quiet(&self) -> Quiet
        ensures { (h : History) → Stands self.now h → result ≡ quiet_of (under_way h) }
    {
        match self.accepted.under_way() {
            None => Quiet::Yes,
            Some(_) => Quiet::Pending(Part::Reload),
        }
    }

    /// Takes an event and answers it.
    ///
    /// Whatever happened before, the answer is one of those that the event may have behind it. A refused reload
    /// leaves everything as it was but the counts of events and of their size. `NoMemory` leaves the Router spent,
    /// and a spent Router answers `Spent` and stays as it is. A reload is always answered: want of memory in the
    /// reading of its text refuses that reload alone.
    pub fn step(&mut self, event: &Event) -> Result<Answer, RouterFault>
        requires { events_taken self.old < 2 ^ 31 }
        ensures history { IfOk result (λ answer. (h : History) → Stands self.old h → StandsAfter self.new h event.now answer) }
        ensures refused { IfOk result (λ answer. IsRefusal answer → OnlyCounts self.old self.new event.now) }
        ensures reload { IsReload event.now → is_spent self.old ≡ false → IsOk result }
        ensures events { IfOk result (λ answer. events_taken self.new ≡ events_taken self.old + 1) }
        ensures live { OnOk result (is_spent self.new ≡ false) }
        ensures spent { OnErr result (IsTrue (is_spent self.new)) }
        ensures was_spent { IsErrOf result RouterFault.Spent ↔ IsTrue (is_spent self.old) }
        ensures same { IsTrue (is_spent self.old) → self.new ≡ self.old }
    {
        if self.spent {
            return Err(RouterFault::Spent);
        }
        self.spent = true;
        self.events += 1;
        self.size = self.size.saturating_add(1).saturating_add(event.size());
        let answer = self.accepted.answer(self.alloc, event)?;
        self.spent = false;
        Ok(answer)
    }
}
