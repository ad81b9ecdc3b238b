ghost use Rattle.std.specs.Prelude.{◌≡◌, OnOk, OnErr};
ghost use Rattle.kroute.specs.Phases.{after_del, after_set, coupling_of, decoupled, with_work};
ghost use Rattle.kroute.specs.Calls.{IsNext};

use net_base::{NoMemory, Prefix, PrefixSet};
use std::mem;

/// How a table stands, as shows say it.
#[derive(Clone, Copy, Debug, PartialEq, Eq)]
pub enum Coupling {
    Coupled,
    Decoupled,
    Lost,
}

/// How a table stands, with what is still to be done.
#[derive(Drop)]
pub enum Phase {
    /// It was not coupled since it was configured.
    New,
    /// Its rows are still to be listed; it is coupled, or decoupled again.
    Listing(bool),
    /// It is coupled and was listed: the prefixes of the rows that it is known to have, and those still to be put right.
    Coupled(PrefixSet, PrefixSet),
    /// It is decoupled: the prefixes of the rows that are still to be deleted.
    Clearing(PrefixSet),
    /// A call on it failed.
    Lost,
}

/// The next kernel call on a table.
#[derive(Clone, Copy, Debug, PartialEq, Eq)]
pub enum Work {
    /// All rows are listed, to be put right or to be deleted.
    ListRows(bool),
    /// The row is set where one is wanted, and else deleted.
    PutRight(Prefix),
    /// The row is deleted.
    Delete(Prefix),
}

impl Phase {
    /// How the table stands, as shows say it.
    pub(crate) fn coupling(&self) -> Coupling
        ensures { result ≡ coupling_of self.now }
    {
        match self {
            Phase::New => Coupling::Decoupled,
            Phase::Listing(true) => Coupling::Coupled,
            Phase::Listing(false) => Coupling::Decoupled,
            Phase::Coupled(_, _) => Coupling::Coupled,
            Phase::Clearing(_) => Coupling::Decoupled,
            Phase::Lost => Coupling::Lost,
        }
    }

    /// The next call: the list, or the least prefix that is to be put right.
    pub(crate) fn next(&self) -> Option<Work>
        ensures { IsNext self.now result }
    {
        match self {
            Phase::New => None,
            Phase::Listing(coupled) => Some(Work::ListRows(*coupled)),
            Phase::Coupled(_, job) => match job.first() {
                Some(prefix) => Some(Work::PutRight(prefix)),
                None => None,
            },
            Phase::Clearing(job) => match job.first() {
                Some(prefix) => Some(Work::Delete(prefix)),
                None => None,
            },
            Phase::Lost => None,
        }
    }

    /// Puts a prefix among those to be put right, where the table is coupled and listed.
    pub(crate) fn add_work(&mut self, prefix: Prefix) -> Result<(), NoMemory>
        ensures ok { OnOk result (self.new ≡ with_work prefix self.old) }
        ensures err { OnErr result (self.new ≡ self.old) }
    {
        match self {
            Phase::Coupled(_, job) => job.add(prefix),
            _ => Ok(()),
        }
    }

    /// Decouples the table. It takes no memory.
    pub(crate) fn decouple(&mut self)
        ensures { self.new ≡ decoupled self.old }
    {
        let old = mem::replace(self, Phase::New);
        *self = match old {
            Phase::New => Phase::New,
            Phase::Listing(_coupled) => Phase::Listing(false),
            Phase::Coupled(known, _job) => Phase::Clearing(known),
            Phase::Clearing(job) => Phase::Clearing(job),
            Phase::Lost => Phase::Lost,
        };
    }

    /// The row of the prefix is set.
    pub(crate) fn set(&mut self, prefix: Prefix) -> Result<(), NoMemory>
        ensures ok { OnOk result (self.new ≡ after_set prefix self.old) }
        ensures err { OnErr result (self.new ≡ self.old) }
    {
        if let Phase::Coupled(known, job) = self {
            known.add(prefix)?;
            job.remove(prefix);
        }
        Ok(())
    }

    /// The row of the prefix is deleted.
    pub(crate) fn del(&mut self, prefix: Prefix)
        ensures { self.new ≡ after_del prefix self.old }
    {
        match self {
            Phase::Coupled(known, job) => {
                known.remove(prefix);
                job.remove(prefix);
            }
            Phase::Clearing(job) => job.remove(prefix),
            _ => {}
        }
    }
}
