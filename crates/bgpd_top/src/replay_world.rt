// The world of an event file.
ghost use Rattle.std.specs.Prelude.{◌≡◌, ◌≤◌, [], ◌∷◌, true, false};
ghost use Rattle.io_edge.specs.FileLines.{file_limit};
ghost use Rattle.bgpd_top.specs.Reader.{reader_count, reader_asks, is_spent_reader, to_come};
ghost use Rattle.bgpd_top.specs.ReplayWorlds.{PassesFile};
ghost use Rattle.bgpd_top.specs.declared.world.WorldEnd.TheVariants.{Open};

use crate::replay::EventReader;
use crate::world::{World, WorldEnd, WorldFault};
use core_msgs::{Event, Line};
use cores_link::Router;
use io_edge::Source;
use net_base::{Bytes, Items, NoMemory};
use std::alloc::Global;

/// The world of an event file: it gives the events of the file, and lets the lines of the answers pass.
#[derive(Drop)]
pub struct ReplayWorld<'a, S> {
    alloc: Global,
    reader: &'a mut EventReader,
    source: &'a mut S,
    given: u32,
    end: WorldEnd,
    ghost live: { end ≡ Open → is_spent_reader reader.now ≡ false },
    ghost small: { end ≡ Open → reader_count reader.now ≤ file_limit },
    ghost few: { end ≡ Open → given ≤ reader_count reader.now },
}

impl<'a, S: Source> ReplayWorld<'a, S> {
    /// The world of the events that the reader has still to give from the source.
    pub fn new(alloc: Global, reader: &'a mut EventReader, source: &'a mut S) -> Self
        requires live { is_spent_reader reader.old ≡ false }
        requires small { reader_count reader.old ≤ file_limit }
        ensures reader { (result.reader.ghost_name ≡ reader.entry.ghost_name) × (result.reader.now ≡ reader.old) }
        ensures source { (result.source.ghost_name ≡ source.entry.ghost_name) × (result.source.now ≡ source.old) }
        ensures events { result.given ≡ 0 }
        ensures end { result.end ≡ Open }
    {
        ReplayWorld {
            alloc,
            reader,
            source,
            given: 0,
            end: WorldEnd::Open,
        }
    }
}

impl<S: Source> World for ReplayWorld<'_, S> {
    ghost passes = { λ old talk new. PassesFile (to_come old.reader.now (S.left old.source.now)) talk (to_come new.reader.now (S.left new.source.now)) };

    ghost events = { λ world. world.given };

    ghost end = { λ world. world.end };

    ghost asks = { λ world. reader_asks world.reader.now };

    ghost faults = { λ world. S.faults world.source.now };

    ghost borrows = { λ world. world.reader.ghost_name ∷ world.source.ghost_name ∷ [] };

    ghost notes = { false };

    fn next(&mut self, alloc: Global, _router: &Router) -> Result<Option<Event>, WorldFault> {
        self.end = WorldEnd::Ended;
        match self.reader.next(alloc, self.source) {
            Ok(Some(event)) => {
                self.given += 1;
                self.end = WorldEnd::Open;
                Ok(Some(event))
            }
            Ok(None) => Ok(None),
            Err(fault) => {
                self.end = WorldEnd::Failed(fault);
                Err(fault)
            }
        }
    }

    fn carry(&mut self, _line: &Line) -> Result<(), NoMemory> {
        Ok(())
    }

    fn ahead(&mut self) -> Result<Bytes, NoMemory> {
        Ok(Items::new(self.alloc))
    }

    fn asks(&self) -> bool {
        self.reader.asks()
    }
}
