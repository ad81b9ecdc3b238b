use net_base::{Addr, NoMemory, Prefix};
use std::alloc::Global;
use std::collections::{BTreeMap, BTreeSet};

/// A prefix in a RIB.
#[derive(Clone, Copy, Debug, PartialEq, Eq, PartialOrd, Ord)]
pub(crate) struct Place {
    pub(crate) rib: u8,
    pub(crate) prefix: Prefix,
}

/// Where each next hop of candidates from neighbours is used.
#[derive(Drop)]
pub(crate) struct HopUses {
    alloc: Global,
    places: BTreeMap<Addr, BTreeSet<Place>>,
}

impl HopUses {
    /// No next hop is used. It takes no memory.
    pub(crate) fn new(alloc: Global) -> Self {
        HopUses {
            alloc,
            places: BTreeMap::new(alloc),
        }
    }

    /// Where a next hop is used.
    pub(crate) fn of(&self, hop: Addr) -> Option<&BTreeSet<Place>> {
        self.places.get(&hop)
    }

    /// A next hop is used at a place. The answer is whether it wasn't used at all before.
    pub(crate) fn add(&mut self, hop: Addr, place: Place) -> Result<bool, NoMemory> {
        if let Some(places) = self.places.get_mut(&hop) {
            places.insert(place)?;
            return Ok(false);
        }
        let mut places = BTreeSet::new(self.alloc);
        places.insert(place)?;
        self.places.insert(hop, places)?;
        Ok(true)
    }

    /// A next hop is no longer used at a place. The answer is whether it was used, and isn't used at all any more.
    pub(crate) fn remove(&mut self, hop: Addr, place: Place) -> bool {
        let Some(places) = self.places.get_mut(&hop) else {
            return false;
        };
        places.remove(&place);
        if !places.is_empty() {
            return false;
        }
        self.places.remove(&hop);
        true
    }
}
