use attr_intern::AttrTable;
use attr_model::{Attrs, Flag, Path};
use decision::{Candidate, Origin};
use net_base::{Addr, Family, Items, NoMemory, Prefix, PrefixSet};
use rib_multi::*;
use std::alloc::Global;
use std::test::*;

fn attrs(alloc: Global) -> Attrs {
    Attrs {
        origin: 0,
        path: Path::new(alloc),
        hop: PEER,
        med: None,
        local_pref: None,
        atomic: false,
        aggregator: None,
        communities: Items::new(alloc),
        large: Items::new(alloc),
        unknown: Items::new(alloc),
        partial: 0,
        weight: 0,
    }
}

const PEER: Addr = Addr {
    family: Family::V4,
    bits: 0x0a00_0002,
};

// The flag of what is shown behind the refresh of the prefix that is marked, in RIB 5, with one eligible candidate.
fn flag_behind(alloc: Global, prefix: Prefix) -> Result<Option<Flag>, NoMemory> {
    let known = PrefixSet::new(alloc);
    let mut table = AttrTable::new(alloc)?;
    let mut ribs = RibMulti::new(alloc)?;
    ribs.mark(5, prefix)?;
    let Some(least) = ribs.least(5, &known) else {
        return Ok(None);
    };
    let mut candidates = CandidateList::new(alloc);
    candidates.push(Candidate {
        from: Origin::External(PEER),
        attrs: table.intern(attrs(alloc))?,
        eligible: true,
        bgp_id: 1,
        own_as: 65000,
    })?;
    ribs.refresh(&known, &mut table, 5, least, candidates, false)?;
    Ok(ribs.rows(5)?.get(0).map(|row| row.flag))
}

#[test]
fn a_candidate_alone_is_best(rt: HostRuntime) -> Result<(), Fail> {
    let prefix = Prefix::read("192.0.2.0/24")?;
    assert_eq!(rt; flag_behind(rt.alloc(), prefix)?, Some(Flag::Best));
    Ok(())
}
