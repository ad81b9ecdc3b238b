use attr_intern::*;
use attr_model::{Attrs, Path};
use net_base::{Addr, Family, Items};
use std::alloc::Global;
use std::test::*;

fn attrs(alloc: Global, med: u32) -> Attrs {
    Attrs {
        origin: 0,
        path: Path::new(alloc),
        hop: Addr {
            family: Family::V4,
            bits: 0x0a00_0002,
        },
        med: Some(med),
        local_pref: None,
        atomic: false,
        aggregator: None,
        communities: Items::new(alloc),
        large: Items::new(alloc),
        unknown: Items::new(alloc),
        partial: 0,
        weight: 0,
    }
}

#[test]
fn a_number_for_each(rt: HostRuntime) -> Result<(), Fail> {
    let mut table = AttrTable::new(rt.alloc())?;
    let one = table.intern(attrs(rt.alloc(), 1))?;
    let two = table.intern(attrs(rt.alloc(), 2))?;
    let same = table.intern(attrs(rt.alloc(), 1))?;
    assert!(rt; one == same && one != two);
    assert_eq!(rt; (one.med, two.med), (Some(1), Some(2)));
    assert_eq!(rt; table.distinct(), 2);
    Ok(())
}

#[test]
fn a_use_more_and_less(rt: HostRuntime) -> Result<(), Fail> {
    let mut table = AttrTable::new(rt.alloc())?;
    let one = table.intern(attrs(rt.alloc(), 1))?;
    let again = table.again(&one)?;
    assert!(rt; again == one);
    table.give_back(again);
    assert_eq!(rt; table.distinct(), 1);
    Ok(())
}

#[test]
fn the_last_use(rt: HostRuntime) -> Result<(), Fail> {
    let mut table = AttrTable::new(rt.alloc())?;
    let one = table.intern(attrs(rt.alloc(), 1))?;
    table.give_back(one);
    assert_eq!(rt; table.distinct(), 0);
    Ok(())
}
