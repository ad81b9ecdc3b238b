use adj_rib_in::*;
use attr_model::{AttrRef, Attrs, Path};
use net_base::{Addr, Family, Items, Prefix};
use std::alloc::Global;
use std::rc::Rc;
use std::test::*;

fn route(alloc: Global, number: usize) -> Result<AttrRef, Fail> {
    let attrs = Attrs {
        origin: 0,
        path: Path::new(alloc),
        hop: Addr {
            family: Family::V4,
            bits: 0x0a00_0002,
        },
        med: None,
        local_pref: None,
        atomic: false,
        aggregator: None,
        communities: Items::new(alloc),
        large: Items::new(alloc),
        unknown: Items::new(alloc),
        partial: 0,
        weight: 0,
    };
    Ok(AttrRef {
        number,
        attrs: Rc::new(alloc, attrs)?,
    })
}

fn number_of(one: Option<AttrRef>) -> Option<usize> {
    one.map(|one| one.number)
}

fn sessions_of(table: &AdjRibIn, prefix: Prefix) -> (Option<u32>, Option<u32>) {
    let row = table.of(prefix);
    (
        row.first().map(|entry| entry.session),
        row.get(1).map(|entry| entry.session),
    )
}

#[test]
fn routes_of_two_sessions(rt: HostRuntime) -> Result<(), Fail> {
    let prefix = Prefix::read("192.0.2.0/24")?;
    let mut table = AdjRibIn::new(rt.alloc())?;
    let first = table.set(prefix, 7, route(rt.alloc(), 1)?);
    assert_eq!(rt; first.map(number_of).ok(), Some(None));
    let second = table.set(prefix, 3, route(rt.alloc(), 2)?);
    assert_eq!(rt; second.map(number_of).ok(), Some(None));
    assert_eq!(rt; sessions_of(&table, prefix), (Some(3), Some(7)));
    let again = table.set(prefix, 7, route(rt.alloc(), 3)?);
    assert_eq!(rt; again.map(number_of).ok(), Some(Some(1)));
    assert_eq!(rt; number_of(table.unset(prefix, 3)), Some(2));
    assert_eq!(rt; number_of(table.unset(prefix, 3)), None);
    assert_eq!(rt; sessions_of(&table, prefix), (Some(7), None));
    Ok(())
}

#[test]
fn a_lost_session(rt: HostRuntime) -> Result<(), Fail> {
    let one = Prefix::read("192.0.2.0/24")?;
    let other = Prefix::read("198.51.100.0/24")?;
    let mut table = AdjRibIn::new(rt.alloc())?;
    for (prefix, session, number) in [(other, 7, 1), (one, 7, 2), (one, 3, 3)] {
        let old = table.set(prefix, session, route(rt.alloc(), number)?);
        assert_eq!(rt; old.map(number_of).ok(), Some(None));
    }
    assert_eq!(rt; table.drop_session(9)?.len(), 0);
    let dropped = table.drop_session(7)?;
    let row = |at| dropped
        .get(at)
        .map(|(prefix, attrs)| (*prefix, attrs.number));
    assert_eq!(rt;
        (row(0), row(1), row(2)),
        (Some((one, 2)), Some((other, 1)), None)
    );
    assert_eq!(rt; sessions_of(&table, one), (Some(3), None));
    assert_eq!(rt; sessions_of(&table, other), (None, None));
    Ok(())
}
