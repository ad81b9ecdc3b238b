use attr_model::*;
use net_base::{Addr, Family, Items};
use std::alloc::Global;
use std::test::*;

fn sequence(alloc: Global, numbers: &[u32]) -> Result<Segment, Fail> {
    Ok(Segment::Sequence(Items::from_slice(alloc, numbers)?))
}

// RFC 4271 section 9.1.2.2 a: a set counts one.
#[test]
fn a_path_of_both_kinds(rt: HostRuntime) -> Result<(), Fail> {
    let mut path = Path::new(rt.alloc());
    assert_eq!(rt; path.length(), 0);
    assert_eq!(rt; path.origin_as(65001), Some(65001));
    path.push(sequence(rt.alloc(), &[65002, 65003])?)?;
    assert_eq!(rt; path.origin_as(65001), Some(65003));
    path.push(Segment::Set(Items::from_slice(rt.alloc(), &[1, 2, 3])?))?;
    assert_eq!(rt; path.length(), 3);
    assert_eq!(rt; path.origin_as(65001), None);
    assert!(rt; !path.is_empty());
    Ok(())
}

// 255 numbers fill a segment, and the next ones begin another.
#[test]
fn numbers_in_front(rt: HostRuntime) -> Result<(), Fail> {
    let mut path = Path::new(rt.alloc());
    path.push(sequence(rt.alloc(), &[65002])?)?;
    path.prepend(rt.alloc(), 65001, 254)?;
    assert_eq!(rt; path.as_slice().len(), 1);
    path.prepend(rt.alloc(), 65000, 2)?;
    assert_eq!(rt; path.as_slice().len(), 2);
    assert_eq!(rt; path.length(), 257);
    assert!(rt; path.as_slice()[..1] == [sequence(rt.alloc(), &[65000, 65000])?]);
    path.prepend(rt.alloc(), 64999, 0)?;
    assert_eq!(rt; path.length(), 257);
    Ok(())
}

#[test]
fn a_clone_is_equal(rt: HostRuntime) -> Result<(), Fail> {
    let mut path = Path::new(rt.alloc());
    path.push(sequence(rt.alloc(), &[65002])?)?;
    let mut attrs = Attrs {
        origin: 0,
        path,
        hop: Addr {
            family: Family::V4,
            bits: 0x0a00_0002,
        },
        med: Some(10),
        local_pref: None,
        atomic: false,
        aggregator: None,
        communities: Items::from_slice(rt.alloc(), &[0xffff_ff01])?,
        large: Items::new(rt.alloc()),
        unknown: Items::new(rt.alloc()),
        partial: 2,
        weight: 0,
    };
    let copy = attrs.clone()?;
    assert!(rt; copy == attrs);
    attrs.partial = 0;
    assert!(rt; copy != attrs);
    Ok(())
}
