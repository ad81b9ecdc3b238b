use net_base::{Prefix, PrefixSet};
use std::test::Fail;
use sweep_jobs::*;

#[test]
fn a_sweep_goes_on_beside_touched_prefixes(rt: HostRuntime) -> Result<(), Fail> {
    let low = Prefix::read("10.0.0.0/8")?;
    let mid = Prefix::read("10.0.0.0/16")?;
    let high = Prefix::read("192.0.2.0/24")?;
    let strange = Prefix::read("2001:db8::/32")?;
    let mut known = PrefixSet::new(rt.alloc());
    for prefix in [low, mid, high] {
        known.add(prefix)?;
    }
    let mut marks = Marks::new(rt.alloc());
    assert_eq!(rt; marks.next(&known), None);
    marks.touch(strange)?;
    marks.start();
    assert!(rt; marks.is_marked(&known, mid) && !marks.is_marked(&known, strange));
    assert_eq!(rt; marks.next(&known), Some(low));
    assert_eq!(rt; marks.next(&known), Some(mid));
    marks.touch(low)?;
    marks.touch(strange)?;
    assert!(rt; marks.is_marked(&known, low) && !marks.is_marked(&known, mid));
    assert_eq!(rt; marks.least(&known), Some(low));
    assert_eq!(rt; marks.next(&known), Some(low));
    known.remove(high);
    assert_eq!(rt; marks.next(&known), Some(strange));
    assert_eq!(rt; marks.next(&known), None);
    Ok(())
}
