use net_base::*;
use std::test::Fail;

#[test]
fn prefixes_stand_in_order(rt: HostRuntime) -> Result<(), Fail> {
    let wide = Prefix::read("10.0.0.0/8")?;
    let inner = Prefix::read("10.0.0.0/16")?;
    let v6 = Prefix::read("::/0")?;
    let mut set = PrefixSet::new(rt.alloc());
    set.add(v6)?;
    set.add(inner)?;
    set.add(wide)?;
    set.add(inner)?;
    assert!(rt; set.has(wide) && set.has(inner) && set.has(v6));
    assert_eq!(rt; set.first_from(Prefix::read("0.0.0.0/0")?), Some(wide));
    assert_eq!(rt; set.first_from(Prefix::read("10.0.0.0/9")?), Some(inner));
    assert_eq!(rt; set.first_from(Prefix::read("11.0.0.0/8")?), Some(v6));
    assert_eq!(rt; set.first_from(Prefix::read("::/1")?), None);
    assert_eq!(rt; set.first(), Some(wide));
    assert_eq!(rt; set.first_after(wide), Some(inner));
    assert_eq!(rt; set.first_after(inner), Some(v6));
    assert_eq!(rt; set.first_after(v6), None);
    set.remove(inner);
    assert!(rt; set.has(wide) && !set.has(inner));
    assert_eq!(rt; set.first_from(inner), Some(v6));
    set.clear();
    assert_eq!(rt; set.first(), None);
    Ok(())
}
