use net_base::{Addr, Prefix};
use nexthop_track::*;
use std::test::Fail;

#[test]
fn a_route_makes_what_it_covers_valid(rt: HostRuntime) -> Result<(), Fail> {
    let mut hops = NextHops::new(rt.alloc());
    assert_eq!(rt; hops.track(Addr::read("10.0.0.2")?), Ok(false));
    assert_eq!(rt; hops.track(Addr::read("192.0.2.1")?), Ok(false));
    let changes = hops.kernel_route(rt.alloc(), Prefix::read("10.0.0.0/8")?, true)?;
    assert_eq!(rt; changes.len(), 1);
    let changes = hops.kernel_route(rt.alloc(), Prefix::read("10.0.0.2/32")?, true)?;
    assert_eq!(rt; changes.len(), 0);
    let answers = hops.answers(rt.alloc())?;
    assert_eq!(rt; answers.len(), 2);
    Ok(())
}

#[test]
fn a_default_route_needs_leave(rt: HostRuntime) -> Result<(), Fail> {
    let far = Addr::read("2001:db8::1")?;
    let mut hops = NextHops::new(rt.alloc());
    assert_eq!(rt; hops.track(far), Ok(false));
    let changes = hops.kernel_route(rt.alloc(), Prefix::read("::/0")?, true)?;
    assert_eq!(rt; changes.len(), 0);
    let changes = hops.qualify_default(rt.alloc(), true)?;
    assert_eq!(rt; changes.len(), 1);
    hops.untrack(far);
    let changes = hops.kernel_route(rt.alloc(), Prefix::read("::/0")?, false)?;
    assert_eq!(rt; changes.len(), 0);
    Ok(())
}
