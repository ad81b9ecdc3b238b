use adj_rib_out::*;
use net_base::Prefix;
use std::test::*;

#[test]
fn a_queue_goes_in_order(rt: HostRuntime) -> Result<(), Fail> {
    let low = Prefix::read("10.0.0.0/8")?;
    let high = Prefix::read("2001:db8::/32")?;
    let mut outs = AdjRibOut::new(rt.alloc());
    outs.begin(3)?;
    outs.queue(3, high, true)?;
    outs.queue(3, low, false)?;
    outs.queue(3, high, false)?;
    assert_eq!(rt;
        (outs.queued(3, 0), outs.queued(3, 1)),
        (Some(low), Some(high))
    );
    assert_eq!(rt; (outs.queued(3, 2), outs.queued(7, 0)), (None, None));
    assert_eq!(rt;
        (outs.first_queued(3), outs.queued_after(3, low)),
        (Some(low), Some(high))
    );
    assert!(rt; outs.is_again(3, high) && !outs.is_again(3, low) && !outs.is_queued(7, low));
    assert!(rt; outs.told(3, low).is_none() && outs.in_flight(3) == 0);
    Ok(())
}
