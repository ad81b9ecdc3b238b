use bgp_wire::{Cut, Notify, OpenRules};
use net_base::Family;
use peer_io::*;
use std::test::*;

const MARKER: [u8; 16] = [0xff; 16];

/// The OPEN of AS 65001 with identifier 10.0.0.1 and a hold time of 90 seconds, behind its marker.
const OPEN: [u8; 29] = [
    0, 45, 1, 4, 0xfd, 0xe9, 0, 90, 10, 0, 0, 1, 16, 2, 14, 1, 4, 0, 1, 0, 1, 2, 0, 65, 4, 0, 0,
    0xfd, 0xe9,
];

const RULES: OpenRules = OpenRules {
    asn: 65001,
    remote_as: 65002,
    router_id: 0x0a00_0001,
    hold: 90,
    hold_min: 3,
    v4: true,
    v6: false,
    refresh: true,
    as4: true,
};

#[test]
fn what_is_put_in_comes_out(rt: HostRuntime) -> Result<(), Fail> {
    let mut outbox = Outbox::new(rt.alloc());
    outbox.push(&Open(RULES))?;
    outbox.push(&Keepalive)?;
    outbox.push(&RouteRefresh(Family::V6))?;
    assert_eq!(rt; outbox.as_slice().len(), 45 + 19 + 23);
    let marker = outbox.write(rt.alloc(), 16)?;
    assert_eq!(rt; marker.bytes.as_slice(), MARKER.as_slice());
    let open = outbox.write(rt.alloc(), 29)?;
    assert_eq!(rt; open.bytes.as_slice(), OPEN.as_slice());
    let rest = outbox.write(rt.alloc(), 100)?;
    assert_eq!(rt; rest.bytes.len(), 42);
    assert_eq!(rt; rest.updates + outbox.waiting_updates(), 0);
    assert_eq!(rt; outbox.write(rt.alloc(), 100)?.bytes.len(), 0);
    Ok(())
}

#[test]
fn a_connection_ends_behind_half_a_message(rt: HostRuntime) -> Result<(), Fail> {
    let mut outbox = Outbox::new(rt.alloc());
    outbox.push(&Open(RULES))?;
    outbox.push(&Keepalive)?;
    let whole = outbox.last(rt.alloc(), 6, 2)?;
    assert_eq!(rt; whole.len(), 21);
    let _ = outbox.write(rt.alloc(), 43)?;
    let last = outbox.last(rt.alloc(), 6, 2)?;
    assert_eq!(rt; last.len(), 23);
    assert_eq!(rt; last.get(1).copied(), Some(0xe9));
    assert_eq!(rt; last.get(22).copied(), Some(2));
    outbox.clear();
    assert_eq!(rt; outbox.as_slice().len(), 0);
    Ok(())
}

#[test]
fn messages_come_in_pieces(rt: HostRuntime) -> Result<(), Fail> {
    let mut inbox = Inbox::new(rt.alloc());
    inbox.feed(&MARKER)?;
    assert_eq!(rt; inbox.front(), Cut::More);
    inbox.feed(&[0, 19, 4])?;
    let keepalive = Cut::Message {
        kind: 4,
        length: 19,
    };
    assert_eq!(rt; inbox.front(), keepalive);
    inbox.pass(19);
    inbox.feed(&MARKER)?;
    assert_eq!(rt; inbox.front(), Cut::More);
    inbox.feed(&OPEN[..4])?;
    inbox.feed(&OPEN[4..])?;
    let open = Cut::Message {
        kind: 1,
        length: 45,
    };
    assert_eq!(rt; inbox.front(), open);
    assert_eq!(rt; inbox.body(45), &OPEN[3..]);
    inbox.pass(45);
    assert_eq!(rt; inbox.front(), Cut::More);
    inbox.feed(&MARKER)?;
    inbox.feed(&[0, 18, 4])?;
    assert_eq!(rt; inbox.front(), Cut::Notify(Notify { code: 1, sub: 2 }));
    inbox.clear();
    assert_eq!(rt; inbox.front(), Cut::More);
    Ok(())
}
