use session_fsm::SessionEvent::{Comes, Deadline, Keepalive, Open, Opened, Update};
use session_fsm::State::{Active, Established, OpenConfirm, OpenSent};
use session_fsm::*;
use std::test::*;

/// A session before its first event.
const NEW: Peer = Peer {
    state: State::Idle,
    passive: false,
    hold: 0,
    hold_at: None,
    keep_at: None,
    idle_at: None,
};

/// A session that came up at time 0 with a hold time of 90 seconds.
const UP: Peer = Peer {
    state: State::Established,
    hold: 90,
    hold_at: Some(90),
    keep_at: Some(30),
    ..NEW
};

fn closed(code: u8, sub: u8, down: bool) -> Actions {
    Actions {
        notify: Some((code, sub)),
        down,
        ..Actions::NONE
    }
}

fn idle(until: u64, hold: u16) -> Peer {
    Peer {
        hold,
        idle_at: Some(until),
        ..NEW
    }
}

#[test]
fn a_peer_that_cannot_be_reached_is_tried_again_after_30_seconds(
    rt: HostRuntime,
) -> Result<(), Fail> {
    let mut peer = NEW;
    let connect = Actions {
        connect: true,
        ..Actions::NONE
    };
    assert_eq!(rt; step(&mut peer, &SessionEvent::Comes, 0), connect);
    assert_eq!(rt; step(&mut peer, &SessionEvent::Lost, 0), Actions::NONE);
    assert_eq!(rt; peer, idle(30, 0));
    assert_eq!(rt; step(&mut peer, &SessionEvent::Deadline, 29), Actions::NONE);
    assert_eq!(rt; step(&mut peer, &SessionEvent::Deadline, 30), connect);
    assert_eq!(rt; peer.state, State::Connect);
    Ok(())
}

const NOTHING: Actions = Actions::NONE;

const OPENS: Actions = Actions {
    send_open: true,
    ..NOTHING
};

const KEEPS: Actions = Actions {
    keepalive: true,
    ..NOTHING
};

const COMES_UP: Actions = Actions {
    up: true,
    ..NOTHING
};

// The event and its time; then the state, the hold and the keepalive deadline behind it, and what is done.
#[test]
fn a_session_comes_up(rt: HostRuntime) -> Result<(), Fail> {
    let mut peer = Peer {
        passive: true,
        ..NEW
    };
    for (event, now, state, hold_at, keep_at, actions) in [
        (Comes, 0, Active, None, None, NOTHING),
        (Opened, 0, OpenSent, Some(240), None, OPENS),
        (Open(90), 0, OpenConfirm, Some(90), Some(30), KEEPS),
        (Keepalive, 50, Established, Some(90), Some(30), COMES_UP),
        (Deadline, 89, Established, Some(90), Some(119), KEEPS),
        (Deadline, 89, Established, Some(90), Some(119), NOTHING),
        (Update, 89, Established, Some(179), Some(119), NOTHING),
        (Comes, 89, Established, Some(179), Some(119), NOTHING),
    ] {
        assert_eq!(rt; step(&mut peer, &event, now), actions);
        assert_eq!(rt;
            (peer.state, peer.hold_at, peer.keep_at),
            (state, hold_at, keep_at)
        );
    }
    Ok(())
}

#[test]
fn a_session_ends(rt: HostRuntime) -> Result<(), Fail> {
    for (event, now, actions) in [
        (SessionEvent::Deadline, 90, closed(4, 0, true)),
        (
            SessionEvent::Lost,
            7,
            Actions {
                down: true,
                ..Actions::NONE
            },
        ),
        (
            SessionEvent::Received,
            7,
            Actions {
                down: true,
                ..Actions::NONE
            },
        ),
        (SessionEvent::Other, 7, closed(5, 0, true)),
        (SessionEvent::Bad(3, 10), 7, closed(3, 10, true)),
        (SessionEvent::Close, 7, closed(6, 1, true)),
        (SessionEvent::Clear, 7, closed(6, 4, true)),
        (SessionEvent::Ends(3), 7, closed(6, 3, true)),
        (SessionEvent::Ends(6), u64::MAX, closed(6, 6, true)),
    ] {
        let mut peer = UP;
        assert_eq!(rt; step(&mut peer, &event, now), actions);
        assert_eq!(rt; peer, idle(now.saturating_add(30), 90));
    }
    let mut peer = UP;
    assert_eq!(rt;
        step(&mut peer, &SessionEvent::AdminDown, 7),
        closed(6, 2, true)
    );
    assert_eq!(rt;
        peer,
        Peer {
            state: State::Down,
            hold: 90,
            ..NEW
        }
    );
    Ok(())
}

#[test]
fn a_hold_time_of_0_never_ends_a_session(rt: HostRuntime) -> Result<(), Fail> {
    let mut peer = Peer {
        state: State::OpenSent,
        hold_at: Some(240),
        ..NEW
    };
    let _ = step(&mut peer, &SessionEvent::Open(0), 0);
    let _ = step(&mut peer, &SessionEvent::Keepalive, 0);
    assert_eq!(rt;
        step(&mut peer, &SessionEvent::Deadline, u64::MAX),
        Actions::NONE
    );
    assert_eq!(rt;
        peer,
        Peer {
            state: State::Established,
            ..NEW
        }
    );
    Ok(())
}
