ghost use Rattle.std.specs.Prelude.{◌≡◌, ℕ, IsTrue};
ghost use Rattle.session_fsm.specs.declared.event.SessionEvent.TheVariants as events;
ghost use Rattle.session_fsm.specs.Table.{IsStep, agrees, begins, comes_up, deadline_of, ends_by, follows, goes_down, has_connection_in, idles, is_reached, keeps, later, opens, renews, row};

use crate::{Actions, Peer, SessionEvent, State};

/// How long a peer has for its OPEN, in seconds.
const BEFORE_OPEN: u64 = 240;
/// How long a session stays in Idle, in seconds.
const IDLE_HOLD: u64 = 30;

/// One step of a session: what an event leads to at the time `now`, in seconds (RFC 4271, section 8).
///
/// It follows one row of the table of states and events. A state and an event that have no row leave all as it was.
pub fn step(peer: &mut Peer, event: &SessionEvent, now: u64) -> Actions
    ensures { IsStep (follows peer.old event.now now) peer.new result }
{
    match *event {
        SessionEvent::Comes => comes(peer),
        SessionEvent::Opened => opened(peer, now),
        SessionEvent::Open(hold) => open(peer, hold, now),
        SessionEvent::Keepalive => keepalive(peer, now),
        SessionEvent::Update | SessionEvent::Refresh => taken(peer, now),
        SessionEvent::Other => end(peer, Some((5, 0)), now),
        SessionEvent::Bad(code, sub) => end(peer, Some((code, sub)), now),
        SessionEvent::Received => end(peer, None, now),
        SessionEvent::Lost => lost(peer, now),
        SessionEvent::Deadline => deadline(peer, now),
        SessionEvent::Close => end(peer, Some((6, 1)), now),
        SessionEvent::AdminDown => go_down(peer),
        SessionEvent::AdminUp => admin_up(peer),
        SessionEvent::Clear => end(peer, Some((6, 4)), now),
        SessionEvent::Ends(2) => go_down(peer),
        SessionEvent::Ends(sub) => end(peer, Some((6, sub)), now),
    }
}

// The neighbour comes.
fn comes(peer: &mut Peer) -> Actions
    ensures { (now : ℕ) → IsStep (row peer.old.state events.Comes peer.old now) peer.new result }
{
    match peer.state {
        State::Idle => begin(peer),
        State::Down
        | State::Connect
        | State::Active
        | State::OpenSent
        | State::OpenConfirm
        | State::Established => Actions::NONE,
    }
}

// A connection stands.
fn opened(peer: &mut Peer, now: u64) -> Actions
    ensures { IsStep (row peer.old.state events.Opened peer.old now) peer.new result }
{
    match peer.state {
        State::Idle | State::Connect | State::Active => send_open(peer, now),
        State::Down | State::OpenSent | State::OpenConfirm | State::Established => Actions::NONE,
    }
}

// An acceptable OPEN came.
fn open(peer: &mut Peer, hold: u16, now: u64) -> Actions
    ensures { IsStep (row peer.old.state (events.Open hold) peer.old now) peer.new result }
{
    match peer.state {
        State::OpenSent => agree(peer, hold, now),
        State::Down
        | State::Idle
        | State::Connect
        | State::Active
        | State::OpenConfirm
        | State::Established => end(peer, Some((5, 0)), now),
    }
}

// A KEEPALIVE came.
fn keepalive(peer: &mut Peer, now: u64) -> Actions
    ensures { IsStep (row peer.old.state events.Keepalive peer.old now) peer.new result }
{
    match peer.state {
        State::OpenConfirm => come_up(peer),
        State::Established => renew(peer, now),
        State::Down | State::Idle | State::Connect | State::Active | State::OpenSent => {
            end(peer, Some((5, 0)), now)
        }
    }
}

// A message came that only an established session takes: an UPDATE or a ROUTE-REFRESH.
fn taken(peer: &mut Peer, now: u64) -> Actions
    ensures update { IsStep (row peer.old.state events.Update peer.old now) peer.new result }
    ensures refresh { IsStep (row peer.old.state events.Refresh peer.old now) peer.new result }
{
    match peer.state {
        State::Established => renew(peer, now),
        State::Down
        | State::Idle
        | State::Connect
        | State::Active
        | State::OpenSent
        | State::OpenConfirm => end(peer, Some((5, 0)), now),
    }
}

// The connection is lost, or couldn't be made.
fn lost(peer: &mut Peer, now: u64) -> Actions
    ensures { IsStep (row peer.old.state events.Lost peer.old now) peer.new result }
{
    match peer.state {
        State::Connect => {
            idle(peer, now);
            Actions::NONE
        }
        State::Down
        | State::Idle
        | State::Active
        | State::OpenSent
        | State::OpenConfirm
        | State::Established => end(peer, None, now),
    }
}

// The first deadline that is reached, of those that the state has.
fn deadline(peer: &mut Peer, now: u64) -> Actions
    ensures { IsStep (row peer.old.state events.Deadline peer.old now) peer.new result }
{
    match peer.state {
        State::Idle if reached(peer.idle_at, now) => begin(peer),
        State::Down | State::Idle | State::Connect | State::Active => Actions::NONE,
        State::OpenSent | State::OpenConfirm | State::Established => connection_deadline(peer, now),
    }
}

// The first deadline of a connection that is reached.
fn connection_deadline(peer: &mut Peer, now: u64) -> Actions
    requires { IsTrue (has_connection_in peer.old.state) }
    ensures { IsStep (row peer.old.state events.Deadline peer.old now) peer.new result }
{
    if reached(peer.hold_at, now) {
        return end(peer, Some((4, 0)), now);
    }
    match peer.state {
        State::OpenConfirm | State::Established => keep(peer, now),
        State::Down | State::Idle | State::Connect | State::Active | State::OpenSent =>
            Actions::NONE,
    }
}

// An operator brings the session up.
fn admin_up(peer: &mut Peer) -> Actions
    ensures { (now : ℕ) → IsStep (row peer.old.state events.AdminUp peer.old now) peer.new result }
{
    match peer.state {
        State::Down => begin(peer),
        State::Idle
        | State::Connect
        | State::Active
        | State::OpenSent
        | State::OpenConfirm
        | State::Established => Actions::NONE,
    }
}

// Idle or Down is left.
fn begin(peer: &mut Peer) -> Actions
    ensures { IsStep (begins peer.old) peer.new result }
{
    peer.state = if peer.passive {
        State::Active
    } else {
        State::Connect
    };
    peer.idle_at = None;
    Actions {
        connect: !peer.passive,
        ..Actions::NONE
    }
}

// The own OPEN is sent.
fn send_open(peer: &mut Peer, now: u64) -> Actions
    ensures { IsStep (opens peer.old now) peer.new result }
{
    peer.state = State::OpenSent;
    peer.hold_at = Some(after(now, BEFORE_OPEN));
    peer.keep_at = None;
    peer.idle_at = None;
    Actions {
        send_open: true,
        ..Actions::NONE
    }
}

// Both OPENs agree on this hold time.
fn agree(peer: &mut Peer, hold: u16, now: u64) -> Actions
    ensures { IsStep (agrees peer.old hold now) peer.new result }
{
    peer.state = State::OpenConfirm;
    peer.hold = hold;
    peer.hold_at = deadline_after(hold, now, hold);
    peer.keep_at = deadline_after(hold, now, hold / 3);
    Actions {
        keepalive: true,
        ..Actions::NONE
    }
}

// The session is up.
fn come_up(peer: &mut Peer) -> Actions
    ensures { IsStep (comes_up peer.old) peer.new result }
{
    peer.state = State::Established;
    Actions {
        up: true,
        ..Actions::NONE
    }
}

// A message of an established session renews its hold deadline.
fn renew(peer: &mut Peer, now: u64) -> Actions
    ensures { IsStep (renews peer.old now) peer.new result }
{
    peer.hold_at = deadline_after(peer.hold, now, peer.hold);
    Actions::NONE
}

// The keepalive deadline, where it is reached.
fn keep(peer: &mut Peer, now: u64) -> Actions
    ensures { IsStep (keeps peer.old now) peer.new result }
{
    if !reached(peer.keep_at, now) {
        return Actions::NONE;
    }
    peer.keep_at = Some(after(now, u64::from(peer.hold / 3)));
    Actions {
        keepalive: true,
        ..Actions::NONE
    }
}

// A connection ends, with this NOTIFICATION if there is one. Without a connection nothing happens.
fn end(peer: &mut Peer, notify: Option<(u8, u8)>, now: u64) -> Actions
    ensures { IsStep (ends_by notify peer.old now) peer.new result }
{
    if !peer.state.has_connection() {
        return Actions::NONE;
    }
    let down = peer.state == State::Established;
    idle(peer, now);
    Actions {
        notify,
        down,
        ..Actions::NONE
    }
}

// Idle, until its deadline.
fn idle(peer: &mut Peer, now: u64)
    ensures { peer.new ≡ idles peer.old now }
{
    peer.state = State::Idle;
    peer.hold_at = None;
    peer.keep_at = None;
    peer.idle_at = Some(after(now, IDLE_HOLD));
}

// Down, with Cease 6/2 where a connection stands (RFC 4486, administrative shutdown).
fn go_down(peer: &mut Peer) -> Actions
    ensures { IsStep (goes_down peer.old) peer.new result }
{
    let ended = peer.state.has_connection();
    let down = peer.state == State::Established;
    peer.state = State::Down;
    peer.hold_at = None;
    peer.keep_at = None;
    peer.idle_at = None;
    Actions {
        notify: if ended { Some((6, 2)) } else { None },
        down,
        ..Actions::NONE
    }
}

// So many seconds later, at most the clock's last.
fn after(now: u64, seconds: u64) -> u64
    ensures { result ≡ later now seconds }
{
    now.saturating_add(seconds)
}

// So many seconds later, where the agreed hold time isn't 0.
fn deadline_after(hold: u16, now: u64, seconds: u16) -> Option<u64>
    ensures { result ≡ deadline_of hold now seconds }
{
    if hold == 0 {
        return None;
    }
    Some(after(now, u64::from(seconds)))
}

// Whether there is such a deadline and now isn't less.
fn reached(deadline: Option<u64>, now: u64) -> bool
    ensures { result ≡ is_reached deadline now }
{
    match deadline {
        Some(at) => at <= now,
        None => false,
    }
}
