ghost use Rattle.std.specs.Prelude.{◌≡◌};
ghost use Rattle.session_fsm.specs.Table.{has_connection_in};

/// The state of a session (RFC 4271, section 8.2.2), with one that it has while an operator keeps it down.
#[derive(Clone, Copy, Debug, PartialEq, Eq)]
pub enum State {
    Down,
    Idle,
    Connect,
    Active,
    OpenSent,
    OpenConfirm,
    Established,
}

impl State {
    /// Whether a connection stands in this state.
    pub fn has_connection(self) -> bool
        ensures { result ≡ has_connection_in self }
    {
        match self {
            State::Down | State::Idle | State::Connect | State::Active => false,
            State::OpenSent | State::OpenConfirm | State::Established => true,
        }
    }
}

/// A session as its state machine sees it. Times are in seconds on the clock of the events, whose last is 2^64 - 1.
#[derive(Clone, Copy, Debug, PartialEq, Eq)]
pub struct Peer {
    pub state: State,
    /// Whether the peer is left to connect.
    pub passive: bool,
    /// The hold time in seconds that the last OPEN agreed; 0 for none, and before any.
    pub hold: u16,
    /// When the session ends unless a message comes before.
    pub hold_at: Option<u64>,
    /// When the next KEEPALIVE is sent.
    pub keep_at: Option<u64>,
    /// When the session leaves Idle.
    pub idle_at: Option<u64>,
}
