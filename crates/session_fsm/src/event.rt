/// What can happen to a session (RFC 4271, section 8.1).
#[derive(Clone, Copy, Debug, PartialEq, Eq)]
pub enum SessionEvent {
    /// The neighbour comes into the configuration.
    Comes,
    /// A connection with it stands.
    Opened,
    /// An acceptable OPEN, with the hold time in seconds that both ends agreed, 0 for none.
    Open(u16),
    /// A KEEPALIVE.
    Keepalive,
    /// An UPDATE that was read.
    Update,
    /// A ROUTE-REFRESH.
    Refresh,
    /// Another message with a good header that isn't a NOTIFICATION.
    Other,
    /// A message that is to be answered by a NOTIFICATION of this code and sub code.
    Bad(u8, u8),
    /// A NOTIFICATION.
    Received,
    /// The connection is lost, or couldn't be made.
    Lost,
    /// The time came to look at the deadlines. The first that is reached counts: hold before keepalive before idle.
    Deadline,
    /// The peer announced more prefixes than it may.
    Close,
    /// An operator takes the session down, or the speaker stops.
    AdminDown,
    /// An operator brings the session up.
    AdminUp,
    /// An operator ends the connection.
    Clear,
    /// A new configuration ends the connection with Cease of this sub code (RFC 4486).
    Ends(u8),
}

/// What a step of a session asks for, in the order in which it is done.
#[derive(Clone, Copy, Debug, PartialEq, Eq)]
pub struct Actions {
    /// Send the own OPEN.
    pub send_open: bool,
    /// Send a KEEPALIVE.
    pub keepalive: bool,
    /// Send a NOTIFICATION of this code and sub code.
    pub notify: Option<(u8, u8)>,
    /// Connect to the peer.
    pub connect: bool,
    /// The session came up.
    pub up: bool,
    /// The session was up, and goes down.
    pub down: bool,
}

impl Actions {
    /// Nothing is to be done.
    pub const NONE: Actions = Actions {
        send_open: false,
        keepalive: false,
        notify: None,
        connect: false,
        up: false,
        down: false,
    };
}
