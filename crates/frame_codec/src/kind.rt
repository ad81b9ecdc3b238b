ghost use Rattle.std.specs.Prelude.{◌≡◌};
ghost use Rattle.frame_codec.specs.Grammar.{kind_numbered, number_of};

/// The kind of a frame.
#[derive(Clone, Copy, Debug, PartialEq, Eq)]
pub enum Kind {
    Begin,
    Piece,
    Commit,
    Ack,
    Up,
    Down,
    Routes,
    Credit,
    Refresh,
    Close,
    Track,
    Untrack,
    Nexthop,
    FibSet,
    FibDel,
    Couple,
    CtlWords,
    CtlText,
    CtlEnd,
}

impl Kind {
    /// The number of the kind in a frame's header, 1 to 19.
    pub fn number(self) -> u32
        ensures { result ≡ number_of self }
    {
        match self {
            Kind::Begin => 1,
            Kind::Piece => 2,
            Kind::Commit => 3,
            Kind::Ack => 4,
            Kind::Up => 5,
            Kind::Down => 6,
            Kind::Routes => 7,
            Kind::Credit => 8,
            Kind::Refresh => 9,
            Kind::Close => 10,
            Kind::Track => 11,
            Kind::Untrack => 12,
            Kind::Nexthop => 13,
            Kind::FibSet => 14,
            Kind::FibDel => 15,
            Kind::Couple => 16,
            Kind::CtlWords => 17,
            Kind::CtlText => 18,
            Kind::CtlEnd => 19,
        }
    }

    /// The kind with this number, or None where it is 0 or above 19.
    pub fn numbered(number: u32) -> Option<Kind>
        ensures { result ≡ kind_numbered number }
    {
        let kind = match number {
            1 => Kind::Begin,
            2 => Kind::Piece,
            3 => Kind::Commit,
            4 => Kind::Ack,
            5 => Kind::Up,
            6 => Kind::Down,
            7 => Kind::Routes,
            8 => Kind::Credit,
            9 => Kind::Refresh,
            10 => Kind::Close,
            11 => Kind::Track,
            12 => Kind::Untrack,
            13 => Kind::Nexthop,
            14 => Kind::FibSet,
            15 => Kind::FibDel,
            16 => Kind::Couple,
            17 => Kind::CtlWords,
            18 => Kind::CtlText,
            19 => Kind::CtlEnd,
            _ => return None,
        };
        Some(kind)
    }
}
