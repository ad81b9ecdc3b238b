use crate::{Core, LineList};
use attr_model::Attrs;
use conf_tree::Text;
use net_base::{Addr, Bytes, Family, Items, Prefix, PrefixList};

/// What a session exchanges.
#[derive(Clone, Copy, Debug, PartialEq, Eq)]
pub struct Agreed {
    /// IPv4 unicast prefixes.
    pub v4: bool,
    /// IPv6 unicast prefixes.
    pub v6: bool,
    /// AS numbers of four octets (RFC 6793).
    pub as4: bool,
    /// Route refresh (RFC 2918).
    pub refresh: bool,
}

/// A frame between two cores. Sessions have numbers from 1 on, in the order in which they came up.
#[derive(Debug, Drop)]
pub enum Frame {
    /// A configuration begins: its generation, and the length in bytes of its canonical text.
    Begin {
        generation: u32,
        length: u32,
    },
    /// The next bytes of the text, 1 to 16000.
    Piece(Bytes),
    /// The text of this generation is whole: it holds from now on.
    Commit(u32),
    /// The configuration of this generation was taken up.
    Ack(u32),
    /// A session came up.
    Up {
        session: u32,
        peer: Addr,
        /// The neighbour's AS number.
        asn: u32,
        /// The neighbour's BGP identifier.
        id: u32,
        agreed: Agreed,
    },
    /// A session ended.
    Down {
        session: u32,
    },
    /// Routes of one family: withdrawn ones, and then those that are announced with the same attributes.
    Routes {
        session: u32,
        family: Family,
        withdrawn: PrefixList,
        announced: Option<(Attrs, PrefixList)>,
    },
    /// So many UPDATEs of a session were sent, at least 1.
    Credit {
        session: u32,
        messages: u32,
    },
    /// The neighbour of a session asks for the routes of a family again.
    Refresh {
        session: u32,
        family: Family,
    },
    /// A session is to end with this code and subcode: it holds so many routes, and may hold so many.
    Close {
        session: u32,
        code: u8,
        sub: u8,
        held: u64,
        most: u32,
    },
    /// Whether a next hop is valid is asked.
    Track(Addr),
    /// It is asked no more.
    Untrack(Addr),
    /// Whether a next hop is valid.
    Nexthop {
        hop: Addr,
        valid: bool,
    },
    /// A row of a kernel table: the prefix and its next hop.
    FibSet {
        table: u32,
        prefix: Prefix,
        hop: Addr,
    },
    /// A kernel table has no row of the prefix any more.
    FibDel {
        table: u32,
        prefix: Prefix,
    },
    /// Whether routes go into a kernel table.
    Couple {
        table: u32,
        on: bool,
    },
    /// The words of a control command, with a blank between two.
    CtlWords(Text),
    /// A part of the text of an answer.
    CtlText(Text),
    /// The end of an answer, with a status.
    CtlEnd(u8),
}

/// Frames in the order in which a core wrote them, each with the core that it goes to.
pub type SendList = Items<(Core, Frame)>;

/// What a call of a core gave: the lines that it reports and the frames that it writes, each in their order.
#[derive(Debug, Drop)]
pub struct Done {
    pub lines: LineList,
    pub frames: SendList,
}
