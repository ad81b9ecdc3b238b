//! BGP messages: cutting them out of a peer's bytes, the OPEN both ways, and the messages without a
//! body of their own.
#![tactic(auto)]

mod front;
mod header;
mod hearing;
pub mod kind;
mod laws;
mod notify;
mod open;
mod refresh;
mod writing;

pub use front::Cut;
pub use header::{HEADER_LENGTH, LONGEST, cut};
pub use laws::{entries_split, messages_split};
pub use notify::Notify;
pub use open::{Encoding, OpenFacts, OpenRules, read_open};
pub use refresh::read_refresh;
pub use writing::{
    AS_TRANS, put_header, write_keepalive, write_notification, write_open, write_refresh,
};
