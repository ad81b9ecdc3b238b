//! The state machine of one BGP session: what a state and an event lead to.
#![tactic(auto)]

mod event;
mod peer;
mod table;

pub use event::{Actions, SessionEvent};
pub use peer::{Peer, State};
pub use table::step;
