//! The bytes of one BGP connection: messages that wait to be sent, and bytes that are no whole message yet.
#![tactic(auto)]

mod inbox;
mod laws;
mod outbox;
mod outgoing;
mod short;

pub use inbox::Inbox;
pub use laws::messages_through_an_inbox;
pub use outbox::{Outbox, Sent, Waiting};
pub use outgoing::Outgoing;
pub use short::{Keepalive, Open, RouteRefresh};
