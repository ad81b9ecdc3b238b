//! What each session was told, what is queued for it, and which of its messages are in flight (the Adj-RIBs-Out of RFC 4271
//! section 3.2).
#![tactic(auto)]

mod building;
mod give;
mod look;
mod packing;
mod rows;
mod session;
mod table;

pub use look::{Built, Look, LookList};
pub use table::AdjRibOut;
