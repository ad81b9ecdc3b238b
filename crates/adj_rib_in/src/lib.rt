//! The routes that neighbours announced, by prefix and session (the Adj-RIBs-In of RFC 4271 section 3.2).
#![tactic(auto)]

mod by_prefix;
mod by_session;
mod row;
mod table;

pub use row::Entry;
pub use table::{AdjRibIn, DroppedList};
