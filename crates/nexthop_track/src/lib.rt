//! Next hops of routes, and the kernel routes by which they are valid (RFC 4271 section 9.1.2.1).
#![tactic(auto)]

mod below;
mod hops;

pub use hops::{ChangeList, HopChange, NextHops};
