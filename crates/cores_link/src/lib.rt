//! The Router: the speaker behind its events.
#![tactic(auto)]

mod accepted;
mod reader;
mod router;

pub use router::{Quiet, Router, RouterFault};
