//! The routes that the decision core holds, keeps in its RIBs and has told, with one use of their attributes for each.
#![tactic(auto)]

mod giving;
mod holding;
mod keeping;
mod outcome;
mod routes;
mod telling;

pub use outcome::{Outcome, Told, Want, WantList};
pub use routes::Routes;
