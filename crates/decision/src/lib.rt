//! The choice of the best among the routes to one prefix (RFC 4271 section 9.1.2.2).
#![tactic(auto)]

mod candidate;
mod choice;
mod laws;
mod meds;
mod point;
mod thinning;

pub use candidate::{Candidate, Found, FoundList, Origin};
pub use choice::{MOST_CANDIDATES, best};
pub use laws::{best_goes_by_members, best_is_a_member};
