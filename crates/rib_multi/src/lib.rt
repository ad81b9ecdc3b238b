//! The local RIBs (the Loc-RIB of RFC 4271 section 3.2), several beside each other: for each prefix the candidates that
//! were kept last and the best of them, and which prefixes are still to be gone over again.
#![tactic(auto)]

mod change;
mod rib;
mod ribs;
mod row;
mod shown;

pub use change::{CandidateList, Change};
pub use ribs::{MOST_RIBS, RibMulti};
