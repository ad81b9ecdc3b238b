//! Worlds, and the plain program that computes the tables of a world. It is the yardstick of what the speaker keeps, and
//! stays as plain as the definitions.
#![tactic(auto)]

mod counting;
mod exporting;
mod importing;
mod laws;
mod networks;
mod rows;
mod tables;
mod world;

pub use counting::distinct;
pub use exporting::export;
pub use importing::{CandidateList, candidates, import, network_attrs, network_candidate};
pub use laws::{
    candidates_go_by_their_routes, loc_of_networks, local_pref_is_told_within_the_own_as,
    numbers_keep_their_width, told_goes_by_the_best, unknown_prefixes_have_no_candidates,
    what_is_told_may_be_sent,
};
pub use networks::network_rows;
pub use rows::loc;
pub use tables::{FibList, OutList, best_at, fib, known_prefixes, out};
pub use world::{AnswerList, Hops, Session, SessionList, World};
