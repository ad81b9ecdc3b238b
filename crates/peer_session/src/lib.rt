//! One neighbour of the speaker: its session's state, the bytes of its connection both ways, and what its OPEN said.
#![tactic(auto)]

mod hearing;
mod neighbour;
mod refusal;
mod routes;
mod update_message;
mod writable;

pub use neighbour::{NeighbourSession, Settings};
pub use refusal::SessionRefusal;
pub use update_message::UpdateMessage;
