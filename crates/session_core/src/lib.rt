//! The session core: the connections of all neighbours, their sessions, and what a configuration says of them.
#![tactic(auto)]

mod event;
mod laws;
mod live;
mod neighbours;
mod session;
mod settings;
mod shows;

pub use laws::{
    bytes_alone_bring_sessions_up, numbers_climb_by_one, numbers_follow_the_frames,
    reports_are_of_their_kinds, time_is_told,
};
pub use peer_session::SessionRefusal;
pub use session::Session;
