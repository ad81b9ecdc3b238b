//! What the decision core was told: its configuration, the sessions with the routes that they hold, and the answers for next hops;
//! and what follows from that for one prefix, one RIB and one session.
#![tactic(auto)]

mod exporting;
mod importing;
mod live;
mod view;

pub use exporting::want;
pub use importing::candidates;
pub use live::Live;
pub use view::View;
