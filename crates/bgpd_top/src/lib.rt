//! The top calls: the commands of the program over the objects that they are handed.
#![tactic(auto)]

mod checking;
mod program;
mod replay;
mod replay_world;
mod serving;
mod status;
mod world;

pub use program::{Command, bgpd_main};
pub use replay::EventReader;
pub use replay_world::ReplayWorld;
pub use serving::{ServeFault, serve};
pub use status::Status;
pub use world::{World, WorldEnd, WorldFault};
