//! The frames between the cores as bytes: what each writes, and what reads as which.
#![tactic(auto)]

mod fault;
mod fitting;
mod kind;
mod laws;
mod put;
mod reading;
mod take;
mod valid;
mod writing;

pub use fault::FrameFault;
pub use kind::Kind;
pub use laws::frames_read_back;
pub use reading::read;
pub use writing::write;
