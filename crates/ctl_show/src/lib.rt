//! Control commands by their words, and the rows that shows print (bgpctl(8)).
#![tactic(auto)]

mod pieces;
mod read;
mod rows;

pub use read::{CtlFault, read_ctl};
pub use rows::show;
