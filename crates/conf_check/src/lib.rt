//! The checks of a configuration that was read, and what it stands for.
#![tactic(auto)]

mod choices;
mod conditions;
mod doubles;
mod expand;
mod faults;
mod frame;
mod globals;
mod lists;
mod names;
mod neighbours;
mod options;
mod ordered;
mod placed;
mod rules;

pub use expand::check;
