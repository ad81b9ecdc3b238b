//! The canonical text of a configuration.
#![tactic(auto)]

mod globals;
mod groups;
mod items;
mod neighbours;
mod printed;
mod rules;
mod sets;
mod whole;
mod words;

pub use whole::print;
