//! The tokens of a configuration text: its lines are joined, cut into tokens, and their macros replaced.
#![tactic(auto)]

mod classes;
mod cut;
mod definition;
mod expanding;
mod line;
mod macros;
mod names;
mod reader;
mod reading;
mod rules;
mod run;
mod values;

pub use reading::{TEXT_LIMIT, tokens};
