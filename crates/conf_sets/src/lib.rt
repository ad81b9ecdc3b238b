//! The sets of a configuration, asked for what they hold.
#![tactic(auto)]

mod as_table;
mod range_side;
mod range_table;
mod sets;
mod tables;

pub use sets::Sets;
