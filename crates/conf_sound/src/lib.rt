//! Laws: what every configuration keeps that a text of the language says.
#![tactic(auto)]

mod laws;

pub use laws::{
    configurations_are_settled, configurations_are_within_limits, configurations_can_be_written,
    configurations_have_few_sets,
};
