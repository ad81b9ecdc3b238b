//! What a run of the speaker means: its events with their answers, as definitions, and laws over them.
#![tactic(auto)]

mod laws;

pub use laws::{generations_climb, refusals_change_nothing, rows_come_from_the_last_configuration};
