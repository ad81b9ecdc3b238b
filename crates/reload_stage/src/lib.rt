//! The way from a text to a configuration, and the stages in which a configuration goes from one core to another.
#![tactic(auto)]

mod assembly;
mod fault;
mod item;
mod laws;
mod reading;
mod staging;

pub use assembly::{Assembly, Progress};
pub use conf_lex::TEXT_LIMIT;
pub use fault::StageFault;
pub use item::{StageItem, StageList};
pub use laws::stages_give_configurations;
pub use reading::{STAGE_LIMIT, read_conf, read_draft};
pub use staging::frames;
