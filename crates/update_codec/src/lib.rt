//! UPDATE messages, both ways.
#![tactic(auto)]

mod holding;
mod laws;
mod out_update;
mod reading;
mod update;
mod writing;

pub use holding::{held, take_update, told};
pub use laws::{
    held_attributes_are_valid, held_by_last_word, held_goes_on, held_hops_have_the_family,
    update_attributes_are_valid, updates_read_back, written_types_ascend,
};
pub use out_update::OutUpdate;
pub use reading::read_update;
pub use update::{GroupList, Update};
pub use writing::{fits, write_update};
