//! The parent: it takes up configurations, says which next hops are valid, and keeps the kernel tables.
#![tactic(auto)]

mod fault;
mod kernel_tables;
mod laws;
mod parent;
mod reloads;
mod sending;

pub use fault::ReloadRefusal;
pub use laws::{
    both_cores_get_one_stage, bounds_stay, last_answers_hold, lost_tables_rest,
    settled_tables_hold_what_is_wanted,
};
pub use parent::Parent;
pub use reloads::{Reloads, Stage};
