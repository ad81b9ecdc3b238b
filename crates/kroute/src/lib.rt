//! The routing tables of the kernel, and what is wanted of them.
#![tactic(auto)]

mod kernel;
mod laws;
mod listing;
mod phase;
mod table;
mod tables;

pub use kernel::{HopList, Kernel, TableMemory};
pub use laws::{settled_tables_hold_what_is_wanted, tables_agree_with_the_kernel};
pub use phase::{Coupling, Phase, Work};
pub use tables::Tables;
