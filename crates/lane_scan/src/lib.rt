//! Searches of flat lists, several entries at a time in the lanes of a vector.
#![tactic(auto)]

mod columns;
mod covering;
mod lanes;
mod numbers;
mod ones;

pub use columns::{Columns, Slot};
pub use covering::next_covering;
pub use numbers::has_as;
pub use ones::all_ones;
