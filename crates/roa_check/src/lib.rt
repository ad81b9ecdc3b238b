//! Origin validation of routes by a table of authorizations (RFC 6811).
#![tactic(auto)]

mod index;
mod side;
mod slot;
mod table;

pub use index::CoverIndex;
pub use slot::{same_family, slot_of};
pub use table::{RoaTable, matches_route, ovs};
