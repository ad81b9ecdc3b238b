//! Attributes that many routes share, each under one number with the count of its uses.
#![tactic(auto)]

mod hashed;
mod table;

pub use table::AttrTable;
