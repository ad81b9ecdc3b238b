//! Which prefixes of one RIB are still to be gone over again.
//!
//! A sweep is a cursor over the known prefixes, so that marking them all takes neither memory nor time. Prefixes that
//! are marked one by one stand in a set beside it.
#![tactic(auto)]

mod cursor;
mod marks;

pub use marks::Marks;
