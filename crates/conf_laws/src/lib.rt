//! Laws of the configuration language: how long a canonical text is, and that it says its configuration.
#![tactic(auto)]

mod laws;

pub use laws::{canonical_texts_are_short, canonical_texts_read_back};
