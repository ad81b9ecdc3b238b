//! Law: how long the canonical text of a configuration is.
#![tactic(auto)]

mod laws;

pub use laws::canonical_texts_are_measured;
