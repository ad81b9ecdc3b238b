//! Law: the canonical text of a configuration is read as its canonical draft.
#![tactic(auto)]

mod laws;

pub use laws::canonical_texts_are_read;
