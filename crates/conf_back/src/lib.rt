//! Law: the canonical draft of a configuration stands for that configuration.
#![tactic(auto)]

mod laws;

pub use laws::canonical_drafts_stand;
