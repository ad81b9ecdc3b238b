//! Laws: a statement goes by its own tokens, and a fault by the tokens up to it.
#![tactic(auto)]

mod laws;

pub use laws::{faults_go_by_their_tokens, tokens_are_those_of_statements};
