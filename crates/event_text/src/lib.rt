//! The texts of events and answers.
#![tactic(auto)]

mod event;
mod laws;
mod line;
mod print;
mod words;

pub use event::{EventFault, LinesHeld, is_reload, is_skipped, read_event};
pub use laws::transcripts_are_read_as_their_answers;
pub use line::{print_answer, print_line};
pub use print::print_event;
