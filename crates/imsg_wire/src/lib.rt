//! Frames between the cores: written behind one another, cut anywhere, and read again as they were written.
#![tactic(auto)]

mod header;
mod laws;
mod link;
mod raw;
mod reader;
mod writing;

pub use header::LONGEST_PAYLOAD;
pub use laws::{frames_split, links_append};
pub use link::Link;
pub use raw::{ImsgFault, Raw};
pub use reader::Reader;
pub use writing::frame;
