//! Bytes of the wire: a FIFO that they are put into and a cursor that reads fields from the front.
#![tactic(auto)]

mod cursor;
mod pipe;

pub use cursor::{Cursor, Short};
pub use pipe::Pipe;
