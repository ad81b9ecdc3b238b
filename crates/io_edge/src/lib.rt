//! What comes in from the outside and what goes out: sources and sinks of bytes with counts of their faults, and the
//! lines of a source.
#![tactic(auto)]

mod clock;
mod faults;
mod files;
mod lines;
mod net;
mod port;
mod sink;
mod source;

pub use clock::{Clock, HostClock, MemoryClock};
pub use faults::{CallList, Failed, Failures};
pub use files::{FileFault, FileReading, Files, HostFiles, MemoryFile, MemoryFiles};
pub use lines::{LineFault, Lines, read_line};
pub use net::{EventList, MemoryNet, NetCall, NetEvent, NetFault, NetRecord, PeerNet};
pub use port::{CtlPort, MemoryPort};
pub use sink::{MemorySink, Sink, WriterSink};
pub use source::{MemorySource, ReaderSource, Source};
