//! The messages of the speaker: events that come in, answers that go out, and the frames between its cores.
#![tactic(auto)]

mod answer;
mod control;
mod event;
mod frame;
mod parts;
mod row;
mod row_text;

pub use answer::{AddrList, Answer, Line, LineList, Refusal};
pub use control::{CtlCommand, SessionAction};
pub use event::{Event, WordList};
pub use frame::{Agreed, Done, Frame, SendList};
pub use parts::{Core, LinkName, Part, PartName};
pub use row::{Coupling, Row, RowList, State, Table};
pub use row_text::{print_route, print_summary};
