//! Path attributes of routes: their types, what makes them valid, and the work on AS paths.
#![tactic(auto)]

mod attr_ref;
mod attrs;
mod laws;
mod path;
mod route_table;
mod row;

pub use attr_ref::AttrRef;
pub use attrs::{Attrs, CommunityList, LargeList, UnknownList};
pub use laws::equal_attributes_are_one;
pub use path::{AsList, Path, Segment};
pub use route_table::RouteTable;
pub use row::{Flag, RouteList, RouteRow};
