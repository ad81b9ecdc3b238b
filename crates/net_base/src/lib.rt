//! Addresses, prefixes, numbers, lists, and the small types that every other crate speaks of.
#![tactic(auto)]

mod addr;
mod conf;
mod core_fault;
mod items;
pub mod number;
mod prefix;
mod prefix_set;
mod printing;
mod roa;
mod text_length;
mod way;

pub use addr::{Addr, BadAddr, Family};
pub use conf::{ConfError, ConfFault, ConfKind, Counted};
pub use core_fault::CoreFault;
pub use items::{Bytes, Items, PrefixList};
pub use prefix::{BadPrefix, Prefix};
pub use prefix_set::PrefixSet;
pub use roa::{Ovs, Roa, RoaList};
use std::alloc::AllocError;
pub use way::Way;

/// An allocation was refused. Nothing else is wrong.
pub type NoMemory = AllocError;
