//! The decision core: what neighbours announced goes into the RIBs, the best of each prefix to the neighbours and the kernel
//! tables (RFC 4271 section 9).
#![tactic(auto)]

mod building;
mod fib;
mod hops;
mod limits;
mod rde;
mod refreshing;
mod sending;
mod showing;
mod staging;
mod swapping;
mod tables;
mod taking;
mod units;

pub use rde::Decision;
