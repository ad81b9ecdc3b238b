//! Path attributes as the bytes of an UPDATE, both ways.
#![tactic(auto)]

mod ascending;
mod communities;
mod cut_field;
mod fault;
mod field;
mod flag;
mod frame;
mod join;
mod kind;
mod kinds;
mod laws;
mod outcome;
mod parts;
mod path;
mod prefixes;
mod put;
mod put_path;
mod put_prefixes;
mod reach;
mod reading;
mod said;
mod sizes;
mod together;
mod unknown;
mod update_fault;
mod values;
mod writing;

pub use fault::is_known_kind;
pub use frame::{frame_attrs_size, read_frame_attrs, write_frame_attrs};
pub use laws::{
    attributes_read_back, attributes_split, frame_attributes_read_back, joined_paths_keep_length,
    prefixes_read_back, read_attributes_are_valid,
};
pub use outcome::ReadAttrs;
pub use prefixes::{addr_in, are_prefixes, read_prefixes};
pub use put_prefixes::{prefixes_size, write_prefixes, write_reach, write_unreach};
pub use reading::read_attrs;
pub use sizes::{announced_size, attrs_size, size};
pub use update_fault::UpdateFault;
pub use writing::write_attrs;
