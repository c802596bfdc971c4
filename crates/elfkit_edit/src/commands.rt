//! The commands, and calls with each of its options, one file each.

pub mod calls;
pub mod calls_in_place;
pub mod calls_into;
pub mod calls_to;
pub mod rehash;
