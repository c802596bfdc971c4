//! The command `rehash`: the hash sections of the dynamic symbols of an image are rebuilt, and the
//! image is written to a new file.
//!
//! `rehash` does so with a descriptor, `write_rehashed` writes what it leaves, and `RehashCommand`
//! does both with what an open file holds.
#![tactic(auto)]

pub mod edits;
mod layouts;
pub mod rehashing;
mod sections;
mod shapes;
mod steps;
pub mod writing;

pub use edits::RehashCommand;
pub use rehashing::rehash;
pub use writing::write_rehashed;
