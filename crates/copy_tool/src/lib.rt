//! The command `copy`: the image of a file, with sections removed, given other bytes, names or
//! flags, and added, is written to a new file.
//!
//! `read_changes` reads the files that the command line names, `write_copied` writes the image, in
//! which what is not changed is copied range by range of the open file, and `copy_file` does both
//! for a file by its name.
#![tactic(auto)]

mod changes;
pub mod commands;
mod faults;
mod files;
pub mod reading;
pub mod writing;

pub use commands::{CopyCommand, copy_file};
pub use reading::read_changes;
pub use writing::write_copied;
