//! The new file of a plan: its image is copied range by range out of an open file.
//!
//! `write_plan` does so for a command: it puts what waits for the outputs before. `make_plan` makes
//! the file alone, for a command that makes two. `strip`, `copy` and `unstrip` write through these.
#![tactic(auto)]

pub mod prelude;
pub mod writing;

pub use writing::{make_plan, not_refused, write_plan};
