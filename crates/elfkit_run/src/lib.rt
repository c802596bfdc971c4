//! A run of elfkit: from the arguments of the command line, over a set of files and the two
//! outputs, to a status.
#![tactic(auto)]

mod commands;
pub mod prelude;
mod program;
mod sentences;

pub use program::run;
pub use tool_output::Status;
