//! The command `calls`: it reads a script, runs its calls on an image one after another, and writes
//! a line for each result.
//!
//! `show_calls` runs calls on a descriptor and `show_calls_on` on what a file holds. `read_calls`
//! reads the calls of a script from a source, and `tell_script` also shows its message.
//!
//! - `update`: `calls` with `-o` and `-i`: the image that the calls leave goes to a new file, or
//!   into the file in place.
#![tactic(auto)]

pub mod files;
mod lines;
pub mod runs;
pub mod scripts;
pub mod update;

pub use files::{refuse_image, show_calls_on};
pub use lines::AnswerLine;
pub use runs::{show_answer, show_calls};
pub use scripts::{BadLine, read_calls, refuse_script, tell_script};
