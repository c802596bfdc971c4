//! The command `selftest`: it generates an image, changes its symbols, writes it to a file, and
//! shows five lines of what the file holds then.
#![tactic(auto)]

mod lines;
mod making;
pub mod prelude;
mod selftest;
mod telling;
mod values;

pub use lines::FiveLines;
pub use selftest::write_and_tell;
