//! The commands that make no file and show what is in the files that they name: readelf, nm, size,
//! strings, lines and elflint.
//!
//! A command on files is a `FileTool`: `one_file` gives it a file while it is open, `each_file` one
//! file after another. A command on objects hands its tool to `each_object`.
#![tactic(auto)]

mod commands;
pub mod files;
mod objects;
pub mod prelude;
pub mod titled_nm;
pub mod titles;

pub use commands::elflint::run_elflint;
pub use commands::lines::run_lines;
pub use commands::nm::run_nm;
pub use commands::readelf::run_readelf;
pub use commands::size::run_size;
pub use commands::strings::run_strings;
pub use files::{FileTool, one_file};
