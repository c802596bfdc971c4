//! The tool lines: the files of each unit, and of each row its address, file, line and column, as
//! lines of text (DWARF 2 to 4, section 6.2).
#![tactic(auto)]

pub mod rows;
pub mod tables;
pub mod tool;
pub mod units;

pub use tool::{LinesTool, lines};
