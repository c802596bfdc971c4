//! Line number programs of DWARF 2, 3 and 4 (DWARF 4, section 6.2) in the 32-bit format: the names
//! of a unit's files, and the rows of its table.
//!
//! It does not read version 5, the 64-bit format, and programs with more than one operation in an
//! instruction. It relocates nothing: in an object of type REL the addresses are the bytes as they
//! are stored.
//!
//! - `unit_at`: reads and executes the unit at a place of a `.debug_line` section; None at its end.
//! - `Unit`: its files, its rows, and the place of the next unit.
//! - `Row`: address, file, line and column of an instruction, and what else the row tells.
//! - `LineFault`: why a unit is rejected, with its place: `LineWhy` has a text for each reason.
//!
//! From `test_formats`:
//!
//! ```text
//! fn next_of(alloc: Global, section: &[u8], place: usize) -> Result<u64, LineFault> {
//!     if place > section.len() {
//!         return Err(LineFault::Memory);
//!     }
//!     match unit_at(alloc, section, place as u64, WIDE.0, WIDE.1)? {
//!         Some(unit) => Ok(unit.next),
//!         None => Ok(0),
//!     }
//! }
//! ```
#![tactic(auto)]

mod faults;
mod header;
mod opcodes;
mod opening;
mod operations;
mod program;
mod reader;
mod rows;
mod tables;
mod units;

pub use faults::{LineFault, LineWhy};
pub use opcodes::constants_are;
pub use rows::{FileNames, Row, Rows};
pub use units::{Unit, unit_at};
