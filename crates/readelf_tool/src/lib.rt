//! The tool readelf: headers, symbols, relocations and other parts of an object as lines of text,
//! each by an option.
//!
//! The lines of each part are in readelf_headers, readelf_tables and readelf_chains.
//!
//! - `readelf`: shows the parts that are asked for on two outputs; true where something was
//!   rejected.
//! - `ReadelfParts`: which parts are shown, a bool for each letter.
//! - `show_parts`: shows them between other lines, on `Outputs` of tool_output.
//! - `ReadelfTool`: the tool as an `ObjectTool`, for `show_file` of tool_objects: images and
//!   archives.
//!
//! From `test_kit_runs`:
//!
//! ```text
//! fn answer<S: Source, O: Sink, E: Sink>(
//!     &self,
//!     alloc: Global,
//!     elf: &mut Elf<S>,
//!     out: &mut O,
//!     err: &mut E,
//! ) -> Result<bool, Stop> {
//!     readelf(alloc, elf, self.0, b"F", out, err)
//! }
//! ```
#![tactic(auto)]

pub mod options;
pub mod parts;
pub mod versions;

pub use options::ReadelfParts;
pub use parts::{ReadelfTool, readelf, show_parts};
