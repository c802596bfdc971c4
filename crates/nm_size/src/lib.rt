//! Passes on the tools nm, size and strings: the symbols of an object, the sizes of its sections,
//! and the printable runs of a file.
//!
//! Each is a crate of its own, nm_tool, size_tool and strings_tool, with its options, its rows and
//! its report.
//!
//! - `nm`: shows the symbols of an object, by `NmOptions` of nm_tool.
//! - `size`: shows how much memory the sections of an object take.
//! - `strings`: shows the printable runs of a source, by `StringsOptions` of strings_tool.
//! - `NmTool`: of nm_tool: nm as an `ObjectTool`, for `show_file` of tool_objects; so `SizeTool`.
//!
//! From `test_kit_runs`:
//!
//! ```text
//! fn answer<S: Source, O: Sink, E: Sink>(
//!     &self,
//!     alloc: Global,
//!     elf: &mut Elf<S>,
//!     out: &mut O,
//!     err: &mut E,
//! ) -> Result<bool, Stop> {
//!     nm(alloc, elf, self.0, b"F", out, err)
//! }
//! ```
#![tactic(auto)]

pub use nm_tool::nm;
pub use size_tool::size;
pub use strings_tool::strings;
