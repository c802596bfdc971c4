//! The tool elflint: the list of its rules by their numbers, and what they find in an object, as
//! lines of text.
//!
//! A rule is in the crate of its subject: elf_lint_headers, elf_lint_links, elf_lint_symbols or
//! elf_lint_hashes. The list of the rules, by their numbers, is in this crate, src/rules.rt.
//!
//! - `elflint`: shows the findings of all rules on two outputs; true where there are any.
//! - `LintTool`: the tool as an `ObjectTool`, for `show_file` of tool_objects: images and archives.
//! - `found_as_listed`: a theorem: by a hash section without findings, each name finds what a
//!   search among all symbols finds, or is not found there either.
//!
//! From `test_kit_runs`:
//!
//! ```text
//! fn answer<S: Source, O: Sink, E: Sink>(
//!     &self,
//!     alloc: Global,
//!     elf: &mut Elf<S>,
//!     out: &mut O,
//!     err: &mut E,
//! ) -> Result<bool, Stop> {
//!     elflint(alloc, elf, b"F", out, err)
//! }
//! ```
#![tactic(auto)]

mod laws;
mod rules;
mod survey;
mod tool;

pub use laws::found_as_listed;
pub use tool::{LintTool, elflint};
