//! Passes on the parts of scripts of library calls: reading one, applying its calls to an object,
//! and generating objects to apply them to.
//!
//! docs/CALLS.md describes the script. The three parts are elf_calls_script, elf_calls_apply and
//! elf_calls_generate; the command `calls` is in calls_tool.
//!
//! - `read_script`: the calls of a script, or its first bad line with the reason.
//! - `Call`: one call, with its section, piece and values.
//! - `apply`: makes a call on an `Elf`, and returns its result as an `Answer`.
//! - `generate`: an object with so many sections, each with a symbol: that of `selftest`.
//!
//! From `calls_tool`:
//!
//! ```text
//! fn calls_in(alloc: Global, bytes: &[u8]) -> Result<Result<Calls, BadLine>, Stop>
//!     ensures { IsScript result bytes.now }
//! {
//!     match read_script(alloc, bytes) {
//!         Ok(calls) => Ok(Ok(calls)),
//!         Err(ScriptFault::Line { line, why }) => Ok(Err(BadLine { line, why })),
//!         Err(ScriptFault::Memory) => Err(Stop::Memory),
//!     }
//! }
//! ```
#![tactic(auto)]

pub use elf_calls_apply::{Answer, apply};
pub use elf_calls_generate::generate;
pub use elf_calls_script::{Call, Calls, ScriptFault, read_script};
