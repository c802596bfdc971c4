//! The command `strip` without `-f`: an image without the sections that are removed is written to a
//! new file, range by range of the open one.
//!
//! The engine is in the rebuild crates. `removed` and `SectionSet` are of rebuild_select, `rebuild`
//! of rebuild_object, `arrange` of rebuild_making, `plan_rebuilt` of rebuild_plan.
//!
//! - `strip_named`: the whole command: opens the file, writes the new one, closes both.
//! - `plan_stripped`: where each part of the new image is, and which range of the file has its
//!   bytes.
//! - `write_plan`: of rebuild_files: writes such a plan to a new file.
//! - `removed`: of rebuild_select: the sections that go, as a set.
//! - `rebuild`: of rebuild_object: the object without them, in memory, of the same plan; `arrange`
//!   of rebuild_making gives its unloaded parts their places.
//!
//! From `test_rebuild`:
//!
//! ```text
//! fn gone_for<S: Source>(
//!     alloc: Global,
//!     elf: &mut Elf<S>,
//!     asked: Asked,
//! ) -> Result<SectionSet, ElfError> {
//!     match asked {
//!         Asked::AllNames => removed_by_name(alloc, elf, &Args::new(alloc)),
//!         _ => removed(alloc, elf, false, &Args::new(alloc)),
//!     }
//! }
//! ```
#![tactic(auto)]

pub mod commands;
pub mod named;
pub mod planning;
mod writing;

pub use commands::StripCommand;
pub use named::strip_named;
pub use planning::plan_stripped;
