//! The commands `strip -f` and `unstrip`: an image is split into a stripped file and a debug file,
//! and two such files are merged again.
//!
//! `debug_of` is of rebuild_debug, `unstrip` of rebuild_join (module `joined`); they make objects
//! in memory, the commands write files range by range.
//!
//! - `split_named`: `strip -f`: opens a file, and writes its stripped half and its debug half.
//! - `join_files`: `unstrip`: opens two files, and writes what they are halves of.
//! - `HalfNames`: the names of the two files.
//! - `debug_of`: of rebuild_debug: the debug half of an object.
//! - `unstrip`: of rebuild_join: the object of two halves, or an `UnstripFault` that says why they
//!   do not match.
//!
//! From `test_rebuild`:
//!
//! ```text
//! fn half_of<S: Source>(alloc: Global, elf: &mut Elf<S>) -> Result<Octets, ElfError> {
//!     if elf.dirty() {
//!         return Err(ElfError::Reserved);
//!     }
//!     match debug_of(alloc, elf) {
//!         Ok(half) => written(alloc, half),
//!         Err(e) => Err(e),
//!     }
//! }
//! ```
#![tactic(auto)]

mod allocated;
mod commands;
mod copying;
mod files;
mod joining;
mod named;
mod names;
mod planning;
mod plans;
mod refusing;
mod writing;

pub use commands::SplitCommand;
pub use files::join_files;
pub use named::split_named;
pub use names::HalfNames;
