//! Hash sections for the symbols of a table: the words of a section of type `SHT_HASH`, the bytes
//! of GNU's hash section, and the order of the symbols that it needs.
//!
//! Each call works on a descriptor, an `Elf`, and leaves the object. It reads the table and its
//! strings at the first use and hashes each listed symbol's name once. hash_order stores another
//! order: `reorder` moves the symbols and all that goes by their indexes.
//!
//! - `build_sysv`: the words of a section of type `SHT_HASH`, with so many buckets.
//! - `gnu_order`: the order of the symbols that GNU's hash section needs, as their present indexes.
//! - `reorder`: of hash_order: puts the symbols in such an order.
//! - `build_gnu`: the bytes of GNU's hash section, of a `GnuShape`; `Unsorted` where the order is
//!   another.
//!
//! From `test_views`:
//!
//! ```text
//! fn build<S: Source>(
//!     elf: &mut Elf<S>,
//!     nbucket: u32,
//!     shape: GnuShape,
//! ) -> Result<(Words, Octets), ElfError> {
//!     if nbucket == 0 || shape.nbuckets == 0 || shape.bloom == 0 || shape.shift >= 32 {
//!         return Err(NO_SHAPE);
//!     }
//!     let words = build_sysv(elf, SYMBOLS, nbucket)?;
//!     let bytes = build_gnu(elf, SYMBOLS, shape)?;
//!     Ok((words, bytes))
//! }
//! ```
#![tactic(auto)]

mod bloom;
mod buckets;
mod chains;
mod encoding;
mod gnu;
mod hashing;
mod listed;
mod order;
mod shape;
mod sysv;
mod tables;
mod words;

pub use gnu::build_gnu;
pub use order::gnu_order;
pub use shape::GnuShape;
pub use sysv::build_sysv;
