//! Looking symbols up by their names: among all symbols of a table, and by the two kinds of hash
//! sections.
//!
//! Each lookup works on a descriptor, an `Elf`, and reads a section at its first use. In a hash
//! section that is whole all ways find the same symbol, which is a theorem (`hash_reach`).
//!
//! - `find_linear`: the first symbol of a table with a name that is defined and not local, or None.
//! - `find_sysv`: the same symbol through a section of type `SHT_HASH`.
//! - `find_gnu`: the same symbol through GNU's hash section.
//! - `elf_hash`: the hash of a name in the first kind, `gnu_hash` in the second.
//!
//! From `test_views`:
//!
//! ```text
//! fn are_found<S: Source>(rt: &HostRuntime, elf: &mut Elf<S>) -> bool {
//!     for (n, row) in NAMES.iter().enumerate() {
//!         let found = same(rt, &find_sysv(elf, SYSV, row.0), &Ok(row.1))
//!             && same(rt, &find_gnu(elf, GNU, row.0), &Ok(row.1));
//!         if !in_step(rt, n, found) {
//!             return false;
//!         }
//!     }
//!     true
//! }
//! ```
#![tactic(auto)]

mod fetching;
mod gnu;
mod laws;
mod linear;
mod lookups;
mod matching;
mod passing;
pub mod prelude;
mod sysv;
mod walking;
mod walks;

pub use laws::hash_reach;
pub use linear::find_linear;
pub use lookups::{find_gnu, find_sysv};
pub use symbol_hashes::{elf_hash, gnu_hash};
