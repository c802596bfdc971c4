//! An object with changes: sections are removed, get other bytes, another name or other flags, and
//! are added (objcopy(1) of the development tools).
//!
//! The object of the plan that rebuild_copy makes; the command `copy` of copy_tool writes the file
//! of the same plan, range by range.
//!
//! - `copy_of`: the object with changes, over no file, or a `CopyFault` that says why there is
//!   none.
//! - `ChangeLists`: five lists, which are done one after another: `remove`, `update`, `rename`,
//!   `flags`, `add`.
//! - `NameBytes`: a section's name, and bytes or another name for it; `NameBits` has flags.
//! - `Rebuilt`: what is made: the object, and its tail.
//! - `arrange_copied` and `plan_copied`: of rebuild_copy: the plan of the object with the changes,
//!   and that of its file, without the object in memory.
//!
//! From `test_rebuild`:
//!
//! ```text
//! fn is_changed<S: Source>(rt: &HostRuntime, elf: &mut Elf<S>, changes: &ChangeLists) -> bool
//!     requires { HasPlainNames changes.now }
//! {
//!     if elf.dirty() {
//!         return other(rt, &"a dirty object", "one that is as it was opened");
//!     }
//!     match copy_of(rt.alloc(), elf, changes) {
//!         Ok(mut made) => are_made(rt, &mut made.elf),
//!         Err(fault) => other(rt, &kind_and_name(&fault).0, "a copy"),
//!     }
//! }
//! ```
#![tactic(auto)]

mod copying;

pub use copying::copy_of;
pub use rebuild_changes::{ChangeLists, CopyFault, NameBits, NameBytes};
pub use rebuild_object::prelude::Rebuilt;
