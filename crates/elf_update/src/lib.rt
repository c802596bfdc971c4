//! Passes on the ways to write an object (elf_update of elf(3E)): its places alone, to a sink, or
//! over the device that it was read from.
//!
//! `update_null` is of elf_update_plan, which rejects and places, `update_to` of elf_update_to,
//! `update_in_place` of elf_update_in_place.
//!
//! - `update_null`: stores the places of all parts and returns the length of the image, or says why
//!   there is no image; it writes nothing.
//! - `update_to`: puts the image to a sink; the marks stay.
//! - `update_in_place`: makes the device the image: it writes only what changed, and settles the
//!   object.
//!
//! From `example_set_entry`:
//!
//! ```text
//! fn write_new<S: Source, F: Files>(
//!     alloc: Global,
//!     elf: &mut Elf<S>,
//!     files: &mut F,
//!     name: &str,
//! ) -> Result<u64, ElfError>
//!     ensures { IsTrue elf.old.told → IsTrue (F.tells files.old) →
//!         OnOk result (F.named files.new name.now ≡ Some (image (placed elf.old.o))) }
//! {
//!     update_null(elf)?;
//!     let Ok(file) = files.create(alloc, name) else {
//!         return Err(ElfError::Write);
//!     };
//!     let mut sink = DeviceSink::new(file);
//!     let written = update_to(elf, &mut sink);
//!     files.close(name, sink.into_inner());
//!     written
//! }
//! ```
#![tactic(auto)]

pub use elf_update_in_place::update_in_place;
pub use elf_update_to::{update_null, update_to};
