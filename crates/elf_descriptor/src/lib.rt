//! The descriptor `Elf`, an object over a source, with the public calls that read and edit headers,
//! counts, pieces of data, flags and dirty marks.
//!
//! An [`Elf`] stands for a plain object. It reads the headers when it begins, and each section's
//! bytes at their first use; every result is that of the plain object. docs/LIBRARY.md has its
//! calls beside libelf's.
//!
//! - `Elf::begin`: opens an image over a source; with an error it hands the source back.
//! - `Elf::create`: an object without sections, of a class and a byte order.
//! - `Elf::shdr`: a section header; `ehdr` and `phdr` are the others, `shnum` is the number of
//!   sections.
//! - `Elf::item`: an item of a piece of data, by value; `data` lends all of them, `syms_mut` lends
//!   symbols for writing.
//! - `Elf::update_shdr`: stores a header and marks it dirty; elf_update writes what is dirty.
//!
//! From `bench_descriptor`:
//!
//! ```text
//! fn symbols<S: Source>(elf: &mut Elf<S>) -> Option<u64> {
//!     let section = first_symbols(elf)?;
//!     let table = DataId { section, piece: 0 };
//!     let mut sum = 0u64;
//!     for i in 0..u64::MAX {
//!         match elf.item::<Sym>(table, i) {
//!             Ok(symbol) => sum = sum.wrapping_add(symbol.value),
//!             Err(ElfError::NoEntry { .. }) => break,
//!             Err(_) => return None,
//!         }
//!     }
//!     Some(sum)
//! }
//! ```
#![tactic(auto)]

mod body;
mod cells;
mod descriptor;
mod held;
pub mod prelude;

pub use descriptor::Elf;
pub use held::Held;
