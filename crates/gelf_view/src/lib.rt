//! The views of a section's data, which gelf(3E) shows: its items one by one, its strings, notes
//! and version records, and the sections of its symbols.
//!
//! Each call works on a descriptor, an `Elf`, and reads a section at its first use. What is looked
//! for in bytes is a function over bytes too, as `note_in`.
//!
//! - `item_count`: how many items of a kind a piece has; it reads nothing.
//! - `sym`: the symbol at an index; so `rel`, `rela`, `dynent`, `word` and others, and `update_sym`
//!   stores one.
//! - `strptr`: the string at an offset of a string table.
//! - `section_name`: the name of a section, or None.
//! - `symshndx`: the section of a symbol, with its extended index.
//!
//! From `example_symbol_names`:
//!
//! ```text
//! fn list_table<S: Source, K: Sink>(
//!     elf: &mut Elf<S>,
//!     table: ScnId,
//!     out: &mut K,
//! ) -> Result<(), ElfError>
//!     ensures { elf.new.o ≡ elf.old.o }
//! {
//!     let names = ScnId(elf.shdr(table)?.link);
//!     let symbols = DataId {
//!         section: table.0,
//!         piece: 0,
//!     };
//!     for i in 1..item_count::<S, Sym>(elf, symbols)? {
//!         let symbol = sym(elf, symbols, i)?;
//!         match strptr(elf, names, u64::from(symbol.name)) {
//!             Ok(name) => put_name(out, name)?,
//!             Err(ElfError::NoString { .. } | ElfError::Unended { .. }) => {}
//!             Err(e) => return Err(e),
//!         }
//!     }
//!     Ok(())
//! }
//! ```
#![tactic(auto)]

mod aux;
mod aux_calls;
mod counts;
mod fetching;
mod items;
mod note_calls;
mod notes;
mod piece_bytes;
pub mod prelude;
mod records;
mod section_names;
mod string_calls;
mod string_places;
mod strings;
mod symbol_calls;
mod symbols;
mod updates;
mod version_calls;
mod version_chains;
mod versions;

pub use aux::AuxPlace;
pub use aux_calls::{next_verdaux, next_vernaux};
pub use counts::item_count;
pub use items::{addr, dynent, half, rel, rela, sym, word};
pub use note_calls::note;
pub use notes::{NoteAt, note_align, note_in};
pub use piece_bytes::bytes;
pub use records::record_sizes_are;
pub use section_names::{is_named, section_name, section_name_front};
pub use string_calls::strptr;
pub use strings::{is_called, is_string_at, short_string, string_from, string_in};
pub use symbol_calls::{shndx_table, symbol_place, symshndx};
pub use symbols::SymPlace;
pub use updates::{
    update_addr, update_dynent, update_half, update_rel, update_rela, update_sym, update_word,
};
pub use version_calls::{first_entry, verdaux, verdef, vernaux, verneed};
pub use version_chains::{VersionEntry, VersionName};
pub use versions::{
    Verdaux, Verdef, Vernaux, Verneed, verdaux_in, verdef_in, vernaux_in, verneed_in,
};
