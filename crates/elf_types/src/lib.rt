//! The base types of elfkit: the records of an ELF image, growing lists, the error type, the
//! constants of the gABI and the names that tools show for machines, types and tags.
//!
//! Almost every crate depends on this one. `Ehdr`, `Phdr`, `Shdr`, `Sym`, `Rel`, `Rela` and `Dyn`
//! serve both classes; `ScnId` names a section, `DataId` a piece of its data. A table of names that
//! one tool alone shows belongs to that tool.
//!
//! - `List`: a list that returns `ElfError::Memory` where it cannot grow: `new`, `push`,
//!   `from_slice`, `as_slice`; `Octets` is the one of bytes, `Syms` that of symbols.
//! - `ElfError`: every error of the library; `text` returns its message.
//! - `kind_of`: the kind of a section's items, by its header.
//! - `has_flag`: whether a section header has a flag; `bind`, `stt` and `vis` take a symbol's
//!   fields apart.
//! - `machine_name`: the name of a machine, or None; so `etype_name`, `section_type_name`,
//!   `tag_name` and others.
//!
//! From `test_rebuild`:
//!
//! ```text
//! fn put_alone(
//!     list: &mut List<NameBytes>,
//!     alloc: Global,
//!     name: &[u8],
//!     bytes: &[u8],
//! ) -> Result<(), ElfError>
//!     requires { list.old ≡ [] }
//!     ensures { OnOk result (list.new ≡ (record { name = name.now; bytes = bytes.now } ∷ [])) }
//! {
//!     let name = Octets::from_slice(alloc, name)?;
//!     let bytes = Octets::from_slice(alloc, bytes)?;
//!     list.push(NameBytes { name, bytes })?;
//!     Ok(())
//! }
//! ```
#![tactic(auto)]

pub mod bytes;
pub mod constants;
pub mod digits;
pub mod error_texts;
pub mod errors;
pub mod kinds;
pub mod lists;
pub mod names;
pub mod records;
pub mod symbols;
pub mod texts;

pub use bytes::bytes_are_ranged;
pub use digits::are_digits;
pub use error_texts::{kind_name, put_error, put_numbered, put_numbered_twice, put_part, text};
pub use errors::ElfError;
pub use kinds::{has_flag, is_compressed, kind_of};
pub use lists::{Addrs, Dyns, Halves, List, Octets, Phdrs, Relas, Rels, Shdrs, Syms, Words};
pub use names::{
    binding_name, etype_name, machine_name, section_type_name, segment_type_name, symbol_type_name,
    tag_name, visibility_name,
};
pub use records::{
    Class, DIRTY, DataId, Dyn, Ehdr, Kind, LAYOUT, NULL_SECTION, Order, Part, Phdr, Rel, Rela,
    ScnId, Shdr, Sym,
};
pub use symbols::{bind, has_bind, has_type, is_local, stt, vis};
pub use texts::{put_bytes, put_decimal, put_hex, put_signed, put_text};
