//! Translation between the bytes of an ELF image and records: the items of a section's data, and
//! the three kinds of headers, in both classes and both byte orders.
//!
//! Nothing here reads a source; the bytes and the form (class and order) are parameters.
//!
//! - `to_memory`: the items that bytes hold, as `Items` of a kind.
//! - `to_file`: appends the bytes of items to a list; `translate_in_place` puts items into the other
//!   byte order where they are.
//! - `fsize`: how many bytes so many items take, or None from 2^64 on.
//! - `get_ehdr`: an ELF header of its bytes, `put_ehdr` its bytes; so `get_phdr`, `get_shdr` and
//!   `put_phdr`, `put_shdr`.
//! - `unfit`: the first item that does not fit its class; `ehdr_fits`, `phdr_fits` and `shdr_fits`
//!   ask of headers.
//!
//! From `bench_translation`:
//!
//! ```text
//! pub fn translation_total(alloc: Global, work: &TranslationTask) -> Option<u64> {
//!     let size = fsize(Kind::Sym, work.class, u64::from(work.symbols))?;
//!     let bytes = made_bytes(alloc, size)?;
//!     let items = to_memory(alloc, Kind::Sym, work.class, work.order, bytes.as_slice()).ok()?;
//!     match work.way {
//!         Way::Decode => decode_rounds(alloc, work, bytes.as_slice(), sum_of_symbols(&items)),
//!         Way::Encode => encode_rounds(alloc, work, &items),
//!     }
//! }
//! ```
#![tactic(auto)]

mod byte_order;
mod content;
mod decode;
mod encode;
mod entries;
mod failure;
mod fields;
mod fitting;
mod header_tables;
mod headers;
mod in_place;
mod laws;
mod numbers;
mod records;
mod single;
mod sizes;

pub use content::Items;
pub use decode::to_memory;
pub use encode::{put_items, to_file};
pub use failure::XlateError;
pub use fitting::{ehdr_fits, phdr_fits, shdr_fits, unfit};
pub use header_tables::{get_phdr, get_phdrs, get_shdr, get_shdrs, put_phdr, put_shdr};
pub use headers::{get_ehdr, put_ehdr};
pub use in_place::translate_in_place;
pub use laws::{
    decodes_as_encoded, ehdr_both_ways, encodes_as_decoded, phdr_both_ways, shdr_both_ways,
};
pub use numbers::number;
pub use single::{get_addr, get_dyn, get_half, get_rel, get_rela, get_sym, get_word};
pub use sizes::{ehdr_size, fsize, item_size, phdr_size, shdr_size};
