//! The calls that read an object which is open for C: each is the call of the plain object, and its
//! value goes into C's memory, with a number for its error.

mod headers;
mod items;
mod strings;
mod versions;

pub use headers::{
    give_ehdr, give_home, give_kind, give_phdr, give_shdr, phdr_count, section_count, string_index,
};
pub use items::{give_addr, give_dyn, give_half, give_rel, give_rela, give_sym, give_word};
pub use strings::give_string;
pub use versions::{give_note, give_verdaux, give_verdef, give_vernaux, give_verneed};
