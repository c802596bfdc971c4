//! What the library means: the plain object of an ELF image, each call on it, its dirty marks, its
//! layout and its image, as definitions.
//!
//! specs/Object.antt has the object, specs/Calls.antt what each call returns and leaves,
//! specs/Layout.antt where parts are placed. Small functions here compute some of them. The code of
//! the calls is in elf_descriptor.
#![tactic(auto)]

pub mod derived;
pub mod prelude;
pub mod sections;

pub use derived::{derived_header, numbered_shdr, stored_ehdr, written_header};
pub use sections::{home_len, is_allocated, is_piece_align, occupies_file};

#[cfg(test)]
mod call_tests;
#[cfg(test)]
mod layout_tests;
#[cfg(test)]
mod tests;
