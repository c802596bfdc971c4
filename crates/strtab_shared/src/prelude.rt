//! What `strtab_shared` passes on of the crates below it.

pub use elf_xlate::{Items, XlateError, ehdr_size, phdr_size, to_memory};
