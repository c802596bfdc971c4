//! What `elf_calls_generate` passes on of the crates below it.

pub use elf_descriptor::Elf;
