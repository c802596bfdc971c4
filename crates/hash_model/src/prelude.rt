//! What `hash_model` passes on of the crates below it.

pub use elf_object::prelude::{
    Items, NoSource, Source, get_addr, get_sym, get_word, item_size, rounded_within,
};
pub use elf_object::{is_allocated as elf_object_is_allocated, occupies_file, written_header};
