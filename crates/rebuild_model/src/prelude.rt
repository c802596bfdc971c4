//! What `rebuild_model` passes on of the crates below it.

pub use hash_model::prelude::{
    Items, NoSource, Source, elf_object_is_allocated, occupies_file, rounded_within, written_header,
};
