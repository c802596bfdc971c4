//! What `gelf_view` passes on of the crates below it.

pub use elf_descriptor::prelude::{
    FileKind, Item, ended_len, item_size, kind_of_source, reopen_law, section_data_Listed,
    settling_keeps_items,
};
pub use elf_descriptor::{Elf, Held};
