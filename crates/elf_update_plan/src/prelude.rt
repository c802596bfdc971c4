//! What `elf_update_plan` passes on of the crates below it.

pub use elf_descriptor::prelude::{
    Items, PartAt, Parts, Places, Sink, Source, derived_header, ehdr_size, fsize, item_size,
    numbered_shdr, occupies_file, parts_may_be_capped, phdr_size, put, put_ehdr, put_items,
    put_phdr, put_shdr, put_zeros, section_data_Listed, shdr_size, written_header,
};
pub use elf_descriptor::{Elf, Held};
