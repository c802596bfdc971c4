//! What `elf_descriptor` passes on of the crates below it.

pub use law_object::prelude::{parts_may_be_capped, reopen_law, settling_keeps_items};
pub use section_table::prelude::{
    FileKind, Item, Items, PartAt, Parts, Places, Sink, Source, derived_header, ehdr_size,
    ended_len, fsize, get_half, get_word, item_size, kind_of_source, numbered_shdr, occupies_file,
    phdr_fits, phdr_size, place, put, put_ehdr, put_items, put_phdr, put_shdr, put_zeros,
    ranks_by_position, rounded_within, section_data_Listed, shdr_size, unfit, written_header,
};
