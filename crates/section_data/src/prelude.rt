//! What `section_data` passes on of the crates below it.

pub use elf_object::prelude::{
    Device, FileKind, Front, Items, NoSource, PartAt, Parts, Places, Sink, Source, ehdr_both_ways,
    ehdr_fits, ehdr_size, fsize, get_half, get_word, item_size, kind_of_source, phdr_both_ways,
    phdr_fits, phdr_size, place, put, put_ehdr, put_items, put_phdr, put_shdr, put_zeros,
    ranks_by_position, read, read_front, rounded_within, set_len, shdr_both_ways, shdr_fits,
    shdr_size, unfit, write_at,
};
pub use elf_object::{derived_header, numbered_shdr, occupies_file, stored_ehdr, written_header};
