//! What `section_table` passes on of the crates below it.

pub use section_data::prelude::{
    Device, FileKind, Front, Items, NoSource, PartAt, Parts, Places, Sink, Source, derived_header,
    ehdr_both_ways, ehdr_fits, ehdr_size, fsize, get_half, get_word, item_size, kind_of_source,
    numbered_shdr, occupies_file, phdr_both_ways, phdr_fits, phdr_size, place, put, put_ehdr,
    put_items, put_phdr, put_shdr, put_zeros, ranks_by_position, read, read_front, rounded_within,
    set_len, shdr_both_ways, shdr_fits, shdr_size, stored_ehdr, unfit, write_at, written_header,
};
pub use section_data::{
    Cell, FirstPieces, Item, Listed as section_data_Listed, Storable, ended_len,
};
