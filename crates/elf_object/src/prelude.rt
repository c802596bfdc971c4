//! What `elf_object` passes on of the crates below it.

pub use elf_ident::prelude::{
    Device, Items, NoSource, Sink, Source, XlateError, decodes_as_encoded, ehdr_both_ways,
    ehdr_fits, ehdr_size, encodes_as_decoded, fsize, get_addr, get_dyn, get_half, get_rel,
    get_rela, get_sym, get_word, item_size, phdr_both_ways, phdr_fits, phdr_size, put, put_ehdr,
    put_items, put_phdr, put_shdr, put_zeros, read, read_range, set_len, shdr_both_ways, shdr_fits,
    shdr_size, to_memory, unfit, write_at,
};
pub use elf_ident::{FileKind, Front, kind_of_source, read_front};
pub use elf_layout::{PartAt, Parts, Places, place, ranks_by_position, rounded_within};
