//! What `elf_ident` passes on of the crates below it.

pub use elf_outside::reads::{read, read_range};
pub use elf_outside::writes::{put, put_zeros, set_len, write_at};
pub use elf_outside::{Device, NoSource, Sink, Source};
pub use elf_xlate::{
    Items, XlateError, decodes_as_encoded, ehdr_both_ways, ehdr_fits, ehdr_size,
    encodes_as_decoded, fsize, get_addr, get_dyn, get_half, get_rel, get_rela, get_sym, get_word,
    item_size, phdr_both_ways, phdr_fits, phdr_size, put_ehdr, put_items, put_phdr, put_shdr,
    shdr_both_ways, shdr_fits, shdr_size, to_memory, unfit,
};
