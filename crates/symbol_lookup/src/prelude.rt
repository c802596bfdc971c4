//! What `symbol_lookup` passes on of the crates below it.

pub use gelf_view::prelude::{Elf, section_data_Listed};
pub use gelf_view::{
    NoteAt, addr, dynent, half, item_count, note, rel, rela, strptr, sym, update_addr,
    update_dynent, update_half, update_rel, update_rela, update_sym, update_word, word,
};
pub use symbol_hashes::{bloom_bits, elf_hash, gnu_hash, shifted};
