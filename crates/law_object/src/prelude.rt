//! What `law_object` passes on of the crates below it.

pub use crate::laws::{
    beginnings_are, beginnings_are_tied, begun_fits, every_step_keeps, every_step_keeps_tied,
    parts_may_be_capped, reopen_law, settling_keeps_items, sizes_are_lengths, updates_keep,
    updates_tie,
};
pub use elf_object::occupies_file;
pub use elf_object::prelude::{ehdr_both_ways, encodes_as_decoded, phdr_both_ways, shdr_both_ways};
