//! What `elf_update_to` passes on of the crates below it.

pub use elf_update_plan::prelude::{Elf, parts_may_be_capped};
pub use elf_update_plan::{count_pieces, home_extent, is_in_file, plan};
