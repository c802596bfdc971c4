//! What `rebuild_making` passes on of the crates below it.

pub use elf_update_plan::prelude::Elf;
pub use rebuild_model::prelude::{NoSource, Source};
