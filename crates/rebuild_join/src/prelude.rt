//! What `rebuild_join` passes on of the crates below it.

pub use rebuild_keep::prelude::{Elf, SectionSet, is_header_allocated, removed};
pub use rebuild_keep::tail_of;
