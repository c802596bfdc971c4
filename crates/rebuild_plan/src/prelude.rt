//! What `rebuild_plan` passes on of the crates below it.

pub use law_rebuild::prelude::occupies_file;
pub use rebuild_tables::prelude::{
    ByteRange, Elf, RangedImage, RangedParts, Rebuilt, SectionSet, SharedBytes, add_section,
    copy_segments, create_over_base, hold_shared, is_header_allocated, removed,
};
