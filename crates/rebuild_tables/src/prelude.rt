//! What `rebuild_tables` passes on of the crates below it.

pub use rebuild_image::prelude::{
    ByteRange, HeaderListing, PartRanges, RangedImage, RangedParts, SharedBytes,
};
pub use rebuild_image::{Streamed, arrange_listed, hold_items, hold_shared, stream_listed};
pub use rebuild_keep::prelude::{
    Elf, Numbering, SectionSet, add_section, copy_segments, create_over_base, is_header_allocated,
    removed,
};
pub use rebuild_keep::{Keeper, Names, Rebuilt, check_names, keep_sections, kept_numbers, tail_of};
