//! What `rebuild_object` passes on of the crates below it.

pub use rebuild_plan::prelude::{
    ByteRange, Elf, RangedImage, RangedParts, Rebuilt, SectionSet, is_header_allocated,
    occupies_file, removed,
};
pub use rebuild_plan::{
    Arranged, Contents, RangedPlan, arrange_contents, arrange_rebuilt, check_index, check_segments,
    home_range, plan_arranged,
};
