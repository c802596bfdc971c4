//! What `rebuild_edits` passes on of the crates below it.

pub use rebuild_making::prelude::Elf;
pub use rebuild_names::prelude::renews_names;
pub use rebuild_names::push_place;
pub use rebuild_select::prelude::string_in;
pub use rebuild_select::{SectionSet, is_header_allocated, removed_by_name};
