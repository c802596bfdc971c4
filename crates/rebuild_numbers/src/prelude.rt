//! What `rebuild_numbers` passes on of the crates below it.

pub use rebuild_select::prelude::{Elf, Held, Source, gelf_view_section_name};
pub use rebuild_select::{SectionSet, is_header_allocated, removed};
