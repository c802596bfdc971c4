//! What `rebuild_select` passes on of the crates below it.

pub use gelf_view::prelude::{Elf, Held};
pub use gelf_view::{is_named, section_name as gelf_view_section_name, string_in};
pub use rebuild_model::prelude::Source;
