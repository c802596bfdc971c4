//! What `rebuild_keep` passes on of the crates below it.

pub use elf_update_plan::prelude::Elf;
pub use rebuild_making::{add_section, arrange, copy_segments, create_over_base, finish_header};
pub use rebuild_names::prelude::{is_group, is_symbol_table, renews_names};
pub use rebuild_numbers::prelude::{SectionSet, is_header_allocated, removed};
pub use rebuild_numbers::{Numbering, followed_syms, followed_words};
