//! What `rebuild_files` passes on of the crates below it.

pub use elfkit_outcomes::prelude::begin_image;
pub use rebuild_plan::prelude::removed;
pub use rebuild_plan::{RangedPlan, plan_rebuilt};
pub use tool_files::elf_images::{ImageCommand, edit_named, refuse_for};
pub use tool_files::prelude::Elf;
