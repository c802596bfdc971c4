//! What `elfkit_outcomes` passes on of the crates below it.

pub use tool_objects::prelude::{reopen_law, settling_keeps_items};
pub use tool_objects::{ObjectTool, begin_image, item_there, show_file, stop_for};
