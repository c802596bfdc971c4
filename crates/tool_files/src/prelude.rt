//! What `tool_files` passes on of the crates below it.

pub use crate::make_file;
pub use elf_update_plan::prelude::Elf;
pub use tool_output::{FileName, Message, Outputs, Stop};
