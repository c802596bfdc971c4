//! What `selftest_tool` passes on of the crates below it.

pub use elfkit_outcomes::prelude::{ObjectTool, show_file};
