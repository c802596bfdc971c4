//! What `elfkit_run` passes on of the crates below it.

pub use elfkit_edit::prelude::{LintTool, ReadelfTool, elflint, lines, nm, readelf, size, strings};
pub use elfkit_words::prelude::{NmOptions, ReadelfParts, StringsOptions};
pub use selftest_tool::prelude::{ObjectTool, show_file};
