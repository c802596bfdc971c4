//! What `elfkit_edit` passes on of the crates below it.

pub use elfkit_read::prelude::{LintTool, ReadelfTool, elflint, lines, nm, readelf, size, strings};
pub use elfkit_read::{run_elflint, run_lines, run_nm, run_readelf, run_size, run_strings};
