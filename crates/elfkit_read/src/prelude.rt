//! What `elfkit_read` passes on of the crates below it.

pub use elf_lint::{LintTool, elflint};
pub use lines_tool::lines;
pub use nm_tool::nm;
pub use readelf_tool::{ReadelfTool, readelf};
pub use size_tool::size;
pub use strings_tool::strings;
