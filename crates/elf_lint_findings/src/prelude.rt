//! What `elf_lint_findings` passes on of the crates below it.

pub use tool_objects::prelude::{
    AuxPlace, Elf, Verdaux, Verdef, Vernaux, Verneed, VersionEntry, VersionName, bytes,
    first_entry, item_count, note, verdaux_in, vernaux_in,
};
pub use tool_objects::{ObjectTool, SectionTool, each_section, section_header, show_object};
