//! What an update in place writes and which sections it moves (elf_update of elf(3E)): the parts
//! that change, where bytes are written, and the homes that this disturbs.

mod changes;
mod extents;
mod marks;
mod meeting;
mod moves;
mod sections;

pub use changes::{Changes, FrontChanges, find_changes};
pub use marks::{is_marked, some_section_is_marked};
