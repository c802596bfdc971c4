//! The write phase of an update in place (elf_update with ELF_C_WRITE over a device): the parts
//! that change, and the fill between the parts.

mod changes;
mod fills;
mod pieces;
mod walks;

pub use changes::write_changes;
pub use fills::write_fill;
pub use pieces::write_part;
pub use walks::write_parts;
