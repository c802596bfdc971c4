//! Why copy makes no image.

use elf_types::{ElfError, Octets};

/// Why copy makes no image. A fault owns the name that it carries.
#[derive(Drop)]
pub enum CopyFault {
    /// No section has the name.
    NoSection {
        /// The name.
        name: Octets,
    },
    /// A section without bytes in the file, `SHT_NULL` or `SHT_NOBITS`, gets none.
    NoBytes {
        /// Its name.
        name: Octets,
    },
    /// An allocated section of a program keeps its length.
    Allocated {
        /// Its name.
        name: Octets,
    },
    /// A section of a program stays allocated or not.
    Fixed {
        /// Its name.
        name: Octets,
    },
    /// No section was rebuilt for the names, so that new ones have no place.
    NoTable,
    /// A refusal of a step, or out of memory, or a failed read.
    Strip(ElfError),
}
