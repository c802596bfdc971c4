//! Why two halves are not joined.

use elf_types::ElfError;

/// Why two halves were not joined.
#[derive(Clone, Copy, Debug, PartialEq, Eq)]
pub enum UnstripFault {
    /// A refusal on the stripped half, or on what is made.
    Elf(ElfError),
    /// A refusal on the debug half.
    Debug(ElfError),
    /// They are no halves of one program.
    Mismatch,
}
