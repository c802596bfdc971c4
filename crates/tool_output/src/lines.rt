//! What is written as text.

ghost use Rattle.std.specs.Prelude.{◌≡◌, ◌++◌, ℕ, List, OnOk, IfErr};
ghost use Rattle.elf_types.specs.Writers.{WantsMemory};

use elf_types::{ElfError, Octets};

/// A line, or a few lines that are written as one. It has `text`.
pub trait Line {
    ghost text: { Self → List ℕ };

    /// Appends the text. It fails with `Memory` alone; what the buffer held then stays.
    fn put(&self, page: &mut Octets) -> Result<(), ElfError>
        ensures ok { OnOk result (page.new ≡ page.old ++ text self.now) }
        ensures err { IfErr result (WantsMemory page.old page.new) };
}
