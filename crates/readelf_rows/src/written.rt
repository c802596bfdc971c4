//! Rows that were written into a buffer, as one text.

ghost use Rattle.elf_types.specs.Writers.{WantsMemory};

use elf_types::{ElfError, Octets, put_bytes};
use tool_objects::prelude::Line;

/// Rows that were written into a buffer.
#[derive(Clone, Copy)]
pub struct WrittenRows<'a> {
    /// Their text.
    pub bytes: &'a [u8],
}

impl Line for WrittenRows<'_> {
    ghost text = { λ w. w.bytes.now };

    #[tactic(auto, using(elf_types::proofs::Writers::kept))]
    fn put(&self, page: &mut Octets) -> Result<(), ElfError> {
        put_bytes(page, self.bytes)
    }
}
