//! Texts as images.

ghost use Rattle.std.specs.Prelude.{Some, ⊤};

use elf_outside::writes::put;
use elf_outside::{NoSource, Sink};
use elf_types::ElfError;
use tool_files::Image;

/// A text, which is put whole.
#[derive(Clone, Copy)]
pub struct TextImage {
    /// Its bytes.
    pub bytes: &'static [u8],
    /// What it is read from.
    pub from: NoSource,
}

impl Image for TextImage {
    type From = NoSource;

    ghost ready = { λ _. ⊤ };

    ghost bytes = { λ t. Some t.bytes.now };

    ghost source = { λ t. t.from };

    ghost due = { λ _. 0 };

    fn put_to<K: Sink>(&mut self, sink: &mut K) -> Result<(), ElfError> {
        put(sink, self.bytes)
    }
}
