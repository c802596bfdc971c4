//! The image of an object.

ghost use Rattle.std.specs.Prelude.{◌≡◌, Some, None, if◌then◌else◌};
ghost use Rattle.elf_update_to.specs.elf_object.Image.{image};
ghost use Rattle.elf_update_to.specs.elf_object.Refusal.{refusal};
ghost use Rattle.elf_update_to.specs.elf_object.Due.{update_to_due};

use crate::images::Image;
use elf_types::ElfError;
use elf_update_to::prelude::Elf;
use elf_update_to::update_to;
use tool_output::prelude::{Sink, Source};

/// The image of an object whose update is not rejected. It asks the object's source for the bytes
/// that are not loaded, and stores the places of its parts.
impl<S: Source> Image for Elf<S> {
    type From = S;

    ghost ready = { λ e. refusal e.o ≡ None };

    ghost bytes = { λ e. if e.told then Some (image e.o) else None };

    ghost source = { λ e. e.source };

    ghost due = { λ e. update_to_due e.o e.loaded };

    fn put_to<K: Sink>(&mut self, sink: &mut K) -> Result<(), ElfError> {
        match update_to(self, sink) {
            Ok(_) => Ok(()),
            Err(e) => Err(e),
        }
    }
}
