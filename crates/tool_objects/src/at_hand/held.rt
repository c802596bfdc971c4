//! Bytes that are held of a section.

ghost use Rattle.std.specs.Prelude.{IfSome};
ghost use Rattle.gelf_view.specs.elf_descriptor.Held.{AreHeldBytes};
ghost use Rattle.tool_objects.specs.Steps.{ReadsElf};

use elf_types::{DataId, ScnId};
use gelf_view::prelude::{Elf, Held};
use tool_output::Stop;
use tool_output::prelude::Source;

/// Reads a section's bytes where they are not held and can be read. It stops by `Read` where a read
/// of the source failed, and by `Memory`.
pub fn load<S: Source>(elf: &mut Elf<S>, s: ScnId) -> Result<(), Stop>
    ensures { ReadsElf S.Source result elf.old elf.new }
{
    match elf.raw(s) {
        Ok(_) => Ok(()),
        Err(e) => match Stop::of(&e) {
            Some(stop) => Err(stop),
            None => Ok(()),
        },
    }
}

/// The bytes of the home of a clean piece, where they are held.
pub fn held_bytes<S: Source>(elf: &Elf<S>, d: DataId) -> Option<&[u8]>
    ensures { IfSome result (λ b. AreHeldBytes elf.now d.section d.piece b.now) }
{
    match elf.held(d) {
        Ok(Held::Raw(bytes)) => Some(bytes),
        Ok(Held::Edited(_)) => None,
        Ok(Held::Unread) => None,
        Err(_) => None,
    }
}
