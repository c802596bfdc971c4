//! An object, and the new file of its image.

ghost use Rattle.tool_output.specs.Made.{written_outcome};
ghost use Rattle.tool_files.specs.ElfImages.Writes.{written_done, WritesFile};

use crate::elf_images::refusing::refuse_for;
use crate::write_image;
use elf_outside::{Files, Sink, Source};
use elf_update_plan::prelude::Elf;
use elf_update_plan::update_null;
use std::alloc::Global;
use tool_output::{Outputs, Stop};

/// Writes the image of an object to the new file `out`, or the message of a command that says why
/// `file` has none: then the new file is not made. The places of the object's parts are stored. It
/// returns whether it was rejected.
///
/// It stops by `Read` where a read of the source failed, by `Write` where a put or a write of the
/// file failed, and by `Memory`. Then the name of the file holds what it held or a prefix of the
/// image.
pub fn write_object<S: Source, F: Files, O: Sink, E: Sink>(
    alloc: Global,
    elf: &mut Elf<S>,
    command: &str,
    file: &[u8],
    out: &str,
    files: &mut F,
    outputs: &mut Outputs<'_, O, E>,
) -> Result<bool, Stop>
    ensures { WritesFile S.Source F.Files O.Sink E.Sink
        (written_outcome command.now (written_done file.now out.now elf.old.o))
        result elf.old elf.new files.old files.new outputs.old outputs.new }
{
    let _dirty = elf.dirty();
    match update_null(elf) {
        Ok(_) => write_image(alloc, elf, out, files, outputs),
        Err(e) => refuse_for(command, file, e, outputs),
    }
}
