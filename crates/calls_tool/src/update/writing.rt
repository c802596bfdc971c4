//! The calls of a script on a descriptor, and the new file of the image that they leave.

ghost use Rattle.std.specs.Prelude.{◌≡◌, None};
ghost use Rattle.elf_object.specs.Refusal.{refusal};
ghost use Rattle.calls_tool.specs.Update.Writes.{WritesLaid, WritesLeft, WritesCalls};

use crate::{show_answer, show_calls};
use elf_calls_apply::Answer;
use elf_calls_script::Call;
use elf_outside::{Files, Sink, Source};
use elf_update_plan::prelude::Elf;
use elf_update_plan::update_null;
use std::alloc::Global;
use tool_files::write_image;
use tool_output::{Outputs, Stop};

/// Writes the image of an object whose update is not rejected to a new file, and then the line of
/// its size.
fn write_laid<S: Source, F: Files, O: Sink, E: Sink>(
    alloc: Global,
    elf: &mut Elf<S>,
    size: u64,
    out: &str,
    files: &mut F,
    outputs: &mut Outputs<'_, O, E>,
) -> Result<bool, Stop>
    requires { refusal elf.old.o ≡ None }
    ensures { WritesLaid S.Source F.Files O.Sink E.Sink out.now size
        result elf.old elf.new files.old files.new outputs.old outputs.new }
{
    write_image(alloc, elf, out, files, outputs)?;
    show_answer(&Answer::Size(size), outputs)
}

/// Updates an object to a new file, and writes the line of its size, or that of the refusal: then
/// the file is not made.
fn write_left<S: Source, F: Files, O: Sink, E: Sink>(
    alloc: Global,
    elf: &mut Elf<S>,
    out: &str,
    files: &mut F,
    outputs: &mut Outputs<'_, O, E>,
) -> Result<bool, Stop>
    ensures { WritesLeft S.Source F.Files O.Sink E.Sink out.now
        result elf.old elf.new files.old files.new outputs.old outputs.new }
{
    let _dirty = elf.dirty();
    match update_null(elf) {
        Ok(size) => write_laid(alloc, elf, size, out, files, outputs),
        Err(e) => show_answer(&Answer::Refused(e), outputs),
    }
}

/// Runs calls on an object, in their order, each with the line of its result, and writes the image
/// that they leave to a new file, with the line of its size. Where the update is rejected, its line
/// is that of the refusal, and no file is made. It returns whether a call or the update was
/// rejected.
///
/// It stops by `Read` where a read of the source failed, by `Write` where a put or a write of the
/// file failed, and by `Memory`. Then the lines before that stay, and the name of the file holds
/// what it held or a prefix of the image.
pub fn write_calls<S: Source, F: Files, O: Sink, E: Sink>(
    alloc: Global,
    elf: &mut Elf<S>,
    calls: &[Call],
    out: &str,
    files: &mut F,
    outputs: &mut Outputs<'_, O, E>,
) -> Result<bool, Stop>
    ensures { WritesCalls S.Source F.Files O.Sink E.Sink calls.now out.now
        result elf.old elf.new files.old files.new outputs.old outputs.new }
{
    let refused = show_calls(elf, calls, outputs)?;
    let updated = write_left(alloc, elf, out, files, outputs)?;
    Ok(refused | updated)
}
