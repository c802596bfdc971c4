//! What rehash leaves of an object, and the new file of its image.

ghost use Rattle.std.specs.Prelude.{codes};
ghost use Rattle.tool_output.specs.Names.{file_name};
ghost use Rattle.tool_output.specs.Made.{written_outcome};
ghost use Rattle.tool_output.specs.Reports.{Reports, refusal_report};
ghost use Rattle.tool_output.specs.Steps.{LeavesOutputs};
ghost use Rattle.tool_files.specs.ElfImages.Writes.{WritesFile};
ghost use Rattle.rehash_tool.specs.Writes.{done_by, rehashed_done};
ghost use Rattle.rebuild_model.specs.Rehashed.{rehashed};

use crate::rehashing::rehash;
use elf_outside::{Files, Sink, Source};
use std::alloc::Global;
use tool_files::elf_images::{refuse_for, write_object};
use tool_files::prelude::Elf;
use tool_output::{FileName, Message, Outputs, Stop};

/// Rejects a file that has no hash section of dynamic symbols.
fn refuse_absent<O: Sink, E: Sink>(
    file: &[u8],
    outputs: &mut Outputs<'_, O, E>,
) -> Result<bool, Stop>
    ensures reports { Reports O.Sink E.Sink result outputs.old outputs.new
        (refusal_report (codes "rehash") (file_name file.now) (codes "no dynamic hash")) }
    ensures leaves { LeavesOutputs O.Sink E.Sink ⊥ result outputs.old outputs.new }
{
    outputs.refuse(&Message {
        command: "rehash",
        name: &FileName::of(file),
        text: "no dynamic hash",
    })
}

/// Writes the image of an object whose hash sections were rebuilt to a new file; where there is
/// none, the message says so.
fn write_done<S: Source, F: Files, O: Sink, E: Sink>(
    alloc: Global,
    elf: &mut Elf<S>,
    done: bool,
    file: &[u8],
    out: &str,
    files: &mut F,
    outputs: &mut Outputs<'_, O, E>,
) -> Result<bool, Stop>
    ensures { WritesFile S.Source F.Files O.Sink E.Sink
        (written_outcome (codes "rehash") (done_by done file.now out.now elf.old.o))
        result elf.old elf.new files.old files.new outputs.old outputs.new }
{
    if done {
        return write_object(alloc, elf, "rehash", file, out, files, outputs);
    }
    refuse_absent(file, outputs)
}

/// Rebuilds the hash sections of the dynamic symbols of an object, and writes the image that this
/// leaves to a new file. Where it is rejected, the message says why, and no file is made. It
/// returns whether it was rejected.
///
/// It stops by `Read` where a read of the source failed, by `Write` where a put or a write of the
/// file failed, and by `Memory`. Then the name of the file holds what it held or a prefix of the
/// image.
pub fn write_rehashed<S: Source, F: Files, O: Sink, E: Sink>(
    alloc: Global,
    elf: &mut Elf<S>,
    file: &[u8],
    out: &str,
    files: &mut F,
    outputs: &mut Outputs<'_, O, E>,
) -> Result<bool, Stop>
    ensures { WritesFile S.Source F.Files O.Sink E.Sink
        (written_outcome (codes "rehash") (rehashed_done file.now out.now (rehashed elf.old.o)))
        result elf.old elf.new files.old files.new outputs.old outputs.new }
{
    match rehash(elf) {
        Ok(done) => write_done(alloc, elf, done, file, out, files, outputs),
        Err(e) => refuse_for("rehash", file, e, outputs),
    }
}
