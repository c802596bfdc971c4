//! The new file of an open one.

ghost use Rattle.std.specs.Prelude.{◌≡◌, false, codes};
ghost use Rattle.rebuild_files.specs.elfkit_outcomes.elf_object.Object.{is_dirty};
ghost use Rattle.tool_output.specs.Made.{written_outcome};
ghost use Rattle.rebuild_files.specs.tool_files.ElfImages.Writes.{WritesFile};
ghost use Rattle.rebuild_files.specs.Writing.{IsOverSource};
ghost use Rattle.strip_tool.specs.Writes.{object_done};

use crate::commands::StripCommand;
use crate::planning::plan_stripped;
use elf_outside::{Files, Sink, Source};
use rebuild_files::prelude::{Elf, refuse_for};
use rebuild_files::write_plan;
use std::alloc::Global;
use tool_output::{Outputs, Stop};

/// Does the command with the object of the file `file`, of which nothing is dirty and whose base is
/// that file, and hands the source back. What is rejected has the message that says why: then no
/// file is made. It stops by `Read` only where a read of the source failed.
pub(crate) fn write_stripped<S: Source, F: Files, O: Sink, E: Sink>(
    command: &StripCommand<'_>,
    alloc: Global,
    elf: Elf<S>,
    file: &[u8],
    files: &mut F,
    outputs: &mut Outputs<'_, O, E>,
) -> (S, Result<bool, Stop>)
    requires over { IsOverSource S.Source elf }
    requires clean { is_dirty elf.o ≡ false }
    ensures { WritesFile S.Source F.Files O.Sink E.Sink
        (written_outcome (codes "strip") (object_done command.now.debug_only command.now.names.now
        file.now command.now.out.now elf.o))
        result.1 elf (record elf { source = result.0 }) files.old files.new
        outputs.old outputs.new }
{
    let mut elf = elf;
    match plan_stripped(alloc, &mut elf, command.debug_only, command.names) {
        Ok(plan) => write_plan(alloc, elf.end(), plan, command.out, files, outputs),
        Err(e) => {
            let refused = refuse_for("strip", file, e, outputs);
            (elf.end(), refused)
        }
    }
}
