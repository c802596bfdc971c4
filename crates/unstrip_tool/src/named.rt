//! The command by the name of its file.

ghost use Rattle.std.specs.Prelude.{◌≡◌, ℕ, List, None, IsTrue, codes};
ghost use Rattle.rebuild_files.specs.tool_objects.Images.{file_object};
ghost use Rattle.rebuild_files.specs.tool_files.ElfImages.Writes.{image_done, named_done};
ghost use Rattle.tool_output.specs.Files.{LeavesFiles};
ghost use Rattle.tool_output.specs.Made.{written_outcome};
ghost use Rattle.tool_output.specs.Outcomes.{write_of, Does};
ghost use Rattle.tool_output.specs.Statuses.{refused_status};
ghost use Rattle.unstrip_tool.specs.Writes.{object_split};

use crate::commands::SplitCommand;
use elf_outside::{Files, Sink};
use rebuild_files::prelude::edit_named;
use std::alloc::Global;
use tool_output::{Outputs, Stop};

/// Opens a file, does the command with its image and closes it; a name that is not there, and what
/// is no image, has its message. The files that are made have other names. It returns whether it
/// was rejected.
pub fn split_named<F: Files, O: Sink, E: Sink>(
    alloc: Global,
    command: &SplitCommand<'_>,
    file: &str,
    files: &mut F,
    outputs: &mut Outputs<'_, O, E>,
) -> Result<bool, Stop>
    requires { (bytes : List ℕ) → write_of (written_outcome (codes "strip")
        (image_done (λ name o. object_split command.now.debug_only command.now.names.now
        command.now.halves.now name o) file.now (file_object bytes))).writes file.now ≡ None }
    ensures does { IsTrue (F.tells files.old) → Does F.Files O.Sink E.Sink refused_status
        (written_outcome (codes "strip")
        (named_done (λ name o. object_split command.now.debug_only command.now.names.now
        command.now.halves.now name o) (F.named files.old) file.now))
        result files.old files.new outputs.old outputs.new }
    ensures leaves { LeavesFiles F.Files O.Sink E.Sink
        result files.old files.new outputs.old outputs.new }
{
    edit_named(alloc, command, file, files, outputs)
}
