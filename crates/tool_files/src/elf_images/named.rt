//! A command that writes a new file by the image of the file that it names.

ghost use Rattle.std.specs.Prelude.{◌≡◌, ℕ, List, None, IsTrue};
ghost use Rattle.elfkit_outcomes.specs.tool_objects.Images.{file_object};
ghost use Rattle.tool_output.specs.Files.{LeavesFiles};
ghost use Rattle.tool_output.specs.Made.{written_outcome};
ghost use Rattle.tool_output.specs.Outcomes.{write_of, Does};
ghost use Rattle.tool_output.specs.Statuses.{refused_status};
ghost use Rattle.tool_files.specs.ElfImages.Writes.{image_done, named_done};

use crate::edit_file;
use crate::elf_images::edits::{ImageCommand, ImageEdit};
use elf_outside::{Files, Sink};
use std::alloc::Global;
use tool_output::{Outputs, Stop};

/// Opens a file, does a command with its image and closes it; a name that is not there, and what is
/// no image, has its message. The command writes no file of that name. It returns whether it was
/// rejected.
pub fn edit_named<T: ImageCommand, F: Files, O: Sink, E: Sink>(
    alloc: Global,
    command: &T,
    file: &str,
    files: &mut F,
    outputs: &mut Outputs<'_, O, E>,
) -> Result<bool, Stop>
    requires { (bytes : List ℕ) → write_of (written_outcome (T.named command.now)
        (image_done (T.done command.now) file.now (file_object bytes))).writes file.now ≡ None }
    ensures does { IsTrue (F.tells files.old) → Does F.Files O.Sink E.Sink refused_status
        (written_outcome (T.named command.now)
        (named_done (T.done command.now) (F.named files.old) file.now))
        result files.old files.new outputs.old outputs.new }
    ensures leaves { LeavesFiles F.Files O.Sink E.Sink
        result files.old files.new outputs.old outputs.new }
{
    edit_file(alloc, &ImageEdit { command }, file, files, outputs)
}
