//! rehash: the hash sections of the dynamic symbols of an image, rebuilt, and the new file of the
//! image that this leaves.

ghost use Rattle.std.specs.Prelude.{◌≢◌, IsTrue};
ghost use Rattle.tool_output.specs.Files.{LeavesFiles};
ghost use Rattle.tool_output.specs.Statuses.{refused_status};
ghost use Rattle.tool_output.specs.Outcomes.{Does};
ghost use Rattle.elfkit_outcomes.specs.Copy.{rehash_outcome};

use elf_outside::{Files, Sink};
use rehash_tool::RehashCommand;
use std::alloc::Global;
use tool_files::elf_images::edit_named;
use tool_output::{Outputs, Stop};
use tool_text::Text;

/// The command rehash: the hash sections of the dynamic symbols of the image are rebuilt while it
/// is open, and the image that this leaves is written to a new file. Where there is no such
/// section, and where a step or the update is rejected, its message says so, and no file is made.
/// It returns whether it was rejected.
pub fn run_rehash<F: Files, O: Sink, E: Sink>(
    alloc: Global,
    out: &Text,
    file: &Text,
    files: &mut F,
    outputs: &mut Outputs<'_, O, E>,
) -> Result<bool, Stop>
    requires { out.now ≢ file.now }
    ensures does { IsTrue (F.tells files.old) → Does F.Files O.Sink E.Sink refused_status
        (rehash_outcome (F.named files.old) out.now file.now)
        result files.old files.new outputs.old outputs.new }
    ensures leaves { LeavesFiles F.Files O.Sink E.Sink
        result files.old files.new outputs.old outputs.new }
{
    let command = RehashCommand { out: out.as_str() };
    edit_named(alloc, &command, file.as_str(), files, outputs)
}
