//! copy: the image of a file with changes, and the new file of it.

ghost use Rattle.std.specs.Prelude.{◌≢◌, IsTrue};
ghost use Rattle.elfkit_words.specs.rebuild_changes.Names.{HasNames};
ghost use Rattle.tool_output.specs.Files.{LeavesFiles};
ghost use Rattle.tool_output.specs.Statuses.{refused_status};
ghost use Rattle.tool_output.specs.Outcomes.{Does};
ghost use Rattle.selftest_tool.specs.elfkit_outcomes.Copy.{copy_outcome};

use copy_tool::copy_file;
use elf_outside::{Files, Sink};
use elfkit_words::prelude::CopyChanges;
use std::alloc::Global;
use tool_output::{Outputs, Stop};
use tool_text::Text;

/// The command copy: the files of `-u` and then those of `-a` are read, and the image with the
/// changes is written to a new file while the old one is open. Where a file is not there or
/// something is rejected, the message says so, and no file is made. It returns whether it was
/// rejected.
pub fn copy<F: Files, O: Sink, E: Sink>(
    alloc: Global,
    changes: &CopyChanges,
    out: &Text,
    file: &Text,
    files: &mut F,
    outputs: &mut Outputs<'_, O, E>,
) -> Result<bool, Stop>
    requires names { HasNames changes.now }
    requires apart { out.now ≢ file.now }
    ensures does { IsTrue (F.tells files.old) → Does F.Files O.Sink E.Sink refused_status
        (copy_outcome changes.now (F.named files.old) out.now file.now)
        result files.old files.new outputs.old outputs.new }
    ensures leaves { LeavesFiles F.Files O.Sink E.Sink
        result files.old files.new outputs.old outputs.new }
{
    copy_file(alloc, changes, file.as_str(), out.as_str(), files, outputs)
}
