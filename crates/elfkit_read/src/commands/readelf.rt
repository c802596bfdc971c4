//! readelf: the parts of each file that it names.

ghost use Rattle.std.specs.Prelude.{◌≡◌, IsTrue};
ghost use Rattle.tool_output.specs.Files.{LeavesFiles};
ghost use Rattle.tool_output.specs.Statuses.{refused_status};
ghost use Rattle.tool_output.specs.Outcomes.{Does};
ghost use Rattle.elfkit_read.specs.Readelf.{readelf_outcome};

use crate::objects::each_object;
use crate::titles::{Title, Titled};
use elf_outside::{Files, Sink};
use readelf_tool::{ReadelfParts, ReadelfTool};
use std::alloc::Global;
use tool_output::{Outputs, Stop};
use tool_text::Args;

/// The command readelf: the parts of each file, in the order of the names, and of each member of
/// one that is an archive. It returns whether something was rejected.
#[tactic(auto, unfolding(crate::specs::Readelf::readelf_outcome))]
pub fn run_readelf<F: Files, O: Sink, E: Sink>(
    alloc: Global,
    parts: &ReadelfParts,
    names: &Args,
    files: &mut F,
    outputs: &mut Outputs<'_, O, E>,
) -> Result<bool, Stop>
    ensures does { IsTrue (F.tells files.old) → Does F.Files O.Sink E.Sink refused_status
        (readelf_outcome parts.now names.now (F.named files.old))
        result files.old files.new outputs.old outputs.new }
    ensures given { F.given files.new ≡ F.given files.old }
    ensures leaves { LeavesFiles F.Files O.Sink E.Sink
        result files.old files.new outputs.old outputs.new }
{
    let tool = &ReadelfTool { parts };
    let of_file = Titled {
        tool,
        title: Title::File.under(names.len() > 1),
    };
    let of_member = Titled {
        tool,
        title: Title::File,
    };
    each_object(alloc, &of_file, &of_member, names, files, outputs)
}
