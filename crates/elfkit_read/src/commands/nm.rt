//! nm: the symbols of each file that it names, or of the members of one that is an archive.

ghost use Rattle.std.specs.Prelude.{◌≡◌, IsTrue};
ghost use Rattle.tool_output.specs.Files.{LeavesFiles};
ghost use Rattle.tool_output.specs.Statuses.{refused_status};
ghost use Rattle.tool_output.specs.Outcomes.{Does};
ghost use Rattle.elfkit_read.specs.Nm.{nm_outcome};

use crate::objects::each_object;
use crate::titled_nm::TitledNm;
use crate::titles::Title;
use elf_outside::{Files, Sink};
use nm_tool::{NmOptions, NmTool};
use std::alloc::Global;
use tool_output::{Outputs, Stop};
use tool_text::Args;

/// The command nm: the symbols of each file, in the order of the names, and of each member of one
/// that is an archive, under titles where rows do not have the file's name. It returns whether
/// something was rejected.
#[tactic(auto, unfolding(crate::specs::Nm::nm_outcome))]
pub fn run_nm<F: Files, O: Sink, E: Sink>(
    alloc: Global,
    options: &NmOptions,
    names: &Args,
    files: &mut F,
    outputs: &mut Outputs<'_, O, E>,
) -> Result<bool, Stop>
    ensures does { IsTrue (F.tells files.old) → Does F.Files O.Sink E.Sink refused_status
        (nm_outcome options.now names.now (F.named files.old))
        result files.old files.new outputs.old outputs.new }
    ensures given { F.given files.new ≡ F.given files.old }
    ensures leaves { LeavesFiles F.Files O.Sink E.Sink
        result files.old files.new outputs.old outputs.new }
{
    let tool = &NmTool { options };
    let titled = !options.name_each;
    let of_file = TitledNm {
        tool,
        title: Title::Name.under(titled && names.len() > 1),
    };
    let of_member = TitledNm {
        tool,
        title: Title::Name.under(titled),
    };
    each_object(alloc, &of_file, &of_member, names, files, outputs)
}
