//! Files that are images or archives of them, each image given to a tool over its object.

ghost use Rattle.std.specs.Prelude.{◌≡◌, IsTrue, Some};
ghost use Rattle.tool_output.specs.Files.{LeavesFiles};
ghost use Rattle.tool_output.specs.Statuses.{refused_status};
ghost use Rattle.tool_output.specs.Outcomes.{Does};
ghost use Rattle.tool_objects.specs.Images.{image_report, image_asks};
ghost use Rattle.tool_objects.specs.Archives.{archive_report, archive_asks};
ghost use Rattle.tool_objects.specs.Files.{file_report, file_asks};
ghost use Rattle.elfkit_read.specs.Objects.{objects_outcome};

use crate::files::{FileTool, each_file};
use elf_outside::{Files, Sink, Source};
use std::alloc::Global;
use tool_objects::{ObjectTool, show_file};
use tool_output::{Outputs, Stop};
use tool_text::Args;

/// Tools over objects, as one over files.
#[derive(Clone, Copy)]
struct OverFiles<'a, T> {
    /// The tool for a file that is an image.
    tool: &'a T,
    /// The tool for the members of an archive.
    member_tool: &'a T,
}

impl<T: ObjectTool> FileTool for OverFiles<'_, T> {
    ghost command = { λ o. T.command o.tool.now };

    ghost report = { λ o. file_report
        (image_report (T.command o.tool.now) (T.report o.tool.now))
        (archive_report (T.command o.member_tool.now) (T.report o.member_tool.now)) };

    ghost asks = { λ o bytes. Some (file_asks
        (image_asks (T.looks o.tool.now)) (archive_asks (T.looks o.member_tool.now)) bytes) };

    fn command(&self) -> &'static str {
        self.tool.command()
    }

    fn show<S: Source, O: Sink, E: Sink>(
        &self,
        alloc: Global,
        src: S,
        name: &[u8],
        outputs: &mut Outputs<'_, O, E>,
    ) -> (S, Result<bool, Stop>) {
        show_file(alloc, self.tool, self.member_tool, src, name, outputs)
    }
}

/// Gives a tool's report on each file, in the order of the names, and that of `member_tool`, which
/// is of the same command and looks at sections as `tool` does, on each member of one that is an
/// archive. It returns whether something was rejected.
pub fn each_object<T: ObjectTool, F: Files, O: Sink, E: Sink>(
    alloc: Global,
    tool: &T,
    member_tool: &T,
    names: &Args,
    files: &mut F,
    outputs: &mut Outputs<'_, O, E>,
) -> Result<bool, Stop>
    requires command { T.command member_tool.now ≡ T.command tool.now }
    requires looks { T.looks member_tool.now ≡ T.looks tool.now }
    ensures does { IsTrue (F.tells files.old) → Does F.Files O.Sink E.Sink refused_status
        (objects_outcome (T.command tool.now) (T.report tool.now) (T.report member_tool.now)
        (T.looks tool.now) names.now (F.named files.old))
        result files.old files.new outputs.old outputs.new }
    ensures given { F.given files.new ≡ F.given files.old }
    ensures leaves { LeavesFiles F.Files O.Sink E.Sink
        result files.old files.new outputs.old outputs.new }
{
    let over_files = OverFiles { tool, member_tool };
    each_file(alloc, &over_files, names.as_slice(), files, outputs)
}
