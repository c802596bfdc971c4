//! The tool of the command size.

ghost use Rattle.std.specs.Prelude.{◌≡◌, ◌^◌, codes};
ghost use Rattle.tool_output.specs.Names.{file_name};
ghost use Rattle.tool_output.specs.Reports.{Reports, shown_report};
ghost use Rattle.tool_output.specs.Steps.{LeavesOutputs};
ghost use Rattle.tool_objects.specs.Looks.{no_look};
ghost use Rattle.tool_objects.specs.Shows.{ShowsElf};
ghost use Rattle.size_tool.specs.Rows.{size_row};
ghost use Rattle.size_tool.specs.Sums.{AreWithin, total_of};
ghost use Rattle.size_tool.specs.Tool.{size_report};

use crate::headers::sum_source;
use crate::rows::SizeRow;
use crate::sums::{Sums, sum_sections};
use elf_outside::{Sink, Source};
use std::alloc::Global;
use tool_objects::prelude::Elf;
use tool_objects::{ObjectTool, refuse, show_object};
use tool_output::{FileName, Outputs, Stop};

/// Shows the row of the sums of an object.
fn show_sums<O: Sink, E: Sink>(
    sums: Sums,
    name: &FileName<'_>,
    outputs: &mut Outputs<'_, O, E>,
) -> Result<bool, Stop>
    requires { AreWithin (2 ^ 32) sums }
    ensures reports { Reports O.Sink E.Sink result outputs.old outputs.new
        (shown_report (size_row sums (total_of sums) name.now)) }
    ensures leaves { LeavesOutputs O.Sink E.Sink ⊥ result outputs.old outputs.new }
{
    let total = sums.text + sums.data + sums.bss;
    outputs.show(&SizeRow { sums, total, name })
}

/// The tool of the command size. It reads nothing but the headers; of an image without a descriptor
/// not even the program headers.
#[derive(Clone, Copy)]
pub struct SizeTool;

impl ObjectTool for SizeTool {
    ghost command = { λ _. codes "size" };

    ghost report = { λ _. size_report };

    ghost looks = { λ _. no_look };

    fn command(&self) -> &'static str {
        "size"
    }

    fn show<S: Source, O: Sink, E: Sink>(
        &self,
        elf: &mut Elf<S>,
        name: &FileName<'_>,
        outputs: &mut Outputs<'_, O, E>,
    ) -> Result<bool, Stop> {
        let sums = sum_sections(elf);
        show_sums(sums, name, outputs)
    }

    /// The row of `show`, of a source, by the section headers alone.
    fn show_source<S: Source, O: Sink, E: Sink>(
        &self,
        _alloc: Global,
        mut src: S,
        name: &FileName<'_>,
        outputs: &mut Outputs<'_, O, E>,
    ) -> (S, Result<bool, Stop>) {
        match sum_source(&mut src) {
            Ok(sums) => {
                let shown = show_sums(sums, name, outputs);
                (src, shown)
            }
            Err(e) => {
                let refused = refuse(self.command(), name, e, outputs);
                (src, refused)
            }
        }
    }
}

/// Shows how much memory the sections of an object take, as a row of the command size, on two
/// outputs: the bytes of text, of data and of sections that the file does not hold, and their sum
/// in decimal and in hexadecimal. Nothing is read and nothing rejected. It stops by `Write` where a
/// put failed, and by `Memory`.
///
/// Source: gABI chapter 4, "Sections".
pub fn size<S: Source, O: Sink, E: Sink>(
    alloc: Global,
    elf: &mut Elf<S>,
    name: &[u8],
    out: &mut O,
    err: &mut E,
) -> Result<bool, Stop>
    ensures shows { ShowsElf S.Source O.Sink E.Sink (size_report (file_name name.now))
        result elf.old elf.new out.old out.new err.old err.new }
    ensures unread { elf.new ≡ elf.old }
{
    show_object(alloc, &SizeTool, elf, &FileName::of(name), out, err)
}
