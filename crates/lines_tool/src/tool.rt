//! The tool of the command lines.

ghost use Rattle.std.specs.Prelude.{◌≡◌, codes};
ghost use Rattle.tool_output.specs.Names.{file_name};
ghost use Rattle.tool_objects.specs.Looks.{looks_over};
ghost use Rattle.tool_objects.specs.Shows.{ShowsOver};
ghost use Rattle.lines_tool.specs.Tool.{lines_report};

use crate::tables::LineTables;
use elf_outside::{Sink, Source};
use std::alloc::Global;
use tool_objects::prelude::Elf;
use tool_objects::{ObjectTool, each_section_named, show_object};
use tool_output::{FileName, Outputs, Stop};

/// The tool of the command lines.
#[derive(Clone, Copy)]
pub struct LinesTool;

impl ObjectTool for LinesTool {
    ghost command = { λ _. codes "lines" };

    ghost report = { λ _. lines_report };

    ghost looks = { λ _. looks_over 1 };

    fn command(&self) -> &'static str {
        "lines"
    }

    #[tactic(auto, unfolding(crate::specs::Tool::lines_report))]
    fn show<S: Source, O: Sink, E: Sink>(
        &self,
        elf: &mut Elf<S>,
        name: &FileName<'_>,
        outputs: &mut Outputs<'_, O, E>,
    ) -> Result<bool, Stop> {
        each_section_named(&LineTables { name }, ".debug_line", elf, outputs)
    }
}

/// Shows the line table of each section named `.debug_line`, as the command lines does, on two
/// outputs. Messages name the object by `name`. It returns whether something was rejected. It stops
/// by `Read` where a read of the source failed, by `Write` where a put failed, and by `Memory`.
pub fn lines<S: Source, O: Sink, E: Sink>(
    alloc: Global,
    elf: &mut Elf<S>,
    name: &[u8],
    out: &mut O,
    err: &mut E,
) -> Result<bool, Stop>
    ensures { ShowsOver S.Source O.Sink E.Sink 1 (lines_report (file_name name.now))
        result elf.old elf.new out.old out.new err.old err.new }
{
    show_object(alloc, &LinesTool, elf, &FileName::of(name), out, err)
}
