//! The line table of a section.

ghost use Rattle.std.specs.Prelude.{◌≡◌, ◌<◌, length, true};
ghost use Rattle.elf_types.specs.Kinds.{is_compressed};
ghost use Rattle.elf_object.specs.Object.{section_at};
ghost use Rattle.tool_output.specs.Reports.{Reports};
ghost use Rattle.tool_output.specs.Steps.{LeavesOutputs};
ghost use Rattle.lines_tool.specs.Tables.{line_table_report, line_section_report};

use crate::rows::TableTitle;
use crate::units::{LineTableSection, refuse_section, show_units};
use elf_outside::{Sink, Source};
use elf_types::{Ehdr, ElfError, ScnId, is_compressed};
use std::alloc::Global;
use tool_objects::prelude::Elf;
use tool_objects::{SectionTool, section_header};
use tool_output::{FileName, Message, Outputs, Stop};

/// Shows the line table in the bytes of a section.
fn show_table<O: Sink, E: Sink>(
    alloc: Global,
    table: &LineTableSection<'_>,
    name: &FileName<'_>,
    outputs: &mut Outputs<'_, O, E>,
) -> Result<bool, Stop>
    ensures reports { let t = table.now in Reports O.Sink E.Sink result outputs.old outputs.new
        (line_table_report name.now t.section t.class t.order t.bytes.now) }
    ensures leaves { LeavesOutputs O.Sink E.Sink ⊥ result outputs.old outputs.new }
{
    let section = table.section;
    outputs.show(&TableTitle { section })?;
    show_units(alloc, table, name, outputs)
}

/// Rejects a section whose data is compressed, or for being out of the file where it is that.
/// Nothing is read.
fn refuse_compressed<S: Source, O: Sink, E: Sink>(
    name: &FileName<'_>,
    elf: &Elf<S>,
    s: ScnId,
    outputs: &mut Outputs<'_, O, E>,
) -> Result<bool, Stop>
    requires there { s.0 < length elf.now.o.sections }
    requires compressed { is_compressed (section_at elf.now.o s.0).header.flags ≡ true }
    ensures reports { Reports O.Sink E.Sink result outputs.old outputs.new
        (line_section_report name.now elf.now.o s.0) }
    ensures leaves { LeavesOutputs O.Sink E.Sink ⊥ result outputs.old outputs.new }
{
    match elf.is_out_of_file(s) {
        Ok(false) => refuse_section(name, s.0, "compressed", outputs),
        Ok(true) => outputs.refuse(&Message {
            command: "lines",
            name,
            text: ElfError::OutOfFile { section: s.0 },
        }),
        Err(_) => unreachable!(),
    }
}

/// What is said of a section that is named `.debug_line`.
#[derive(Clone, Copy)]
pub struct LineTables<'a> {
    /// The file, or the member of an archive.
    pub name: &'a FileName<'a>,
}

impl SectionTool for LineTables<'_> {
    ghost report = { λ t o s. line_section_report t.name.now o s };

    fn show<S: Source, O: Sink, E: Sink>(
        &self,
        elf: &mut Elf<S>,
        s: ScnId,
        outputs: &mut Outputs<'_, O, E>,
    ) -> Result<bool, Stop> {
        let name = self.name;
        if is_compressed(section_header(elf, s).flags) {
            return refuse_compressed(name, elf, s, outputs);
        }
        let Ehdr { class, order, .. } = elf.ehdr();
        let alloc = elf.alloc();
        match elf.raw(s) {
            Ok(bytes) => {
                let table = &LineTableSection {
                    section: s.0,
                    bytes,
                    class,
                    order,
                };
                show_table(alloc, table, name, outputs)
            }
            Err(e) => outputs.refuse_by(
                &Message {
                    command: "lines",
                    name,
                    text: e,
                },
                e,
            ),
        }
    }
}
