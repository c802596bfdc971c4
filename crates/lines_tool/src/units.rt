//! What is shown of the units of a section.

ghost use Rattle.std.specs.Prelude.{◌+◌};
ghost use Rattle.tool_output.specs.Lines.{numbered_lines};
ghost use Rattle.tool_output.specs.Reports.{Reports, shown_report, reports_of};
ghost use Rattle.tool_output.specs.Steps.{LeavesOutputs};
ghost use Rattle.lines_tool.specs.Rows.{file_line, row_line};
ghost use Rattle.lines_tool.specs.Units.{units_of};
ghost use Rattle.lines_tool.specs.Tables.{section_message_report, unit_report, units_report};

use crate::rows::{FaultText, FileLine, RowLine, UnitTitle};
use elf_outside::Sink;
use elf_types::{Class, Octets, Order};
use line_table::{LineFault, Row, Unit, unit_at};
use std::alloc::Global;
use tool_output::{FileName, InSection, Line, Message, Outputs, Stop};

/// Shows the files of a unit, of which the first is file 1.
fn show_files<O: Sink, E: Sink>(
    files: &[Octets],
    outputs: &mut Outputs<'_, O, E>,
) -> Result<bool, Stop>
    ensures reports { Reports O.Sink E.Sink result outputs.old outputs.new
        (shown_report (numbered_lines (λ i name. file_line (i + 1) name) 0 files.now)) }
    ensures leaves { LeavesOutputs O.Sink E.Sink ⊥ result outputs.old outputs.new }
{
    for (i, file) in files.iter().enumerate() {
        let number = i as u64 + 1;
        let name = file.as_slice();
        outputs.show(&FileLine { number, name })?;
    }
    Ok(false)
}

/// Shows the rows of a unit.
fn show_rows<O: Sink, E: Sink>(rows: &[Row], outputs: &mut Outputs<'_, O, E>) -> Result<bool, Stop>
    ensures reports { Reports O.Sink E.Sink result outputs.old outputs.new
        (reports_of (λ r. shown_report (row_line r)) rows.now) }
    ensures leaves { LeavesOutputs O.Sink E.Sink ⊥ result outputs.old outputs.new }
{
    for row in rows {
        outputs.show(&RowLine { row })?;
    }
    Ok(false)
}

/// Shows a unit: its title, its files and its rows.
fn show_unit<O: Sink, E: Sink>(unit: &Unit, outputs: &mut Outputs<'_, O, E>) -> Result<bool, Stop>
    ensures reports { Reports O.Sink E.Sink result outputs.old outputs.new
        (unit_report unit.now) }
    ensures leaves { LeavesOutputs O.Sink E.Sink ⊥ result outputs.old outputs.new }
{
    let at = unit.at;
    let version = unit.version;
    outputs.show(&UnitTitle { at, version })?;
    show_files(unit.files.as_slice(), outputs)?;
    show_rows(unit.rows.as_slice(), outputs)
}

/// A section whose bytes hold a line table.
#[derive(Clone, Copy)]
pub struct LineTableSection<'a> {
    /// Its number.
    pub section: u32,
    /// Its bytes.
    pub bytes: &'a [u8],
    /// The class of the image.
    pub class: Class,
    /// The byte order of the image.
    pub order: Order,
}

/// Rejects a section, by a message that names it.
#[tactic(auto, unfolding(crate::specs::Tables::section_message_report))]
pub fn refuse_section<T: Line + Drop, O: Sink, E: Sink>(
    name: &FileName<'_>,
    section: u32,
    text: T,
    outputs: &mut Outputs<'_, O, E>,
) -> Result<bool, Stop>
    ensures reports { Reports O.Sink E.Sink result outputs.old outputs.new
        (section_message_report name.now section (T.text text)) }
    ensures leaves { LeavesOutputs O.Sink E.Sink ⊥ result outputs.old outputs.new }
{
    outputs.refuse(&Message {
        command: "lines",
        name,
        text: InSection { section, text },
    })
}

/// Shows the units of a section, one after the other, of which no more than one is held. The first
/// that is not well formed has a message, and ends them.
pub fn show_units<O: Sink, E: Sink>(
    alloc: Global,
    table: &LineTableSection<'_>,
    name: &FileName<'_>,
    outputs: &mut Outputs<'_, O, E>,
) -> Result<bool, Stop>
    ensures reports { let t = table.now in Reports O.Sink E.Sink result outputs.old outputs.new
        (units_report name.now t.section (units_of t.class t.order t.bytes.now)) }
    ensures leaves { LeavesOutputs O.Sink E.Sink ⊥ result outputs.old outputs.new }
{
    let mut at = 0;
    'units: loop {
        match unit_at(alloc, table.bytes, at, table.class, table.order) {
            Ok(None) => return Ok(false),
            Ok(Some(unit)) => {
                show_unit(&unit, outputs)?;
                at = unit.next;
            }
            Err(LineFault::Memory) => return Err(Stop::Memory),
            Err(LineFault::Bad { at, why }) => {
                return refuse_section(name, table.section, FaultText { at, why }, outputs);
            }
        }
    }
}
