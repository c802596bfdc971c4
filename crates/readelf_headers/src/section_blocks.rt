//! The lines of the sections of an object whose names are in memory, as a table of strings: a block
//! of them is written into a buffer and shown at once. So no section is asked for its name, and
//! each line is told from its header and from these bytes.

ghost use Rattle.std.specs.Prelude.{◌≡◌, ◌≤◌, ◌<◌, length, drop, IfSome};
ghost use Rattle.tool_output.specs.Reports.{Reports, shown_report};
ghost use Rattle.tool_output.specs.Steps.{LeavesOutputs};
ghost use Rattle.tool_objects.specs.Steps.{ReadsElf};
ghost use Rattle.readelf_headers.specs.SectionBlocks.{line_by, lines_by, AreNames};

use crate::sections::{SectionLine, write_line};
use elf_outside::{Sink, Source};
use elf_types::ScnId;
use readelf_rows::WrittenRows;
use tool_objects::at_hand::{string_bytes, strings_end, table_string_from};
use tool_objects::prelude::Elf;
use tool_objects::section_header;
use tool_output::{Outputs, Stop};

/// How many lines are written before they are shown.
const BLOCK: u32 = 16;

/// Lines are shown one by one where so many bytes are no room for a block of them.
const LINES: usize = 8192;

/// Reads the names of the sections where they are a table of strings, and where there is a section.
pub fn load_names<S: Source>(elf: &mut Elf<S>) -> Result<(), Stop>
    ensures { ReadsElf S.Source result elf.old elf.new }
{
    let names = elf.shstrndx();
    if names == 0 {
        return Ok(());
    }
    match strings_end(elf, ScnId(names)) {
        Ok(_) => Ok(()),
        Err(stop) => Err(stop),
    }
}

/// The strings in which the names of the sections are, where they are one table that is in memory.
/// Nothing is read.
pub fn names_at_hand<S: Source>(elf: &Elf<S>) -> Option<&[u8]>
    ensures { IfSome result (λ b. AreNames elf.now b.now) }
{
    let names = elf.shstrndx();
    if names == 0 {
        return None;
    }
    string_bytes(elf, ScnId(names))
}

/// Where the block that begins at a line ends.
fn next_block(from: u32, count: u32) -> u32
    requires { from < count }
    ensures later { from < result }
    ensures within { result ≤ count }
{
    if count - from < BLOCK {
        return count;
    }
    from + BLOCK
}

/// Writes the lines of sections from one on and below another before the end of a buffer, the last
/// one first, and tells where they begin; None where there may be no room for all.
fn write_lines<S: Source>(
    elf: &Elf<S>,
    strings: &[u8],
    from: u32,
    to: u32,
    buffer: &mut [u8],
) -> Option<usize>
    requires there { to ≤ length elf.now.o.sections }
    requires order { from ≤ to }
    ensures inside { IfSome result (λ at. at ≤ length buffer.new) }
    ensures wrote { IfSome result (λ at.
        drop at buffer.new ≡ lines_by elf.now.o strings.now from to) }
{
    let mut at = buffer.len();
    let mut i = to;
    while i > from {
        i -= 1;
        let header = section_header(elf, ScnId(i));
        let name = table_string_from(strings, header.name);
        at = write_line(buffer, at, i, name, &header)?;
    }
    Some(at)
}

/// Shows the lines of sections from one on and below another one by one.
fn show_one_by_one<S: Source, O: Sink, E: Sink>(
    elf: &Elf<S>,
    strings: &[u8],
    from: u32,
    to: u32,
    outputs: &mut Outputs<'_, O, E>,
) -> Result<bool, Stop>
    requires there { to ≤ length elf.now.o.sections }
    requires order { from ≤ to }
    ensures reports { Reports O.Sink E.Sink result outputs.old outputs.new
        (shown_report (lines_by elf.now.o strings.now from to)) }
    ensures leaves { LeavesOutputs O.Sink E.Sink ⊥ result outputs.old outputs.new }
{
    for i in from..to {
        let header = section_header(elf, ScnId(i));
        outputs.show(&SectionLine {
            index: i,
            name: table_string_from(strings, header.name),
            header,
        })?;
    }
    Ok(false)
}

/// Shows the lines of sections from one on and below another: at once where a buffer has room for
/// all.
fn show_block<S: Source, O: Sink, E: Sink>(
    elf: &Elf<S>,
    strings: &[u8],
    from: u32,
    to: u32,
    buffer: &mut [u8],
    outputs: &mut Outputs<'_, O, E>,
) -> Result<bool, Stop>
    requires there { to ≤ length elf.now.o.sections }
    requires order { from ≤ to }
    ensures reports { Reports O.Sink E.Sink result outputs.old outputs.new
        (shown_report (lines_by elf.now.o strings.now from to)) }
    ensures leaves { LeavesOutputs O.Sink E.Sink ⊥ result outputs.old outputs.new }
{
    match write_lines(elf, strings, from, to, buffer) {
        Some(at) => outputs.show(&WrittenRows {
            bytes: &buffer[at..],
        }),
        None => show_one_by_one(elf, strings, from, to, outputs),
    }
}

/// Shows a line for each section, a block at a time by a buffer.
fn show_blocks_by<S: Source, O: Sink, E: Sink>(
    elf: &Elf<S>,
    strings: &[u8],
    buffer: &mut [u8],
    outputs: &mut Outputs<'_, O, E>,
) -> Result<bool, Stop>
    ensures reports { Reports O.Sink E.Sink result outputs.old outputs.new
        (shown_report (lines_by elf.now.o strings.now 0 (length elf.now.o.sections))) }
    ensures leaves { LeavesOutputs O.Sink E.Sink ⊥ result outputs.old outputs.new }
{
    let count = elf.shnum();
    let mut from = 0;
    while from < count {
        let to = next_block(from, count);
        show_block(elf, strings, from, to, buffer, outputs)?;
        from = to;
    }
    Ok(false)
}

/// Shows a line for each section, by the strings in which the names are.
pub fn show_blocks<S: Source, O: Sink, E: Sink>(
    elf: &Elf<S>,
    strings: &[u8],
    outputs: &mut Outputs<'_, O, E>,
) -> Result<bool, Stop>
    ensures reports { Reports O.Sink E.Sink result outputs.old outputs.new
        (shown_report (lines_by elf.now.o strings.now 0 (length elf.now.o.sections))) }
    ensures leaves { LeavesOutputs O.Sink E.Sink ⊥ result outputs.old outputs.new }
{
    let mut buffer = [0u8; LINES];
    show_blocks_by(elf, strings, &mut buffer, outputs)
}
