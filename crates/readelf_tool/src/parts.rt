//! What readelf shows of an object: the parts that are asked for by options, in their order.

ghost use Rattle.std.specs.Prelude.{◌≡◌, codes, false, if◌then◌else◌};
ghost use Rattle.tool_output.specs.Names.{file_name};
ghost use Rattle.tool_objects.specs.Steps.{ReportsOver};
ghost use Rattle.tool_objects.specs.Shows.{ShowsOver};
ghost use Rattle.readelf_tool.specs.Parts.{is_asked, reads_sections, letter_report, letter_part, readelf_report, shows_sections, goes_over, passes_of, readelf_looks};

use crate::options::ReadelfParts;
use crate::versions::show_versions;
use elf_outside::{Sink, Source};
use readelf_chains::show_notes;
use readelf_headers::{show_header, show_sections, show_segments};
use readelf_tables::{show_dynamic, show_relocations, show_symbols};
use std::alloc::Global;
use tool_objects::prelude::Elf;
use tool_objects::{ObjectTool, show_object};
use tool_output::{FileName, Outputs, Stop};

/// A letter of readelf.
#[derive(Clone, Copy)]
pub enum Letter {
    /// `-h`: the ELF header.
    Header,
    /// `-l`: the program headers.
    Segments,
    /// `-S`: the section headers.
    Sections,
    /// `-s`: the symbol tables.
    Symbols,
    /// `-r`: the relocations.
    Relocations,
    /// `-d`: the dynamic sections.
    Dynamic,
    /// `-n`: the notes.
    Notes,
    /// `-V`: the version sections.
    Versions,
}

/// The letters, in the order of their parts, which is that of `letters` of specs/Parts.
const LETTERS: [Letter; 8] = [
    Letter::Header,
    Letter::Segments,
    Letter::Sections,
    Letter::Symbols,
    Letter::Relocations,
    Letter::Dynamic,
    Letter::Notes,
    Letter::Versions,
];

/// Whether a letter is asked for.
#[tactic(auto, unfolding(crate::specs::Parts::is_asked))]
fn is_asked(parts: &ReadelfParts, letter: Letter) -> bool
    ensures { result ≡ is_asked parts.now letter }
{
    match letter {
        Letter::Header => parts.header,
        Letter::Segments => parts.segments,
        Letter::Sections => parts.sections,
        Letter::Symbols => parts.symbols,
        Letter::Relocations => parts.relocations,
        Letter::Dynamic => parts.dynamic,
        Letter::Notes => parts.notes,
        Letter::Versions => parts.versions,
    }
}

/// Shows the part of a letter. That of the header and of the program headers reads nothing; each of
/// the others goes over the sections once. It returns whether something was rejected.
fn show_letter<S: Source, O: Sink, E: Sink>(
    letter: Letter,
    name: &FileName<'_>,
    elf: &mut Elf<S>,
    outputs: &mut Outputs<'_, O, E>,
) -> Result<bool, Stop>
    ensures reports { ReportsOver S.Source O.Sink E.Sink (if reads_sections letter then 1 else 0)
        (letter_report letter name.now) result elf.old elf.new outputs.old outputs.new }
    ensures unread { reads_sections letter ≡ false → elf.new ≡ elf.old }
{
    match letter {
        Letter::Header => show_header(&elf.ehdr(), outputs),
        Letter::Segments => show_segments(elf, outputs),
        Letter::Sections => show_sections(elf, outputs),
        Letter::Symbols => show_symbols(name, elf, outputs),
        Letter::Relocations => show_relocations(name, elf, outputs),
        Letter::Dynamic => show_dynamic(name, elf, outputs),
        Letter::Notes => show_notes(name, elf, outputs),
        Letter::Versions => show_versions(name, elf, outputs),
    }
}

/// Shows the part of a letter, where it is asked for.
fn show_part<S: Source, O: Sink, E: Sink>(
    parts: &ReadelfParts,
    letter: Letter,
    name: &FileName<'_>,
    elf: &mut Elf<S>,
    outputs: &mut Outputs<'_, O, E>,
) -> Result<bool, Stop>
    ensures reports { ReportsOver S.Source O.Sink E.Sink
        (if goes_over parts.now letter then 1 else 0) (letter_part parts.now name.now letter)
        result elf.old elf.new outputs.old outputs.new }
    ensures unread { goes_over parts.now letter ≡ false → elf.new ≡ elf.old }
{
    if is_asked(parts, letter) {
        show_letter(letter, name, elf, outputs)
    } else {
        Ok(false)
    }
}

/// Shows the parts of an object that are asked for, in the order of `LETTERS`. Where no part reads
/// sections, nothing is read. It returns whether something was rejected.
pub fn show_parts<S: Source, O: Sink, E: Sink>(
    name: &FileName<'_>,
    elf: &mut Elf<S>,
    parts: &ReadelfParts,
    outputs: &mut Outputs<'_, O, E>,
) -> Result<bool, Stop>
    ensures reports { ReportsOver S.Source O.Sink E.Sink (passes_of parts.now)
        (readelf_report parts.now name.now) result elf.old elf.new outputs.old outputs.new }
    ensures unread { shows_sections parts.now ≡ false → elf.new ≡ elf.old }
{
    let mut refused = false;
    for letter in LETTERS {
        let was_refused = show_part(parts, letter, name, elf, outputs)?;
        refused = refused | was_refused;
    }
    Ok(refused)
}

/// The tool of the command readelf: these parts of an object.
#[derive(Clone, Copy)]
pub struct ReadelfTool<'a> {
    /// The parts.
    pub parts: &'a ReadelfParts,
}

impl ObjectTool for ReadelfTool<'_> {
    ghost command = { λ _. codes "readelf" };

    ghost report = { λ t name. readelf_report t.parts.now name };

    ghost looks = { λ t. readelf_looks t.parts.now };

    fn command(&self) -> &'static str {
        "readelf"
    }

    fn show<S: Source, O: Sink, E: Sink>(
        &self,
        elf: &mut Elf<S>,
        name: &FileName<'_>,
        outputs: &mut Outputs<'_, O, E>,
    ) -> Result<bool, Stop> {
        show_parts(name, elf, self.parts, outputs)
    }
}

/// Shows the parts of an object that are asked for, as the command readelf does, on two outputs.
/// Messages name it by `name`. It returns whether something was rejected. It stops by `Read` where
/// a read of the source failed, by `Write` where a put failed, and by `Memory`.
pub fn readelf<S: Source, O: Sink, E: Sink>(
    alloc: Global,
    elf: &mut Elf<S>,
    parts: &ReadelfParts,
    name: &[u8],
    out: &mut O,
    err: &mut E,
) -> Result<bool, Stop>
    ensures shows { ShowsOver S.Source O.Sink E.Sink (passes_of parts.now)
        (readelf_report parts.now (file_name name.now))
        result elf.old elf.new out.old out.new err.old err.new }
    ensures unread { shows_sections parts.now ≡ false → elf.new ≡ elf.old }
{
    show_object(
        alloc,
        &ReadelfTool { parts },
        elf,
        &FileName::of(name),
        out,
        err,
    )
}
