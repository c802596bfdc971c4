//! What is said of the data of each section of some types. A section that is out of the file, or
//! whose data is compressed, has its message in place of its lines, and the next one follows.

ghost use Rattle.std.specs.Prelude.{◌≡◌, ◌++◌, ◌==◌, ◌<◌, ℕ, Bool as TheBool, length, OnOk, IfErr};
ghost use Rattle.std.specs.Option.{option_copied};
ghost use Rattle.elf_types.specs.Writers.{WantsMemory};
ghost use Rattle.tool_objects.specs.elf_object.Object.{Object, section_at};
ghost use Rattle.tool_objects.specs.tool_output.Names.{Name};
ghost use Rattle.tool_objects.specs.tool_output.Reports.{Report};
ghost use Rattle.tool_objects.specs.Steps.{ReportsElf, ReportsOver};
ghost use Rattle.readelf_rows.specs.Data.{if_plain, plain_report, each_plain, data_title};

use elf_types::{ElfError, Octets, ScnId, is_compressed, put_decimal, put_text};
use tool_objects::prelude::{Elf, FileName, InSection, Line, Message, Outputs, Sink, Source, Stop};
use tool_objects::{Bracketed, SectionTool, each_section, is_out, section_header};

/// What is said of the data of the sections of some types.
///
/// - `has` tells these types.
/// - `report` is what is said of a section of such a type that is in the file and whose data is not
///   compressed, of an object under a name.
pub trait SectionPart {
    ghost has: { ℕ → TheBool };

    ghost report: { Name → Object → ℕ → Report };

    /// Whether a type is one of them.
    fn has(&self, stype: u32) -> bool
        ensures { result ≡ has stype };

    /// Gives the report on a section that is there, and leaves the object. It returns whether
    /// something was rejected. It stops by `Read` only where a read of the source failed, by
    /// `Write` only where a put failed.
    fn show<S: Source, O: Sink, E: Sink>(
        &self,
        name: &FileName<'_>,
        elf: &mut Elf<S>,
        s: ScnId,
        outputs: &mut Outputs<'_, O, E>,
    ) -> Result<bool, Stop>
        requires { s.0 < length elf.old.o.sections }
        ensures { ReportsElf S.Source O.Sink E.Sink (λ o. report name.now o s.0)
            result elf.old elf.new outputs.old outputs.new };
}

/// Whether the present type of a section that is there is this one.
pub fn is_of_type<S: Source>(elf: &Elf<S>, s: ScnId, stype: u32) -> bool
    requires { s.0 < length elf.now.o.sections }
    ensures { result ≡ ((section_at elf.now.o s.0).header.stype == stype) }
{
    section_header(elf, s).stype == stype
}

/// Shows the data of a section that is there, or the message that is in its place.
fn show_plain<P: SectionPart, S: Source, O: Sink, E: Sink>(
    part: &P,
    name: &FileName<'_>,
    elf: &mut Elf<S>,
    s: ScnId,
    outputs: &mut Outputs<'_, O, E>,
) -> Result<bool, Stop>
    requires { s.0 < length elf.old.o.sections }
    ensures { ReportsElf S.Source O.Sink E.Sink
        (λ o. if_plain name.now o s.0 (P.report name.now o s.0))
        result elf.old elf.new outputs.old outputs.new }
{
    let command = "readelf";
    let section = s.0;
    if is_out(elf, s) {
        let text = ElfError::OutOfFile { section };
        return outputs.refuse(&Message {
            command,
            name,
            text,
        });
    }
    if is_compressed(section_header(elf, s).flags) {
        let text = InSection {
            section,
            text: "compressed",
        };
        return outputs.refuse(&Message {
            command,
            name,
            text,
        });
    }
    part.show(name, elf, s, outputs)
}

/// A part, of the sections that are there.
#[derive(Clone, Copy)]
struct Plain<'a, P> {
    /// The part.
    part: &'a P,
    /// The file.
    name: &'a FileName<'a>,
}

impl<P: SectionPart> SectionTool for Plain<'_, P> {
    ghost report = { λ p o. plain_report P.has p.name.now o (P.report p.name.now o) };

    fn show<S: Source, O: Sink, E: Sink>(
        &self,
        elf: &mut Elf<S>,
        s: ScnId,
        outputs: &mut Outputs<'_, O, E>,
    ) -> Result<bool, Stop> {
        if !self.part.has(section_header(elf, s).stype) {
            return Ok(false);
        }
        show_plain(self.part, self.name, elf, s, outputs)
    }
}

/// Shows the data of each section of a part's types, by number.
#[tactic(auto, unfolding(crate::specs::Data::each_plain))]
pub fn each_plain<P: SectionPart, S: Source, O: Sink, E: Sink>(
    part: &P,
    name: &FileName<'_>,
    elf: &mut Elf<S>,
    outputs: &mut Outputs<'_, O, E>,
) -> Result<bool, Stop>
    ensures { ReportsOver S.Source O.Sink E.Sink 1
        (λ o. each_plain P.has name.now o (P.report name.now o))
        result elf.old elf.new outputs.old outputs.new }
{
    each_section(&Plain { part, name }, elf, outputs)
}

/// Appends `TITLE S NAME`.
#[tactic(auto, using(elf_types::proofs::Writers::kept), unfolding(crate::specs::Data::data_title))]
pub fn put_data_title(
    page: &mut Octets,
    title: &str,
    s: ScnId,
    name: Option<&[u8]>,
) -> Result<(), ElfError>
    ensures ok { OnOk result
        (page.new ≡ page.old ++ data_title title.now s.0 (option_copied name.entry)) }
    ensures err { IfErr result (WantsMemory page.old page.new) }
{
    put_text(page, title)?;
    put_decimal(page, u64::from(s.0))?;
    put_text(page, " ")?;
    Bracketed { name }.put(page)
}
