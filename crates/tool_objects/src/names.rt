//! The names of sections, and the sections of a name.

ghost use Rattle.std.specs.Prelude.{◌≡◌, ◌<◌, length, IsTrue, IfOk};
ghost use Rattle.std.specs.Borrow.{sem};
ghost use Rattle.std.specs.Option.{option_copied};
ghost use Rattle.gelf_view.specs.elf_object.Strings as strings;
ghost use Rattle.gelf_view.specs.elf_descriptor.Rests.{Rests};
ghost use Rattle.tool_output.specs.Reports.{reports_of};
ghost use Rattle.tool_objects.specs.Steps.{ReportsOver, ReadsElf, Learns};
ghost use Rattle.tool_objects.specs.Sections.{bracketed, report_if, sections_named};

use crate::items::stop_for;
use crate::sections::{SectionTool, each_section};
use elf_types::{ElfError, Octets, ScnId, put_bytes, put_text};
use gelf_view::prelude::Elf;
use gelf_view::strptr;
use tool_output::prelude::{Sink, Source};
use tool_output::{Line, Outputs, Stop};

/// A name as it is shown: in square brackets, or `<none>` where there is none.
#[derive(Clone, Copy)]
pub struct Bracketed<'a> {
    /// The name, which need not be text.
    pub name: Option<&'a [u8]>,
}

impl Line for Bracketed<'_> {
    ghost text = { λ b. bracketed (option_copied b.name) };

    #[tactic(auto, using(crate::proofs::Rules::kept), unfolding(crate::specs::Sections::bracketed))]
    fn put(&self, page: &mut Octets) -> Result<(), ElfError> {
        match self.name {
            Some(name) => {
                put_text(page, "[")?;
                put_bytes(page, name)?;
                put_text(page, "]")
            }
            None => put_text(page, "<none>"),
        }
    }
}

/// The string at an offset of a section, or None where it cannot be read. It stops by `Read` where
/// a read of the source failed, and by `Memory`.
///
/// Source: gABI chapter 4, "String Table"; elf_strptr of elf(3E).
pub fn string_at<S: Source>(elf: &mut Elf<S>, s: ScnId, offset: u64) -> Result<Option<&[u8]>, Stop>
    ensures value { IsTrue elf.old.told → IfOk result (λ name. option_copied name
        ≡ strings.readable (strings.string_answer elf.old.o s.0 offset)) }
    ensures* rests { sem 𝓛 (Rests S.row S.Source elf.entry (λ new.
        ReadsElf S.Source result elf.old new)) }
{
    match strptr(elf, s, offset) {
        Ok(name) => Ok(Some(name)),
        Err(e) => match Stop::of(&e) {
            Some(stop) => Err(stop),
            None => Ok(None),
        },
    }
}

/// The name of a section that is there: the string at its `sh_name` in the section of the names, or
/// None where there is no such section or the string cannot be read. It stops as `string_at` does.
///
/// Source: gABI chapter 4, "Section Header", sh_name.
pub fn section_name_or_stop<S: Source>(elf: &mut Elf<S>, s: ScnId) -> Result<Option<&[u8]>, Stop>
    requires { s.0 < length elf.old.o.sections }
    ensures value { IsTrue elf.old.told → IfOk result
        (λ name. option_copied name ≡ strings.section_name elf.old.o s.0) }
    ensures* rests { sem 𝓛 (Rests S.row S.Source elf.entry (λ new.
        ReadsElf S.Source result elf.old new)) }
{
    match gelf_view::section_name(elf, s) {
        Ok(name) => Ok(name),
        Err(e) => Err(stop_for(e)),
    }
}

/// Whether a section that is there has this name. It stops as `section_name_or_stop` does.
pub fn has_section_name<S: Source>(elf: &mut Elf<S>, s: ScnId, name: &[u8]) -> Result<bool, Stop>
    requires { s.0 < length elf.old.o.sections }
    ensures { Learns S.Source (λ o. strings.is_name name.now (strings.section_name o s.0))
        result elf.old elf.new }
{
    match gelf_view::is_named(elf, s, name) {
        Ok(is) => Ok(is),
        Err(e) => Err(stop_for(e)),
    }
}

/// What a tool says of the sections of a name.
#[derive(Clone, Copy)]
struct Named<'a, T> {
    /// What it says of each.
    tool: &'a T,
    /// The name.
    name: &'a str,
}

impl<T: SectionTool> SectionTool for Named<'_, T> {
    ghost report = { λ n o s. report_if
        (strings.is_name n.name.now (strings.section_name o s)) (T.report n.tool.now o s) };

    fn show<S: Source, O: Sink, E: Sink>(
        &self,
        elf: &mut Elf<S>,
        s: ScnId,
        outputs: &mut Outputs<'_, O, E>,
    ) -> Result<bool, Stop> {
        if has_section_name(elf, s, self.name.as_bytes())? {
            self.tool.show(elf, s, outputs)
        } else {
            Ok(false)
        }
    }
}

/// Gives a tool's report on each section of a name, by number. It returns whether something was
/// rejected. It goes over the sections as `each_section` does.
pub fn each_section_named<T: SectionTool, S: Source, O: Sink, E: Sink>(
    tool: &T,
    name: &str,
    elf: &mut Elf<S>,
    outputs: &mut Outputs<'_, O, E>,
) -> Result<bool, Stop>
    ensures { ReportsOver S.Source O.Sink E.Sink 1
        (λ o. reports_of (T.report tool.now o) (sections_named name.now o))
        result elf.old elf.new outputs.old outputs.new }
{
    each_section(&Named { tool, name }, elf, outputs)
}
