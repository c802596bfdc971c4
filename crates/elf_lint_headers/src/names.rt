//! The rules 3 and 5: the names of sections. Where the names end is looked for once, and then a
//! name can be read exactly where it begins before that.

ghost use Rattle.std.specs.Prelude.{◌≡◌, IfOk, IfSome, IsTrue};
ghost use Rattle.tool_objects.specs.Steps.{ReadsElf};
ghost use Rattle.tool_objects.specs.AtHand.Strings.{EndsAt};
ghost use Rattle.elf_lint_headers.specs.Names as rule;
ghost use Rattle.elf_lint_headers.specs.Names.{HasSectionNames};
ghost use Rattle.elf_lint_findings.specs.Steps.{FindsElf, FindsOver};

use elf_lint_findings::{
    HeaderRule, Place, SectionRule, each_header_by, each_section_by, find_if, is_string_table,
};
use elf_outside::{Sink, Source};
use elf_types::ScnId;
use elf_types::constants::SHN_UNDEF;
use tool_objects::at_hand::strings_end;
use tool_objects::prelude::{Elf, section_header, section_name_or_stop};
use tool_output::{FileName, Outputs, Stop};

/// Whether there are sections, and the section of their names is none, is not there, or is no
/// string table. Nothing is read.
#[tactic(auto, unfolding(crate::specs::Names::lacks_name_table, tool_objects::specs::AtHand::Passed::shdr_answer))]
fn lacks_name_table<S: Source>(elf: &Elf<S>) -> bool
    ensures { result ≡ rule.lacks_name_table elf.now.o }
{
    let names = elf.shstrndx();
    if elf.shnum() == 0 {
        return false;
    }
    if names == SHN_UNDEF {
        return true;
    }
    match elf.shdr(ScnId(names)) {
        Ok(header) => !is_string_table(&header),
        Err(_) => true,
    }
}

/// Rule 3, at the ELF header: there are sections, and no table of their names.
///
/// Source: gABI chapter 4, "ELF Header", e_shstrndx.
#[tactic(auto, unfolding(crate::specs::Names::missing_name_table))]
pub fn missing_name_table<S: Source, O: Sink, E: Sink>(
    name: &FileName<'_>,
    elf: &mut Elf<S>,
    outputs: &mut Outputs<'_, O, E>,
) -> Result<bool, Stop>
    ensures { FindsElf S.Source O.Sink E.Sink rule.missing_name_table name.now
        result elf.old elf.new outputs.old outputs.new }
{
    let lacks = lacks_name_table(elf);
    find_if(lacks, name, 3, Place::Header, "no name table", outputs)
}

/// Names of sections that cannot be read.
#[derive(Clone, Copy)]
struct SectionNames;

impl SectionRule for SectionNames {
    ghost finds = { rule.has_unreadable_name };

    #[tactic(auto, unfolding(crate::specs::Names::has_unreadable_name))]
    fn finds<S: Source>(&self, elf: &mut Elf<S>, s: ScnId) -> Result<bool, Stop> {
        if s.0 == 0 || lacks_name_table(elf) {
            return Ok(false);
        }
        match section_name_or_stop(elf, s) {
            Ok(name) => Ok(name.is_none()),
            Err(stop) => Err(stop),
        }
    }
}

/// Whether there is a section whose name is looked for: one after section 0, and a name table.
fn has_names<S: Source>(elf: &Elf<S>) -> bool
    ensures { IsTrue result → HasSectionNames elf.now.o }
{
    if elf.shnum() < 2 || lacks_name_table(elf) {
        return false;
    }
    true
}

/// Where the names of sections end, where there are any and that can be told.
fn end_of_names<S: Source>(elf: &mut Elf<S>) -> Result<Option<u64>, Stop>
    ensures has { IfOk result (λ end. IfSome end (λ _. HasSectionNames elf.old.o)) }
    ensures end { IsTrue elf.old.told → IfOk result
        (λ end. IfSome end (EndsAt elf.old.o elf.old.o.header.shstrndx)) }
    ensures reads { ReadsElf S.Source result elf.old elf.new }
{
    if !has_names(elf) {
        return Ok(None);
    }
    let names = ScnId(elf.shstrndx());
    strings_end(elf, names)
}

/// Names of sections that begin where the names end, or after it.
#[derive(Clone, Copy)]
struct NamesPast {
    /// Where they end.
    end: u64,
}

impl HeaderRule for NamesPast {
    ghost finds = { λ n. rule.has_name_past n.end };

    fn finds<S: Source>(&self, elf: &Elf<S>, s: ScnId) -> bool {
        s.0 != 0 && u64::from(section_header(elf, s).name) >= self.end
    }
}

/// Says what the rule finds where the names of sections end there.
fn names_past<S: Source, O: Sink, E: Sink>(
    end: u64,
    name: &FileName<'_>,
    elf: &mut Elf<S>,
    outputs: &mut Outputs<'_, O, E>,
) -> Result<bool, Stop>
    requires has { HasSectionNames elf.old.o }
    requires end { IsTrue elf.old.told → EndsAt elf.old.o elf.old.o.header.shstrndx end }
    ensures { FindsOver S.Source O.Sink E.Sink 1 rule.unreadable_section_names name.now
        result elf.old elf.new outputs.old outputs.new }
{
    each_header_by(
        &NamesPast { end },
        5,
        "name cannot be read",
        name,
        elf,
        outputs,
    )
}

/// Says what the rule finds where the end of the names is not known.
#[tactic(auto, unfolding(crate::specs::Names::unreadable_section_names))]
fn names_one_by_one<S: Source, O: Sink, E: Sink>(
    name: &FileName<'_>,
    elf: &mut Elf<S>,
    outputs: &mut Outputs<'_, O, E>,
) -> Result<bool, Stop>
    ensures { FindsOver S.Source O.Sink E.Sink 1 rule.unreadable_section_names name.now
        result elf.old elf.new outputs.old outputs.new }
{
    each_section_by(&SectionNames, 5, "name cannot be read", name, elf, outputs)
}

/// Rule 5, at each section from 1 on, where there is a name table: its name cannot be read.
///
/// Source: gABI chapter 4, "Section Header", sh_name.
pub fn unreadable_section_names<S: Source, O: Sink, E: Sink>(
    name: &FileName<'_>,
    elf: &mut Elf<S>,
    outputs: &mut Outputs<'_, O, E>,
) -> Result<bool, Stop>
    ensures { FindsOver S.Source O.Sink E.Sink 1 rule.unreadable_section_names name.now
        result elf.old elf.new outputs.old outputs.new }
{
    match end_of_names(elf) {
        Ok(Some(end)) => names_past(end, name, elf, outputs),
        Ok(None) => names_one_by_one(name, elf, outputs),
        Err(stop) => Err(stop),
    }
}
