//! A look at the headers of all sections before the rules are asked, by which some find nothing.

ghost use Rattle.std.specs.Prelude.{◌≡◌, ◌<◌, ◌==◌, ◌+◌, length};
ghost use Rattle.symbol_lookup.specs.elf_object.Sections.{header_at};
ghost use Rattle.elf_lint.specs.Survey as stated;
ghost use Rattle.elf_lint.specs.Survey.{IsSurveyOf};

use elf_lint_findings::prelude::section_header;
use elf_lint_findings::{
    is_relocation_section, is_string_table, is_symbol_table_header, object_class,
};
use elf_lint_headers::is_odd_section;
use elf_lint_links::is_linked_wrongly;
use elf_outside::Source;
use elf_types::constants::{
    SHT_DYNAMIC, SHT_GNU_HASH, SHT_GNU_VERDEF, SHT_GNU_VERNEED, SHT_HASH, SHT_NOBITS, SHT_NOTE,
};
use elf_types::{ScnId, Shdr};
use symbol_lookup::prelude::Elf;

/// What there may be among the sections of an object for rules to find: where a field is false,
/// there is none of it.
#[derive(Clone, Copy)]
pub struct Survey {
    /// A section at which a rule that goes by headers alone has a finding.
    pub odd: bool,
    /// A string table.
    pub strings: bool,
    /// A symbol table at whose symbols a rule has a finding.
    pub symbols: bool,
    /// A section of relocations.
    pub relocations: bool,
    /// A section of notes.
    pub notes: bool,
    /// A section that a dynamic linker goes by.
    pub linking: bool,
    /// How many bytes the sections have together by their headers, at most 2^64 - 1.
    pub bytes: u64,
}

/// Whether a rule that goes by headers alone has a finding at a section with that header, which is
/// there.
fn is_odd<S: Source>(elf: &Elf<S>, s: ScnId, h: &Shdr) -> bool
    requires there { s.0 < length elf.now.o.sections }
    requires header { h.now ≡ header_at elf.now.o s.0 }
    ensures { result ≡ stated.is_odd elf.now.o s.0 }
{
    is_odd_section(elf, s, h) | is_linked_wrongly(elf, s, h)
}

/// Whether a dynamic linker goes by a section.
fn is_of_linking(h: &Shdr) -> bool
    ensures { result ≡ stated.is_of_linking h.now }
{
    let versions = h.stype == SHT_GNU_VERDEF || h.stype == SHT_GNU_VERNEED;
    h.stype == SHT_DYNAMIC || (h.stype == SHT_HASH || (h.stype == SHT_GNU_HASH || versions))
}

/// How many bytes a section has in the file by its header.
fn bytes_of(h: &Shdr) -> u64 {
    if h.stype == SHT_NOBITS { 0 } else { h.size }
}

/// A survey of the sections before one that is there, and of that.
#[inline(always)]
fn survey_next<S: Source>(elf: &Elf<S>, s: ScnId, so_far: Survey) -> Survey
    requires there { s.0 < length elf.now.o.sections }
    requires before { IsSurveyOf elf.now.o s.0 so_far }
    ensures { IsSurveyOf elf.now.o (s.0 + 1) result }
{
    let h = section_header(elf, s);
    Survey {
        odd: so_far.odd | is_odd(elf, s, &h),
        strings: so_far.strings | is_string_table(&h),
        symbols: so_far.symbols | is_symbol_table_header(object_class(elf), &h),
        relocations: so_far.relocations | is_relocation_section(&h),
        notes: so_far.notes | (h.stype == SHT_NOTE),
        linking: so_far.linking | is_of_linking(&h),
        bytes: so_far.bytes.saturating_add(bytes_of(&h)),
    }
}

/// A survey of no sections.
fn survey_none() -> Survey
    ensures { result ≡ stated.survey_none }
{
    Survey {
        odd: false,
        strings: false,
        symbols: false,
        relocations: false,
        notes: false,
        linking: false,
        bytes: 0,
    }
}

/// A survey of all sections. Nothing is read.
pub fn survey_sections<S: Source>(elf: &Elf<S>) -> Survey
    ensures { IsSurveyOf elf.now.o (length elf.now.o.sections) result }
{
    let mut survey = survey_none();
    for s in 0..elf.shnum() {
        survey = survey_next(elf, ScnId(s), survey);
    }
    survey
}
