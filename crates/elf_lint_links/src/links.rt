//! The rules 15 to 18: what sections of some types link to. Nothing is read. The type, which most
//! sections are not of, is looked at first.

ghost use Rattle.std.specs.Prelude.{◌≡◌, ◌<◌, length};
ghost use Rattle.elf_lint_findings.specs.elf_object.Sections.{header_at};
ghost use Rattle.elf_lint_links.specs.Links as rule;
ghost use Rattle.elf_lint_findings.specs.Steps.{FindsOver};

use elf_lint_findings::prelude::{Elf, section_header};
use elf_lint_findings::{
    HeaderRule, each_header_by, is_looked_at, is_relocation_section, is_string_table,
    is_symbol_table_header, linked_header, object_class,
};
use elf_outside::{Sink, Source};
use elf_types::constants::{SHN_UNDEF, SHT_DYNAMIC, SHT_GNU_HASH, SHT_GNU_VERSYM, SHT_HASH};
use elf_types::{ScnId, Shdr};
use tool_output::{FileName, Outputs, Stop};

/// Whether a section goes by the symbols of a table: a hash section or version indexes.
fn goes_by_symbols(h: &Shdr) -> bool
    ensures { result ≡ rule.goes_by_symbols h.now }
{
    h.stype == SHT_HASH || h.stype == SHT_GNU_HASH || h.stype == SHT_GNU_VERSYM
}

/// Links of symbol tables.
#[derive(Clone, Copy)]
struct SymbolLinks;

impl HeaderRule for SymbolLinks {
    ghost finds = { λ _. rule.symbols_lack_strings };

    #[tactic(auto, using(elf_lint_findings::proofs::WholeLemmas::either_first), unfolding(crate::specs::Links::symbols_lack_strings))]
    fn finds<S: Source>(&self, elf: &Elf<S>, s: ScnId) -> bool {
        let h = section_header(elf, s);
        let lacks = is_symbol_table_header(object_class(elf), &h)
            && !is_string_table(&linked_header(elf, s));
        lacks && is_looked_at(elf, s)
    }
}

/// Rule 15, at each symbol table: it links to no string table.
///
/// Source: gABI chapter 4, "Section Header", sh_link.
#[tactic(auto, unfolding(crate::specs::Links::symbols_without_strings))]
pub fn symbols_without_strings<S: Source, O: Sink, E: Sink>(
    name: &FileName<'_>,
    elf: &mut Elf<S>,
    outputs: &mut Outputs<'_, O, E>,
) -> Result<bool, Stop>
    ensures { FindsOver S.Source O.Sink E.Sink 1 rule.symbols_without_strings name.now
        result elf.old elf.new outputs.old outputs.new }
{
    each_header_by(
        &SymbolLinks,
        15,
        "link is no string table",
        name,
        elf,
        outputs,
    )
}

/// Links of relocations.
#[derive(Clone, Copy)]
struct RelocationLinks;

impl HeaderRule for RelocationLinks {
    ghost finds = { λ _. rule.relocations_lack_symbols };

    #[tactic(auto, using(elf_lint_findings::proofs::WholeLemmas::either_first), unfolding(crate::specs::Links::relocations_lack_symbols))]
    fn finds<S: Source>(&self, elf: &Elf<S>, s: ScnId) -> bool {
        let h = section_header(elf, s);
        let lacks = is_relocation_section(&h)
            && (h.link != SHN_UNDEF
                && !is_symbol_table_header(object_class(elf), &linked_header(elf, s)));
        lacks && is_looked_at(elf, s)
    }
}

/// Rule 16, at each section of relocations with a link: that is no symbol table.
///
/// Source: gABI chapter 4, "Section Header", sh_link.
#[tactic(auto, unfolding(crate::specs::Links::relocations_without_symbols))]
pub fn relocations_without_symbols<S: Source, O: Sink, E: Sink>(
    name: &FileName<'_>,
    elf: &mut Elf<S>,
    outputs: &mut Outputs<'_, O, E>,
) -> Result<bool, Stop>
    ensures { FindsOver S.Source O.Sink E.Sink 1 rule.relocations_without_symbols name.now
        result elf.old elf.new outputs.old outputs.new }
{
    each_header_by(
        &RelocationLinks,
        16,
        "link is no symbol table",
        name,
        elf,
        outputs,
    )
}

/// Links of hash sections and of version indexes.
#[derive(Clone, Copy)]
struct HashLinks;

impl HeaderRule for HashLinks {
    ghost finds = { λ _. rule.hashes_lack_symbols };

    #[tactic(auto, using(elf_lint_findings::proofs::WholeLemmas::either_first), unfolding(crate::specs::Links::hashes_lack_symbols))]
    fn finds<S: Source>(&self, elf: &Elf<S>, s: ScnId) -> bool {
        let h = section_header(elf, s);
        let lacks = goes_by_symbols(&h)
            && !is_symbol_table_header(object_class(elf), &linked_header(elf, s));
        lacks && is_looked_at(elf, s)
    }
}

/// Rule 17, at each hash section and each section of version indexes: it links to no symbol table.
///
/// Source: gABI chapter 4, "Section Header", sh_link.
#[tactic(auto, unfolding(crate::specs::Links::hashes_without_symbols))]
pub fn hashes_without_symbols<S: Source, O: Sink, E: Sink>(
    name: &FileName<'_>,
    elf: &mut Elf<S>,
    outputs: &mut Outputs<'_, O, E>,
) -> Result<bool, Stop>
    ensures { FindsOver S.Source O.Sink E.Sink 1 rule.hashes_without_symbols name.now
        result elf.old elf.new outputs.old outputs.new }
{
    each_header_by(
        &HashLinks,
        17,
        "link is no symbol table",
        name,
        elf,
        outputs,
    )
}

/// Links of dynamic sections.
#[derive(Clone, Copy)]
struct DynamicLinks;

impl HeaderRule for DynamicLinks {
    ghost finds = { λ _. rule.dynamic_lacks_strings };

    #[tactic(auto, using(elf_lint_findings::proofs::WholeLemmas::either_first), unfolding(crate::specs::Links::dynamic_lacks_strings))]
    fn finds<S: Source>(&self, elf: &Elf<S>, s: ScnId) -> bool {
        let h = section_header(elf, s);
        let lacks = h.stype == SHT_DYNAMIC && !is_string_table(&linked_header(elf, s));
        lacks && is_looked_at(elf, s)
    }
}

/// Rule 18, at each dynamic section: it links to no string table.
///
/// Source: gABI chapter 4, "Section Header", sh_link.
#[tactic(auto, unfolding(crate::specs::Links::dynamic_without_strings))]
pub fn dynamic_without_strings<S: Source, O: Sink, E: Sink>(
    name: &FileName<'_>,
    elf: &mut Elf<S>,
    outputs: &mut Outputs<'_, O, E>,
) -> Result<bool, Stop>
    ensures { FindsOver S.Source O.Sink E.Sink 1 rule.dynamic_without_strings name.now
        result elf.old elf.new outputs.old outputs.new }
{
    each_header_by(
        &DynamicLinks,
        18,
        "link is no string table",
        name,
        elf,
        outputs,
    )
}

/// Whether rule 15 has a finding at a section with that header, which is there.
fn symbols_lack_strings<S: Source>(elf: &Elf<S>, s: ScnId, h: &Shdr) -> bool
    requires there { s.0 < length elf.now.o.sections }
    requires header { h.now ≡ header_at elf.now.o s.0 }
    ensures { result ≡ rule.symbols_lack_strings elf.now.o s.0 }
{
    is_symbol_table_header(object_class(elf), h) && SymbolLinks.finds(elf, s)
}

/// Whether rule 16 has a finding at a section with that header, which is there.
fn relocations_lack_symbols<S: Source>(elf: &Elf<S>, s: ScnId, h: &Shdr) -> bool
    requires there { s.0 < length elf.now.o.sections }
    requires header { h.now ≡ header_at elf.now.o s.0 }
    ensures { result ≡ rule.relocations_lack_symbols elf.now.o s.0 }
{
    is_relocation_section(h) && RelocationLinks.finds(elf, s)
}

/// Whether rule 17 has a finding at a section with that header, which is there.
fn hashes_lack_symbols<S: Source>(elf: &Elf<S>, s: ScnId, h: &Shdr) -> bool
    requires there { s.0 < length elf.now.o.sections }
    requires header { h.now ≡ header_at elf.now.o s.0 }
    ensures { result ≡ rule.hashes_lack_symbols elf.now.o s.0 }
{
    goes_by_symbols(h) && HashLinks.finds(elf, s)
}

/// Whether rule 18 has a finding at a section with that header, which is there.
fn dynamic_lacks_strings<S: Source>(elf: &Elf<S>, s: ScnId, h: &Shdr) -> bool
    requires there { s.0 < length elf.now.o.sections }
    requires header { h.now ≡ header_at elf.now.o s.0 }
    ensures { result ≡ rule.dynamic_lacks_strings elf.now.o s.0 }
{
    h.stype == SHT_DYNAMIC && DynamicLinks.finds(elf, s)
}

/// Whether one of the rules 15 to 18 has a finding at a section with that header, which is there.
/// Nothing is read.
///
/// Source: gABI chapter 4, "Section Header", sh_link.
#[tactic(auto, unfolding(crate::specs::Links::is_linked_wrongly))]
pub fn is_linked_wrongly<S: Source>(elf: &Elf<S>, s: ScnId, h: &Shdr) -> bool
    requires there { s.0 < length elf.now.o.sections }
    requires header { h.now ≡ header_at elf.now.o s.0 }
    ensures { result ≡ rule.is_linked_wrongly elf.now.o s.0 }
{
    let of_symbols = symbols_lack_strings(elf, s, h);
    let of_relocations = relocations_lack_symbols(elf, s, h);
    let of_hashes = hashes_lack_symbols(elf, s, h);
    of_symbols | (of_relocations | (of_hashes | dynamic_lacks_strings(elf, s, h)))
}
