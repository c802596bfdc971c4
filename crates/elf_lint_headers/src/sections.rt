//! The rules 4, 6 to 12 and 19: section headers. Nothing is read.

ghost use Rattle.std.specs.Prelude.{◌≡◌, ◌==◌, not};
ghost use Rattle.std.specs.List.{list_any};
ghost use Rattle.elf_lint_findings.specs.Looking as looking;
ghost use Rattle.elf_lint_headers.specs.Sections as rule;
ghost use Rattle.elf_lint_findings.specs.Steps.{FindsOver};

use elf_lint_findings::{
    HeaderRule, each_header_by, info_is_section, is_allocated_section, is_intact, is_looked_at,
    is_ragged, object_class,
};
use elf_outside::{Sink, Source};
use elf_types::constants::SHF_TLS;
use elf_types::{Kind, ScnId, Shdr, kind_of};
use elf_xlate::item_size;
use tool_objects::prelude::{Elf, is_out, section_header};
use tool_output::{FileName, Outputs, Stop};

/// Whether a field of section 0 that must be 0 is not.
pub fn has_reserved_field(h: &Shdr) -> bool
    ensures { result ≡ list_any (λ n. not (n == 0)) (rule.reserved_fields h.now) }
{
    let front = h.name != 0 || h.stype != 0 || h.flags != 0;
    front || h.addr != 0 || h.offset != 0 || h.addralign != 0 || h.entsize != 0
}

/// Whether the items of a kind are entries whose size a header tells.
pub fn has_entries(kind: Kind) -> bool
    ensures { result ≡ rule.has_entries kind }
{
    matches!(kind, Kind::Sym | Kind::Rel | Kind::Rela | Kind::Dyn)
}

/// Section 0 and its fields that must be 0.
#[derive(Clone, Copy)]
struct Section0;

impl HeaderRule for Section0 {
    ghost finds = { λ _. rule.is_used_section_0 };

    #[tactic(auto, unfolding(crate::specs::Sections::is_used_section_0))]
    fn finds<S: Source>(&self, elf: &Elf<S>, s: ScnId) -> bool {
        let h = section_header(elf, s);
        s.0 == 0 && has_reserved_field(&h)
    }
}

/// Rule 4, at section 0: a field other than size, link and info is not 0.
///
/// Source: gABI chapter 4, "Section Header", the entry at index 0.
#[tactic(auto, unfolding(crate::specs::Sections::section_0_in_use))]
pub fn section_0_in_use<S: Source, O: Sink, E: Sink>(
    name: &FileName<'_>,
    elf: &mut Elf<S>,
    outputs: &mut Outputs<'_, O, E>,
) -> Result<bool, Stop>
    ensures { FindsOver S.Source O.Sink E.Sink 1 rule.section_0_in_use name.now
        result elf.old elf.new outputs.old outputs.new }
{
    each_header_by(&Section0, 4, "section 0 is in use", name, elf, outputs)
}

/// Bytes past the end of the file.
#[derive(Clone, Copy)]
struct OutsideTheFile;

impl HeaderRule for OutsideTheFile {
    ghost finds = { λ _. looking.is_outside_file };

    fn finds<S: Source>(&self, elf: &Elf<S>, s: ScnId) -> bool {
        is_out(elf, s)
    }
}

/// Rule 6, at each section: it has bytes in the file, and they pass its end.
///
/// Source: gABI chapter 4, "Section Header", sh_offset and sh_size.
#[tactic(auto, unfolding(crate::specs::Sections::sections_outside_the_file))]
pub fn sections_outside_the_file<S: Source, O: Sink, E: Sink>(
    name: &FileName<'_>,
    elf: &mut Elf<S>,
    outputs: &mut Outputs<'_, O, E>,
) -> Result<bool, Stop>
    ensures { FindsOver S.Source O.Sink E.Sink 1 rule.sections_outside_the_file name.now
        result elf.old elf.new outputs.old outputs.new }
{
    each_header_by(&OutsideTheFile, 6, "outside the file", name, elf, outputs)
}

/// Sizes that are no whole items.
#[derive(Clone, Copy)]
struct RaggedSections;

impl HeaderRule for RaggedSections {
    ghost finds = { λ _. looking.is_ragged_section };

    fn finds<S: Source>(&self, elf: &Elf<S>, s: ScnId) -> bool {
        is_ragged(elf, s)
    }
}

/// Rule 7, at each section in the file: its size is no multiple of its item's.
///
/// Source: gABI chapter 4, "Section Header", sh_size.
#[tactic(auto, unfolding(crate::specs::Sections::ragged_sections))]
pub fn ragged_sections<S: Source, O: Sink, E: Sink>(
    name: &FileName<'_>,
    elf: &mut Elf<S>,
    outputs: &mut Outputs<'_, O, E>,
) -> Result<bool, Stop>
    ensures { FindsOver S.Source O.Sink E.Sink 1 rule.ragged_sections name.now
        result elf.old elf.new outputs.old outputs.new }
{
    each_header_by(
        &RaggedSections,
        7,
        "size is no multiple of the item",
        name,
        elf,
        outputs,
    )
}

/// Alignments that are no powers of two.
#[derive(Clone, Copy)]
struct OddAlignments;

impl HeaderRule for OddAlignments {
    ghost finds = { λ _. rule.has_odd_alignment };

    #[tactic(auto, unfolding(crate::specs::Sections::has_odd_alignment))]
    fn finds<S: Source>(&self, elf: &Elf<S>, s: ScnId) -> bool {
        let align = section_header(elf, s).addralign;
        align != 0 && !align.is_power_of_two()
    }
}

/// Rule 8, at each section: its alignment is neither 0 nor a power of two.
///
/// Source: gABI chapter 4, "Section Header", sh_addralign.
#[tactic(auto, unfolding(crate::specs::Sections::odd_alignments))]
pub fn odd_alignments<S: Source, O: Sink, E: Sink>(
    name: &FileName<'_>,
    elf: &mut Elf<S>,
    outputs: &mut Outputs<'_, O, E>,
) -> Result<bool, Stop>
    ensures { FindsOver S.Source O.Sink E.Sink 1 rule.odd_alignments name.now
        result elf.old elf.new outputs.old outputs.new }
{
    each_header_by(
        &OddAlignments,
        8,
        "alignment is no power of two",
        name,
        elf,
        outputs,
    )
}

/// Addresses that are not aligned.
#[derive(Clone, Copy)]
struct UnalignedAddresses;

impl HeaderRule for UnalignedAddresses {
    ghost finds = { λ _. rule.has_unaligned_address };

    #[tactic(auto, unfolding(crate::specs::Sections::has_unaligned_address))]
    fn finds<S: Source>(&self, elf: &Elf<S>, s: ScnId) -> bool {
        let h = section_header(elf, s);
        h.addralign > 1 && h.addr % h.addralign != 0
    }
}

/// Rule 9, at each section: its alignment is above 1 and does not divide its address.
///
/// Source: gABI chapter 4, "Section Header", sh_addr and sh_addralign.
#[tactic(auto, unfolding(crate::specs::Sections::unaligned_addresses))]
pub fn unaligned_addresses<S: Source, O: Sink, E: Sink>(
    name: &FileName<'_>,
    elf: &mut Elf<S>,
    outputs: &mut Outputs<'_, O, E>,
) -> Result<bool, Stop>
    ensures { FindsOver S.Source O.Sink E.Sink 1 rule.unaligned_addresses name.now
        result elf.old elf.new outputs.old outputs.new }
{
    each_header_by(
        &UnalignedAddresses,
        9,
        "address is not aligned",
        name,
        elf,
        outputs,
    )
}

/// Links to sections that are not there.
#[derive(Clone, Copy)]
struct LinksToNoSection;

impl HeaderRule for LinksToNoSection {
    ghost finds = { λ _. rule.links_nowhere };

    #[tactic(auto, unfolding(crate::specs::Sections::links_nowhere))]
    fn finds<S: Source>(&self, elf: &Elf<S>, s: ScnId) -> bool {
        section_header(elf, s).link >= elf.shnum()
    }
}

/// Rule 10, at each section: its link is not below the number of sections.
///
/// Source: gABI chapter 4, "Section Header", sh_link.
#[tactic(auto, unfolding(crate::specs::Sections::links_to_no_section))]
pub fn links_to_no_section<S: Source, O: Sink, E: Sink>(
    name: &FileName<'_>,
    elf: &mut Elf<S>,
    outputs: &mut Outputs<'_, O, E>,
) -> Result<bool, Stop>
    ensures { FindsOver S.Source O.Sink E.Sink 1 rule.links_to_no_section name.now
        result elf.old elf.new outputs.old outputs.new }
{
    each_header_by(
        &LinksToNoSection,
        10,
        "link to no section",
        name,
        elf,
        outputs,
    )
}

/// Numbers of sections that are not there.
#[derive(Clone, Copy)]
struct InfosOfNoSection;

impl HeaderRule for InfosOfNoSection {
    ghost finds = { λ _. rule.informs_of_nothing };

    #[tactic(auto, unfolding(crate::specs::Sections::informs_of_nothing))]
    fn finds<S: Source>(&self, elf: &Elf<S>, s: ScnId) -> bool {
        let h = section_header(elf, s);
        info_is_section(&h) && h.info >= elf.shnum()
    }
}

/// Rule 11, at each section whose info is a section's number: that is not below their number.
///
/// Source: gABI chapter 4, "Section Header", sh_info; "Sections", SHF_INFO_LINK.
#[tactic(auto, unfolding(crate::specs::Sections::infos_of_no_section))]
pub fn infos_of_no_section<S: Source, O: Sink, E: Sink>(
    name: &FileName<'_>,
    elf: &mut Elf<S>,
    outputs: &mut Outputs<'_, O, E>,
) -> Result<bool, Stop>
    ensures { FindsOver S.Source O.Sink E.Sink 1 rule.infos_of_no_section name.now
        result elf.old elf.new outputs.old outputs.new }
{
    each_header_by(
        &InfosOfNoSection,
        11,
        "info names no section",
        name,
        elf,
        outputs,
    )
}

/// Entry sizes that are not those of the items.
#[derive(Clone, Copy)]
pub struct WrongEntrySizes;

impl HeaderRule for WrongEntrySizes {
    ghost finds = { λ _. rule.has_wrong_entry_size };

    #[tactic(auto, using(elf_lint_findings::proofs::WholeLemmas::either_first), unfolding(crate::specs::Sections::has_wrong_entry_size))]
    fn finds<S: Source>(&self, elf: &Elf<S>, s: ScnId) -> bool {
        let h = section_header(elf, s);
        let class = object_class(elf);
        let kind = kind_of(class, &h);
        let wrong = has_entries(kind) && h.entsize != item_size(kind, class);
        wrong && is_looked_at(elf, s)
    }
}

/// Rule 12, at each section of symbols, relocations or dynamic entries: its entry size is not
/// theirs.
///
/// Source: gABI chapter 4, "Section Header", sh_entsize.
#[tactic(auto, unfolding(crate::specs::Sections::wrong_entry_sizes))]
pub fn wrong_entry_sizes<S: Source, O: Sink, E: Sink>(
    name: &FileName<'_>,
    elf: &mut Elf<S>,
    outputs: &mut Outputs<'_, O, E>,
) -> Result<bool, Stop>
    ensures { FindsOver S.Source O.Sink E.Sink 1 rule.wrong_entry_sizes name.now
        result elf.old elf.new outputs.old outputs.new }
{
    each_header_by(&WrongEntrySizes, 12, "wrong entry size", name, elf, outputs)
}

/// Thread-local storage that is not allocated.
#[derive(Clone, Copy)]
pub struct UnallocatedStorage;

impl HeaderRule for UnallocatedStorage {
    ghost finds = { λ _. rule.is_unallocated_storage };

    #[tactic(auto, using(elf_lint_findings::proofs::WholeLemmas::either_first), unfolding(crate::specs::Sections::is_unallocated_storage))]
    fn finds<S: Source>(&self, elf: &Elf<S>, s: ScnId) -> bool {
        let h = section_header(elf, s);
        let lacks = h.flags / SHF_TLS % 2 == 1 && !is_allocated_section(&h);
        lacks && is_intact(elf, s)
    }
}

/// Rule 19, at each section of thread-local storage: it is not in memory when the program runs.
///
/// Source: gABI chapter 4, "Sections", SHF_TLS and SHF_ALLOC.
#[tactic(auto, unfolding(crate::specs::Sections::unallocated_thread_storage))]
pub fn unallocated_thread_storage<S: Source, O: Sink, E: Sink>(
    name: &FileName<'_>,
    elf: &mut Elf<S>,
    outputs: &mut Outputs<'_, O, E>,
) -> Result<bool, Stop>
    ensures { FindsOver S.Source O.Sink E.Sink 1 rule.unallocated_thread_storage name.now
        result elf.old elf.new outputs.old outputs.new }
{
    each_header_by(
        &UnallocatedStorage,
        19,
        "thread-local but not allocated",
        name,
        elf,
        outputs,
    )
}
