//! Whether one of the rules 4, 6 to 12 and 19 has a finding at a section: its header is looked at
//! once for all of them. Nothing is read.

ghost use Rattle.std.specs.Prelude.{◌≡◌, ◌<◌, ◌==◌, ◌&&◌, ◌%◌, nat_lt, length, not};
ghost use Rattle.std.specs.Int.{is_power_of_two};
ghost use Rattle.elf_types.specs.Kinds.{section_kind};
ghost use Rattle.tool_objects.specs.elf_object.Sections.{header_at, info_is_section};
ghost use Rattle.elf_lint_findings.specs.Looking as looking;
ghost use Rattle.elf_lint_headers.specs.Sections as rule;

use crate::sections::{UnallocatedStorage, WrongEntrySizes, has_entries, has_reserved_field};
use elf_lint_findings::{HeaderRule, info_is_section, is_ragged, object_class};
use elf_outside::Source;
use elf_types::constants::SHF_TLS;
use elf_types::{Kind, ScnId, Shdr, kind_of};
use tool_objects::prelude::{Elf, is_out};

/// Whether rule 4 has a finding at a section with that header.
#[tactic(auto, unfolding(crate::specs::Sections::is_used_section_0))]
fn is_used_section_0<S: Source>(elf: &Elf<S>, s: ScnId, h: &Shdr) -> bool
    requires { h.now ≡ header_at elf.now.o s.0 }
    ensures { result ≡ rule.is_used_section_0 elf.now.o s.0 }
{
    s.0 == 0 && has_reserved_field(h)
}

/// Whether rule 7 has a finding at a section of items of that kind, which is there. Single bytes
/// are whole, however many they are.
fn is_ragged_of<S: Source>(elf: &Elf<S>, s: ScnId, kind: Kind) -> bool
    requires there { s.0 < length elf.now.o.sections }
    requires kind { kind ≡ section_kind (header_at elf.now.o s.0) }
    ensures { result ≡ looking.is_ragged_section elf.now.o s.0 }
{
    match kind {
        Kind::Bytes => false,
        _ => is_ragged(elf, s),
    }
}

/// Whether rule 8 has a finding at a section with that header.
fn has_odd_alignment(h: &Shdr) -> bool
    ensures { result ≡ (not (h.now.addralign == 0) && not (is_power_of_two h.now.addralign)) }
{
    h.addralign != 0 && !h.addralign.is_power_of_two()
}

/// Whether rule 9 has a finding at a section with that header.
fn has_unaligned_address(h: &Shdr) -> bool
    ensures { result ≡ (nat_lt 1 h.now.addralign && not (h.now.addr % h.now.addralign == 0)) }
{
    h.addralign > 1 && h.addr % h.addralign != 0
}

/// Whether rule 8 or rule 9 has a finding at a section with that header.
#[tactic(auto, unfolding(crate::specs::Sections::has_odd_alignment, crate::specs::Sections::has_unaligned_address))]
fn is_odd_in_memory<S: Source>(elf: &Elf<S>, s: ScnId, h: &Shdr) -> bool
    requires { h.now ≡ header_at elf.now.o s.0 }
    ensures { result ≡ rule.is_odd_in_memory elf.now.o s.0 }
{
    has_odd_alignment(h) | has_unaligned_address(h)
}

/// Whether one of the rules 4 and 6 to 9 has a finding at a section with that header, which is
/// there.
fn is_odd_in_place<S: Source>(elf: &Elf<S>, s: ScnId, h: &Shdr) -> bool
    requires there { s.0 < length elf.now.o.sections }
    requires header { h.now ≡ header_at elf.now.o s.0 }
    ensures { result ≡ rule.is_odd_in_place elf.now.o s.0 }
{
    let used = is_used_section_0(elf, s, h);
    let outside = is_out(elf, s);
    let ragged = is_ragged_of(elf, s, kind_of(object_class(elf), h));
    used | (outside | (ragged | is_odd_in_memory(elf, s, h)))
}

/// Whether rule 10 has a finding at a section with that header.
#[tactic(auto, unfolding(crate::specs::Sections::links_nowhere))]
fn links_nowhere<S: Source>(elf: &Elf<S>, s: ScnId, h: &Shdr) -> bool
    requires { h.now ≡ header_at elf.now.o s.0 }
    ensures { result ≡ rule.links_nowhere elf.now.o s.0 }
{
    h.link >= elf.shnum()
}

/// Whether rule 11 has a finding at a section with that header.
#[tactic(auto, unfolding(crate::specs::Sections::informs_of_nothing))]
fn informs_of_nothing<S: Source>(elf: &Elf<S>, s: ScnId, h: &Shdr) -> bool
    requires { h.now ≡ header_at elf.now.o s.0 }
    ensures { result ≡ rule.informs_of_nothing elf.now.o s.0 }
{
    info_is_section(h) && h.info >= elf.shnum()
}

/// Whether rule 12 has a finding at a section with that header, which is there.
fn has_wrong_entries<S: Source>(elf: &Elf<S>, s: ScnId, h: &Shdr) -> bool
    requires there { s.0 < length elf.now.o.sections }
    requires header { h.now ≡ header_at elf.now.o s.0 }
    ensures { result ≡ rule.has_wrong_entry_size elf.now.o s.0 }
{
    has_entries(kind_of(object_class(elf), h)) && WrongEntrySizes.finds(elf, s)
}

/// Whether rule 19 has a finding at a section with that header, which is there.
fn is_unallocated_storage<S: Source>(elf: &Elf<S>, s: ScnId, h: &Shdr) -> bool
    requires there { s.0 < length elf.now.o.sections }
    requires header { h.now ≡ header_at elf.now.o s.0 }
    ensures { result ≡ rule.is_unallocated_storage elf.now.o s.0 }
{
    h.flags / SHF_TLS % 2 == 1 && UnallocatedStorage.finds(elf, s)
}

/// Whether one of the rules 10 to 12 and 19 has a finding at a section with that header, which is
/// there.
fn is_odd_in_kind<S: Source>(elf: &Elf<S>, s: ScnId, h: &Shdr) -> bool
    requires there { s.0 < length elf.now.o.sections }
    requires header { h.now ≡ header_at elf.now.o s.0 }
    ensures { result ≡ rule.is_odd_in_kind elf.now.o s.0 }
{
    let numbers = links_nowhere(elf, s, h);
    let informs = informs_of_nothing(elf, s, h);
    let entries = has_wrong_entries(elf, s, h);
    numbers | (informs | (entries | is_unallocated_storage(elf, s, h)))
}

/// Whether one of the rules 4, 6 to 12 and 19 has a finding at a section with that header, which is
/// there. Nothing is read.
///
/// Source: gABI chapter 4, "Section Header".
#[tactic(auto, unfolding(crate::specs::Sections::is_odd_section))]
pub fn is_odd_section<S: Source>(elf: &Elf<S>, s: ScnId, h: &Shdr) -> bool
    requires there { s.0 < length elf.now.o.sections }
    requires header { h.now ≡ header_at elf.now.o s.0 }
    ensures { result ≡ rule.is_odd_section elf.now.o s.0 }
{
    is_odd_in_place(elf, s, h) | is_odd_in_kind(elf, s, h)
}
