//! Whether the table of the sections' names is rebuilt.

ghost use Rattle.std.specs.Prelude.{◌≡◌, ◌<◌, ◌==◌, ◌&&◌, not, length};
ghost use Rattle.std.specs.List.{list_any};
ghost use Rattle.rebuild_select.specs.elf_object.Object.{section_at};
ghost use Rattle.rebuild_select.specs.elf_object.Layout.{section_numbers};
ghost use Rattle.rebuild_select.specs.elf_object.Sections.{is_among};
ghost use Rattle.rebuild_select.specs.rebuild_model.Rebuilt as rules;
ghost use Rattle.rebuild_select.specs.Steps.{links_to};
ghost use Rattle.rebuild_numbers.specs.Kept.Kept.{is_loose_strings};

use crate::kept::kept::is_kept;
use elf_types::ScnId;
use elf_types::constants::SHT_STRTAB;
use rebuild_select::prelude::{Elf, Source};
use rebuild_select::{SectionSet, is_header_allocated};

/// Whether a section that is there is not removed, and links to one.
#[tactic(auto, unfolding(rebuild_select::specs::Steps::links_to))]
fn links_to<S: Source>(elf: &Elf<S>, removed: &SectionSet, s: ScnId, target: u32) -> bool
    requires { s.0 < length elf.now.o.sections }
    ensures { result
        ≡ links_to elf.now.o (λ user. not (is_among removed.now user)) target s.0 }
{
    !removed.contains(s.0) && elf.section_header(s).link == target
}

/// Whether a section from 1 on that is not removed links to one.
fn is_linked_by_kept<S: Source>(elf: &Elf<S>, removed: &SectionSet, target: u32) -> bool
    ensures { result
        ≡ list_any (links_to elf.now.o (λ user. not (is_among removed.now user)) target)
        (section_numbers elf.now.o) }
{
    for s in 1..elf.shnum() {
        if links_to(elf, removed, ScnId(s), target) {
            return true;
        }
    }
    false
}

/// Whether the home of a section that is there is out of the file.
#[tactic(auto, unfolding(rebuild_select::specs::Passed::out_answer))]
fn is_out<S: Source>(elf: &Elf<S>, s: ScnId) -> bool
    requires { s.0 < length elf.now.o.sections }
    ensures { result ≡ (section_at elf.now.o s.0).home.out }
{
    match elf.is_out_of_file(s) {
        Ok(out) => out,
        Err(_) => unreachable!(),
    }
}

/// Whether a section that is there is a string table without `SHF_ALLOC` that can be read.
#[tactic(auto, unfolding(crate::specs::Kept::Kept::is_loose_strings))]
fn is_loose_strings<S: Source>(elf: &Elf<S>, s: ScnId) -> bool
    requires { s.0 < length elf.now.o.sections }
    ensures { result ≡ is_loose_strings elf.now.o s.0 }
{
    let h = elf.section_header(s);
    h.stype == SHT_STRTAB && !is_header_allocated(&h) && !is_out(elf, s)
}

/// Whether a section that is there is a string table without `SHF_ALLOC` that can be read, and to
/// which no section links that is kept.
fn has_names_alone<S: Source>(elf: &Elf<S>, removed: &SectionSet, s: u32) -> bool
    requires { s < length elf.now.o.sections }
    ensures { result ≡ rules.has_names_alone elf.now.o removed.now s }
{
    if is_loose_strings(elf, ScnId(s)) {
        return !is_linked_by_kept(elf, removed, s);
    }
    false
}

/// Whether the table of the sections' names is rebuilt: it is kept, and a string table without
/// `SHF_ALLOC` that can be read, and no section that is kept links to it. It looks at each section
/// once at most, reads nothing and takes no memory.
///
/// Source: gABI chapter 4, "Special Sections", e_shstrndx, and "Sections", sh_link.
pub fn renews_names<S: Source>(elf: &Elf<S>, removed: &SectionSet) -> bool
    ensures { result ≡ rules.renews_names elf.now.o removed.now }
{
    let names = elf.shstrndx();
    if is_kept(elf, removed, names) {
        return has_names_alone(elf, removed, names);
    }
    false
}
