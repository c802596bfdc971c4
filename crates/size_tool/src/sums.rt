//! The sums of the sizes of sections.

ghost use Rattle.std.specs.Prelude.{◌≡◌, ◌+◌, ◌<◌, ◌≤◌, ◌^◌, ◌/◌, ◌%◌, ◌==◌, ℕ, [], length};
ghost use Rattle.elf_object.specs.Sections.{is_allocated};
ghost use Rattle.size_tool.specs.Sums.{is_bss, is_fixed, is_text, is_data, size_if, header_sums, sums_of, sums_with_section, AreWithin};

use elf_outside::Source;
use elf_types::constants::{SHF_ALLOC, SHF_EXECINSTR, SHF_WRITE, SHT_NOBITS};
use elf_types::{ScnId, Shdr};
use tool_objects::prelude::Elf;
use tool_objects::section_header;

/// The sums of an object. As many sections of any size as there can be pass 64 bits.
#[derive(Clone, Copy, Debug, PartialEq, Eq)]
pub struct Sums {
    /// What a process does not write, or executes.
    pub text: u128,
    /// What it writes, and the file holds.
    pub data: u128,
    /// What the file does not hold.
    pub bss: u128,
}

/// Whether a section takes memory in a process.
///
/// Source: gABI chapter 4, "Sections", SHF_ALLOC.
#[tactic(auto, unfolding(elf_object::specs::Sections::is_allocated))]
fn is_allocated(h: &Shdr) -> bool
    ensures { result ≡ is_allocated h.now }
{
    h.flags / SHF_ALLOC % 2 == 1
}

/// Whether a section is in memory but not in the file.
#[tactic(auto, unfolding(crate::specs::Sums::is_bss))]
fn is_bss(h: &Shdr) -> bool
    ensures { result ≡ is_bss h.now }
{
    is_allocated(h) && h.stype == SHT_NOBITS
}

/// Whether a process executes a section, or does not write it.
#[tactic(auto, unfolding(crate::specs::Sums::is_fixed))]
fn is_fixed(h: &Shdr) -> bool
    ensures { result ≡ is_fixed h.now }
{
    h.flags / SHF_EXECINSTR % 2 == 1 || h.flags / SHF_WRITE % 2 != 1
}

/// Whether a section counts as text.
#[tactic(auto, unfolding(crate::specs::Sums::is_text))]
fn is_text(h: &Shdr) -> bool
    ensures { result ≡ is_text h.now }
{
    is_allocated(h) && h.stype != SHT_NOBITS && is_fixed(h)
}

/// Whether a section counts as data.
#[tactic(auto, unfolding(crate::specs::Sums::is_data))]
fn is_data(h: &Shdr) -> bool
    ensures { result ≡ is_data h.now }
{
    is_allocated(h) && h.stype != SHT_NOBITS && !is_fixed(h)
}

/// A size, where it counts.
fn size_if(counts: bool, size: u64) -> u128
    ensures size { result ≡ size_if counts size }
    ensures range { result < 2 ^ 64 }
{
    if counts { u128::from(size) } else { 0 }
}

/// The sums of no section.
#[tactic(auto, unfolding(crate::specs::Sums::header_sums, crate::specs::Sums::size_of))]
pub fn no_sums() -> Sums
    ensures sums { result ≡ header_sums [] }
    ensures within { AreWithin 0 result }
{
    Sums {
        text: 0,
        data: 0,
        bss: 0,
    }
}

/// Sums, and those of one section more.
#[inline(always)]
pub fn with_section(sums: Sums, h: &Shdr) -> Sums
    requires { AreWithin (2 ^ 32) sums }
    ensures sums { result ≡ sums_with_section sums h.now }
    ensures within { (n : ℕ) → AreWithin n sums → AreWithin (n + 1) result }
{
    let text = size_if(is_text(h), h.size);
    let data = size_if(is_data(h), h.size);
    let bss = size_if(is_bss(h), h.size);
    Sums {
        text: sums.text + text,
        data: sums.data + data,
        bss: sums.bss + bss,
    }
}

/// The sums of the sections of an object. Nothing is read.
pub fn sum_sections<S: Source>(elf: &Elf<S>) -> Sums
    ensures sums { result ≡ sums_of elf.now.o.sections }
    ensures within { AreWithin (2 ^ 32) result }
{
    let mut sums = no_sums();
    for s in 0..elf.shnum() {
        sums = with_section(sums, &section_header(elf, ScnId(s)));
    }
    sums
}
