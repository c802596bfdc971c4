//! Sections that a change names, adds or gives other flags.

ghost use Rattle.std.specs.Prelude.{◌≡◌};
ghost use Rattle.law_rebuild.specs.elf_object.Sections.{is_allocated};
ghost use Rattle.rebuild_changes.specs.rebuild_model.Copied.{differ, with_bits, added_header};
ghost use Rattle.rebuild_edits.specs.Edits.Steps.{IsNumber};

use elf_types::constants::SHT_PROGBITS;
use elf_types::{NULL_SECTION, Octets, Shdr};
use rebuild_changes::{CopyFault, fault_no_section};
use rebuild_select::is_header_allocated;
use std::alloc::Global;

/// The number of a section, and where there is none the fault that no section has a name, or out of
/// memory for a copy of that.
pub fn or_no_section(alloc: Global, number: Option<u32>, name: &Octets) -> Result<u32, CopyFault>
    ensures { IsNumber number name.now result }
{
    match number {
        Some(s) => Ok(s),
        None => Err(fault_no_section(alloc, name)),
    }
}

/// The header of a section that is added: data of a program without flags, at any place.
///
/// Source: objcopy(1) of the development tools, `--add-section`.
#[tactic(auto, unfolding(law_rebuild::specs::Copy::Passed::zero_shdr))]
pub fn added_header() -> Shdr
    ensures { result ≡ added_header }
{
    Shdr {
        stype: SHT_PROGBITS,
        addralign: 1,
        ..NULL_SECTION
    }
}

/// Whether one of two holds, and not both.
fn differ(a: bool, b: bool) -> bool
    ensures { result ≡ differ a b }
{
    if a { !b } else { b }
}

/// A header with other flags.
fn with_bits(h: Shdr, bits: u64) -> Shdr
    ensures { result ≡ with_bits bits h }
{
    Shdr { flags: bits, ..h }
}

/// Whether other flags would change whether a header's section is allocated.
///
/// Source: gABI chapter 4, "Sections", SHF_ALLOC.
pub fn changes_allocation(h: Shdr, bits: u64) -> bool
    ensures { result ≡ differ (is_allocated h) (is_allocated (with_bits bits h)) }
{
    let now = is_header_allocated(&h);
    let then = is_header_allocated(&with_bits(h, bits));
    differ(now, then)
}
