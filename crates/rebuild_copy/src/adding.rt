//! Sections are added.

ghost use Rattle.std.specs.Prelude.{◌≡◌, ◌<◌, length, map, IfErr, OnOk};
ghost use Rattle.elf_types.specs.declared.errors.ElfError.TheVariants.{Memory};
ghost use Rattle.elf_object.specs.Sections.{in_turn};
ghost use Rattle.rebuild_model.specs.Copied.{with_added};
ghost use Rattle.rebuild_changes.specs.Stated.{bytes_pair};
ghost use Rattle.rebuild_copy.specs.Edits.{HasFirstSection};
ghost use Rattle.rebuild_copy.specs.Steps.{always_holds, AltersContents};

use crate::edits::push_section;
use elf_types::constants::MAX_SECTIONS;
use elf_types::{ElfError, NULL_SECTION};
use rebuild_changes::{CopyFault, NameBytes};
use rebuild_edits::added_header;
use rebuild_plan::Arranged;

/// Adds section 0 where there is no section. It fails with `Memory` alone.
fn add_first(x: &mut Arranged) -> Result<(), ElfError>
    ensures ok { OnOk result (HasFirstSection x.old x.new) }
    ensures err { IfErr result (λ e. e ≡ Memory) }
{
    if x.listed.header.shnum != 0 {
        return Ok(());
    }
    push_section(x, 1, NULL_SECTION, &[])
}

/// Adds a section with the bytes of a change, where there are sections.
fn add_last(x: &mut Arranged, change: &NameBytes) -> Result<(), CopyFault>
    ensures { AltersContents (λ p. 0 < length p.sections)
        (λ p. with_added p (bytes_pair change.now)) result x.old x.new }
{
    let count = x.listed.header.shnum;
    if u64::from(count) >= MAX_SECTIONS {
        return Err(CopyFault::Strip(ElfError::TooMany));
    }
    match push_section(x, count + 1, added_header(), change.bytes.as_slice()) {
        Ok(()) => Ok(()),
        Err(e) => Err(CopyFault::Strip(e)),
    }
}

/// Adds a section with the bytes of a change.
fn add_section(x: &mut Arranged, change: &NameBytes) -> Result<(), CopyFault>
    ensures { AltersContents always_holds (λ p. with_added p (bytes_pair change.now))
        result x.old x.new }
{
    match add_first(x) {
        Ok(()) => add_last(x, change),
        Err(e) => Err(CopyFault::Strip(e)),
    }
}

/// Adds a section at the end with the bytes of each change, in turn: of type `SHT_PROGBITS`,
/// without flags, with alignment 1. It fails with `TooMany`, and where memory runs out. What a
/// refusal leaves is not stated. It holds a copy of the bytes, and stores no name.
///
/// Source: objcopy(1) of the development tools, `--add-section`.
pub(crate) fn add_sections(x: &mut Arranged, changes: &[NameBytes]) -> Result<(), CopyFault>
    ensures { AltersContents always_holds (λ p. in_turn with_added p (map bytes_pair changes.now))
        result x.old x.new }
{
    for change in changes {
        match add_section(x, change) {
            Ok(()) => {}
            Err(fault) => return Err(fault),
        }
    }
    Ok(())
}
