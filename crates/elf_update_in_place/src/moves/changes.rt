//! What an update in place writes, part by part, and what it moves, section by section.

ghost use Rattle.std.specs.Prelude.{◌≡◌, map, IfOk, IfErr};
ghost use Rattle.elf_types.specs.declared.errors.ElfError.TheVariants.{Memory};
ghost use Rattle.elf_update_to.specs.Updates.{IsPlanned};
ghost use Rattle.elf_update_in_place.specs.Moves.Written.{part_changed};
ghost use Rattle.elf_update_in_place.specs.Moves.Changes.{IsFront, TellsChanges};

use crate::moves::extents::written_extents;
use crate::moves::moves::list_moves;
use crate::moves::sections::section_changes;
use elf_outside::Source;
use elf_types::{ElfError, List, Part};
use elf_update_to::PlannedParts;
use elf_update_to::prelude::Elf;

/// Which parts of the front change.
#[derive(Clone, Copy, Debug, PartialEq, Eq)]
pub struct FrontChanges {
    /// The ELF header.
    pub header: bool,
    /// The program header table.
    pub segments: bool,
    /// The section header table.
    pub table: bool,
}

/// What changes and what moves.
#[derive(Drop)]
pub struct Changes {
    /// Of each part of the plan, whether it changes.
    pub parts: List<bool>,
    /// Of each section, whether its bytes are needed before the first write.
    pub sections: List<bool>,
}

/// Whether a part changes.
#[tactic(auto, unfolding(crate::specs::Moves::Written::part_changed))]
fn part_changes<S: Source>(
    elf: &Elf<S>,
    planned: &PlannedParts,
    front: FrontChanges,
    part: Part,
) -> bool
    requires planned { IsPlanned elf.now.o planned.now }
    requires front { IsFront elf.now.o front }
    ensures { result ≡ part_changed elf.now.o part }
{
    match part {
        Part::Header => front.header,
        Part::Segments => front.segments,
        Part::Table => front.table,
        Part::Section(s) => section_changes(elf, planned, s),
        Part::Object => false,
        Part::Piece(_, _) => false,
    }
}

/// Of each part of the plan, whether it changes. It fails with `Memory` alone.
fn list_changes<S: Source>(
    elf: &Elf<S>,
    planned: &PlannedParts,
    front: FrontChanges,
) -> Result<List<bool>, ElfError>
    requires planned { IsPlanned elf.now.o planned.now }
    requires front { IsFront elf.now.o front }
    ensures ok { IfOk result (λ changed.
        changed ≡ map (λ p. part_changed elf.now.o p.part) planned.now.parts) }
    ensures err { IfErr result (λ e. e ≡ Memory) }
{
    let parts = planned.parts.as_slice();
    let mut changed = match List::with_capacity(elf.alloc(), parts.len() as u64) {
        Ok(changed) => changed,
        Err(e) => return Err(e),
    };
    for part in parts {
        if let Err(e) = changed.push(part_changes(elf, planned, front, part.part)) {
            return Err(e);
        }
    }
    Ok(changed)
}

/// Which parts of the plan change, and which sections move: those that change, whose home shares a
/// place with what is written, or whose home passes the new end. The sections are found among the
/// extents of what is written, and not each against each part. It fails with `Memory` alone and
/// reads nothing.
///
/// Source: elf_update with ELF_C_WRITE of elf(3E).
pub fn find_changes<S: Source>(
    elf: &Elf<S>,
    planned: &PlannedParts,
    front: FrontChanges,
) -> Result<Changes, ElfError>
    requires planned { IsPlanned elf.now.o planned.now }
    requires front { IsFront elf.now.o front }
    ensures ok { IfOk result (TellsChanges elf.now.o planned.now) }
    ensures err { IfErr result (λ e. e ≡ Memory) }
{
    let parts = match list_changes(elf, planned, front) {
        Ok(parts) => parts,
        Err(e) => return Err(e),
    };
    let extents = match written_extents(elf, planned, parts.as_slice()) {
        Ok(extents) => extents,
        Err(e) => return Err(e),
    };
    match list_moves(elf, planned, extents.as_slice()) {
        Ok(sections) => Ok(Changes { parts, sections }),
        Err(e) => Err(e),
    }
}
