//! Which parts of the front change: those that are marked, and those that differ from what is in
//! the image as opened or last settled.

ghost use Rattle.std.specs.Prelude.{◌≡◌};
ghost use Rattle.elf_update_to.specs.elf_descriptor.Fronts.{IsOfFront};
ghost use Rattle.elf_update_to.specs.Updates.{IsPlanned};
ghost use Rattle.elf_update_in_place.specs.Moves.Changes.{IsFront};
ghost use Rattle.elf_update_in_place.specs.Fronts.{changes_by};

use crate::moves::{FrontChanges, is_marked, some_section_is_marked};
use elf_outside::Source;
use elf_types::Part;
use elf_update_to::PlannedParts;
use elf_update_to::prelude::Elf;

/// Whether a part of the front changes, of which it is known whether it is marked.
#[tactic(auto, unfolding(elf_object::specs::Answers::part_refusal))]
fn front_part_changes<S: Source>(
    elf: &Elf<S>,
    planned: &PlannedParts,
    part: Part,
    marked: bool,
) -> bool
    requires planned { IsPlanned elf.now.o planned.now }
    requires front { IsOfFront part }
    ensures { result ≡ changes_by elf.now.o part marked }
{
    if marked {
        return true;
    }
    if is_marked(elf, Part::Object) {
        return true;
    }
    elf.front_differs(part, &planned.places)
}

/// Which parts of the front change: the section header table also where a section is marked.
#[tactic(auto, unfolding(elf_object::specs::Answers::part_refusal))]
pub(crate) fn front_changes<S: Source>(elf: &Elf<S>, planned: &PlannedParts) -> FrontChanges
    requires { IsPlanned elf.now.o planned.now }
    ensures { IsFront elf.now.o result }
{
    let header = is_marked(elf, Part::Header);
    let segments = is_marked(elf, Part::Segments);
    let sections = some_section_is_marked(elf);
    FrontChanges {
        header: front_part_changes(elf, planned, Part::Header, header),
        segments: front_part_changes(elf, planned, Part::Segments, segments),
        table: front_part_changes(elf, planned, Part::Table, sections),
    }
}
