//! Whether a section changes: a piece of it is marked, or it is elsewhere than its home.

ghost use Rattle.std.specs.Prelude.{◌≡◌, ◌<◌, true, length};
ghost use Rattle.elf_update_to.specs.elf_object.Blocks.{same_extent};
ghost use Rattle.elf_update_to.specs.elf_object.Object.{section_at, has_file_bytes};
ghost use Rattle.elf_update_to.specs.elf_object.Joined.{file_bytes};
ghost use Rattle.elf_update_to.specs.elf_object.Changed.{is_at_home, section_changed};
ghost use Rattle.elf_update_to.specs.law_object.Writing.Ready.{IsReady};
ghost use Rattle.elf_update_to.specs.Updates.{IsPlanned};

use crate::moves::marks::some_piece_is_marked;
use elf_outside::Source;
use elf_types::ScnId;
use elf_update_to::PlannedParts;
use elf_update_to::prelude::{Elf, home_extent, is_in_file};

/// Whether two extents are alike: empty ones are, wherever they are.
#[tactic(auto, unfolding(elf_update_to::specs::Passed::same_extent))]
fn is_same_extent(at: u64, len: u64, other: u64, other_len: u64) -> bool
    ensures { result ≡ same_extent at len other other_len }
{
    at == other && len == other_len || len == 0 && other_len == 0
}

/// The number of bytes of a section in the file, which fits.
fn file_length<S: Source>(elf: &Elf<S>, s: u32) -> u64
    requires ready { IsReady elf.now.o }
    requires there { s < length elf.now.o.sections }
    requires filled { has_file_bytes s (section_at elf.now.o s) ≡ true }
    ensures { result ≡ length (file_bytes elf.now.o s) }
{
    match elf.data_size(ScnId(s)) {
        Ok(size) => size,
        Err(_) => unreachable!(),
    }
}

/// Whether a section with bytes in the file is at its home.
fn stands_at_home<S: Source>(elf: &Elf<S>, planned: &PlannedParts, s: u32) -> bool
    requires planned { IsPlanned elf.now.o planned.now }
    requires there { s < length elf.now.o.sections }
    requires filled { has_file_bytes s (section_at elf.now.o s) ≡ true }
    ensures { result ≡ is_at_home elf.now.o s }
{
    let at = planned.places.at.as_slice()[s as usize + 1];
    let home = home_extent(elf, s);
    is_same_extent(at, file_length(elf, s), home.0, home.1)
}

/// Whether a section, which need not be there, changes.
#[tactic(auto, unfolding(elf_update_to::specs::Passed::section_changed))]
pub(crate) fn section_changes<S: Source>(elf: &Elf<S>, planned: &PlannedParts, s: u32) -> bool
    requires { IsPlanned elf.now.o planned.now }
    ensures { result ≡ section_changed elf.now.o s }
{
    if !is_in_file(elf, s) {
        return false;
    }
    some_piece_is_marked(elf, s) || !stands_at_home(elf, planned, s)
}
