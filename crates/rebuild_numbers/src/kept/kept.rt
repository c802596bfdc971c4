//! The sections that are kept.

ghost use Rattle.std.specs.Prelude.{◌≡◌};
ghost use Rattle.rebuild_select.specs.elf_object.Sections.{is_among};
ghost use Rattle.rebuild_select.specs.rebuild_model.Followed.{kept_from_1};
ghost use Rattle.rebuild_numbers.specs.Kept.Kept.{is_left};

use rebuild_select::SectionSet;
use rebuild_select::prelude::{Elf, Source};

/// Whether a number is that of a section from 1 on, and not of a removed one.
#[tactic(auto, unfolding(crate::specs::Kept::Kept::is_left))]
fn is_left<S: Source>(elf: &Elf<S>, removed: &SectionSet, s: u32) -> bool
    ensures { result ≡ is_left elf.now.o removed.now s }
{
    s != 0 && s < elf.shnum() && !removed.contains(s)
}

/// Whether a number is that of a section from 1 on that is kept. It takes no memory.
pub fn is_kept<S: Source>(elf: &Elf<S>, removed: &SectionSet, s: u32) -> bool
    ensures { result ≡ is_among (kept_from_1 elf.now.o removed.now) s }
{
    is_left(elf, removed, s)
}
