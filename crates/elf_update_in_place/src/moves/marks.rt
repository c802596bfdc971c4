//! The dirty marks of a descriptor's parts.

ghost use Rattle.std.specs.Prelude.{◌≡◌, ◌<◌, None, length};
ghost use Rattle.std.specs.List.{list_any};
ghost use Rattle.elf_update_to.specs.elf_object.Answers.{part_refusal, flags_of, has_dirty};
ghost use Rattle.elf_update_to.specs.elf_object.Object.{section_at, some_piece_marked};

use elf_outside::Source;
use elf_types::{DIRTY, ElfError, Part, ScnId};
use elf_update_to::prelude::{Elf, count_pieces};

/// Whether a part that is there has a dirty mark. It reads nothing and takes no memory.
///
/// Source: elf_flagelf and its like of elf(3E), ELF_F_DIRTY.
#[tactic(auto, unfolding(elf_update_to::specs::Passed::flags_answer))]
pub fn is_marked<S: Source>(elf: &Elf<S>, part: Part) -> bool
    requires { part_refusal elf.now.o part ≡ None }
    ensures { result ≡ has_dirty (flags_of elf.now.o part) }
{
    match elf.flags(part) {
        Ok(bits) => bits / DIRTY % 2 == 1,
        Err(_) => unreachable!(),
    }
}

/// Whether some piece of a section that is there is marked.
pub(crate) fn some_piece_is_marked<S: Source>(elf: &Elf<S>, s: u32) -> bool
    requires { s < length elf.now.o.sections }
    ensures { result ≡ some_piece_marked (section_at elf.now.o s) }
{
    for p in 0..count_pieces(elf, ScnId(s)) {
        if is_marked(elf, Part::Piece(s, p)) {
            return true;
        }
    }
    false
}

/// Whether some section is marked. It reads nothing and takes no memory.
pub fn some_section_is_marked<S: Source>(elf: &Elf<S>) -> bool
    ensures { result ≡ list_any (λ s. s.marked) elf.now.o.sections }
{
    for s in 0..elf.shnum() {
        if is_marked(elf, Part::Section(s)) {
            return true;
        }
    }
    false
}
