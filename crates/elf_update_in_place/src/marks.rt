//! The marks that an update in place sets before it writes, so that a write that fails can be done
//! again.

ghost use Rattle.std.specs.Prelude.{◌≡◌, ◌<◌, None, length};
ghost use Rattle.elf_object.specs.Answers.{part_refusal};
ghost use Rattle.elf_object.specs.Steps.{with_mark};
ghost use Rattle.elf_update_to.specs.law_object.Writing.Marks.{marked_all, pieces_of};
ghost use Rattle.elf_update_in_place.specs.Marks.{told_parts};

use elf_outside::Source;
use elf_types::{DIRTY, Part, ScnId};
use elf_update_to::prelude::{Elf, count_pieces};

/// Marks a part that is there.
#[tactic(auto, unfolding(elf_object::specs::Calls::flag_refusal, elf_object::specs::Steps::with_flags))]
fn mark<S: Source>(elf: &mut Elf<S>, part: Part)
    requires { part_refusal elf.old.o part ≡ None }
    ensures { elf.new ≡ record elf.old { o = with_mark elf.old.o part } }
{
    match elf.flag(part, true, DIRTY) {
        Ok(_) => {}
        Err(_) => unreachable!(),
    }
}

/// Marks each piece of a section that is there.
fn mark_pieces<S: Source>(elf: &mut Elf<S>, s: u32)
    requires { s < length elf.old.o.sections }
    ensures { elf.new ≡ record elf.old { o = marked_all elf.old.o (pieces_of elf.old.o s) } }
{
    for p in 0..count_pieces(elf, ScnId(s)) {
        mark(elf, Part::Piece(s, p));
    }
}

/// Marks the object, and each piece of the sections that move.
pub(crate) fn mark_moved<S: Source>(elf: &mut Elf<S>, moves: &[bool])
    requires { length moves.now ≡ length elf.old.o.sections }
    ensures { elf.new ≡ record elf.old {
      o = marked_all elf.old.o (told_parts elf.old.o moves.now);
    } }
{
    mark(elf, Part::Object);
    for s in 0..elf.shnum() {
        if moves[s as usize] {
            mark_pieces(elf, s);
        }
    }
}
