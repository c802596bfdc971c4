//! The object without some sections.

ghost use Rattle.std.specs.Prelude.{◌≡◌, false, true, IsTrue, IfOk, IfErr};
ghost use Rattle.elf_object.specs.Object.{is_dirty};
ghost use Rattle.elf_object.specs.Words.{result_map};
ghost use Rattle.rebuild_model.specs.Rebuilt.{rebuilt};
ghost use Rattle.rebuild_plan.specs.rebuild_select.Steps.{IsRemovable};
ghost use Rattle.rebuild_plan.specs.rebuild_keep.Answers.{RebuildAnswers, EarlyBy, early_refusal, rebuild_due};
ghost use Rattle.rebuild_plan.specs.rebuild_keep.Makes.{AsksFor};

use crate::making::object_of;
use elf_outside::Source;
use elf_types::ElfError;
use rebuild_plan::arrange_rebuilt;
use rebuild_plan::prelude::{Elf, Rebuilt, SectionSet};
use std::alloc::Global;

/// The object without the removed sections: the others in their order, each with its bytes, or with
/// items that follow the new numbers. Without program headers it is over no base and places its
/// parts again; with them it is over the base up to its tail, where its loaded sections keep their
/// places, and the others and the section header table follow. Nothing of the object is dirty, and
/// only sections are removed that may be. It fails with, in this order: `TooMany` of `newphdr`; for
/// each section from 1 on that is kept `OutOfFile`, and where its items follow `NoData` and
/// `Ragged`; `NoSection` of the string index; `TooLarge` where the table of the names passes 2^32 -
/// 1 bytes; `TooLarge` where a place after the tail passes the limit; and `Memory` and `Read`. It
/// marks nothing of the object dirty. It reads at most the names, the base before the tail, and the
/// homes of the kept sections, that of a symbol table once more for its extended indexes.
///
/// Source: strip(1) of the development tools; gABI chapters 4 and 5.
pub fn rebuild<S: Source>(
    alloc: Global,
    elf: &mut Elf<S>,
    removed: &SectionSet,
) -> Result<Rebuilt, ElfError>
    requires clean { is_dirty elf.old.o ≡ false }
    requires removable { IsRemovable elf.old.o removed.now }
    ensures answer { IsTrue elf.old.told → RebuildAnswers
        (result_map (λ r. record { object = r.elf.o; tail = r.tail }) result)
        (rebuilt elf.old.o removed.now) }
    ensures early { IfErr result (EarlyBy (early_refusal elf.old.o removed.now)) }
    ensures made { IfOk result (λ r. r.elf.told ≡ true) }
    ensures asks { AsksFor S.Source result elf.old elf.new
        (rebuild_due elf.old.o removed.now) }
{
    let _sound = elf.dirty();
    let x = match arrange_rebuilt(alloc, elf, removed) {
        Ok(x) => x,
        Err(e) => return Err(e),
    };
    match object_of(alloc, elf, &x) {
        Ok(made) => Ok(Rebuilt {
            elf: made,
            tail: x.tail,
        }),
        Err(e) => Err(e),
    }
}
