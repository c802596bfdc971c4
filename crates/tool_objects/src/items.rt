//! An item of a section's data, or a program header, that is there.

ghost use Rattle.std.specs.Prelude.{◌≡◌, ◌<◌, length, slice_get, slice_index_or, IsTrue, IsSome, IfOk, Some, None};
ghost use Rattle.gelf_view.specs.elf_object.Answers.{items_at, lend_refusal};
ghost use Rattle.tool_output.specs.Stops.{stop_of};
ghost use Rattle.tool_objects.specs.Steps.{ReadsElf};

use elf_types::{DataId, ElfError, Phdr};
use gelf_view::prelude::{Elf, Item};
use tool_output::Stop;
use tool_output::prelude::Source;

/// The stop of an error that is no refusal.
pub fn stop_for(e: ElfError) -> Stop
    requires { IsSome (stop_of e) }
    ensures { stop_of e ≡ Some result }
{
    match Stop::of(&e) {
        Some(stop) => stop,
        None => unreachable!(),
    }
}

/// Item `i` of a piece of the item's kind, which is there. It stops by `Read` where a read of the
/// source failed, and by `Memory`.
pub fn item_there<S: Source, T: Item>(elf: &mut Elf<S>, d: DataId, i: u64) -> Result<T, Stop>
    requires passed { lend_refusal elf.old.o T.kind d.section d.piece ≡ None }
    requires there { i < length (T.list_of (items_at elf.old.o d.section d.piece)) }
    ensures value { IsTrue elf.old.told → IfOk result (λ x.
        slice_get (T.list_of (items_at elf.old.o d.section d.piece)) i ≡ Some x) }
    ensures reads { ReadsElf S.Source result elf.old elf.new }
{
    match elf.item::<T>(d, i) {
        Ok(item) => Ok(item),
        Err(e) => Err(stop_for(e)),
    }
}

/// The present program header `i`, which is there.
#[tactic(auto, unfolding(gelf_view::specs::Passed::phdr_answer))]
pub fn phdr_at<S: Source>(elf: &Elf<S>, i: u32) -> Phdr
    requires { i < length elf.now.o.phdrs }
    ensures { result ≡ slice_index_or elf.now.o.phdrs i result }
{
    match elf.phdr(i) {
        Ok(header) => header,
        Err(_) => unreachable!(),
    }
}
