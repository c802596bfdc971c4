//! The calls that add a section or a piece, and that replace one.

ghost use Rattle.std.specs.Prelude.{◌≡◌};
ghost use Rattle.elf_calls_apply.specs.Applies.{Applies, result_of};
ghost use Rattle.elf_calls_apply.specs.Stated.{refusal_without_items as stated_alone};
ghost use Rattle.elf_calls_script.specs.declared.calls.Call.TheVariants as call;

use crate::answers::{Answer, done};
use elf_outside::Source;
use elf_types::{DataId, ElfError, Octets, ScnId};
use elf_update_plan::prelude::Elf;
use elf_xlate::Items;

/// `newscn`: a section at the end.
pub(crate) fn new_section<S: Source>(elf: &mut Elf<S>) -> Answer
    ensures { Applies S.Source call.NewScn (result_of result) elf.old elf.new }
{
    match elf.newscn() {
        Ok(s) => Answer::Section(s.0),
        Err(e) => Answer::Refused(e),
    }
}

/// A result whose refusal is without the items that it hands back: they are dropped.
fn refusal_alone<T: Drop>(came: Result<T, (Items, ElfError)>) -> Result<T, ElfError>
    ensures { result ≡ stated_alone came }
{
    match came {
        Ok(x) => Ok(x),
        Err((_, e)) => Err(e),
    }
}

/// A piece of these bytes with an alignment.
fn add_piece<S: Source>(elf: &mut Elf<S>, s: ScnId, bytes: Octets, align: u64) -> Answer
    ensures { Applies S.Source (call.NewDataAligned s bytes align) (result_of result)
        elf.old elf.new }
{
    match refusal_alone(elf.newdata_aligned(s, Items::Bytes(bytes), align)) {
        Ok(d) => Answer::Piece {
            s: d.section,
            p: d.piece,
        },
        Err(e) => Answer::Refused(e),
    }
}

/// `newdata` with an alignment: a piece with a copy of the bytes.
pub(crate) fn new_data_aligned<S: Source>(
    elf: &mut Elf<S>,
    s: ScnId,
    bytes: &Octets,
    align: u64,
) -> Answer
    ensures { Applies S.Source (call.NewDataAligned s bytes.now align) (result_of result)
        elf.old elf.new }
{
    match Octets::from_slice(elf.alloc(), bytes.as_slice()) {
        Ok(copy) => add_piece(elf, s, copy, align),
        Err(e) => Answer::Refused(e),
    }
}

/// `newdata`: a piece with a copy of the bytes, with alignment 1.
#[tactic(auto, unfolding(crate::specs::Stated::stated_call))]
pub(crate) fn new_data<S: Source>(elf: &mut Elf<S>, s: ScnId, bytes: &Octets) -> Answer
    ensures { Applies S.Source (call.NewData s bytes.now) (result_of result) elf.old elf.new }
{
    new_data_aligned(elf, s, bytes, 1)
}

/// Puts these bytes in the place of a piece.
fn put_piece<S: Source>(elf: &mut Elf<S>, d: DataId, bytes: Octets) -> Answer
    ensures { Applies S.Source (call.Replace d bytes) (result_of result) elf.old elf.new }
{
    done(refusal_alone(elf.replace(d, Items::Bytes(bytes))))
}

/// `replace`: a copy of the bytes in the place of a piece.
pub(crate) fn replace<S: Source>(elf: &mut Elf<S>, d: DataId, bytes: &Octets) -> Answer
    ensures { Applies S.Source (call.Replace d bytes.now) (result_of result) elf.old elf.new }
{
    match Octets::from_slice(elf.alloc(), bytes.as_slice()) {
        Ok(copy) => put_piece(elf, d, copy),
        Err(e) => Answer::Refused(e),
    }
}
