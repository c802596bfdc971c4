//! The calls on flags, and on the byte of gaps.

ghost use Rattle.elf_calls_apply.specs.Applies.{Applies, result_of};
ghost use Rattle.elf_calls_script.specs.declared.calls.Call.TheVariants as call;

use crate::answers::Answer;
use elf_outside::Source;
use elf_types::Part;
use elf_update_plan::prelude::Elf;

/// `flag`: sets or clears flags of a part, and returns those that it has then.
pub(crate) fn set_flags<S: Source>(elf: &mut Elf<S>, part: Part, set: bool, bits: u32) -> Answer
    ensures { Applies S.Source (call.Flag part set bits) (result_of result) elf.old elf.new }
{
    match elf.flag(part, set, bits) {
        Ok(flags) => Answer::Flags(flags),
        Err(e) => Answer::Refused(e),
    }
}

/// `fill`: the byte of gaps.
pub(crate) fn set_fill<S: Source>(elf: &mut Elf<S>, byte: u8) -> Answer
    ensures { Applies S.Source (call.Fill byte) (result_of result) elf.old elf.new }
{
    elf.set_fill(byte);
    Answer::Done
}
