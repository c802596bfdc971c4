//! The calls that show a header or a count, which read nothing.

ghost use Rattle.elf_calls_apply.specs.Applies.{Applies, result_of};
ghost use Rattle.elf_calls_script.specs.declared.calls.Call.TheVariants as call;

use crate::answers::Answer;
use elf_outside::Source;
use elf_types::ScnId;
use elf_update_plan::prelude::Elf;

/// `ehdr`: the ELF header.
pub(crate) fn answer_ehdr<S: Source>(elf: &Elf<S>) -> Answer
    ensures { Applies S.Source call.Ehdr (result_of result) elf.now elf.now }
{
    Answer::Ehdr(elf.ehdr())
}

/// `phdr`: a program header.
pub(crate) fn answer_phdr<S: Source>(elf: &Elf<S>, i: u32) -> Answer
    ensures { Applies S.Source (call.Phdr i) (result_of result) elf.now elf.now }
{
    match elf.phdr(i) {
        Ok(header) => Answer::Phdr(header),
        Err(e) => Answer::Refused(e),
    }
}

/// `shdr`: a section header.
pub(crate) fn answer_shdr<S: Source>(elf: &Elf<S>, s: ScnId) -> Answer
    ensures { Applies S.Source (call.Shdr s) (result_of result) elf.now elf.now }
{
    match elf.shdr(s) {
        Ok(header) => Answer::Shdr(header),
        Err(e) => Answer::Refused(e),
    }
}

/// `pieces`: how many pieces a section has.
pub(crate) fn answer_pieces<S: Source>(elf: &Elf<S>, s: ScnId) -> Answer
    ensures { Applies S.Source (call.Pieces s) (result_of result) elf.now elf.now }
{
    match elf.pieces(s) {
        Ok(count) => Answer::Pieces(count),
        Err(e) => Answer::Refused(e),
    }
}
