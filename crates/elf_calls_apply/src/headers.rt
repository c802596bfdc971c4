//! The calls that change headers.

ghost use Rattle.elf_calls_apply.specs.Applies.{Applies, result_of};
ghost use Rattle.elf_calls_script.specs.declared.calls.Call.TheVariants as call;

use crate::answers::{Answer, done};
use crate::fields::{ehdr_with, phdr_with, shdr_with};
use elf_calls_script::{EhdrSet, PhdrSet, ShdrSet};
use elf_outside::Source;
use elf_types::ScnId;
use elf_update_plan::prelude::Elf;
use elf_update_plan::update_null;

/// `set ehdr`: a field of the ELF header.
pub(crate) fn set_ehdr<S: Source>(elf: &mut Elf<S>, set: EhdrSet) -> Answer
    ensures { Applies S.Source (call.SetEhdr set) (result_of result) elf.old elf.new }
{
    let header = ehdr_with(set, elf.ehdr());
    done(elf.update_ehdr(&header))
}

/// `set phdr`: a field of a program header.
pub(crate) fn set_phdr<S: Source>(elf: &mut Elf<S>, i: u32, set: PhdrSet) -> Answer
    ensures { Applies S.Source (call.SetPhdr i set) (result_of result) elf.old elf.new }
{
    match elf.phdr(i) {
        Ok(header) => done(elf.update_phdr(i, &phdr_with(set, header))),
        Err(e) => Answer::Refused(e),
    }
}

/// `set shdr`: a field of a section header.
pub(crate) fn set_shdr<S: Source>(elf: &mut Elf<S>, s: ScnId, set: ShdrSet) -> Answer
    ensures { Applies S.Source (call.SetShdr s set) (result_of result) elf.old elf.new }
{
    match elf.shdr(s) {
        Ok(header) => done(elf.update_shdr(s, &shdr_with(set, header))),
        Err(e) => Answer::Refused(e),
    }
}

/// `newphdr`: a program header table.
pub(crate) fn new_phdr<S: Source>(elf: &mut Elf<S>, n: u32) -> Answer
    ensures { Applies S.Source (call.NewPhdr n) (result_of result) elf.old elf.new }
{
    done(elf.newphdr(n))
}

/// `null`: the places, sizes and derived values of all headers.
pub(crate) fn lay_out<S: Source>(elf: &mut Elf<S>) -> Answer
    ensures { Applies S.Source call.Null (result_of result) elf.old elf.new }
{
    match update_null(elf) {
        Ok(size) => Answer::Size(size),
        Err(e) => Answer::Refused(e),
    }
}
