//! One call of a script, applied to a descriptor.

ghost use Rattle.std.specs.Prelude.{IfOk};
ghost use Rattle.elf_calls_apply.specs.Applies.{Applies, result_of};
ghost use Rattle.elf_calls_apply.specs.Forms.{IsAnswerOf};

use crate::answers::Answer;
use crate::flags::{set_fill, set_flags};
use crate::getters::{answer_ehdr, answer_phdr, answer_pieces, answer_shdr};
use crate::headers::{lay_out, new_phdr, set_ehdr, set_phdr, set_shdr};
use crate::items::adding::add_to_all;
use crate::items::set_item;
use crate::pieces::{new_data, new_data_aligned, new_section, replace};
use crate::reading::{answer_data, answer_item, answer_note, answer_raw, answer_str, find_named};
use elf_calls_script::Call;
use elf_outside::Source;
use elf_update_plan::prelude::Elf;

/// Applies a call to a descriptor. It returns what the call of the plain object answers, `Refused`
/// with its refusal where it is rejected, and leaves the object as that call does. `Memory` and
/// `Read` may come at any step and leave the object; `Read` only where the source failed. What is
/// answered has the form that is the call's also where the source does not tell its bytes.
///
/// It reads no home but those that the call names, each at its first use.
pub fn apply<S: Source>(elf: &mut Elf<S>, call: &Call) -> Answer
    ensures meets { Applies S.Source call.now (result_of result) elf.old elf.new }
    ensures form { IfOk (result_of result) (IsAnswerOf call.now elf.old.o) }
{
    match call {
        Call::Ehdr => answer_ehdr(elf),
        Call::Phdr { i } => answer_phdr(elf, *i),
        Call::Shdr { s } => answer_shdr(elf, *s),
        Call::Pieces { s } => answer_pieces(elf, *s),
        Call::Data { d } => answer_data(elf, *d),
        Call::Raw { s } => answer_raw(elf, *s),
        Call::Item { d, i } => answer_item(elf, *d, *i),
        Call::Str { s, off } => answer_str(elf, *s, *off),
        Call::Note { d, at } => answer_note(elf, *d, *at),
        Call::Find { s, name } => find_named(elf, *s, name),
        Call::SetEhdr { set } => set_ehdr(elf, *set),
        Call::SetPhdr { i, set } => set_phdr(elf, *i, *set),
        Call::SetShdr { s, set } => set_shdr(elf, *s, *set),
        Call::SetItem { d, i, set } => set_item(elf, *d, *i, *set),
        Call::AddAll { d, n } => add_to_all(elf, *d, *n),
        Call::NewScn => new_section(elf),
        Call::NewPhdr { n } => new_phdr(elf, *n),
        Call::NewData { s, bytes } => new_data(elf, *s, bytes),
        Call::NewDataAligned { s, bytes, align } => new_data_aligned(elf, *s, bytes, *align),
        Call::Fill { byte } => set_fill(elf, *byte),
        Call::Replace { d, bytes } => replace(elf, *d, bytes),
        Call::Flag { part, set, bits } => set_flags(elf, *part, *set, *bits),
        Call::Null => lay_out(elf),
    }
}
