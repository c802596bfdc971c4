//! The calls that show what is in a section, which they read at its first use.

ghost use Rattle.std.specs.Prelude.{◌≡◌, Ok, IfOk};
ghost use Rattle.symbol_lookup.specs.elf_object.Runs.{entry_of};
ghost use Rattle.symbol_lookup.specs.elf_object.Words.{result_map};
ghost use Rattle.elf_calls_apply.specs.Stated.{item_in as stated_item, note_shown, found_shown};
ghost use Rattle.elf_calls_apply.specs.Applies.{Applies, IsCopyAnswer, result_of};
ghost use Rattle.elf_calls_apply.specs.Forms.{IsAnswerOf};
ghost use Rattle.elf_calls_apply.specs.declared.answers.Answer.TheVariants as answer;
ghost use Rattle.elf_calls_script.specs.declared.calls.Call.TheVariants as call;

use crate::answers::{Answer, PieceItem};
use elf_outside::Source;
use elf_types::{DataId, ElfError, Octets, ScnId};
use elf_update_plan::prelude::Elf;
use elf_xlate::Items;
use std::alloc::Global;
use symbol_lookup::find_linear;
use symbol_lookup::prelude::{NoteAt, note, strptr};

/// `data`: the kind of a piece, and its number of items.
pub(crate) fn answer_data<S: Source>(elf: &mut Elf<S>, d: DataId) -> Answer
    ensures { Applies S.Source (call.Data d) (result_of result) elf.old elf.new }
{
    match elf.data(d) {
        Ok(items) => Answer::Data {
            kind: items.kind(),
            count: items.count(),
        },
        Err(e) => Answer::Refused(e),
    }
}

/// A copy of bytes that were shown. It fails with `Memory` alone.
fn raw_answer(alloc: Global, bytes: &[u8]) -> Answer
    ensures { IsCopyAnswer (answer.Raw bytes.now) (result_of result) }
{
    match Octets::from_slice(alloc, bytes) {
        Ok(copy) => Answer::Raw(copy),
        Err(e) => Answer::Refused(e),
    }
}

/// `raw`: the bytes of a section as they are in the file.
pub(crate) fn answer_raw<S: Source>(elf: &mut Elf<S>, s: ScnId) -> Answer
    ensures meets { Applies S.Source (call.Raw s) (result_of result) elf.old elf.new }
    ensures form { IfOk (result_of result) (IsAnswerOf (call.Raw s) elf.old.o) }
{
    let alloc = elf.alloc();
    match elf.raw(s) {
        Ok(bytes) => raw_answer(alloc, bytes),
        Err(e) => Answer::Refused(e),
    }
}

/// The item at an index.
fn item_in(items: &Items, i: u64) -> Option<PieceItem>
    ensures { result ≡ stated_item items.now i }
{
    match items {
        Items::Empty => None,
        Items::Bytes(l) => l.get(i).map(PieceItem::Byte),
        Items::Half(l) => l.get(i).map(PieceItem::Half),
        Items::Word(l) => l.get(i).map(PieceItem::Word),
        Items::Addr(l) => l.get(i).map(PieceItem::Addr),
        Items::Sym(l) => l.get(i).map(PieceItem::Sym),
        Items::Rel(l) => l.get(i).map(PieceItem::Rel),
        Items::Rela(l) => l.get(i).map(PieceItem::Rela),
        Items::Dyn(l) => l.get(i).map(PieceItem::Dyn),
    }
}

/// The item at an index, or `NoEntry` exactly where the index is not below the number of items.
fn item_answer(items: &Items, i: u64) -> Answer
    ensures { result_of result ≡ result_map answer.Item (entry_of stated_item i items.now) }
{
    match item_in(items, i) {
        Some(item) => Answer::Item(item),
        None => Answer::Refused(ElfError::NoEntry {
            index: i,
            count: items.count(),
        }),
    }
}

/// `item`: an item of a piece.
pub(crate) fn answer_item<S: Source>(elf: &mut Elf<S>, d: DataId, i: u64) -> Answer
    ensures meets { Applies S.Source (call.Item d i) (result_of result) elf.old elf.new }
    ensures form { IfOk (result_of result) (IsAnswerOf (call.Item d i) elf.old.o) }
{
    match elf.data(d) {
        Ok(items) => item_answer(items, i),
        Err(e) => Answer::Refused(e),
    }
}

/// A copy of a string. It fails with `Memory` alone.
fn string_answer(alloc: Global, string: &[u8]) -> Answer
    ensures { IsCopyAnswer (answer.Str string.now) (result_of result) }
{
    match Octets::from_slice(alloc, string) {
        Ok(copy) => Answer::Str(copy),
        Err(e) => Answer::Refused(e),
    }
}

/// `str`: a string of a section.
pub(crate) fn answer_str<S: Source>(elf: &mut Elf<S>, s: ScnId, off: u64) -> Answer
    ensures meets { Applies S.Source (call.Str s off) (result_of result) elf.old elf.new }
    ensures form { IfOk (result_of result) (IsAnswerOf (call.Str s off) elf.old.o) }
{
    let alloc = elf.alloc();
    match strptr(elf, s, off) {
        Ok(string) => string_answer(alloc, string),
        Err(e) => Answer::Refused(e),
    }
}

/// A note, or that there is none.
fn note_answer(found: Option<NoteAt>) -> Answer
    ensures { result_of result ≡ Ok (note_shown found) }
{
    match found {
        Some(note) => Answer::Note(note),
        None => Answer::NoteEnd,
    }
}

/// `note`: a note of a piece, or that there is none at its end.
pub(crate) fn answer_note<S: Source>(elf: &mut Elf<S>, d: DataId, at: u64) -> Answer
    ensures meets { Applies S.Source (call.Note d at) (result_of result) elf.old elf.new }
    ensures form { IfOk (result_of result) (IsAnswerOf (call.Note d at) elf.old.o) }
{
    match note(elf, d, at) {
        Ok(found) => note_answer(found),
        Err(e) => Answer::Refused(e),
    }
}

/// The index of a symbol, or that none has the name.
fn found_answer(found: Option<u64>) -> Answer
    ensures { result_of result ≡ Ok (found_shown found) }
{
    match found {
        Some(i) => Answer::Found(i),
        None => Answer::FoundNone,
    }
}

/// The index of a symbol with these bytes as its name.
fn answer_find<S: Source>(elf: &mut Elf<S>, s: ScnId, name: &[u8]) -> Answer
    ensures meets { Applies S.Source (call.Find s name.now) (result_of result) elf.old elf.new }
    ensures form { IfOk (result_of result) (IsAnswerOf (call.Find s name.now) elf.old.o) }
{
    match find_linear(elf, s, name) {
        Ok(found) => found_answer(found),
        Err(e) => Answer::Refused(e),
    }
}

/// `find`: the index of a symbol with a name.
pub(crate) fn find_named<S: Source>(elf: &mut Elf<S>, s: ScnId, name: &Octets) -> Answer
    ensures meets { Applies S.Source (call.Find s name.now) (result_of result) elf.old elf.new }
    ensures form { IfOk (result_of result) (IsAnswerOf (call.Find s name.now) elf.old.o) }
{
    answer_find(elf, s, name.as_slice())
}
