//! The lines of results. Each call fails with `Memory` alone; what the buffer held then stays, with
//! some bytes after it.

ghost use Rattle.std.specs.Prelude.{◌≡◌, ◌++◌, OnOk, IfErr};
ghost use Rattle.elf_types.specs.Writers.{WantsMemory};
ghost use Rattle.calls_tool.specs.Lines.{data_text, raw_text, str_text, note_answer_text, refused_text, answer_text, answer_line};

mod columns;
mod headers;
mod items;

use crate::lines::columns::Number::{Decimal, Hex};
use crate::lines::columns::{put_column, put_columns, put_hex_bytes};
use crate::lines::headers::{put_ehdr, put_phdr, put_shdr};
use crate::lines::items::put_item;
use elf_calls_apply::Answer;
use elf_types::{
    ElfError, Kind, Octets, Part, kind_name, put_bytes, put_error, put_part, put_text,
};
use symbol_lookup::prelude::NoteAt;
use tool_output::Line;

/// Appends the text of a result.
#[tactic(auto, unfolding(crate::specs::Lines::answer_text))]
fn put_answer_text(page: &mut Octets, answer: &Answer) -> Result<(), ElfError>
    ensures ok { OnOk result (page.new ≡ page.old ++ answer_text answer.now) }
    ensures err { IfErr result (WantsMemory page.old page.new) }
{
    match answer {
        Answer::Ehdr(h) => put_ehdr(page, h),
        Answer::Phdr(h) => put_phdr(page, h),
        Answer::Shdr(h) => put_shdr(page, h),
        Answer::Pieces(n) => put_column(page, "pieces ", Decimal(u64::from(*n))),
        Answer::Data { kind, count } => put_data(page, *kind, *count),
        Answer::Raw(bytes) => put_raw(page, bytes.as_slice()),
        Answer::Item(item) => put_item(page, item),
        Answer::Str(bytes) => put_str(page, bytes.as_slice()),
        Answer::Note(note) => put_note(page, note),
        Answer::NoteEnd => put_text(page, "note end"),
        Answer::Found(i) => put_column(page, "found ", Decimal(*i)),
        Answer::FoundNone => put_text(page, "found none"),
        Answer::Done => put_text(page, "ok"),
        Answer::Changed(n) => put_column(page, "changed ", Decimal(*n)),
        Answer::Section(s) => put_part(page, Part::Section(*s)),
        Answer::Piece { s, p } => put_part(page, Part::Piece(*s, *p)),
        Answer::Flags(flags) => put_column(page, "flags ", Hex(u64::from(*flags))),
        Answer::Size(n) => put_column(page, "size ", Decimal(*n)),
        Answer::Refused(e) => put_refused(page, e),
    }
}

/// Appends a kind and a number of items.
#[tactic(auto, using(elf_types::proofs::Writers::kept), unfolding(crate::specs::Lines::data_text))]
fn put_data(page: &mut Octets, kind: Kind, count: u64) -> Result<(), ElfError>
    ensures ok { OnOk result (page.new ≡ page.old ++ data_text kind count) }
    ensures err { IfErr result (WantsMemory page.old page.new) }
{
    put_text(page, "kind ")?;
    put_text(page, kind_name(kind))?;
    put_column(page, " count ", Decimal(count))
}

/// Appends the bytes of a section.
#[tactic(auto, using(elf_types::proofs::Writers::kept), unfolding(crate::specs::Lines::raw_text))]
fn put_raw(page: &mut Octets, bytes: &[u8]) -> Result<(), ElfError>
    ensures ok { OnOk result (page.new ≡ page.old ++ raw_text bytes.now) }
    ensures err { IfErr result (WantsMemory page.old page.new) }
{
    put_text(page, "raw ")?;
    put_hex_bytes(page, bytes)
}

/// Appends a string.
#[tactic(auto, using(elf_types::proofs::Writers::kept), unfolding(crate::specs::Lines::str_text))]
fn put_str(page: &mut Octets, bytes: &[u8]) -> Result<(), ElfError>
    ensures ok { OnOk result (page.new ≡ page.old ++ str_text bytes.now) }
    ensures err { IfErr result (WantsMemory page.old page.new) }
{
    put_text(page, "str [")?;
    put_bytes(page, bytes)?;
    put_text(page, "]")
}

/// Appends a note.
#[tactic(auto, unfolding(crate::specs::Lines::note_answer_text))]
fn put_note(page: &mut Octets, note: &NoteAt) -> Result<(), ElfError>
    ensures ok { OnOk result (page.new ≡ page.old ++ note_answer_text note.now) }
    ensures err { IfErr result (WantsMemory page.old page.new) }
{
    put_columns(
        page,
        &[
            ("note type ", Decimal(u64::from(note.ntype))),
            (" namesz ", Decimal(note.namesz)),
            (" descsz ", Decimal(note.descsz)),
            (" next ", Decimal(note.next)),
        ],
    )
}

/// Appends a refusal.
#[tactic(auto, using(elf_types::proofs::Writers::kept), unfolding(crate::specs::Lines::refused_text))]
fn put_refused(page: &mut Octets, e: &ElfError) -> Result<(), ElfError>
    ensures ok { OnOk result (page.new ≡ page.old ++ refused_text e.now) }
    ensures err { IfErr result (WantsMemory page.old page.new) }
{
    put_text(page, "refused ")?;
    put_error(page, e)
}

/// The line of a result.
#[derive(Clone, Copy)]
pub struct AnswerLine<'a> {
    /// The result.
    pub answer: &'a Answer,
}

impl Line for AnswerLine<'_> {
    ghost text = { λ l. answer_line l.answer.now };

    #[tactic(auto, using(elf_types::proofs::Writers::kept), unfolding(crate::specs::Lines::answer_line))]
    fn put(&self, page: &mut Octets) -> Result<(), ElfError> {
        put_answer_text(page, self.answer)?;
        put_text(page, "\n")
    }
}
