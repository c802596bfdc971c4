//! The lines of the notes.

ghost use Rattle.std.specs.Prelude.{◌≡◌, ◌++◌, ◌+◌, ◌≤◌, length, None, flat_map, OnOk, IfErr};
ghost use Rattle.elf_types.specs.Writers.{WantsMemory};
ghost use Rattle.elf_types.specs.declared.records.Kind.TheVariants as kinds;
ghost use Rattle.elf_object.specs.Answers.{lend_refusal, count_at};
ghost use Rattle.tool_output.specs.Reports.{shown_report};
ghost use Rattle.tool_objects.specs.Steps.{ReportsElf, ReportsOver};
ghost use Rattle.tool_objects.specs.gelf_view.Notes.{IsNoteWithin};
ghost use Rattle.readelf_chains.specs.Chains.{section_bytes};
ghost use Rattle.readelf_chains.specs.Notes.{part_of, owner_of, hex_byte, desc_text, owner_text, note_line, note_text, notes_from, notes_title, notes_of_section, holds_notes, notes_report};

use crate::chains::{Records, refuse_records, show_records};
use elf_outside::{Sink, Source};
use elf_types::constants::SHT_NOTE;
use elf_types::{DataId, ElfError, Octets, ScnId, put_bytes, put_text};
use readelf_rows::{SectionPart, each_plain, put_decimal_column};
use tool_objects::prelude::{Elf, NoteAt, bytes, note, string_in};
use tool_objects::stop_for;
use tool_output::columns::put_hex_pairs;
use tool_output::{FileName, Line, Outputs, Stop};

/// Appends bytes in hexadecimal digits.
fn put_hex_bytes(page: &mut Octets, bytes: &[u8]) -> Result<(), ElfError>
    ensures ok { OnOk result (page.new ≡ page.old ++ flat_map hex_byte bytes.now) }
    ensures err { IfErr result (WantsMemory page.old page.new) }
{
    put_hex_pairs(page, bytes)
}

/// Appends ` desc HEX`, where there are bytes.
#[tactic(auto, using(elf_types::proofs::Writers::kept), unfolding(crate::specs::Notes::desc_text))]
fn put_desc(page: &mut Octets, desc: &[u8]) -> Result<(), ElfError>
    ensures ok { OnOk result (page.new ≡ page.old ++ desc_text desc.now) }
    ensures err { IfErr result (WantsMemory page.old page.new) }
{
    if desc.is_empty() {
        return Ok(());
    }
    put_text(page, " desc ")?;
    put_hex_bytes(page, desc)
}

/// Appends `  owner [OWNER]`.
#[tactic(auto, using(elf_types::proofs::Writers::kept), unfolding(crate::specs::Notes::owner_text))]
fn put_owner(page: &mut Octets, owner: &[u8]) -> Result<(), ElfError>
    ensures ok { OnOk result (page.new ≡ page.old ++ owner_text owner.now) }
    ensures err { IfErr result (WantsMemory page.old page.new) }
{
    put_text(page, "  owner [")?;
    put_bytes(page, owner)?;
    put_text(page, "]")
}

/// The line of a note.
#[derive(Clone, Copy)]
struct NoteLine<'a> {
    /// The note.
    note: NoteAt,
    /// Its owner.
    owner: &'a [u8],
    /// Its descriptor.
    desc: &'a [u8],
}

impl Line for NoteLine<'_> {
    ghost text = { λ l. note_line l.note l.owner.now l.desc.now };

    #[tactic(auto, using(elf_types::proofs::Writers::kept), unfolding(crate::specs::Notes::note_line))]
    fn put(&self, page: &mut Octets) -> Result<(), ElfError> {
        put_owner(page, self.owner)?;
        put_decimal_column(page, "type", u64::from(self.note.ntype))?;
        put_decimal_column(page, "size", self.note.descsz)?;
        put_desc(page, self.desc)?;
        put_text(page, "\n")
    }
}

/// So many bytes from a place on.
fn part_in(bytes: &[u8], at: u64, size: u64) -> &[u8]
    requires { at + size ≤ length bytes.now }
    ensures { result.now ≡ part_of bytes.now at size }
{
    let from = &bytes[at as usize..];
    &from[..size as usize]
}

/// The bytes of a name before its first NUL, or all of them.
fn owner_in(name: &[u8]) -> &[u8]
    ensures { result.now ≡ owner_of name.now }
{
    match string_in(name) {
        Some(owner) => owner,
        None => name,
    }
}

/// Shows the line of a note of a section whose bytes can be told.
fn show_note<S: Source, O: Sink, E: Sink>(
    elf: &mut Elf<S>,
    s: ScnId,
    at: u64,
    note: NoteAt,
    outputs: &mut Outputs<'_, O, E>,
) -> Result<bool, Stop>
    requires passed { lend_refusal elf.old.o kinds.Bytes s.0 0 ≡ None }
    requires within { IsNoteWithin (count_at elf.old.o s.0 0) at note }
    ensures { ReportsElf S.Source O.Sink E.Sink
        (λ o. shown_report (note_text (section_bytes o s.0) note))
        result elf.old elf.new outputs.old outputs.new }
{
    let d = DataId {
        section: s.0,
        piece: 0,
    };
    match bytes(elf, d) {
        Ok(bytes) => {
            let owner = owner_in(part_in(bytes, note.name_at, note.namesz));
            let desc = part_in(bytes, note.desc_at, note.descsz);
            outputs.show(&NoteLine { note, owner, desc })
        }
        Err(e) => Err(stop_for(e)),
    }
}

/// Shows the notes of a section whose bytes can be told.
fn show_each_note<S: Source, O: Sink, E: Sink>(
    name: &FileName<'_>,
    elf: &mut Elf<S>,
    s: ScnId,
    outputs: &mut Outputs<'_, O, E>,
) -> Result<bool, Stop>
    requires { lend_refusal elf.old.o kinds.Bytes s.0 0 ≡ None }
    ensures { ReportsElf S.Source O.Sink E.Sink (λ o. notes_from name.now o s.0 0)
        result elf.old elf.new outputs.old outputs.new }
{
    let d = DataId {
        section: s.0,
        piece: 0,
    };
    let mut at = 0;
    'notes: loop {
        match note(elf, d, at) {
            Ok(Some(found)) => {
                show_note(elf, s, at, found, outputs)?;
                at = found.next;
            }
            Ok(None) => return Ok(false),
            Err(e) => return refuse_records(name, s, e, outputs),
        }
    }
}

/// The notes of a section.
#[derive(Clone, Copy)]
struct NoteRecords;

impl Records for NoteRecords {
    ghost title = { notes_title };

    ghost report = { λ name o s. notes_from name o s 0 };

    #[tactic(auto, unfolding(crate::specs::Notes::notes_title))]
    fn title() -> &'static str {
        "Notes of section "
    }

    fn show<S: Source, O: Sink, E: Sink>(
        name: &FileName<'_>,
        elf: &mut Elf<S>,
        s: ScnId,
        _first: Option<u64>,
        outputs: &mut Outputs<'_, O, E>,
    ) -> Result<bool, Stop> {
        show_each_note(name, elf, s, outputs)
    }
}

/// The part of the notes.
#[derive(Clone, Copy)]
struct Notes;

impl SectionPart for Notes {
    ghost has = { holds_notes };

    ghost report = { notes_of_section };

    fn has(&self, stype: u32) -> bool {
        stype == SHT_NOTE
    }

    #[tactic(auto, unfolding(crate::specs::Notes::notes_of_section))]
    fn show<S: Source, O: Sink, E: Sink>(
        &self,
        name: &FileName<'_>,
        elf: &mut Elf<S>,
        s: ScnId,
        outputs: &mut Outputs<'_, O, E>,
    ) -> Result<bool, Stop> {
        show_records::<NoteRecords, S, O, E>(name, elf, s, outputs)
    }
}

/// Shows the notes of each section of type `SHT_NOTE`, by number: the section, and a line for each
/// note. A note that does not lie in the section has a message after the lines of those before.
///
/// Source: gABI chapter 5, "Note Section".
#[tactic(auto, unfolding(crate::specs::Notes::notes_report))]
pub fn show_notes<S: Source, O: Sink, E: Sink>(
    name: &FileName<'_>,
    elf: &mut Elf<S>,
    outputs: &mut Outputs<'_, O, E>,
) -> Result<bool, Stop>
    ensures { ReportsOver S.Source O.Sink E.Sink 1 (notes_report name.now)
        result elf.old elf.new outputs.old outputs.new }
{
    each_plain(&Notes, name, elf, outputs)
}
