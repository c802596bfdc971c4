//! The string at an offset of a section.

ghost use Rattle.std.specs.Prelude.{◌≡◌, ◌<◌, ◌≤◌, ◌||◌, IsTrue, IfErr, IfOk, OnOk, [], None, true, is_some, length, drop};
ghost use Rattle.std.specs.Borrow.{sem};
ghost use Rattle.std.specs.List.{list_all};
ghost use Rattle.elf_types.specs.Answers.{answered, or_refused, IsRefusal};
ghost use Rattle.elf_types.specs.declared.errors.ElfError.TheVariants.{Unended};
ghost use Rattle.elf_types.specs.declared.records.Kind.TheVariants as kinds;
ghost use Rattle.elf_descriptor.specs.elf_object.Words.{Answers, AnswersRead, seen};
ghost use Rattle.elf_descriptor.specs.elf_object.Object.{section_at, piece_at};
ghost use Rattle.elf_descriptor.specs.elf_object.Valid.{IsObject, OthersOwn};
ghost use Rattle.elf_descriptor.specs.elf_object.Answers.{kind_at, lend_refusal, no_section, piece_count, piece_refusal, same_kind};
ghost use Rattle.elf_descriptor.specs.elf_object.Due.{is_loaded};
ghost use Rattle.elf_descriptor.specs.elf_object.Strings as strings;
ghost use Rattle.elf_descriptor.specs.elf_object.Strings.{kind_of_piece, string_refusal_unread, strptr_refusals};
ghost use Rattle.elf_descriptor.specs.Reads.{Queries, wanted};
ghost use Rattle.elf_descriptor.specs.Rests.{Rests};
ghost use Rattle.gelf_view.specs.Calls.{bytes};
ghost use Rattle.gelf_view.specs.Records.{string_front};
ghost use Rattle.gelf_view.specs.Strings.{bytes_in, home_missing, no_strings, Begins};

use crate::fetching::{bytes_there, fetch_bytes, is_edited};
use crate::string_places::{Start, find_start};
use crate::strings::{string_from, string_in};
use elf_descriptor::Elf;
use elf_descriptor::prelude::Source;
use elf_types::constants::SHT_STRTAB;
use elf_types::{DataId, ElfError, Kind, ScnId, bytes_are_ranged};

/// Whether a piece that is there holds bytes.
#[tactic(auto, unfolding(elf_descriptor::specs::Passed::piece_kind_answer))]
fn is_of_bytes<S: Source>(elf: &Elf<S>, d: DataId) -> bool
    requires { piece_refusal elf.now.o d.section d.piece ≡ None }
    ensures { result ≡ same_kind (kind_at elf.now.o d.section d.piece) kinds.Bytes }
{
    match elf.piece_kind(d) {
        Ok(Kind::Bytes) => true,
        Ok(_) => false,
        Err(_) => unreachable!(),
    }
}

/// Whether each piece of a section that is there holds bytes.
#[inline(always)]
fn are_of_bytes<S: Source>(elf: &Elf<S>, s: ScnId, count: u32) -> bool
    requires section { no_section elf.now.o s.0 ≡ None }
    requires count { count ≡ piece_count elf.now.o s.0 }
    ensures { result ≡ list_all
        (λ p. same_kind (kind_of_piece (section_at elf.now.o s.0) p) kinds.Bytes)
        (section_at elf.now.o s.0).pieces }
{
    let first = elf.first_pieces(s, u64::MAX);
    for piece in first.count..count {
        let d = DataId {
            section: s.0,
            piece,
        };
        if !is_of_bytes(elf, d) {
            return false;
        }
    }
    true
}

/// The number of pieces of a section that is there.
#[tactic(auto, unfolding(elf_descriptor::specs::Passed::pieces_answer))]
fn count_of_pieces<S: Source>(elf: &Elf<S>, s: ScnId) -> u32
    requires { no_section elf.now.o s.0 ≡ None }
    ensures { result ≡ piece_count elf.now.o s.0 }
{
    match elf.pieces(s) {
        Ok(count) => count,
        Err(_) => unreachable!(),
    }
}

/// The number of pieces of a section of strings. It fails with, in this order: `NoSection`, and
/// `NotStrings` where the present type is not `SHT_STRTAB` or a piece does not hold bytes.
fn check_strings<S: Source>(elf: &Elf<S>, s: ScnId) -> Result<u32, ElfError>
    ensures answer { result ≡ answered (no_strings elf.now.o s.0) (piece_count elf.now.o s.0) }
    ensures err { IfErr result IsRefusal }
{
    let header = elf.shdr(s)?;
    let count = count_of_pieces(elf, s);
    if header.stype != SHT_STRTAB || !are_of_bytes(elf, s, count) {
        return Err(ElfError::NotStrings { section: s.0 });
    }
    Ok(count)
}

/// The length of the home of a section that is there.
#[tactic(auto, unfolding(elf_descriptor::specs::Passed::home_answer))]
pub(crate) fn home_len<S: Source>(elf: &Elf<S>, s: ScnId) -> u64
    requires { no_section elf.now.o s.0 ≡ None }
    ensures { result ≡ (section_at elf.now.o s.0).home.len }
{
    match elf.home(s) {
        Ok((_, len)) => len,
        Err(_) => unreachable!(),
    }
}

/// Whether the home of a section that is there is out of the file.
#[tactic(auto, unfolding(elf_descriptor::specs::Homes::out_answer))]
pub(crate) fn is_out<S: Source>(elf: &Elf<S>, s: ScnId) -> bool
    requires { no_section elf.now.o s.0 ≡ None }
    ensures out { result ≡ (section_at elf.now.o s.0).home.out }
    ensures object { IsObject elf.now.o }
{
    match elf.is_out_of_file(s) {
        Ok(out) => out,
        Err(_) => unreachable!(),
    }
}

/// The number of bytes that a section that is there has in the file, or `OutOfFile` where the home
/// piece is clean and the home is out of the file.
fn check_home<S: Source>(elf: &Elf<S>, s: ScnId, count: u32) -> Result<u64, ElfError>
    requires section { no_section elf.now.o s.0 ≡ None }
    requires count { count ≡ piece_count elf.now.o s.0 }
    ensures answer { result ≡ answered (home_missing elf.now.o s.0)
        (length (section_at elf.now.o s.0).raw) }
    ensures others { OthersOwn (section_at elf.now.o s.0).pieces }
    ensures err { IfErr result IsRefusal }
{
    if !is_out(elf, s) {
        return Ok(home_len(elf, s));
    }
    let home_piece = DataId {
        section: s.0,
        piece: 0,
    };
    if count == 0 || is_edited(elf, home_piece) {
        return Ok(0);
    }
    Err(ElfError::OutOfFile { section: s.0 })
}

/// Where the string at an offset begins. It fails with, in this order: `NoSection`, `NotStrings`,
/// `OutOfFile`, `NoString`. It reads nothing.
fn start_of<S: Source>(elf: &Elf<S>, s: ScnId, offset: u64) -> Result<Start, ElfError>
    ensures begins { IfOk result (λ x. Begins elf.now.o s.0 offset x.piece x.start) }
    ensures refused { IfErr result (λ e. string_refusal_unread elf.now.o s.0 offset ≡ Some e) }
    ensures err { IfErr result IsRefusal }
{
    let count = check_strings(elf, s)?;
    let home_len = check_home(elf, s, count)?;
    find_start(elf, s, count, home_len, offset)
}

/// Makes sure that the bytes of a piece are in memory, as `fetch_bytes` does, and notes where the
/// last NUL of its home is.
fn fetch_strings<S: Source>(elf: &mut Elf<S>, d: DataId) -> Result<(), ElfError>
    ensures answer { Answers true (wanted (bytes d.section d.piece) elf.old) result
        (answered (lend_refusal elf.old.o kinds.Bytes d.section d.piece) tt) }
    ensures hand { OnOk result (IsTrue (is_some (piece_at elf.new.o d.section d.piece).own
        || is_loaded elf.new.loaded d.section)) }
    ensures queries { Queries S.Source (bytes d.section d.piece) [] result elf.old elf.new }
{
    match fetch_bytes(elf, d) {
        Ok(()) => {
            elf.note_end(ScnId(d.section));
            Ok(())
        }
        Err(e) => Err(e),
    }
}

/// Makes sure that the bytes of the piece are in memory in which the string at an offset begins.
fn fetch_piece<S: Source>(
    elf: &mut Elf<S>,
    s: ScnId,
    start: Start,
    offset: u64,
) -> Result<Start, ElfError>
    requires { Begins elf.old.o s.0 offset start.piece start.start }
    ensures ok { IfOk result (λ x. x ≡ start) }
    ensures hand { OnOk result (IsTrue (is_some (piece_at elf.new.o s.0 start.piece).own
        || is_loaded elf.new.loaded s.0)) }
    ensures answer { IfErr result (λ e. AnswersRead elf.old.told
        (wanted (strings.strptr s.0 offset) elf.old) (strptr_refusals elf.old.o s.0 offset)
        (Err e) ((strings.strptr s.0 offset).answer elf.old.o)) }
    ensures queries { Queries S.Source (strings.strptr s.0 offset) [] result elf.old elf.new }
{
    let d = DataId {
        section: s.0,
        piece: start.piece,
    };
    match fetch_strings(elf, d) {
        Ok(()) => Ok(start),
        Err(e) => Err(e),
    }
}

/// Makes sure that the bytes of the piece are in memory in which the string at an offset begins,
/// and tells where it begins in it. It fails with, in this order: `NoSection`, `NotStrings`,
/// `OutOfFile`, `NoString`, then `Memory` or `Read`.
fn fetch_start<S: Source>(elf: &mut Elf<S>, s: ScnId, offset: u64) -> Result<Start, ElfError>
    ensures begins { IfOk result (λ x. Begins elf.old.o s.0 offset x.piece x.start) }
    ensures hand { IfOk result (λ x. IsTrue (is_some (piece_at elf.new.o s.0 x.piece).own
        || is_loaded elf.new.loaded s.0)) }
    ensures answer { IfErr result (λ e. AnswersRead elf.old.told
        (wanted (strings.strptr s.0 offset) elf.old) (strptr_refusals elf.old.o s.0 offset)
        (Err e) ((strings.strptr s.0 offset).answer elf.old.o)) }
    ensures queries { Queries S.Source (strings.strptr s.0 offset) [] result elf.old elf.new }
{
    match start_of(elf, s, offset) {
        Ok(start) => fetch_piece(elf, s, start, offset),
        Err(e) => Err(e),
    }
}

/// Loads the piece of a string as `fetch_start` does, and before it notes where the pieces end, so
/// that later strings of the section are found in few steps.
#[inline(never)]
fn note_and_fetch<S: Source>(elf: &mut Elf<S>, s: ScnId, offset: u64) -> Result<Start, ElfError>
    ensures begins { IfOk result (λ x. Begins elf.old.o s.0 offset x.piece x.start) }
    ensures hand { IfOk result (λ x. IsTrue (is_some (piece_at elf.new.o s.0 x.piece).own
        || is_loaded elf.new.loaded s.0)) }
    ensures answer { IfErr result (λ e. AnswersRead elf.old.told
        (wanted (strings.strptr s.0 offset) elf.old) (strptr_refusals elf.old.o s.0 offset)
        (Err e) ((strings.strptr s.0 offset).answer elf.old.o)) }
    ensures queries { Queries S.Source (strings.strptr s.0 offset) [] result elf.old elf.new }
{
    elf.note_pieces(s);
    fetch_start(elf, s, offset)
}

/// The bytes from a place on.
fn bytes_from(bytes: &[u8], place: u64) -> &[u8]
    requires { place ≤ length bytes.now }
    ensures { result.now ≡ drop place bytes.now }
{
    &bytes[place as usize..]
}

/// The string that begins at a place of an own piece, or `Unended` with the offset where no NUL
/// follows in it.
fn own_string<S: Source>(
    elf: &Elf<S>,
    s: ScnId,
    start: Start,
    offset: u64,
) -> Result<&[u8], ElfError>
    requires passed { lend_refusal elf.now.o kinds.Bytes s.0 start.piece ≡ None }
    requires within { start.start < length (bytes_in elf.now.o s.0 start.piece) }
    requires hand { IsTrue (is_some (piece_at elf.now.o s.0 start.piece).own
        || is_loaded elf.now.loaded s.0) }
    ensures value { IsTrue elf.now.told → seen result ≡ or_refused
        (string_front (drop start.start (bytes_in elf.now.o s.0 start.piece))) (Unended offset) }
    ensures err { IfErr result (λ e. e ≡ Unended offset) }
{
    let d = DataId {
        section: s.0,
        piece: start.piece,
    };
    let bytes = bytes_there(elf, d);
    bytes_are_ranged(bytes);
    match string_in(bytes_from(bytes, start.start)) {
        Some(string) => Ok(string),
        None => Err(ElfError::Unended { offset }),
    }
}

/// The string that begins at a place of a home that is loaded, or `Unended` with the offset where
/// no NUL follows in it: that is known at once after the last NUL.
fn home_string<S: Source>(
    elf: &Elf<S>,
    s: ScnId,
    start: Start,
    offset: u64,
) -> Result<&[u8], ElfError>
    requires clean { (piece_at elf.now.o s.0 start.piece).own ≡ None }
    requires loaded { IsTrue (is_loaded elf.now.loaded s.0) }
    ensures value { IsTrue elf.now.told → seen result ≡ or_refused
        (string_front (drop start.start (bytes_in elf.now.o s.0 start.piece))) (Unended offset) }
    ensures err { IfErr result (λ e. e ≡ Unended offset) }
{
    match string_from(elf.ended_bytes(s), start.start) {
        Some(string) => Ok(string),
        None => Err(ElfError::Unended { offset }),
    }
}

/// The string that begins at a place of a piece whose bytes are in memory, or `Unended` with the
/// offset where no NUL follows in it.
fn string_there<S: Source>(
    elf: &Elf<S>,
    s: ScnId,
    start: Start,
    offset: u64,
) -> Result<&[u8], ElfError>
    requires passed { lend_refusal elf.now.o kinds.Bytes s.0 start.piece ≡ None }
    requires within { start.start < length (bytes_in elf.now.o s.0 start.piece) }
    requires hand { IsTrue (is_some (piece_at elf.now.o s.0 start.piece).own
        || is_loaded elf.now.loaded s.0) }
    ensures value { IsTrue elf.now.told → seen result ≡ or_refused
        (string_front (drop start.start (bytes_in elf.now.o s.0 start.piece))) (Unended offset) }
    ensures err { IfErr result (λ e. e ≡ Unended offset) }
{
    let d = DataId {
        section: s.0,
        piece: start.piece,
    };
    if is_edited(elf, d) {
        return own_string(elf, s, start, offset);
    }
    home_string(elf, s, start, offset)
}

/// The string at an offset of a section's pieces, without its NUL: the bytes from there up to the
/// first NUL, in the piece that covers the offset. It fails with, in this order: `NoSection`;
/// `NotStrings` where the section's type is not `SHT_STRTAB` or a piece does not hold bytes;
/// `OutOfFile` where the home piece is clean and its home passes the image's end; `NoString` where
/// no piece covers the offset, with the size of the section's data; then `Memory` or `Read` where
/// the home piece is clean and not loaded, and `Unended` where no NUL follows in the piece. It
/// reads the home at the first use, and marks nothing dirty.
///
/// Source: gABI chapter 4, "String Table"; elf_strptr of elf(3E).
pub fn strptr<S: Source>(elf: &mut Elf<S>, s: ScnId, offset: u64) -> Result<&[u8], ElfError>
    ensures answer { AnswersRead elf.old.told (wanted (strings.strptr s.0 offset) elf.old)
        (strptr_refusals elf.old.o s.0 offset) (seen result)
        ((strings.strptr s.0 offset).answer elf.old.o) }
    ensures* rests { sem 𝓛 (Rests S.row S.Source elf.entry (λ new.
        Queries S.Source (strings.strptr s.0 offset) [] result elf.old new)) }
{
    if elf.holds_table(s, offset) {
        let start = Start {
            piece: 0,
            start: offset,
        };
        return home_string(elf, s, start, offset);
    }
    match note_and_fetch(elf, s, offset) {
        Ok(start) => string_there(elf, s, start, offset),
        Err(e) => Err(e),
    }
}
