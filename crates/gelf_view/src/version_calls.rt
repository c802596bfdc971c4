//! The version records of a section's data.

ghost use Rattle.std.specs.Prelude.{◌≡◌, [], true, IsTrue, OnOk, length};
ghost use Rattle.elf_descriptor.specs.elf_object.Words.{Answers};
ghost use Rattle.elf_descriptor.specs.Reads.{Queries, wanted};
ghost use Rattle.gelf_view.specs.Calls as calls;
ghost use Rattle.gelf_view.specs.Calls.{first_version_place, record_call};
ghost use Rattle.gelf_view.specs.Chains.{behind_verdef, behind_verneed, verdefs, verneeds, IsLedBy};
ghost use Rattle.gelf_view.specs.Records.{LiesAt};
ghost use Rattle.gelf_view.specs.declared.versions.TheConstants.{VERDEF_SIZE, VERNEED_SIZE};
ghost use Rattle.elf_descriptor.specs.elf_object.Answers.{count_at};

use crate::fetching::{bytes_there, fetch_bytes, order};
use crate::records::Record;
use crate::versions::{Verdaux, Verdef, Vernaux, Verneed};
use elf_descriptor::Elf;
use elf_descriptor::prelude::Source;
use elf_types::{DataId, ElfError};

/// The place of the first entry in bytes.
fn first_place(bytes: &[u8]) -> Option<u64>
    ensures { result ≡ first_version_place (length bytes.now) }
{
    if bytes.is_empty() { None } else { Some(0) }
}

/// The record at a place of a piece of bytes.
pub fn read_record<S: Source, R: Record>(
    elf: &mut Elf<S>,
    d: DataId,
    at: u64,
) -> Result<R, ElfError>
    ensures answer { Answers elf.old.told
        (wanted (record_call R.size R.of d.section d.piece at) elf.old) result
        ((record_call R.size R.of d.section d.piece at).answer elf.old.o) }
    ensures within { OnOk result (LiesAt at R.size (count_at elf.old.o d.section d.piece)) }
    ensures queries { Queries S.Source (record_call R.size R.of d.section d.piece at) [] result
        elf.old elf.new }
{
    match fetch_bytes(elf, d) {
        Ok(()) => R::read_in(bytes_there(elf, d), at, order(elf)),
        Err(e) => Err(e),
    }
}

/// The place of the first entry of a version section, a piece of bytes: 0, or None exactly where
/// the piece is empty. It fails as a lend of bytes, in this order: `NoSection`, `NoData`,
/// `WrongKind`, and for the clean home piece `OutOfFile`; then `Memory` or `Read` where its home is
/// not loaded. It marks nothing dirty.
#[tactic(auto, unfolding(crate::specs::Calls::first_entry_answer))]
pub fn first_entry<S: Source>(elf: &mut Elf<S>, d: DataId) -> Result<Option<u64>, ElfError>
    ensures answer { Answers true (wanted (calls.first_entry d.section d.piece) elf.old) result
        ((calls.first_entry d.section d.piece).answer elf.old.o) }
    ensures queries { Queries S.Source (calls.first_entry d.section d.piece) [] result elf.old
        elf.new }
{
    match fetch_bytes(elf, d) {
        Ok(()) => Ok(first_place(bytes_there(elf, d))),
        Err(e) => Err(e),
    }
}

/// The version definition at a place of a piece, in the byte order of the image. It fails as a lend
/// of bytes, in this order: `NoSection`, `NoData`, `WrongKind`, and for the clean home piece
/// `OutOfFile`; then `Memory` or `Read` where its home is not loaded, and `BadChain { at }` exactly
/// where the record does not lie in the piece. It marks nothing dirty.
///
/// Source: gelf_getverdef of gelf(3E).
#[tactic(auto, unfolding(crate::specs::Calls::verdef_answer, crate::specs::Versions::verdef_at))]
pub fn verdef<S: Source>(elf: &mut Elf<S>, d: DataId, at: u64) -> Result<Verdef, ElfError>
    ensures answer { Answers elf.old.told
        (wanted (calls.verdef d.section d.piece at) elf.old) result
        ((calls.verdef d.section d.piece at).answer elf.old.o) }
    ensures within { OnOk result (LiesAt at VERDEF_SIZE (count_at elf.old.o d.section d.piece)) }
    ensures chain { IsTrue elf.old.told → IsLedBy result
        (behind_verdef elf.old.o d.section d.piece at) (verdefs elf.old.o d.section d.piece at) }
    ensures queries { Queries S.Source (calls.verdef d.section d.piece at) [] result elf.old
        elf.new }
{
    read_record::<S, Verdef>(elf, d, at)
}

/// The name of a version definition at a place of a piece, in the byte order of the image. It fails
/// as a lend of bytes, in this order: `NoSection`, `NoData`, `WrongKind`, and for the clean home
/// piece `OutOfFile`; then `Memory` or `Read` where its home is not loaded, and `BadChain { at }`
/// exactly where the record does not lie in the piece. It marks nothing dirty.
///
/// Source: gelf_getverdaux of gelf(3E).
#[tactic(auto, unfolding(crate::specs::Calls::verdaux_answer, crate::specs::Versions::verdaux_at))]
pub fn verdaux<S: Source>(elf: &mut Elf<S>, d: DataId, at: u64) -> Result<Verdaux, ElfError>
    ensures answer { Answers elf.old.told
        (wanted (calls.verdaux d.section d.piece at) elf.old) result
        ((calls.verdaux d.section d.piece at).answer elf.old.o) }
    ensures queries { Queries S.Source (calls.verdaux d.section d.piece at) [] result elf.old
        elf.new }
{
    read_record::<S, Verdaux>(elf, d, at)
}

/// The needs of one file at a place of a piece, in the byte order of the image. It fails as a lend
/// of bytes, in this order: `NoSection`, `NoData`, `WrongKind`, and for the clean home piece
/// `OutOfFile`; then `Memory` or `Read` where its home is not loaded, and `BadChain { at }` exactly
/// where the record does not lie in the piece. It marks nothing dirty.
///
/// Source: gelf_getverneed of gelf(3E).
#[tactic(auto, unfolding(crate::specs::Calls::verneed_answer, crate::specs::Versions::verneed_at))]
pub fn verneed<S: Source>(elf: &mut Elf<S>, d: DataId, at: u64) -> Result<Verneed, ElfError>
    ensures answer { Answers elf.old.told
        (wanted (calls.verneed d.section d.piece at) elf.old) result
        ((calls.verneed d.section d.piece at).answer elf.old.o) }
    ensures within { OnOk result (LiesAt at VERNEED_SIZE (count_at elf.old.o d.section d.piece)) }
    ensures chain { IsTrue elf.old.told → IsLedBy result
        (behind_verneed elf.old.o d.section d.piece at) (verneeds elf.old.o d.section d.piece at) }
    ensures queries { Queries S.Source (calls.verneed d.section d.piece at) [] result elf.old
        elf.new }
{
    read_record::<S, Verneed>(elf, d, at)
}

/// The needed version at a place of a piece, in the byte order of the image. It fails as a lend of
/// bytes, in this order: `NoSection`, `NoData`, `WrongKind`, and for the clean home piece
/// `OutOfFile`; then `Memory` or `Read` where its home is not loaded, and `BadChain { at }` exactly
/// where the record does not lie in the piece. It marks nothing dirty.
///
/// Source: gelf_getvernaux of gelf(3E).
#[tactic(auto, unfolding(crate::specs::Calls::vernaux_answer, crate::specs::Versions::vernaux_at))]
pub fn vernaux<S: Source>(elf: &mut Elf<S>, d: DataId, at: u64) -> Result<Vernaux, ElfError>
    ensures answer { Answers elf.old.told
        (wanted (calls.vernaux d.section d.piece at) elf.old) result
        ((calls.vernaux d.section d.piece at).answer elf.old.o) }
    ensures queries { Queries S.Source (calls.vernaux d.section d.piece at) [] result elf.old
        elf.new }
{
    read_record::<S, Vernaux>(elf, d, at)
}
