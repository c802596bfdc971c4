//! Version records and notes.

ghost use Rattle.gelf_view.specs.Calls as calls;
ghost use Rattle.elf_descriptor.specs.Reads.{wanted};
ghost use Rattle.c_records.specs.Forms.{verdef_record, verdaux_record, verneed_record, vernaux_record, note_record};
ghost use Rattle.c_records.specs.Gives.{GivesRead};
ghost use Rattle.c_handles.specs.Objects.Objects.{SameObject};

use c_handles::objects::OpenObject;
use c_records::{NoteRecord, VerdauxRecord, VerdefRecord, VernauxRecord, VerneedRecord, code_of};
use elf_types::DataId;
use gelf_view::{note, verdaux, verdef, vernaux, verneed};

/// The version definition at a place of a piece. It fails as a lend of bytes, in this order:
/// `NoSection`, `NoData`, `WrongKind`, and for the clean home piece `OutOfFile`; then `Memory`
/// where its home is not loaded, and `BadChain` exactly where the record does not lie in the piece.
/// It marks nothing dirty.
///
/// Source: gelf_getverdef of gelf(3E).
pub fn give_verdef(object: &mut OpenObject, d: DataId, at: u64, out: &mut VerdefRecord) -> u32
    ensures gives { GivesRead verdef_record
        (wanted (calls.verdef d.section d.piece at) object.old.elf)
        ((calls.verdef d.section d.piece at).answer object.old.elf.o) result out.old out.new }
    ensures object { SameObject object.old.elf object.new.elf }
{
    match verdef(&mut object.elf, d, at) {
        Ok(x) => {
            *out = VerdefRecord::of(x);
            0
        }
        Err(e) => code_of(e),
    }
}

/// The name of a version definition at a place of a piece. It fails as a lend of bytes, in this
/// order: `NoSection`, `NoData`, `WrongKind`, and for the clean home piece `OutOfFile`; then
/// `Memory` where its home is not loaded, and `BadChain` exactly where the record does not lie in
/// the piece. It marks nothing dirty.
///
/// Source: gelf_getverdaux of gelf(3E).
pub fn give_verdaux(object: &mut OpenObject, d: DataId, at: u64, out: &mut VerdauxRecord) -> u32
    ensures gives { GivesRead verdaux_record
        (wanted (calls.verdaux d.section d.piece at) object.old.elf)
        ((calls.verdaux d.section d.piece at).answer object.old.elf.o) result out.old out.new }
    ensures object { SameObject object.old.elf object.new.elf }
{
    match verdaux(&mut object.elf, d, at) {
        Ok(x) => {
            *out = VerdauxRecord::of(x);
            0
        }
        Err(e) => code_of(e),
    }
}

/// The needs of one file at a place of a piece. It fails as a lend of bytes, in this order:
/// `NoSection`, `NoData`, `WrongKind`, and for the clean home piece `OutOfFile`; then `Memory`
/// where its home is not loaded, and `BadChain` exactly where the record does not lie in the piece.
/// It marks nothing dirty.
///
/// Source: gelf_getverneed of gelf(3E).
pub fn give_verneed(object: &mut OpenObject, d: DataId, at: u64, out: &mut VerneedRecord) -> u32
    ensures gives { GivesRead verneed_record
        (wanted (calls.verneed d.section d.piece at) object.old.elf)
        ((calls.verneed d.section d.piece at).answer object.old.elf.o) result out.old out.new }
    ensures object { SameObject object.old.elf object.new.elf }
{
    match verneed(&mut object.elf, d, at) {
        Ok(x) => {
            *out = VerneedRecord::of(x);
            0
        }
        Err(e) => code_of(e),
    }
}

/// The needed version at a place of a piece. It fails as a lend of bytes, in this order:
/// `NoSection`, `NoData`, `WrongKind`, and for the clean home piece `OutOfFile`; then `Memory`
/// where its home is not loaded, and `BadChain` exactly where the record does not lie in the piece.
/// It marks nothing dirty.
///
/// Source: gelf_getvernaux of gelf(3E).
pub fn give_vernaux(object: &mut OpenObject, d: DataId, at: u64, out: &mut VernauxRecord) -> u32
    ensures gives { GivesRead vernaux_record
        (wanted (calls.vernaux d.section d.piece at) object.old.elf)
        ((calls.vernaux d.section d.piece at).answer object.old.elf.o) result out.old out.new }
    ensures object { SameObject object.old.elf object.new.elf }
{
    match vernaux(&mut object.elf, d, at) {
        Ok(x) => {
            *out = VernauxRecord::of(x);
            0
        }
        Err(e) => code_of(e),
    }
}

/// The note at a place of a piece. It fails as a lend of bytes, in this order: `NoSection`,
/// `NoData`, `WrongKind`, and for the clean home piece `OutOfFile`; then `Memory` where its home is
/// not loaded, and `BadChain` exactly where header, name or descriptor do not lie in the piece. It
/// marks nothing dirty.
///
/// Source: gABI chapter 5, "Note Section"; gelf_getnote of gelf(3E).
pub fn give_note(object: &mut OpenObject, d: DataId, at: u64, out: &mut NoteRecord) -> u32
    ensures gives { GivesRead note_record (wanted (calls.note d.section d.piece at) object.old.elf)
        ((calls.note d.section d.piece at).answer object.old.elf.o) result out.old out.new }
    ensures object { SameObject object.old.elf object.new.elf }
{
    match note(&mut object.elf, d, at) {
        Ok(x) => {
            *out = NoteRecord::of(x);
            0
        }
        Err(e) => code_of(e),
    }
}
