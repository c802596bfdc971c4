//! Version records and notes.

ghost use Rattle.std.specs.Prelude.{◌≡◌, true};
ghost use Rattle.gelf_view.specs.Calls as calls;
ghost use Rattle.elf_descriptor.specs.Reads.{wanted};
ghost use Rattle.c_records.specs.Forms.{verdef_record, verdaux_record, verneed_record, vernaux_record, note_record};
ghost use Rattle.c_records.specs.Gives.{GivesRead};
ghost use Rattle.elfkit_c.specs.Handles.{Holds};

use c_calls::reading::{give_note, give_verdaux, give_verdef, give_vernaux, give_verneed};
use c_handles::objects::Handle;
use c_records::{NoteRecord, VerdauxRecord, VerdefRecord, VernauxRecord, VerneedRecord};
use elf_types::DataId;
use std::alloc::Global;

/// The version definition at a place of a piece. It fails with, in this order: `NoSection`,
/// `NoData`, `WrongKind`, `OutOfFile`; then `Memory`, and `BadChain`.
///
/// Besides C's usual part: the handle holds an object.
///
/// Source: gelf_getverdef of gelf(3E).
#[unsafe(no_mangle)]
pub extern "C" fn elfkit_verdef(
    alloc: Global,
    h: &mut Handle,
    section: u32,
    piece: u32,
    at: u64,
    out: &mut VerdefRecord,
) -> u32
    requires { h.old.full ≡ true }
    ensures gives { GivesRead verdef_record (wanted (calls.verdef section piece at) h.old.held.elf)
        ((calls.verdef section piece at).answer h.old.held.elf.o) result out.old out.new }
    ensures holds { Holds h.old h.new }
{
    let mut object = h.take(alloc);
    let number = give_verdef(object.as_mut(), DataId { section, piece }, at, out);
    h.put(object);
    number
}

/// The name of a version definition at a place of a piece. It fails with, in this order:
/// `NoSection`, `NoData`, `WrongKind`, `OutOfFile`; then `Memory`, and `BadChain`.
///
/// Besides C's usual part: the handle holds an object.
///
/// Source: gelf_getverdaux of gelf(3E).
#[unsafe(no_mangle)]
pub extern "C" fn elfkit_verdaux(
    alloc: Global,
    h: &mut Handle,
    section: u32,
    piece: u32,
    at: u64,
    out: &mut VerdauxRecord,
) -> u32
    requires { h.old.full ≡ true }
    ensures gives { GivesRead verdaux_record
        (wanted (calls.verdaux section piece at) h.old.held.elf)
        ((calls.verdaux section piece at).answer h.old.held.elf.o) result out.old out.new }
    ensures holds { Holds h.old h.new }
{
    let mut object = h.take(alloc);
    let number = give_verdaux(object.as_mut(), DataId { section, piece }, at, out);
    h.put(object);
    number
}

/// The needs of one file at a place of a piece. It fails with, in this order: `NoSection`,
/// `NoData`, `WrongKind`, `OutOfFile`; then `Memory`, and `BadChain`.
///
/// Besides C's usual part: the handle holds an object.
///
/// Source: gelf_getverneed of gelf(3E).
#[unsafe(no_mangle)]
pub extern "C" fn elfkit_verneed(
    alloc: Global,
    h: &mut Handle,
    section: u32,
    piece: u32,
    at: u64,
    out: &mut VerneedRecord,
) -> u32
    requires { h.old.full ≡ true }
    ensures gives { GivesRead verneed_record
        (wanted (calls.verneed section piece at) h.old.held.elf)
        ((calls.verneed section piece at).answer h.old.held.elf.o) result out.old out.new }
    ensures holds { Holds h.old h.new }
{
    let mut object = h.take(alloc);
    let number = give_verneed(object.as_mut(), DataId { section, piece }, at, out);
    h.put(object);
    number
}

/// The needed version at a place of a piece. It fails with, in this order: `NoSection`, `NoData`,
/// `WrongKind`, `OutOfFile`; then `Memory`, and `BadChain`.
///
/// Besides C's usual part: the handle holds an object.
///
/// Source: gelf_getvernaux of gelf(3E).
#[unsafe(no_mangle)]
pub extern "C" fn elfkit_vernaux(
    alloc: Global,
    h: &mut Handle,
    section: u32,
    piece: u32,
    at: u64,
    out: &mut VernauxRecord,
) -> u32
    requires { h.old.full ≡ true }
    ensures gives { GivesRead vernaux_record
        (wanted (calls.vernaux section piece at) h.old.held.elf)
        ((calls.vernaux section piece at).answer h.old.held.elf.o) result out.old out.new }
    ensures holds { Holds h.old h.new }
{
    let mut object = h.take(alloc);
    let number = give_vernaux(object.as_mut(), DataId { section, piece }, at, out);
    h.put(object);
    number
}

/// The note at a place of a piece. It fails with, in this order: `NoSection`, `NoData`,
/// `WrongKind`, `OutOfFile`; then `Memory`, and `BadChain`.
///
/// Besides C's usual part: the handle holds an object.
///
/// Source: gABI chapter 5, "Note Section"; gelf_getnote of gelf(3E).
#[unsafe(no_mangle)]
pub extern "C" fn elfkit_note(
    alloc: Global,
    h: &mut Handle,
    section: u32,
    piece: u32,
    at: u64,
    out: &mut NoteRecord,
) -> u32
    requires { h.old.full ≡ true }
    ensures gives { GivesRead note_record (wanted (calls.note section piece at) h.old.held.elf)
        ((calls.note section piece at).answer h.old.held.elf.o) result out.old out.new }
    ensures holds { Holds h.old h.new }
{
    let mut object = h.take(alloc);
    let number = give_note(object.as_mut(), DataId { section, piece }, at, out);
    h.put(object);
    number
}
