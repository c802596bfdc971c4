//! Archives.

ghost use Rattle.std.specs.Prelude.{◌≡◌, ◌⊎◌, true, false, length, slice_get, IfSome};
ghost use Rattle.ar_members.specs.Archives.{begun_walk};
ghost use Rattle.ar_members.specs.Symbols.{arsyms};
ghost use Rattle.c_handles.specs.Objects.Objects.{IsLoanOf};
ghost use Rattle.c_records.specs.Gives.{GivesInCForm};
ghost use Rattle.c_calls.specs.Archives.Forms.{symbol_record, archive_symbol_at, counted_symbols};
ghost use Rattle.c_calls.specs.Archives.Steps.{bytes_of, Steps, BodyLiesIn, GivesOrWants};
ghost use Rattle.elfkit_c.specs.Handles.{ComesBack};
ghost use Rattle.elfkit_c.specs.Archives.{BeginsArchive, KeepsArchive, WalksOn, Lists};

use c_calls::archives::{
    ArSymRecord, MemberRecord, give_name, give_symbol, give_symbol_name, list_symbols, next_member,
};
use c_handles::archives::{ArchiveHandle, close_archive, open_archive};
use c_handles::lent::Lent;
use c_records::code_of;
use std::alloc::Global;
use std::mem::replace;

/// Opens an archive over bytes that C lends: it reads the first line. The number is 0, or that of
/// what `Ar::begin` fails with, in its order: `Short`, `Magic`, `TooLarge`; or of `Memory`. The
/// bytes come back with a refusal, and else when the archive is closed. C may lend the body of a
/// member once more meanwhile, to `elfkit_begin` or to this call.
///
/// Besides C's usual part: the bytes are there, at most 2^63 - 1 of them at a place that is not
/// null, also where there are none, and nobody writes them until they are back; and the handle is
/// empty.
///
/// Source: ar.h; elf_begin and elf_memory of elf(3E).
#[unsafe(no_mangle)]
pub extern "C" fn elfkit_ar_begin(
    alloc: Global,
    image: Lent,
    h: &mut ArchiveHandle,
    back: &mut Lent,
) -> u32
    requires lent { image.lent ≡ true }
    requires empty { h.old.full ≡ false }
    ensures begins { BeginsArchive image (begun_walk image.bytes) result h.new }
    ensures back { ComesBack image result back.old back.new }
{
    match open_archive(alloc, image) {
        Ok(archive) => {
            h.put(archive);
            0
        }
        Err((image, e)) => {
            let _before = replace(back, image);
            code_of(e)
        }
    }
}

/// Closes an archive: the bytes that were lent come back, and the handle is empty.
///
/// Besides C's usual part: the handle holds an archive.
///
/// Source: elf_end of elf(3E).
#[unsafe(no_mangle)]
pub extern "C" fn elfkit_ar_end(alloc: Global, h: &mut ArchiveHandle, back: &mut Lent)
    requires { h.old.full ≡ true }
    ensures empty { h.new.full ≡ false }
    ensures back { IsLoanOf h.old.held.ar.source.loan back.new }
{
    let archive = h.take(alloc);
    let _before = replace(back, close_archive(archive));
}

/// The next member that is not one of the three special ones, or that there is none. It fails with
/// `BadMember` where the header is bad, each time again, and `Memory`, after which the walk is
/// where it was. A member's body lies in the archive.
///
/// Besides C's usual part: the handle holds an archive.
///
/// Source: ar.h; elf_next and elf_getarhdr of elf(3E).
#[unsafe(no_mangle)]
pub extern "C" fn elfkit_ar_next(
    alloc: Global,
    h: &mut ArchiveHandle,
    out: &mut MemberRecord,
) -> u32
    requires { h.old.full ≡ true }
    ensures steps { Steps h.old.held h.new.held result out.old out.new }
    ensures lies { (out.new ≡ out.old) ⊎ BodyLiesIn (length (bytes_of h.old.held)) out.new }
    ensures walks { WalksOn h.old h.new }
{
    let mut archive = h.take(alloc);
    let number = next_member(alloc, archive.as_mut(), out);
    h.put(archive);
    number
}

/// The name of the member that the last `elfkit_ar_next` gave.
///
/// Besides C's usual part: the handle holds an archive, and the buffer is as long as the name,
/// whose length is `namesz` of the member's record, 0 where there is no member.
///
/// Source: elf_getarhdr of elf(3E), `ar_name`.
#[unsafe(no_mangle)]
pub extern "C" fn elfkit_ar_name(alloc: Global, h: &mut ArchiveHandle, out: &mut [u8])
    requires full { h.old.full ≡ true }
    requires room { length out.old ≡ length h.old.held.name }
    ensures name { out.new ≡ h.old.held.name }
    ensures keeps { KeepsArchive h.old h.new }
{
    let archive = h.take(alloc);
    give_name(archive.as_ref(), out);
    h.put(archive);
}

/// Reads the table of symbols, which the archive keeps, and gives their number: 0 where the first
/// member is no such table. It fails with `BadMember` where the first header or the table is bad,
/// and `Memory`. The walk is where it was.
///
/// Besides C's usual part: the handle holds an archive.
///
/// Source: the archive format of System V; elf_getarsym of elf(3E).
#[unsafe(no_mangle)]
pub extern "C" fn elfkit_ar_symbols(alloc: Global, h: &mut ArchiveHandle, count: &mut u64) -> u32
    requires { h.old.full ≡ true }
    ensures gives { GivesOrWants counted_symbols (arsyms (bytes_of h.old.held)) result
        (count.old, h.old.held.symbols) (count.new, h.new.held.symbols) }
    ensures lists { Lists h.old h.new }
{
    let mut archive = h.take(alloc);
    let number = list_symbols(archive.as_mut(), count);
    h.put(archive);
    number
}

/// The symbol at an index among those that `elfkit_ar_symbols` read. It fails with `NoEntry`.
///
/// Besides C's usual part: the handle holds an archive.
///
/// Source: elf_getarsym of elf(3E).
#[unsafe(no_mangle)]
pub extern "C" fn elfkit_ar_symbol(
    alloc: Global,
    h: &mut ArchiveHandle,
    i: u64,
    out: &mut ArSymRecord,
) -> u32
    requires { h.old.full ≡ true }
    ensures gives { GivesInCForm symbol_record
        (archive_symbol_at h.old.held.symbols i) result out.old out.new }
    ensures keeps { KeepsArchive h.old h.new }
{
    let archive = h.take(alloc);
    let number = give_symbol(archive.as_ref(), i, out);
    h.put(archive);
    number
}

/// The name of the symbol at an index; nothing where there is none.
///
/// Besides C's usual part: the handle holds an archive, and where there is a symbol, the buffer is
/// as long as its name, which is `namesz` of the symbol's record.
///
/// Source: elf_getarsym of elf(3E), `as_name`.
#[unsafe(no_mangle)]
pub extern "C" fn elfkit_ar_symbol_name(
    alloc: Global,
    h: &mut ArchiveHandle,
    i: u64,
    out: &mut [u8],
)
    requires full { h.old.full ≡ true }
    requires room { IfSome (slice_get h.old.held.symbols i)
        (λ symbol. length out.old ≡ length symbol.name) }
    ensures name { IfSome (slice_get h.old.held.symbols i) (λ symbol. out.new ≡ symbol.name) }
    ensures keeps { KeepsArchive h.old h.new }
{
    let archive = h.take(alloc);
    give_symbol_name(archive.as_ref(), i, out);
    h.put(archive);
}
