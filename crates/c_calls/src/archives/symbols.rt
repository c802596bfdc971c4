//! The table of symbols.

ghost use Rattle.std.specs.Prelude.{◌≡◌, length, slice_get, IfSome};
ghost use Rattle.std.specs.Option.{option_copied};
ghost use Rattle.ar_members.specs.Symbols.{arsyms};
ghost use Rattle.c_handles.specs.Objects.Objects.{SameImage};
ghost use Rattle.c_records.specs.Gives.{GivesInCForm};
ghost use Rattle.c_calls.specs.Archives.Forms.{symbol_record, archive_symbol_at, counted_symbols};
ghost use Rattle.c_calls.specs.Archives.Steps.{bytes_of, GivesOrWants};

use crate::archives::records::ArSymRecord;
use ar_members::ArSym;
use c_handles::archives::OpenArchive;
use c_records::code_of;
use elf_types::ElfError;

/// Reads the table of symbols, which the archive keeps, and gives their number: 0 where the first
/// member is no such table. It fails with `BadMember` where the first header or the table is bad,
/// and `Memory`; what was kept stays then. The walk is where it was.
///
/// Source: the archive format of System V; elf_getarsym of elf(3E).
pub fn list_symbols(archive: &mut OpenArchive, count: &mut u64) -> u32
    ensures gives { GivesOrWants counted_symbols (arsyms (bytes_of archive.old)) result
        (count.old, archive.old.symbols) (count.new, archive.new.symbols) }
    ensures image { SameImage archive.old.ar.source archive.new.ar.source }
    ensures walk { archive.new.ar.walk ≡ archive.old.ar.walk }
    ensures name { archive.new.name ≡ archive.old.name }
{
    match archive.ar.arsym() {
        Ok(symbols) => {
            *count = symbols.len();
            archive.symbols = symbols;
            0
        }
        Err(e) => code_of(e),
    }
}

/// The symbol at an index among those that the archive keeps, or None exactly where the index is
/// not below their number.
fn kept_symbol(archive: &OpenArchive, i: u64) -> Option<&ArSym>
    ensures { option_copied result ≡ slice_get archive.now.symbols i }
{
    match archive.symbols.as_slice().get(i as usize) {
        Some(x) => Some(x),
        None => None,
    }
}

/// The symbol at an index among those that the archive keeps. It fails with `NoEntry`, and takes no
/// memory.
///
/// Source: elf_getarsym of elf(3E).
pub fn give_symbol(archive: &OpenArchive, i: u64, out: &mut ArSymRecord) -> u32
    ensures { GivesInCForm symbol_record
        (archive_symbol_at archive.now.symbols i) result out.old out.new }
{
    match kept_symbol(archive, i) {
        Some(x) => {
            *out = ArSymRecord::of(x);
            0
        }
        None => code_of(ElfError::NoEntry {
            index: i,
            count: archive.symbols.len(),
        }),
    }
}

/// The name of the symbol at an index, where there is one, into a buffer that is as long. It
/// rejects nothing and takes no memory.
///
/// Source: elf_getarsym of elf(3E), `as_name`.
pub fn give_symbol_name(archive: &OpenArchive, i: u64, out: &mut [u8])
    requires { IfSome (slice_get archive.now.symbols i)
        (λ symbol. length out.old ≡ length symbol.name) }
    ensures { IfSome (slice_get archive.now.symbols i) (λ symbol. out.new ≡ symbol.name) }
{
    match kept_symbol(archive, i) {
        Some(x) => out.copy_from_slice(x.name.as_slice()),
        None => (),
    }
}
