//! How the writes are handed over.

ghost use Rattle.std.specs.Prelude.{◌≡◌, length, slice_get, IfSome};
ghost use Rattle.std.specs.Option.{option_copied};
ghost use Rattle.c_records.specs.Gives.{GivesInCForm};
ghost use Rattle.c_calls.specs.Writes.Plans.{write_record, write_at};

use crate::writes::records::WriteRecord;
use c_handles::lent::KeptWrite;
use c_handles::writes::PlannedWrites;
use c_records::code_of;
use elf_types::ElfError;

/// The write at an index, or None exactly where the index is not below their number.
fn kept_write(writes: &PlannedWrites, i: u64) -> Option<&KeptWrite>
    ensures { option_copied result ≡ slice_get writes.now.list i }
{
    match writes.list.as_slice().get(i as usize) {
        Some(x) => Some(x),
        None => None,
    }
}

/// The write at an index. It fails with `NoEntry`, and takes no memory.
///
/// Source: elf_update with ELF_C_WRITE of elf(3E).
pub fn give_write(writes: &PlannedWrites, i: u64, out: &mut WriteRecord) -> u32
    ensures { GivesInCForm write_record (write_at writes.now.list i) result out.old out.new }
{
    match kept_write(writes, i) {
        Some(x) => {
            *out = WriteRecord::of(x);
            0
        }
        None => code_of(ElfError::NoEntry {
            index: i,
            count: writes.list.len(),
        }),
    }
}

/// The bytes of the write at an index, where there is one, into a buffer that is as long. It
/// rejects nothing and takes no memory.
///
/// Source: elf_update with ELF_C_WRITE of elf(3E).
pub fn give_write_bytes(writes: &PlannedWrites, i: u64, out: &mut [u8])
    requires { IfSome (slice_get writes.now.list i) (λ w. length out.old ≡ length w.bytes) }
    ensures { IfSome (slice_get writes.now.list i) (λ w. out.new ≡ w.bytes) }
{
    match kept_write(writes, i) {
        Some(x) => out.copy_from_slice(x.bytes.as_slice()),
        None => (),
    }
}
