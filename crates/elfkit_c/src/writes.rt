//! The writes of an update in place.

ghost use Rattle.std.specs.Prelude.{◌≡◌, true, false, length, slice_get, IfSome};
ghost use Rattle.c_handles.specs.Objects.Objects.{IsLoanOf};
ghost use Rattle.c_records.specs.Gives.{GivesInCForm};
ghost use Rattle.c_calls.specs.Writes.Plans.{write_record, write_at};
ghost use Rattle.elfkit_c.specs.Writes.{PlansWrites, KeepsWrites};

use c_calls::writes::{WriteRecord, give_write, give_write_bytes, plan_writes};
use c_handles::lent::Lent;
use c_handles::objects::Handle;
use c_handles::writes::WritesHandle;
use c_records::code_of;
use std::alloc::Global;
use std::mem::replace;

/// Closes an object, and gives the writes of its update in place, which C is to do in their order:
/// they make the bytes that were lent the image. The bytes come back, and the object's handle is
/// empty. Where nothing is dirty there is no write. It fails with, in this order: `TooMany`,
/// `Unfit`, `OutOfFile`, `Overlap`, `TooLarge`; and `Memory` in place of a value and of the last
/// two.
///
/// Besides C's usual part: the handle holds an object, and that of the writes is empty.
///
/// Source: elf_update with ELF_C_WRITE of elf(3E).
#[unsafe(no_mangle)]
pub extern "C" fn elfkit_plan(
    alloc: Global,
    h: &mut Handle,
    w: &mut WritesHandle,
    back: &mut Lent,
) -> u32
    requires full { h.old.full ≡ true }
    requires empty { w.old.full ≡ false }
    ensures plans { PlansWrites h.old.held.elf result w.new }
    ensures back { IsLoanOf h.old.held.elf.source.loan back.new }
    ensures closed { h.new.full ≡ false }
{
    let object = h.take(alloc);
    let (lent, planned) = plan_writes(alloc, object);
    let _before = replace(back, lent);
    match planned {
        Ok(writes) => {
            w.put(writes);
            0
        }
        Err(e) => code_of(e),
    }
}

/// The write at an index. It fails with `NoEntry`.
///
/// Besides C's usual part: the handle holds writes.
///
/// Source: elf_update with ELF_C_WRITE of elf(3E).
#[unsafe(no_mangle)]
pub extern "C" fn elfkit_write(
    alloc: Global,
    w: &mut WritesHandle,
    i: u64,
    out: &mut WriteRecord,
) -> u32
    requires { w.old.full ≡ true }
    ensures gives { GivesInCForm write_record (write_at w.old.held.list i) result out.old out.new }
    ensures keeps { KeepsWrites w.old w.new }
{
    let writes = w.take(alloc);
    let number = give_write(writes.as_ref(), i, out);
    w.put(writes);
    number
}

/// The bytes of the write at an index; nothing where there is none.
///
/// Besides C's usual part: the handle holds writes, and where there is a write, the buffer is as
/// long as its bytes, which is `len` of its record.
///
/// Source: elf_update with ELF_C_WRITE of elf(3E).
#[unsafe(no_mangle)]
pub extern "C" fn elfkit_write_bytes(alloc: Global, w: &mut WritesHandle, i: u64, out: &mut [u8])
    requires full { w.old.full ≡ true }
    requires room { IfSome (slice_get w.old.held.list i) (λ x. length out.old ≡ length x.bytes) }
    ensures bytes { IfSome (slice_get w.old.held.list i) (λ x. out.new ≡ x.bytes) }
    ensures keeps { KeepsWrites w.old w.new }
{
    let writes = w.take(alloc);
    give_write_bytes(writes.as_ref(), i, out);
    w.put(writes);
}

/// Frees writes: the handle is empty.
///
/// Besides C's usual part: the handle holds writes.
///
/// Source: elf_update with ELF_C_WRITE of elf(3E).
#[unsafe(no_mangle)]
pub extern "C" fn elfkit_writes_end(alloc: Global, w: &mut WritesHandle)
    requires { w.old.full ≡ true }
    ensures { w.new.full ≡ false }
{
    let _writes = w.take(alloc);
}
