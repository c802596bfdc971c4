//! Items, one by one.

ghost use Rattle.std.specs.Prelude.{◌≡◌, true};
ghost use Rattle.elf_object.specs.Calls as calls;
ghost use Rattle.elf_descriptor.specs.Reads.{wanted};
ghost use Rattle.c_records.specs.Forms.{sym_record, rel_record, rela_record, dyn_record, as_number};
ghost use Rattle.c_records.specs.Gives.{GivesRead};
ghost use Rattle.elfkit_c.specs.Handles.{Holds};

use c_calls::reading::{give_addr, give_dyn, give_half, give_rel, give_rela, give_sym, give_word};
use c_handles::objects::Handle;
use c_records::{DynRecord, RelRecord, RelaRecord, SymRecord};
use elf_types::DataId;
use std::alloc::Global;

/// The symbol at an index of a piece. It fails with, in this order: `NoSection`, `NoData`,
/// `WrongKind`, `OutOfFile`, `Ragged`; then `Memory`, and `NoEntry`.
///
/// Besides C's usual part: the handle holds an object.
///
/// Source: gelf_getsym of gelf(3E).
#[unsafe(no_mangle)]
pub extern "C" fn elfkit_sym(
    alloc: Global,
    h: &mut Handle,
    section: u32,
    piece: u32,
    i: u64,
    out: &mut SymRecord,
) -> u32
    requires { h.old.full ≡ true }
    ensures gives { GivesRead sym_record (wanted (calls.sym section piece i) h.old.held.elf)
        ((calls.sym section piece i).answer h.old.held.elf.o) result out.old out.new }
    ensures holds { Holds h.old h.new }
{
    let mut object = h.take(alloc);
    let number = give_sym(object.as_mut(), DataId { section, piece }, i, out);
    h.put(object);
    number
}

/// The relocation at an index of a piece. It fails with, in this order: `NoSection`, `NoData`,
/// `WrongKind`, `OutOfFile`, `Ragged`; then `Memory`, and `NoEntry`.
///
/// Besides C's usual part: the handle holds an object.
///
/// Source: gelf_getrel of gelf(3E).
#[unsafe(no_mangle)]
pub extern "C" fn elfkit_rel(
    alloc: Global,
    h: &mut Handle,
    section: u32,
    piece: u32,
    i: u64,
    out: &mut RelRecord,
) -> u32
    requires { h.old.full ≡ true }
    ensures gives { GivesRead rel_record (wanted (calls.rel section piece i) h.old.held.elf)
        ((calls.rel section piece i).answer h.old.held.elf.o) result out.old out.new }
    ensures holds { Holds h.old h.new }
{
    let mut object = h.take(alloc);
    let number = give_rel(object.as_mut(), DataId { section, piece }, i, out);
    h.put(object);
    number
}

/// The relocation with an addend at an index of a piece. It fails with, in this order: `NoSection`,
/// `NoData`, `WrongKind`, `OutOfFile`, `Ragged`; then `Memory`, and `NoEntry`.
///
/// Besides C's usual part: the handle holds an object.
///
/// Source: gelf_getrela of gelf(3E).
#[unsafe(no_mangle)]
pub extern "C" fn elfkit_rela(
    alloc: Global,
    h: &mut Handle,
    section: u32,
    piece: u32,
    i: u64,
    out: &mut RelaRecord,
) -> u32
    requires { h.old.full ≡ true }
    ensures gives { GivesRead rela_record (wanted (calls.rela section piece i) h.old.held.elf)
        ((calls.rela section piece i).answer h.old.held.elf.o) result out.old out.new }
    ensures holds { Holds h.old h.new }
{
    let mut object = h.take(alloc);
    let number = give_rela(object.as_mut(), DataId { section, piece }, i, out);
    h.put(object);
    number
}

/// The entry of the dynamic section at an index of a piece. It fails with, in this order:
/// `NoSection`, `NoData`, `WrongKind`, `OutOfFile`, `Ragged`; then `Memory`, and `NoEntry`.
///
/// Besides C's usual part: the handle holds an object.
///
/// Source: gelf_getdyn of gelf(3E).
#[unsafe(no_mangle)]
pub extern "C" fn elfkit_dyn(
    alloc: Global,
    h: &mut Handle,
    section: u32,
    piece: u32,
    i: u64,
    out: &mut DynRecord,
) -> u32
    requires { h.old.full ≡ true }
    ensures gives { GivesRead dyn_record (wanted (calls.dynent section piece i) h.old.held.elf)
        ((calls.dynent section piece i).answer h.old.held.elf.o) result out.old out.new }
    ensures holds { Holds h.old h.new }
{
    let mut object = h.take(alloc);
    let number = give_dyn(object.as_mut(), DataId { section, piece }, i, out);
    h.put(object);
    number
}

/// The two-byte number at an index of a piece. It fails with, in this order: `NoSection`, `NoData`,
/// `WrongKind`, `OutOfFile`, `Ragged`; then `Memory`, and `NoEntry`.
///
/// Besides C's usual part: the handle holds an object.
///
/// Source: gelf_getversym of gelf(3E).
#[unsafe(no_mangle)]
pub extern "C" fn elfkit_half(
    alloc: Global,
    h: &mut Handle,
    section: u32,
    piece: u32,
    i: u64,
    out: &mut u16,
) -> u32
    requires { h.old.full ≡ true }
    ensures gives { GivesRead as_number (wanted (calls.half section piece i) h.old.held.elf)
        ((calls.half section piece i).answer h.old.held.elf.o) result out.old out.new }
    ensures holds { Holds h.old h.new }
{
    let mut object = h.take(alloc);
    let number = give_half(object.as_mut(), DataId { section, piece }, i, out);
    h.put(object);
    number
}

/// The four-byte number at an index of a piece. It fails with, in this order: `NoSection`,
/// `NoData`, `WrongKind`, `OutOfFile`, `Ragged`; then `Memory`, and `NoEntry`.
///
/// Besides C's usual part: the handle holds an object.
///
/// Source: gelf_getsymshndx of gelf(3E).
#[unsafe(no_mangle)]
pub extern "C" fn elfkit_word(
    alloc: Global,
    h: &mut Handle,
    section: u32,
    piece: u32,
    i: u64,
    out: &mut u32,
) -> u32
    requires { h.old.full ≡ true }
    ensures gives { GivesRead as_number (wanted (calls.word section piece i) h.old.held.elf)
        ((calls.word section piece i).answer h.old.held.elf.o) result out.old out.new }
    ensures holds { Holds h.old h.new }
{
    let mut object = h.take(alloc);
    let number = give_word(object.as_mut(), DataId { section, piece }, i, out);
    h.put(object);
    number
}

/// The address at an index of a piece. It fails with, in this order: `NoSection`, `NoData`,
/// `WrongKind`, `OutOfFile`, `Ragged`; then `Memory`, and `NoEntry`.
///
/// Besides C's usual part: the handle holds an object.
///
/// Source: gABI chapter 4, "Data Representation".
#[unsafe(no_mangle)]
pub extern "C" fn elfkit_addr(
    alloc: Global,
    h: &mut Handle,
    section: u32,
    piece: u32,
    i: u64,
    out: &mut u64,
) -> u32
    requires { h.old.full ≡ true }
    ensures gives { GivesRead as_number (wanted (calls.addr section piece i) h.old.held.elf)
        ((calls.addr section piece i).answer h.old.held.elf.o) result out.old out.new }
    ensures holds { Holds h.old h.new }
{
    let mut object = h.take(alloc);
    let number = give_addr(object.as_mut(), DataId { section, piece }, i, out);
    h.put(object);
    number
}
