//! Items, one by one.

ghost use Rattle.elf_object.specs.Calls as calls;
ghost use Rattle.elf_descriptor.specs.Reads.{wanted};
ghost use Rattle.c_records.specs.Forms.{sym_record, rel_record, rela_record, dyn_record, as_number};
ghost use Rattle.c_records.specs.Gives.{GivesRead};
ghost use Rattle.c_handles.specs.Objects.Objects.{SameObject};

use c_handles::objects::OpenObject;
use c_records::{DynRecord, RelRecord, RelaRecord, SymRecord, code_of};
use elf_types::DataId;
use gelf_view::{addr, dynent, half, rel, rela, sym, word};

/// The symbol at an index of a piece. It fails as a lend of symbols, in this order: `NoSection`,
/// `NoData`, `WrongKind`, and for the clean home piece `OutOfFile` and `Ragged`; then `Memory`
/// where its home is not loaded, and `NoEntry`. It marks nothing dirty.
///
/// Source: gABI chapter 4, "Symbol Table"; gelf_getsym of gelf(3E).
pub fn give_sym(object: &mut OpenObject, d: DataId, i: u64, out: &mut SymRecord) -> u32
    ensures gives { GivesRead sym_record (wanted (calls.sym d.section d.piece i) object.old.elf)
        ((calls.sym d.section d.piece i).answer object.old.elf.o) result out.old out.new }
    ensures object { SameObject object.old.elf object.new.elf }
{
    match sym(&mut object.elf, d, i) {
        Ok(x) => {
            *out = SymRecord::of(x);
            0
        }
        Err(e) => code_of(e),
    }
}

/// The relocation at an index of a piece. It fails as a lend of such relocations, in this order:
/// `NoSection`, `NoData`, `WrongKind`, and for the clean home piece `OutOfFile` and `Ragged`; then
/// `Memory` where its home is not loaded, and `NoEntry`. It marks nothing dirty.
///
/// Source: gABI chapter 4, "Relocation"; gelf_getrel of gelf(3E).
pub fn give_rel(object: &mut OpenObject, d: DataId, i: u64, out: &mut RelRecord) -> u32
    ensures gives { GivesRead rel_record (wanted (calls.rel d.section d.piece i) object.old.elf)
        ((calls.rel d.section d.piece i).answer object.old.elf.o) result out.old out.new }
    ensures object { SameObject object.old.elf object.new.elf }
{
    match rel(&mut object.elf, d, i) {
        Ok(x) => {
            *out = RelRecord::of(x);
            0
        }
        Err(e) => code_of(e),
    }
}

/// The relocation with an addend at an index of a piece. It fails as a lend of such relocations, in
/// this order: `NoSection`, `NoData`, `WrongKind`, and for the clean home piece `OutOfFile` and
/// `Ragged`; then `Memory` where its home is not loaded, and `NoEntry`. It marks nothing dirty.
///
/// Source: gABI chapter 4, "Relocation"; gelf_getrela of gelf(3E).
pub fn give_rela(object: &mut OpenObject, d: DataId, i: u64, out: &mut RelaRecord) -> u32
    ensures gives { GivesRead rela_record (wanted (calls.rela d.section d.piece i) object.old.elf)
        ((calls.rela d.section d.piece i).answer object.old.elf.o) result out.old out.new }
    ensures object { SameObject object.old.elf object.new.elf }
{
    match rela(&mut object.elf, d, i) {
        Ok(x) => {
            *out = RelaRecord::of(x);
            0
        }
        Err(e) => code_of(e),
    }
}

/// The entry of the dynamic section at an index of a piece. It fails as a lend of such entries, in
/// this order: `NoSection`, `NoData`, `WrongKind`, and for the clean home piece `OutOfFile` and
/// `Ragged`; then `Memory` where its home is not loaded, and `NoEntry`. It marks nothing dirty.
///
/// Source: gABI chapter 5, "Dynamic Section"; gelf_getdyn of gelf(3E).
pub fn give_dyn(object: &mut OpenObject, d: DataId, i: u64, out: &mut DynRecord) -> u32
    ensures gives { GivesRead dyn_record (wanted (calls.dynent d.section d.piece i) object.old.elf)
        ((calls.dynent d.section d.piece i).answer object.old.elf.o) result out.old out.new }
    ensures object { SameObject object.old.elf object.new.elf }
{
    match dynent(&mut object.elf, d, i) {
        Ok(x) => {
            *out = DynRecord::of(x);
            0
        }
        Err(e) => code_of(e),
    }
}

/// The two-byte number at an index of a piece. It fails as a lend of two-byte numbers, in this
/// order: `NoSection`, `NoData`, `WrongKind`, and for the clean home piece `OutOfFile` and
/// `Ragged`; then `Memory` where its home is not loaded, and `NoEntry`. It marks nothing dirty.
///
/// Source: gABI chapter 4, "Data Representation"; gelf_getversym of gelf(3E).
pub fn give_half(object: &mut OpenObject, d: DataId, i: u64, out: &mut u16) -> u32
    ensures gives { GivesRead as_number (wanted (calls.half d.section d.piece i) object.old.elf)
        ((calls.half d.section d.piece i).answer object.old.elf.o) result out.old out.new }
    ensures object { SameObject object.old.elf object.new.elf }
{
    match half(&mut object.elf, d, i) {
        Ok(x) => {
            *out = x;
            0
        }
        Err(e) => code_of(e),
    }
}

/// The four-byte number at an index of a piece. It fails as a lend of four-byte numbers, in this
/// order: `NoSection`, `NoData`, `WrongKind`, and for the clean home piece `OutOfFile` and
/// `Ragged`; then `Memory` where its home is not loaded, and `NoEntry`. It marks nothing dirty.
///
/// Source: gABI chapter 4, "Data Representation"; gelf_getsymshndx of gelf(3E).
pub fn give_word(object: &mut OpenObject, d: DataId, i: u64, out: &mut u32) -> u32
    ensures gives { GivesRead as_number (wanted (calls.word d.section d.piece i) object.old.elf)
        ((calls.word d.section d.piece i).answer object.old.elf.o) result out.old out.new }
    ensures object { SameObject object.old.elf object.new.elf }
{
    match word(&mut object.elf, d, i) {
        Ok(x) => {
            *out = x;
            0
        }
        Err(e) => code_of(e),
    }
}

/// The address at an index of a piece. It fails as a lend of addresses, in this order: `NoSection`,
/// `NoData`, `WrongKind`, and for the clean home piece `OutOfFile` and `Ragged`; then `Memory`
/// where its home is not loaded, and `NoEntry`. It marks nothing dirty.
///
/// Source: gABI chapter 4, "Data Representation".
pub fn give_addr(object: &mut OpenObject, d: DataId, i: u64, out: &mut u64) -> u32
    ensures gives { GivesRead as_number (wanted (calls.addr d.section d.piece i) object.old.elf)
        ((calls.addr d.section d.piece i).answer object.old.elf.o) result out.old out.new }
    ensures object { SameObject object.old.elf object.new.elf }
{
    match addr(&mut object.elf, d, i) {
        Ok(x) => {
            *out = x;
            0
        }
        Err(e) => code_of(e),
    }
}
