//! The calls that store headers.

ghost use Rattle.elf_object.specs.Calls as calls;
ghost use Rattle.c_calls.specs.Editing.From.{phdr_from_record, shdr_from_record};
ghost use Rattle.c_calls.specs.Editing.Edited.{Edited, Grown, StoresEhdr};

use crate::editing::records::{ehdr_from, phdr_from, shdr_from};
use c_handles::objects::OpenObject;
use c_records::{EhdrRecord, PhdrRecord, ShdrRecord, code_of};
use elf_types::ScnId;

/// Stores a header's `osabi`, `abiversion`, `etype`, `machine`, `entry`, `phoff`, `shoff`, `flags`
/// and `shstrndx`, and marks the header dirty. It looks at no other field. It fails with, in this
/// order: `NoSection` where `shstrndx` is neither 0 nor below the section count, `Unfit`. It takes
/// no memory.
///
/// Source: gelf_update_ehdr of gelf(3E).
pub fn store_ehdr(object: &mut OpenObject, x: &EhdrRecord) -> u32
    ensures { StoresEhdr x.now result object.old.elf object.new.elf }
{
    let header = ehdr_from(x, object.elf.ehdr());
    match object.elf.update_ehdr(&header) {
        Ok(()) => 0,
        Err(e) => code_of(e),
    }
}

/// Stores a program header, and marks the program headers dirty. It fails with, in this order:
/// `NoEntry`, `Unfit`. It takes no memory.
///
/// Source: gelf_update_phdr of gelf(3E).
pub fn store_phdr(object: &mut OpenObject, i: u32, x: &PhdrRecord) -> u32
    ensures { Edited (calls.update_phdr i (phdr_from_record x.now)) result
        object.old.elf object.new.elf }
{
    let header = phdr_from(x);
    match object.elf.update_phdr(i, &header) {
        Ok(()) => 0,
        Err(e) => code_of(e),
    }
}

/// Stores a section's header, and marks the section dirty. It fails with, in this order:
/// `NoSection`, `Reserved` for section 0, `Unfit`. It takes no memory.
///
/// Source: gelf_update_shdr of gelf(3E).
pub fn store_shdr(object: &mut OpenObject, s: ScnId, x: &ShdrRecord) -> u32
    ensures { Edited (calls.update_shdr s.0 (shdr_from_record x.now)) result
        object.old.elf object.new.elf }
{
    let header = shdr_from(x);
    match object.elf.update_shdr(s, &header) {
        Ok(()) => 0,
        Err(e) => code_of(e),
    }
}

/// Gives the object so many program headers of zeros in place of those that it has, and marks them
/// dirty. It fails with, in this order: `TooMany` above 65,534, `Memory`.
///
/// Source: gelf_newphdr of gelf(3E).
pub fn new_phdrs(object: &mut OpenObject, n: u32) -> u32
    ensures { Grown (calls.newphdr n) result object.old.elf object.new.elf }
{
    match object.elf.newphdr(n) {
        Ok(()) => 0,
        Err(e) => code_of(e),
    }
}
