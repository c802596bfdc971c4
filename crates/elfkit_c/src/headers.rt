//! Headers, and where a section's bytes are.

ghost use Rattle.std.specs.Prelude.{◌≡◌, true, Ok, IfOk};
ghost use Rattle.elf_object.specs.Calls as calls;
ghost use Rattle.c_records.specs.Forms.{ehdr_record, phdr_record, shdr_record, extent_record, kind_number};
ghost use Rattle.c_records.specs.Gives.{GivesInCForm};
ghost use Rattle.elfkit_c.specs.Handles.{KeepsHandle};

use c_calls::reading::{
    give_ehdr, give_home, give_kind, give_phdr, give_shdr, phdr_count, section_count, string_index,
};
use c_handles::objects::Handle;
use c_records::{EhdrRecord, ExtentRecord, PhdrRecord, ShdrRecord};
use elf_types::{DataId, ScnId};
use std::alloc::Global;

/// The ELF header, with its true counts and its true string index.
///
/// Besides C's usual part: the handle holds an object.
///
/// Source: gelf_getehdr of gelf(3E).
#[unsafe(no_mangle)]
pub extern "C" fn elfkit_ehdr(alloc: Global, h: &mut Handle, out: &mut EhdrRecord)
    requires { h.old.full ≡ true }
    ensures value { IfOk (calls.ehdr.answer h.old.held.elf.o)
        (λ header. out.new ≡ ehdr_record header) }
    ensures keeps { KeepsHandle h.old h.new }
{
    let object = h.take(alloc);
    give_ehdr(object.as_ref(), out);
    h.put(object);
}

/// The number of program headers.
///
/// Besides C's usual part: the handle holds an object.
///
/// Source: elf_getphdrnum of elf(3E).
#[unsafe(no_mangle)]
pub extern "C" fn elfkit_phnum(alloc: Global, h: &mut Handle) -> u32
    requires { h.old.full ≡ true }
    ensures value { Ok result ≡ calls.phnum.answer h.old.held.elf.o }
    ensures keeps { KeepsHandle h.old h.new }
{
    let object = h.take(alloc);
    let count = phdr_count(object.as_ref());
    h.put(object);
    count
}

/// The number of sections.
///
/// Besides C's usual part: the handle holds an object.
///
/// Source: elf_getshdrnum of elf(3E).
#[unsafe(no_mangle)]
pub extern "C" fn elfkit_shnum(alloc: Global, h: &mut Handle) -> u32
    requires { h.old.full ≡ true }
    ensures value { Ok result ≡ calls.shnum.answer h.old.held.elf.o }
    ensures keeps { KeepsHandle h.old h.new }
{
    let object = h.take(alloc);
    let count = section_count(object.as_ref());
    h.put(object);
    count
}

/// The number of the section that holds the sections' names, 0 where there is none.
///
/// Besides C's usual part: the handle holds an object.
///
/// Source: elf_getshdrstrndx of elf(3E).
#[unsafe(no_mangle)]
pub extern "C" fn elfkit_shstrndx(alloc: Global, h: &mut Handle) -> u32
    requires { h.old.full ≡ true }
    ensures value { Ok result ≡ calls.shstrndx.answer h.old.held.elf.o }
    ensures keeps { KeepsHandle h.old h.new }
{
    let object = h.take(alloc);
    let count = string_index(object.as_ref());
    h.put(object);
    count
}

/// A program header. It fails with `NoEntry`.
///
/// Besides C's usual part: the handle holds an object.
///
/// Source: gelf_getphdr of gelf(3E).
#[unsafe(no_mangle)]
pub extern "C" fn elfkit_phdr(alloc: Global, h: &mut Handle, i: u32, out: &mut PhdrRecord) -> u32
    requires { h.old.full ≡ true }
    ensures gives { GivesInCForm phdr_record ((calls.phdr i).answer h.old.held.elf.o) result
        out.old out.new }
    ensures keeps { KeepsHandle h.old h.new }
{
    let object = h.take(alloc);
    let number = give_phdr(object.as_ref(), i, out);
    h.put(object);
    number
}

/// The present header of a section. It fails with `NoSection`.
///
/// Besides C's usual part: the handle holds an object.
///
/// Source: gelf_getshdr of gelf(3E).
#[unsafe(no_mangle)]
pub extern "C" fn elfkit_shdr(
    alloc: Global,
    h: &mut Handle,
    section: u32,
    out: &mut ShdrRecord,
) -> u32
    requires { h.old.full ≡ true }
    ensures gives { GivesInCForm shdr_record ((calls.shdr section).answer h.old.held.elf.o) result
        out.old out.new }
    ensures keeps { KeepsHandle h.old h.new }
{
    let object = h.take(alloc);
    let number = give_shdr(object.as_ref(), ScnId(section), out);
    h.put(object);
    number
}

/// Where a section's bytes are in the image. It fails with `NoSection`.
///
/// Besides C's usual part: the handle holds an object.
///
/// Source: gABI chapter 4, "Section Header"; elf_rawdata of elf(3E).
#[unsafe(no_mangle)]
pub extern "C" fn elfkit_home(
    alloc: Global,
    h: &mut Handle,
    section: u32,
    out: &mut ExtentRecord,
) -> u32
    requires { h.old.full ≡ true }
    ensures gives { GivesInCForm extent_record ((calls.home section).answer h.old.held.elf.o) result
        out.old out.new }
    ensures keeps { KeepsHandle h.old h.new }
{
    let object = h.take(alloc);
    let number = give_home(object.as_ref(), ScnId(section), out);
    h.put(object);
    number
}

/// What the items of a piece are. It fails with, in this order: `NoSection`, `NoData`.
///
/// Besides C's usual part: the handle holds an object.
///
/// Source: elf_getdata of elf(3E), `d_type`.
#[unsafe(no_mangle)]
pub extern "C" fn elfkit_kind(
    alloc: Global,
    h: &mut Handle,
    section: u32,
    piece: u32,
    out: &mut u32,
) -> u32
    requires { h.old.full ≡ true }
    ensures gives { GivesInCForm kind_number
        ((calls.piece_kind section piece).answer h.old.held.elf.o) result
        out.old out.new }
    ensures keeps { KeepsHandle h.old h.new }
{
    let object = h.take(alloc);
    let number = give_kind(object.as_ref(), DataId { section, piece }, out);
    h.put(object);
    number
}
