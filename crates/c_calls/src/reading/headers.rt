//! Headers, and where a section's bytes are.

ghost use Rattle.std.specs.Prelude.{◌≡◌, Ok, IfOk};
ghost use Rattle.elf_object.specs.Calls as calls;
ghost use Rattle.c_records.specs.Forms.{ehdr_record, phdr_record, shdr_record, extent_record, kind_number};
ghost use Rattle.c_records.specs.Gives.{GivesInCForm};

use c_handles::objects::OpenObject;
use c_records::{EhdrRecord, ExtentRecord, PhdrRecord, ShdrRecord, code_of, kind_number};
use elf_types::{DataId, ScnId};

/// The ELF header, with its true counts and its true string index. It rejects nothing and takes no
/// memory.
///
/// Source: gelf_getehdr of gelf(3E).
pub fn give_ehdr(object: &OpenObject, out: &mut EhdrRecord)
    ensures { IfOk (calls.ehdr.answer object.now.elf.o) (λ header. out.new ≡ ehdr_record header) }
{
    *out = EhdrRecord::of(object.elf.ehdr());
}

/// The number of program headers. It rejects nothing and takes no memory.
///
/// Source: elf_getphdrnum of elf(3E).
pub fn phdr_count(object: &OpenObject) -> u32
    ensures { Ok result ≡ calls.phnum.answer object.now.elf.o }
{
    object.elf.phnum()
}

/// The number of sections. It rejects nothing and takes no memory.
///
/// Source: elf_getshdrnum of elf(3E).
pub fn section_count(object: &OpenObject) -> u32
    ensures { Ok result ≡ calls.shnum.answer object.now.elf.o }
{
    object.elf.shnum()
}

/// The number of the section that holds the sections' names, 0 where there is none. It rejects
/// nothing and takes no memory.
///
/// Source: elf_getshdrstrndx of elf(3E).
pub fn string_index(object: &OpenObject) -> u32
    ensures { Ok result ≡ calls.shstrndx.answer object.now.elf.o }
{
    object.elf.shstrndx()
}

/// A program header. It fails with `NoEntry`, and takes no memory.
///
/// Source: gelf_getphdr of gelf(3E).
pub fn give_phdr(object: &OpenObject, i: u32, out: &mut PhdrRecord) -> u32
    ensures { GivesInCForm phdr_record ((calls.phdr i).answer object.now.elf.o) result
        out.old out.new }
{
    match object.elf.phdr(i) {
        Ok(x) => {
            *out = PhdrRecord::of(x);
            0
        }
        Err(e) => code_of(e),
    }
}

/// The present header of a section. It fails with `NoSection`, and takes no memory.
///
/// Source: gelf_getshdr of gelf(3E).
pub fn give_shdr(object: &OpenObject, s: ScnId, out: &mut ShdrRecord) -> u32
    ensures { GivesInCForm shdr_record ((calls.shdr s.0).answer object.now.elf.o) result
        out.old out.new }
{
    match object.elf.shdr(s) {
        Ok(x) => {
            *out = ShdrRecord::of(x);
            0
        }
        Err(e) => code_of(e),
    }
}

/// Where a section's bytes are in the image. It fails with `NoSection`, and takes no memory.
///
/// Source: gABI chapter 4, "Section Header"; elf_rawdata of elf(3E).
pub fn give_home(object: &OpenObject, s: ScnId, out: &mut ExtentRecord) -> u32
    ensures { GivesInCForm extent_record ((calls.home s.0).answer object.now.elf.o) result
        out.old out.new }
{
    match object.elf.home(s) {
        Ok(x) => {
            *out = ExtentRecord::of(x);
            0
        }
        Err(e) => code_of(e),
    }
}

/// What the items of a piece are. It fails with, in this order: `NoSection`, `NoData`. It takes no
/// memory.
///
/// Source: elf_getdata of elf(3E), `d_type`.
pub fn give_kind(object: &OpenObject, d: DataId, out: &mut u32) -> u32
    ensures { GivesInCForm kind_number
        ((calls.piece_kind d.section d.piece).answer object.now.elf.o) result
        out.old out.new }
{
    match object.elf.piece_kind(d) {
        Ok(x) => {
            *out = kind_number(x);
            0
        }
        Err(e) => code_of(e),
    }
}
