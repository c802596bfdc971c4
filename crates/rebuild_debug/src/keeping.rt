//! What the debug half has of all sections.

ghost use Rattle.std.specs.Prelude.{◌≡◌, ◌<◌, length, false, IsTrue};
ghost use Rattle.elf_object.specs.Object.{is_dirty};
ghost use Rattle.elf_object.specs.Valid.{IsObject, IsTied};
ghost use Rattle.rebuild_object.specs.rebuild_plan.Contents.{HasFirst};
ghost use Rattle.rebuild_object.specs.rebuild_plan.Reading.{IsFirstRead};
ghost use Rattle.rebuild_debug.specs.Keeping.{AddsHalf, AddsHalves, ListsHalf, KeepsHalf};

use crate::loaded::header_of_half;
use crate::ranges::half_range;
use elf_outside::Source;
use elf_types::{ElfError, ScnId};
use rebuild_object::prelude::{Contents, Elf, check_index, check_segments};
use std::alloc::Global;

/// Adds what the debug half has of a section that is there.
fn add_section<S: Source>(elf: &Elf<S>, s: ScnId, contents: &mut Contents) -> Result<(), ElfError>
    requires there { s.0 < length elf.now.o.sections }
    requires object { IsObject elf.now.o }
    requires clean { is_dirty elf.now.o ≡ false }
    requires tied { IsTrue elf.now.told → IsTied elf.now.o }
    ensures { AddsHalf elf.now s.0 result contents.old contents.new }
{
    let header = header_of_half(elf, s);
    match half_range(elf, s) {
        Ok(range) => contents.add(header, range),
        Err(e) => Err(e),
    }
}

/// Adds what it has of the sections from 1 on, after section 0.
fn add_sections<S: Source>(elf: &Elf<S>, contents: &mut Contents) -> Result<(), ElfError>
    requires object { IsObject elf.now.o }
    requires clean { is_dirty elf.now.o ≡ false }
    requires tied { IsTrue elf.now.told → IsTied elf.now.o }
    requires first { HasFirst contents.old }
    requires read { IsFirstRead contents.old }
    ensures { AddsHalves elf.now result contents.new }
{
    for s in 1..elf.shnum() {
        match add_section(elf, ScnId(s), contents) {
            Ok(()) => {}
            Err(e) => return Err(e),
        }
    }
    Ok(())
}

/// What it has of all sections.
fn list_half<S: Source>(alloc: Global, elf: &Elf<S>) -> Result<Contents, ElfError>
    requires object { IsObject elf.now.o }
    requires clean { is_dirty elf.now.o ≡ false }
    requires tied { IsTrue elf.now.told → IsTied elf.now.o }
    ensures { ListsHalf elf.now result }
{
    if elf.shnum() == 0 {
        return Ok(Contents::new(alloc));
    }
    let mut contents = match Contents::first(alloc) {
        Ok(contents) => contents,
        Err(e) => return Err(e),
    };
    match add_sections(elf, &mut contents) {
        Ok(()) => Ok(contents),
        Err(e) => Err(e),
    }
}

/// What the debug half has of the sections of an object in which nothing is dirty, under their
/// numbers: the headers, the sizes in the file, and where the bytes are. Sections that are
/// allocated and have bytes in the file become `SHT_NOBITS`, keep their size and have no bytes; any
/// other one is a range of the base. It fails with, in this order, as `debug_of`:
/// `TooMany` of `newphdr`; `OutOfFile` of the first section from 1 on that keeps its bytes;
/// `NoSection` of the string index; and `Memory`. It reads nothing.
///
/// Source: eu-strip(1) with -f; gABI chapter 4, "Sections", SHT_NOBITS.
pub fn keep_half<S: Source>(alloc: Global, elf: &Elf<S>) -> Result<Contents, ElfError>
    requires { is_dirty elf.now.o ≡ false }
    ensures { KeepsHalf elf.now result }
{
    let _sound = elf.dirty();
    if let Err(e) = check_segments(elf.phnum()) {
        return Err(e);
    }
    let contents = match list_half(alloc, elf) {
        Ok(contents) => contents,
        Err(e) => return Err(e),
    };
    match check_index(elf.shstrndx(), elf.shnum()) {
        Ok(()) => Ok(contents),
        Err(e) => Err(e),
    }
}
