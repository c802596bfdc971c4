//! What is kept of all sections that stay.

ghost use Rattle.std.specs.Prelude.{◌≡◌, ◌<◌, [], length, false, All, IsTrue};
ghost use Rattle.law_rebuild.specs.elf_object.Object.{is_dirty};
ghost use Rattle.law_rebuild.specs.elf_object.Valid.{IsObject, IsTied};
ghost use Rattle.law_rebuild.specs.rebuild_model.Followed.{kept_from_1};
ghost use Rattle.rebuild_plan.specs.Contents.{KeepsSection, KeepsSections, AreKeptBy, AreReadBy, KeepsContents};

use crate::contents::{Contents, kept_size};
use crate::ranges::find_range;
use elf_outside::Source;
use elf_types::{ElfError, ScnId};
use rebuild_tables::prelude::{Elf, Keeper};
use std::alloc::Global;

/// Adds what is made of a section that is there.
fn add_section<S: Source>(
    keeper: &Keeper<'_>,
    elf: &mut Elf<S>,
    s: ScnId,
    contents: &mut Contents,
) -> Result<(), ElfError>
    requires there { s.0 < length elf.old.o.sections }
    requires object { IsObject elf.old.o }
    requires clean { is_dirty elf.old.o ≡ false }
    requires tied { IsTrue elf.old.told → IsTied elf.old.o }
    ensures { KeepsSection S.Source keeper.now s.0 result elf.old elf.new
        contents.old contents.new }
{
    let header = keeper.header(elf, s);
    let kind = keeper.kind(elf, s);
    match find_range(keeper, elf, s, &mut contents.held) {
        Ok(range) => contents.push(header, kept_size(&header, range.len), range, kind),
        Err(e) => Err(e),
    }
}

/// Adds what is made of sections that are there, after section 0.
fn add_sections<S: Source>(
    keeper: &Keeper<'_>,
    elf: &mut Elf<S>,
    numbers: &[u32],
    contents: &mut Contents,
) -> Result<(), ElfError>
    requires there { All (λ s. s < length elf.old.o.sections) numbers.now }
    requires object { IsObject elf.old.o }
    requires clean { is_dirty elf.old.o ≡ false }
    requires tied { IsTrue elf.old.told → IsTied elf.old.o }
    requires first { AreKeptBy keeper.now elf.old [] contents.old }
    requires read { AreReadBy keeper.now elf.old.o [] contents.old }
    ensures { KeepsSections S.Source keeper.now numbers.now result elf.old elf.new contents.new }
{
    for s in numbers {
        match add_section(keeper, elf, ScnId(*s), contents) {
            Ok(()) => {}
            Err(e) => return Err(e),
        }
    }
    Ok(())
}

/// Adds section 0, and then what is made of sections that are there.
fn fill_contents<S: Source>(
    keeper: &Keeper<'_>,
    elf: &mut Elf<S>,
    numbers: &[u32],
    contents: &mut Contents,
) -> Result<(), ElfError>
    requires there { All (λ s. s < length elf.old.o.sections) numbers.now }
    requires object { IsObject elf.old.o }
    requires clean { is_dirty elf.old.o ≡ false }
    requires tied { IsTrue elf.old.told → IsTied elf.old.o }
    requires headers { contents.old.headers ≡ [] }
    requires sizes { contents.old.sizes ≡ [] }
    requires ranges { contents.old.ranges ≡ [] }
    requires kinds { contents.old.kinds ≡ [] }
    ensures { KeepsSections S.Source keeper.now numbers.now result elf.old elf.new contents.new }
{
    if let Err(e) = contents.push_first() {
        return Err(e);
    }
    add_sections(keeper, elf, numbers, contents)
}

/// What a keeper makes of the sections of an object that stay, in their order: the headers, the
/// sizes in the file, and where the bytes are. A section that is taken as it is is a range of the
/// base, and is not read; the file form of what is made is held. Nothing of the object is dirty. It
/// fails with the refusal of the first section that the keeper rejects, and besides `Memory` and
/// `Read`. A symbol table and its extended indexes are read some rows at a time and are not loaded,
/// where they lie in the base as whole items; each other home of what is made is read at the first
/// use.
///
/// Source: gABI chapter 4, "Sections".
pub fn keep_contents<S: Source>(
    alloc: Global,
    keeper: &Keeper<'_>,
    elf: &mut Elf<S>,
    numbers: &[u32],
) -> Result<Contents, ElfError>
    requires numbers { numbers.now ≡ kept_from_1 elf.old.o keeper.now.removed.now }
    requires clean { is_dirty elf.old.o ≡ false }
    requires tied { IsTrue elf.old.told → IsTied elf.old.o }
    ensures { KeepsContents S.Source keeper.now numbers.now result elf.old elf.new }
{
    let _sound = elf.dirty();
    let mut contents = Contents::new(alloc);
    if elf.shnum() == 0 {
        return Ok(contents);
    }
    match fill_contents(keeper, elf, numbers, &mut contents) {
        Ok(()) => Ok(contents),
        Err(e) => Err(e),
    }
}
