//! A new table of names, stored.

ghost use Rattle.std.specs.Prelude.{◌≡◌, Ok, OnOk, IfErr};
ghost use Rattle.elf_types.specs.declared.errors.ElfError.TheVariants.{Memory};
ghost use Rattle.rebuild_edits.specs.Stores.{with_places, with_table, named_by, HasNameTable};
ghost use Rattle.rebuild_edits.specs.Edits.Steps.{IsPresentSection};
ghost use Rattle.rebuild_copy.specs.Edits.{HasBytesIf, IsNamedAs};
ghost use Rattle.rebuild_copy.specs.Steps.{AltersContents, BecomesContents};

use crate::edits::{put_shared, set_header};
use crate::rows::header_of;
use elf_object::occupies_file;
use elf_types::{ElfError, Shdr, Words};
use rebuild_changes::CopyFault;
use rebuild_edits::{Naming, NewNameTable, place_at};
use rebuild_plan::Arranged;
use strtab_shared::bytes::SharedBytes;

/// Stores the place of the name of a section.
fn put_name(x: &mut Arranged, s: u32, place: u32)
    ensures { IsNamedAs s place x.old x.new }
{
    let h = Shdr {
        name: place,
        ..header_of(x, s)
    };
    set_header(&mut x.listed.headers, s, h);
}

/// Stores the places of the names of the sections from 1 on.
fn put_names(x: &mut Arranged, places: &Words)
    ensures places { BecomesContents (λ p. with_places p places.now) x.old x.new }
    ensures ranges { x.new.ranges ≡ x.old.ranges }
{
    for s in 1..x.listed.header.shnum {
        put_name(x, s, place_at(places, s));
    }
}

/// Gives a section other bytes, where it has some in the file. It fails with `Memory` alone.
fn put_table(x: &mut Arranged, s: u32, bytes: &SharedBytes) -> Result<(), ElfError>
    ensures ok { OnOk result (HasBytesIf s bytes.now x.old x.new) }
    ensures err { IfErr result (λ e. e ≡ Memory) }
{
    if !occupies_file(&header_of(x, s)) {
        return Ok(());
    }
    put_shared(x, s, bytes)
}

/// Stores a new table and the places of the names in it.
fn store_table(x: &mut Arranged, names: NewNameTable) -> Result<(), CopyFault>
    ensures { AltersContents (λ p. IsPresentSection p p.header.shstrndx)
        (λ p. Ok (with_table p names))
        result x.old x.new }
{
    put_names(x, &names.places);
    match put_table(x, x.listed.header.shstrndx, &names.table) {
        Ok(()) => Ok(()),
        Err(e) => Err(CopyFault::Strip(e)),
    }
}

/// Stores what becomes of the names: each section from 1 on gets the place of its name in the new
/// table, by its number, and the section of the names gets the table, which is held. It fails with,
/// in this order: `NoTable` where names change and there is none for them; `TooLarge` where it
/// would pass 2^32 - 1 bytes; and where memory runs out. What a refusal leaves is not stated.
///
/// Source: gABI chapter 4, "Section Header", sh_name; gelf_update_shdr of gelf(3E).
pub(crate) fn store_names(x: &mut Arranged, naming: Naming) -> Result<(), CopyFault>
    ensures { AltersContents (HasNameTable naming) (named_by naming) result x.old x.new }
{
    match naming {
        Naming::Stay => Ok(()),
        Naming::NoTable => Err(CopyFault::NoTable),
        Naming::TooLarge => Err(CopyFault::Strip(ElfError::TooLarge)),
        Naming::Anew(names) => store_table(x, names),
    }
}
