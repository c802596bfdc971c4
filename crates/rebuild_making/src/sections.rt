//! Sections that are added with their data.

ghost use Rattle.std.specs.Prelude.{◌≡◌, ◌<◌, length, None, OnOk, IfOk, IfErr, Err};
ghost use Rattle.rebuild_model.specs.elf_object.Calls.{newdata_refusal};
ghost use Rattle.rebuild_model.specs.elf_object.Calls as calls;
ghost use Rattle.elf_update_plan.specs.elf_descriptor.Edits.{stepped};
ghost use Rattle.rebuild_model.specs.Rebuilt.{made_section};
ghost use Rattle.rebuild_making.specs.Refused.{RefusedBy};
ghost use Rattle.rebuild_making.specs.Made.{refusal_alone as stated_alone, with_last, grown_to, bare_section, bare_refusal, with_new_data, new_data_refusal, added_refusal};

use elf_types::{DataId, ElfError, ScnId, Shdr};
use elf_update_plan::prelude::Elf;
use rebuild_model::prelude::{Items, Source, occupies_file};

/// Adds a section without data after the others, of which there are some, and returns it.
fn add_bare<S: Source>(elf: &mut Elf<S>, h: &Shdr) -> Result<ScnId, ElfError>
    requires { 0 < length elf.old.o.sections }
    ensures number { IfOk result (λ s. s.0 ≡ length elf.old.o.sections) }
    ensures made { OnOk result
        (elf.new ≡ grown_to elf.old (with_last elf.old.o (bare_section h.now))) }
    ensures passed { OnOk result (bare_refusal elf.old.o h.now ≡ None) }
    ensures err { IfErr result (RefusedBy (bare_refusal elf.old.o h.now)) }
{
    let s = match elf.newscn() {
        Ok(s) => s,
        Err(e) => return Err(e),
    };
    if let Err(e) = elf.update_shdr(s, h) {
        return Err(e);
    }
    Ok(s)
}

/// A result whose refusal is without the items that it hands back: they are dropped.
fn refusal_alone(came: Result<DataId, (Items, ElfError)>) -> Result<DataId, ElfError>
    ensures { result ≡ stated_alone came }
{
    match came {
        Ok(d) => Ok(d),
        Err((_, e)) => Err(e),
    }
}

/// Gives a section a piece with these items, which it drops where it is rejected.
fn push_data<S: Source>(elf: &mut Elf<S>, s: ScnId, items: Items) -> Result<(), ElfError>
    ensures made { OnOk result (elf.new ≡ stepped (calls.newdata s.0 items) elf.old) }
    ensures passed { OnOk result (newdata_refusal elf.old.o s.0 items 1 ≡ None) }
    ensures err { IfErr result (RefusedBy (newdata_refusal elf.old.o s.0 items 1)) }
{
    match refusal_alone(elf.newdata(s, items)) {
        Ok(_d) => Ok(()),
        Err(e) => Err(e),
    }
}

/// Gives a section with that header a piece with these items, where it has bytes in the file.
fn add_data<S: Source>(elf: &mut Elf<S>, s: ScnId, h: &Shdr, items: Items) -> Result<(), ElfError>
    ensures made { OnOk result (elf.new ≡ with_new_data elf.old s.0 h.now items) }
    ensures passed { OnOk result (new_data_refusal elf.old.o s.0 h.now items ≡ None) }
    ensures err { IfErr result (RefusedBy (new_data_refusal elf.old.o s.0 h.now items)) }
{
    if occupies_file(h) {
        return push_data(elf, s, items);
    }
    Ok(())
}

/// A refusal in place of items, which are dropped.
fn refuse(_items: Items, e: ElfError) -> Result<(), ElfError>
    ensures { result ≡ Err e }
{
    Err(e)
}

/// Adds a section after the others, of which there are some: section 0 is before all. It has this
/// header, and these items as its one piece, with alignment 1, where a section with that header has
/// bytes in the file; it is marked. It fails with, in this order: `TooMany` at 2^20 sections,
/// `Unfit` of the header, `Unfit` of the items where they count; and `Memory`. What a refusal
/// leaves is not stated. It reads nothing.
///
/// Source: elf_newscn and elf_newdata of elf(3E), gelf_update_shdr of gelf(3E).
pub fn add_section<S: Source>(elf: &mut Elf<S>, h: &Shdr, items: Items) -> Result<(), ElfError>
    requires { 0 < length elf.old.o.sections }
    ensures made { OnOk result
        (elf.new ≡ grown_to elf.old (with_last elf.old.o (made_section h.now items))) }
    ensures passed { OnOk result (added_refusal elf.old.o h.now items ≡ None) }
    ensures err { IfErr result (RefusedBy (added_refusal elf.old.o h.now items)) }
{
    match add_bare(elf, h) {
        Ok(s) => add_data(elf, s, h, items),
        Err(e) => refuse(items, e),
    }
}
