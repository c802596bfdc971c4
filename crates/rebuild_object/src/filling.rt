//! An object that was created gets what a plan has of it.

ghost use Rattle.std.specs.Prelude.{◌≡◌, ◌<◌, ◌∷◌, ◌-◌, [], length, None, OnOk, IfErr};
ghost use Rattle.elf_types.specs.declared.constants.TheConstants.{MAX_SECTIONS};
ghost use Rattle.elf_object.specs.Calls.{update_ehdr_refusal};
ghost use Rattle.elf_object.specs.Calls as calls;
ghost use Rattle.rebuild_plan.specs.elf_descriptor.Edits.{stepped};
ghost use Rattle.rebuild_plan.specs.rebuild_keep.Makes.{AsksFor};
ghost use Rattle.rebuild_object.specs.Filled.{HasSectionsOf, HasPlanned, IsMadeBy};
ghost use Rattle.rebuild_object.specs.Fitting.{IsArrangementReady};
ghost use Rattle.rebuild_object.specs.Objects.{IsUnstated, arranged_numbers, section_range_due, section_ranges_due};

use crate::reading::section_items;
use elf_outside::{NoSource, Source};
use elf_types::{Ehdr, ElfError};
use rebuild_plan::Arranged;
use rebuild_plan::prelude::{Elf, add_section, copy_segments};
use std::alloc::Global;

/// Adds the section with a number to an object, after its others.
fn add_planned<S: Source>(
    alloc: Global,
    elf: &mut Elf<S>,
    x: &Arranged,
    s: u32,
    made: &mut Elf<NoSource>,
) -> Result<(), ElfError>
    requires ready { IsArrangementReady elf.old.o x.now }
    requires there { s < length x.now.listed.headers }
    requires some { 0 < length made.old.o.sections }
    requires room { length made.old.o.sections < MAX_SECTIONS }
    requires class { made.old.o.header.class ≡ elf.old.o.header.class }
    ensures adds { OnOk result (HasSectionsOf elf.old.told elf.old.o x.now (s ∷ [])
        made.old made.new) }
    ensures err { IfErr result IsUnstated }
    ensures asks { AsksFor S.Source result elf.old elf.new (section_range_due x.now s) }
{
    let header = x.listed.headers.as_slice()[s as usize];
    let range = x.ranges.as_slice()[s as usize];
    let kind = x.kinds.as_slice()[s as usize];
    match section_items(alloc, elf, &x.held, &header, range, kind) {
        Ok(items) => add_section(made, &header, items),
        Err(e) => Err(e),
    }
}

/// Adds the sections from 1 on after section 0, in their order.
fn add_sections<S: Source>(
    alloc: Global,
    elf: &mut Elf<S>,
    x: &Arranged,
    made: &mut Elf<NoSource>,
) -> Result<(), ElfError>
    requires ready { IsArrangementReady elf.old.o x.now }
    requires some { 0 < length x.now.listed.headers }
    requires first { length made.old.o.sections ≡ 1 }
    requires class { made.old.o.header.class ≡ elf.old.o.header.class }
    ensures adds { OnOk result (HasSectionsOf elf.old.told elf.old.o x.now
        (arranged_numbers x.now) made.old made.new) }
    ensures err { IfErr result IsUnstated }
    ensures asks { AsksFor S.Source result elf.old elf.new
        (section_ranges_due x.now (length x.now.listed.headers - 1)) }
{
    let _sound = made.dirty();
    for s in 1..x.listed.headers.len() as u32 {
        match add_planned(alloc, elf, x, s, made) {
            Ok(()) => {}
            Err(e) => return Err(e),
        }
    }
    Ok(())
}

/// Gives an object without sections those of the plan.
fn fill_sections<S: Source>(
    alloc: Global,
    elf: &mut Elf<S>,
    x: &Arranged,
    made: &mut Elf<NoSource>,
) -> Result<(), ElfError>
    requires ready { IsArrangementReady elf.old.o x.now }
    requires empty { made.old.o.sections ≡ [] }
    requires count { made.old.o.header.shnum ≡ 0 }
    requires class { made.old.o.header.class ≡ elf.old.o.header.class }
    ensures sections { OnOk result (HasPlanned elf.old.told elf.old.o x.now made.old made.new) }
    ensures err { IfErr result IsUnstated }
    ensures asks { AsksFor S.Source result elf.old elf.new
        (section_ranges_due x.now (length x.now.listed.headers - 1)) }
{
    if x.listed.headers.is_empty() {
        return Ok(());
    }
    if let Err(e) = made.newnull() {
        return Err(e);
    }
    add_sections(alloc, elf, x, made)
}

/// Stores a header that nothing refuses.
fn store_header<S: Source>(made: &mut Elf<S>, h: &Ehdr)
    requires { update_ehdr_refusal made.old.o h.now ≡ None }
    ensures { made.new ≡ stepped (calls.update_ehdr h.now) made.old }
{
    match made.update_ehdr(h) {
        Ok(()) => {}
        Err(_) => unreachable!(),
    }
}

/// Gives an object that was created the program headers of another one, and the sections and the
/// header of the plan. It fails with `Memory` and `Read` alone; what a refusal leaves of the object
/// that is filled is not stated.
pub(crate) fn fill_planned<S: Source>(
    alloc: Global,
    elf: &mut Elf<S>,
    x: &Arranged,
    made: &mut Elf<NoSource>,
) -> Result<(), ElfError>
    requires ready { IsArrangementReady elf.old.o x.now }
    requires empty { made.old.o.sections ≡ [] }
    requires count { made.old.o.header.shnum ≡ 0 }
    requires class { made.old.o.header.class ≡ elf.old.o.header.class }
    ensures made { OnOk result
        (IsMadeBy elf.old.told elf.old.o x.now made.old made.new) }
    ensures err { IfErr result IsUnstated }
    ensures asks { AsksFor S.Source result elf.old elf.new
        (section_ranges_due x.now (length x.now.listed.headers - 1)) }
{
    if let Err(e) = copy_segments(elf, made) {
        return Err(e);
    }
    if let Err(e) = fill_sections(alloc, elf, x, made) {
        return Err(e);
    }
    store_header(made, &x.listed.header);
    Ok(())
}
