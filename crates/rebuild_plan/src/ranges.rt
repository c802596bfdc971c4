//! Where the bytes of a section of the new image are.

ghost use Rattle.std.specs.Prelude.{◌≡◌, ◌⊎◌, ◌-◌, ◌<◌, ◌≤◌, length, true, false, IsTrue, IfOk, IfErr};
ghost use Rattle.elf_types.specs.declared.errors.ElfError.TheVariants.{Memory, Read};
ghost use Rattle.elf_xlate.specs.Translation.{encoded};
ghost use Rattle.law_rebuild.specs.elf_object.Object.{is_dirty};
ghost use Rattle.law_rebuild.specs.elf_object.Valid.{IsObject, IsTied};
ghost use Rattle.rebuild_tables.specs.rebuild_keep.Keepers.{makes_by, HasNewNameTable};
ghost use Rattle.rebuild_tables.specs.rebuild_keep.Makes.{AsksFor};
ghost use Rattle.rebuild_tables.specs.Rows.{AreInBase, rows_made, tables_due};
ghost use Rattle.rebuild_plan.specs.Ranges.{IsRangeOf, FindsRange};

use crate::homes::home_range;
use elf_outside::Source;
use elf_types::{ElfError, ScnId};
use rebuild_tables::prelude::{
    ByteRange, Elf, Keeper, Numbering, SharedBytes, hold_items, hold_shared,
};
use rebuild_tables::{FollowedRows, find_rows, hold_rows};

/// The range of the items that are made of a section that is there, whose file form is held after
/// the others.
fn items_range<S: Source>(
    keeper: &Keeper<'_>,
    elf: &mut Elf<S>,
    s: ScnId,
    held: &mut SharedBytes,
) -> Result<ByteRange, ElfError>
    requires there { s.0 < length elf.old.o.sections }
    requires makes { makes_by keeper.now elf.old.o s.0 ≡ true }
    ensures { FindsRange S.Source keeper.now s.0 result elf.old elf.new held.old held.new }
{
    let header = elf.ehdr();
    match keeper.items(elf, s) {
        Ok(items) => hold_items(held, header.class, header.order, &items),
        Err(e) => Err(e),
    }
}

/// The range of the table of the names that are rebuilt, whose text is held after the others.
fn names_range<S: Source>(
    keeper: &Keeper<'_>,
    elf: &Elf<S>,
    s: ScnId,
    table: &SharedBytes,
    held: &mut SharedBytes,
) -> Result<ByteRange, ElfError>
    requires table { HasNewNameTable keeper.now elf.now.o s.0 table.now }
    ensures { FindsRange S.Source keeper.now s.0 result elf.now elf.now held.old held.new }
{
    table.are_ranged();
    hold_shared(held, table)
}

/// The range of what is made of a section that is there, whose file form is held after the others:
/// of the table of the names for their section, and else of its items.
fn names_or_items<S: Source>(
    keeper: &Keeper<'_>,
    elf: &mut Elf<S>,
    s: ScnId,
    held: &mut SharedBytes,
) -> Result<ByteRange, ElfError>
    requires there { s.0 < length elf.old.o.sections }
    requires makes { makes_by keeper.now elf.old.o s.0 ≡ true }
    ensures { FindsRange S.Source keeper.now s.0 result elf.old elf.new held.old held.new }
{
    match keeper.new_table(elf, s) {
        Some(table) => names_range(keeper, elf, s, table, held),
        None => items_range(keeper, elf, s, held),
    }
}

/// The range of the bytes that are held from a place on.
fn range_from(held: &SharedBytes, at: u64) -> ByteRange
    requires { at ≤ length held.now }
    ensures held { result.held ≡ true }
    ensures at { result.at ≡ at }
    ensures len { result.len ≡ length held.now - at }
{
    ByteRange {
        held: true,
        at,
        len: held.len() - at,
    }
}

/// The range of what is made of rows that lie in the base, whose file form is held after the
/// others.
fn rows_range<S: Source>(
    elf: &mut Elf<S>,
    numbering: &Numbering,
    x: FollowedRows,
    held: &mut SharedBytes,
) -> Result<ByteRange, ElfError>
    requires inside { AreInBase elf.old.o.base x }
    ensures ok { IfOk result (IsRangeOf elf.old.told elf.old.o.base
        (encoded x.class x.order (rows_made numbering.now elf.old.o.base x)) held.old held.new) }
    ensures held { IfOk result (λ range. range.held ≡ true) }
    ensures asks { AsksFor S.Source result elf.old elf.new (tables_due x) }
    ensures err { IfErr result (λ e. (e ≡ Memory) ⊎ (e ≡ Read)) }
{
    let at = held.len();
    match hold_rows(elf, numbering, x, held) {
        Ok(()) => Ok(range_from(held, at)),
        Err(e) => Err(e),
    }
}

/// The range of what is made of a section that is there, whose file form is held after the others.
/// A symbol table and its extended indexes are gone over some rows at a time, where they lie in the
/// base as whole items, and are not loaded.
fn made_range<S: Source>(
    keeper: &Keeper<'_>,
    elf: &mut Elf<S>,
    s: ScnId,
    held: &mut SharedBytes,
) -> Result<ByteRange, ElfError>
    requires there { s.0 < length elf.old.o.sections }
    requires object { IsObject elf.old.o }
    requires clean { is_dirty elf.old.o ≡ false }
    requires tied { IsTrue elf.old.told → IsTied elf.old.o }
    requires makes { makes_by keeper.now elf.old.o s.0 ≡ true }
    ensures { FindsRange S.Source keeper.now s.0 result elf.old elf.new held.old held.new }
{
    match find_rows(keeper, elf, s) {
        Some(x) => rows_range(elf, &keeper.numbering, x, held),
        None => names_or_items(keeper, elf, s, held),
    }
}

/// The range of the bytes that a section of the new image has, which is made of one that is there:
/// its home where it is taken as it is, and else what is made of it, which is held after the
/// others. It fails as the keeper, and reads what is made alone.
pub(crate) fn find_range<S: Source>(
    keeper: &Keeper<'_>,
    elf: &mut Elf<S>,
    s: ScnId,
    held: &mut SharedBytes,
) -> Result<ByteRange, ElfError>
    requires there { s.0 < length elf.old.o.sections }
    requires object { IsObject elf.old.o }
    requires clean { is_dirty elf.old.o ≡ false }
    requires tied { IsTrue elf.old.told → IsTied elf.old.o }
    ensures { FindsRange S.Source keeper.now s.0 result elf.old elf.new held.old held.new }
{
    if keeper.makes(elf, s) {
        return made_range(keeper, elf, s, held);
    }
    home_range(elf, s)
}
