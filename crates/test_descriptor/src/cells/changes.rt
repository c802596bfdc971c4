//! What changes leave of the pieces of a cell.

ghost use Rattle.std.specs.Prelude.{length};
ghost use Rattle.section_data.specs.Held.{HeldIs};
ghost use Rattle.section_data.specs.Leaves.{LiesIn};

use super::{Asked, EMPTY, Row, are_so};
use elf_outside::MemSource;
use elf_types::constants::SHT_PROGBITS;
use elf_types::{Addrs, Class, ElfError, Kind, Order, Part, Shdr};
use elf_xlate::Items;
use section_data::Cell;
use std::alloc::Global;
use test_kit_images::{ClassAndOrder, NARROW, NULL_SECTION};

/// A call that changes the pieces of a cell.
#[derive(Clone, Copy)]
pub enum Change {
    /// The first piece becomes own.
    Claim,
    /// A piece is lent as items of a kind.
    Lend(u32, Kind),
    /// A piece is given an address.
    Replace(u32, u64),
    /// A piece gets other items, and then what is held of the home is freed.
    ReplaceAndUnload(u32, u64),
    /// A piece is added with an alignment, and an address in it.
    Append(u64, u64),
    /// The first piece is marked.
    Mark,
}

/// An address as items.
fn address(alloc: Global, at: u64) -> Result<Items, ElfError> {
    Ok(Items::Addr(Addrs::from_slice(alloc, &[at])?))
}

/// Makes the first piece own.
fn claim(
    cell: &mut Cell,
    source: &mut MemSource,
    class: Class,
    order: Order,
) -> Result<u32, ElfError>
    requires lies { LiesIn cell.old (length source.old.bytes) }
    requires items { HeldIs class order cell.old }
{
    cell.prepare(source, 0, class, order)?;
    cell.claim(0);
    Ok(0)
}

/// Lends a piece as items of a kind.
fn lend(
    cell: &mut Cell,
    source: &mut MemSource,
    form: ClassAndOrder,
    p: u32,
    kind: Kind,
) -> Result<u32, ElfError>
    requires lies { LiesIn cell.old (length source.old.bytes) }
    requires items { HeldIs form.0 form.1 cell.old }
{
    match cell.lend(p, kind, form.0, form.1, source) {
        Ok(_) => Ok(p),
        Err(e) => Err(e),
    }
}

/// Gives a piece an address.
fn replace(cell: &mut Cell, class: Class, p: u32, items: Items) -> Result<u32, ElfError> {
    match cell.replace(p, class, items) {
        Ok(()) => Ok(p),
        Err((_, e)) => Err(e),
    }
}

/// Gives a piece an address, and frees what is held of the home.
fn replace_and_unload(
    cell: &mut Cell,
    class: Class,
    p: u32,
    items: Items,
) -> Result<u32, ElfError> {
    let p = replace(cell, class, p, items)?;
    cell.unload();
    Ok(p)
}

/// Adds a piece.
fn append(cell: &mut Cell, class: Class, items: Items, align: u64) -> Result<u32, ElfError> {
    match cell.append(class, items, align) {
        Ok(p) => Ok(p),
        Err((_, e)) => Err(e),
    }
}

/// Marks the first piece.
fn mark(cell: &mut Cell, class: Class) -> Result<u32, ElfError> {
    cell.check(0, class)?;
    cell.mark(0);
    Ok(0)
}

/// Changes a cell, and returns the number of the piece that was changed.
fn apply(
    alloc: Global,
    cell: &mut Cell,
    source: &mut MemSource,
    form: ClassAndOrder,
    by: Change,
) -> Result<u32, ElfError>
    requires lies { LiesIn cell.old (length source.old.bytes) }
    requires items { HeldIs form.0 form.1 cell.old }
{
    match by {
        Change::Claim => claim(cell, source, form.0, form.1),
        Change::Lend(p, kind) => lend(cell, source, form, p, kind),
        Change::Replace(p, at) => replace(cell, form.0, p, address(alloc, at)?),
        Change::ReplaceAndUnload(p, at) => {
            replace_and_unload(cell, form.0, p, address(alloc, at)?)
        }
        Change::Append(align, at) => append(cell, form.0, address(alloc, at)?, align),
        Change::Mark => mark(cell, form.0),
    }
}

/// Whether a piece is own, whether it is marked, its kind and its alignment, or why there was no
/// change.
pub type Left = Result<(bool, bool, Kind, u64), ElfError>;

/// What is left of a piece.
fn piece_left(cell: &Cell, p: u32, class: Class) -> Left {
    cell.check(p, class)?;
    Ok((
        cell.is_own(p),
        cell.is_marked(p),
        cell.piece_kind(p),
        cell.piece_align(p),
    ))
}

/// What a change leaves of the piece that it changes, or how it is rejected.
pub fn change_left(
    alloc: Global,
    cell: &mut Cell,
    source: &mut MemSource,
    form: ClassAndOrder,
    by: Change,
) -> Left
    requires lies { LiesIn cell.old (length source.old.bytes) }
    requires items { HeldIs form.0 form.1 cell.old }
{
    match apply(alloc, cell, source, form, by) {
        Ok(p) => piece_left(cell, p, form.0),
        Err(e) => Err(e),
    }
}

/// There is no second piece.
const NO_DATA: Left = Err(ElfError::NoData { index: 1, count: 1 });

/// The piece holds bytes.
const WRONG_KIND: Left = Err(ElfError::WrongKind { held: Kind::Bytes });

/// The alignment is no power of two.
const BAD_ALIGN: Left = Err(ElfError::BadAlign { align: 12 });

/// An item of the first piece does not fit.
const UNFIT: Left = Err(ElfError::Unfit {
    part: Part::Piece(5, 0),
    index: 0,
});

/// One of a piece that is added does not.
const UNFIT_NEW: Left = Err(ElfError::Unfit {
    part: Part::Piece(5, 1),
    index: 0,
});

/// An address that does not fit class 32.
const LARGE: u64 = 1 << 32;

/// A section of 20 bytes in class 32, the greatest byte first, which becomes own.
const TWENTY: Row = Row {
    form: NARROW,
    header: Shdr {
        stype: SHT_PROGBITS,
        offset: 10,
        size: 20,
        ..NULL_SECTION
    },
    asked: Asked::Changed(Change::Claim, Ok((true, true, Kind::Bytes, 1))),
    ..EMPTY
};

/// Changes of that section, and what each leaves.
const CHANGES: [Row; 12] = [
    TWENTY,
    Row {
        asked: Asked::Changed(
            Change::Lend(0, Kind::Bytes),
            Ok((true, true, Kind::Bytes, 1)),
        ),
        ..TWENTY
    },
    Row {
        asked: Asked::Changed(Change::Lend(1, Kind::Bytes), NO_DATA),
        ..TWENTY
    },
    Row {
        asked: Asked::Changed(Change::Lend(0, Kind::Word), WRONG_KIND),
        ..TWENTY
    },
    Row {
        asked: Asked::Changed(Change::Replace(0, 7), Ok((true, true, Kind::Addr, 1))),
        ..TWENTY
    },
    Row {
        asked: Asked::Changed(
            Change::ReplaceAndUnload(0, 7),
            Ok((true, true, Kind::Addr, 1)),
        ),
        ..TWENTY
    },
    Row {
        asked: Asked::Changed(Change::Replace(1, 7), NO_DATA),
        ..TWENTY
    },
    Row {
        asked: Asked::Changed(Change::Replace(0, LARGE), UNFIT),
        ..TWENTY
    },
    Row {
        asked: Asked::Changed(Change::Append(16, 7), Ok((true, true, Kind::Addr, 16))),
        ..TWENTY
    },
    Row {
        asked: Asked::Changed(Change::Append(12, 7), BAD_ALIGN),
        ..TWENTY
    },
    Row {
        asked: Asked::Changed(Change::Append(16, LARGE), UNFIT_NEW),
        ..TWENTY
    },
    Row {
        asked: Asked::Changed(Change::Mark, Ok((false, true, Kind::Bytes, 1))),
        ..TWENTY
    },
];

#[test]
fn a_changed_piece_is_own_and_marked(rt: HostRuntime) {
    assert!(rt; are_so(&rt, &CHANGES));
}
