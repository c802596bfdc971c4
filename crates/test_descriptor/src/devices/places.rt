//! Places that are stored in the headers.

ghost use Rattle.std.specs.Prelude.{◌≡◌, length};

use crate::devices::homes::{FIRST_PIECE, TWO_HOMES, give_bytes};
use elf_descriptor::{Elf, Held};
use elf_outside::{Device, Source};
use elf_types::{DIRTY, DataId, ElfError, LAYOUT, Part, ScnId};
use elf_update_plan::place_parts;
use elf_xlate::shdr_size;
use test_kit_descriptors::{DescriptorWork, all_marks_agree, are_done};
use test_kit_images::BuiltImage;
use test_kit_rows::{same, same_bytes};

/// An object that is edited, and the places of its parts.
struct Row {
    /// How long the bytes are that section 1 gets in place of its own; none where it keeps them.
    len: Option<usize>,
    /// Whether the object is marked with `LAYOUT`, so that the headers say where parts are.
    layout: bool,
    /// Where sections 1 and 2 and the table of section headers are.
    at: (u64, u64, u64),
}

/// Reads the home of section 2, and edits the object.
fn edit<S: Source>(elf: &mut Elf<S>, row: &Row) -> Result<(), ElfError> {
    elf.raw(ScnId(2))?;
    if let Some(len) = row.len {
        give_bytes(elf, len)?;
    }
    let bits = if row.layout { DIRTY | LAYOUT } else { DIRTY };
    elf.flag(Part::Object, true, bits)?;
    Ok(())
}

/// Stores the places of the parts, and returns the image's length.
fn store<S: Source>(elf: &mut Elf<S>) -> Result<u64, ElfError> {
    if !elf.dirty() {
        return Err(ElfError::Short);
    }
    match place_parts(elf) {
        Ok(placed) => {
            elf.store_places(&placed.places);
            Ok(placed.places.end)
        }
        Err(e) => Err(e),
    }
}

/// The places and the sizes that the headers have.
type Stored = (u64, u64, u64, u64, u64);

/// Where sections 1 and 2 and the table are, and how long the two sections are.
fn stored<S: Source>(elf: &Elf<S>) -> Result<Stored, ElfError> {
    let (first, second) = (elf.shdr(ScnId(1))?, elf.shdr(ScnId(2))?);
    Ok((
        first.offset,
        second.offset,
        elf.ehdr().shoff,
        first.size,
        second.size,
    ))
}

/// Whether the home of section 2 is held, and of section 1 what the row gave it.
fn is_held<S: Source>(rt: &HostRuntime, elf: &Elf<S>, row: &Row) -> bool {
    let second = match elf.held(DataId {
        section: 2,
        piece: 0,
    }) {
        Ok(Held::Raw(bytes)) => same_bytes(rt, bytes, b"ijklmnop".as_slice()),
        _ => false,
    };
    match elf.held(FIRST_PIECE) {
        Ok(Held::Unread) => second && row.len.is_none(),
        Ok(Held::Edited(items)) => second && same(rt, &row.len, &Some(items.count() as usize)),
        _ => false,
    }
}

impl DescriptorWork for Row {
    fn asked(&self) -> Option<u64> {
        Some(8)
    }

    fn is_done<D: Device, F: Source>(
        &self,
        rt: &HostRuntime,
        elf: &mut Elf<D>,
        fresh: &mut Elf<F>,
        _image: &mut BuiltImage,
    ) -> bool
        requires { length elf.old.room ≡ length elf.old.o.sections }
    {
        let (table, size) = (
            3 * shdr_size(elf.ehdr().class) as u64,
            self.len.unwrap_or(8) as u64,
        );
        let mut stated = same(rt, &edit(elf, self), &Ok(()))
            && same(rt, &edit(fresh, self), &Ok(()));
        stated &= same(rt, &store(elf), &Ok(self.at.2.saturating_add(table)));
        stated &= same(
            rt,
            &stored(elf),
            &Ok((self.at.0, self.at.1, self.at.2, size, 8)),
        );
        stated &= same(rt, &stored(fresh), &Ok((64, 80, 96, 8, 8)));
        stated &= all_marks_agree(rt, elf, fresh) && same(rt, &elf.base_len(), &fresh.base_len());
        stated && same(rt, &elf.home(ScnId(1)), &Ok((64, 8))) && is_held(rt, elf, self)
    }
}

/// Objects whose parts are one after the other, each at its alignment, and where the headers say.
static ROWS: [Row; 4] = [
    Row {
        len: None,
        layout: false,
        at: (64, 80, 88),
    },
    Row {
        len: Some(20),
        layout: false,
        at: (64, 96, 104),
    },
    Row {
        len: Some(0),
        layout: false,
        at: (64, 64, 72),
    },
    Row {
        len: Some(12),
        layout: true,
        at: (64, 80, 96),
    },
];

#[test]
fn places_are_stored_and_nothing_is_written(rt: HostRuntime) {
    assert!(rt; are_done(&rt, &TWO_HOMES, &ROWS));
}
