//! Parts of the front that differ from those that are in the image.

ghost use Rattle.std.specs.Prelude.{◌≡◌, true, length};
ghost use Rattle.elf_object.specs.Object.{is_dirty};
ghost use Rattle.elf_descriptor.specs.Fronts.{IsOfFront};
ghost use Rattle.elf_update_plan.specs.Placing.{ArePlaced};

use crate::devices::homes::{TWO_HOMES, give_bytes};
use elf_descriptor::Elf;
use elf_outside::{Device, Source};
use elf_types::{DIRTY, Ehdr, ElfError, LAYOUT, Part, ScnId, Shdr};
use elf_update_plan::{PlacedParts, place_parts};
use test_kit_descriptors::{DescriptorWork, are_done};
use test_kit_images::BuiltImage;
use test_kit_rows::same;

/// An edit of an object.
#[derive(Clone, Copy)]
enum Edit {
    /// None.
    Nothing,
    /// Another fill byte.
    Fill(u8),
    /// Another entry point.
    Entry(u64),
    /// Program headers, so many, at a place.
    Segments(u32, u64),
    /// Other flags of section 1.
    Flags(u64),
    /// So many other bytes in section 1.
    Bytes(usize),
    /// A new section.
    Section,
}

/// Edits an object.
fn make_edit<S: Source>(elf: &mut Elf<S>, by: Edit) -> Result<(), ElfError> {
    let header = elf.ehdr();
    match by {
        Edit::Nothing => {}
        Edit::Fill(byte) => elf.set_fill(byte),
        Edit::Entry(entry) => elf.update_ehdr(&Ehdr { entry, ..header })?,
        Edit::Segments(n, phoff) => {
            elf.update_ehdr(&Ehdr { phoff, ..header })?;
            elf.newphdr(n)?;
        }
        Edit::Flags(flags) => {
            let first = elf.shdr(ScnId(1))?;
            elf.update_shdr(ScnId(1), &Shdr { flags, ..first })?;
        }
        Edit::Bytes(len) => give_bytes(elf, len)?,
        Edit::Section => {
            elf.newscn()?;
        }
    }
    Ok(())
}

/// Whether the ELF header, the program header table and the section header table differ.
type Differ = (bool, bool, bool);

/// Whether a part differs, once the places of its object are stored.
fn part_differs<S: Source>(elf: &Elf<S>, part: Part, placed: &PlacedParts) -> bool
    requires part { IsOfFront part }
    requires dirty { is_dirty elf.now.o ≡ true }
    requires placed { ArePlaced elf.now.o placed.now }
{
    let _object = elf.dirty();
    elf.front_differs(part, &placed.places)
}

/// Which of the three parts differ, of an object that is not rejected.
fn differing<S: Source>(elf: &Elf<S>) -> Result<Differ, ElfError> {
    if !elf.dirty() {
        return Err(ElfError::Short);
    }
    match place_parts(elf) {
        Ok(placed) => Ok((
            part_differs(elf, Part::Header, &placed),
            part_differs(elf, Part::Segments, &placed),
            part_differs(elf, Part::Table, &placed),
        )),
        Err(e) => Err(e),
    }
}

/// An edit of an object that is marked, with `LAYOUT` or without, and the parts that differ then.
struct Row {
    layout: bool,
    edit: Edit,
    differ: Differ,
}

/// Nothing differs.
const SAME: Differ = (false, false, false);

/// Without `LAYOUT` the table of section headers is 8 bytes before its place in the image.
const MOVED: Differ = (true, false, true);

impl DescriptorWork for Row {
    fn asked(&self) -> Option<u64> {
        Some(0)
    }

    fn is_done<D: Device, F: Source>(
        &self,
        rt: &HostRuntime,
        elf: &mut Elf<D>,
        _fresh: &mut Elf<F>,
        _image: &mut BuiltImage,
    ) -> bool
        requires { length elf.old.room ≡ length elf.old.o.sections }
    {
        let (bits, before) = if self.layout {
            (DIRTY | LAYOUT, SAME)
        } else {
            (DIRTY, MOVED)
        };
        let mut stated = same(rt, &elf.flag(Part::Object, true, bits), &Ok(bits));
        stated &= same(rt, &differing(elf), &Ok(before));
        stated &= same(rt, &make_edit(elf, self.edit), &Ok(()));
        stated && same(rt, &differing(elf), &Ok(self.differ))
    }
}

/// A row of an object whose parts keep their places.
const KEPT: Row = Row {
    layout: true,
    edit: Edit::Nothing,
    differ: SAME,
};

/// Edits, and the parts that differ by them.
static ROWS: [Row; 9] = [
    KEPT,
    Row {
        edit: Edit::Fill(9),
        ..KEPT
    },
    Row {
        edit: Edit::Entry(7),
        differ: (true, false, false),
        ..KEPT
    },
    Row {
        edit: Edit::Segments(1, 300),
        differ: (true, true, false),
        ..KEPT
    },
    Row {
        edit: Edit::Flags(2),
        differ: (false, false, true),
        ..KEPT
    },
    Row {
        edit: Edit::Bytes(8),
        ..KEPT
    },
    Row {
        edit: Edit::Bytes(9),
        differ: (false, false, true),
        ..KEPT
    },
    Row {
        edit: Edit::Section,
        differ: (true, false, true),
        ..KEPT
    },
    Row {
        layout: false,
        differ: MOVED,
        ..KEPT
    },
];

#[test]
fn parts_differ_by_what_was_edited(rt: HostRuntime) {
    assert!(rt; are_done(&rt, &TWO_HOMES, &ROWS));
}
