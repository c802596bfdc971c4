//! Descriptors that are settled over the image that their device holds: they answer as one that is
//! opened on it.

ghost use Rattle.std.specs.Prelude.{◌≡◌, length};

use crate::callers::settling::{settle_over, tell_image};
use crate::devices::homes::{ROOM, TWO_HOMES, keep};
use elf_descriptor::Elf;
use elf_outside::{Device, Source};
use elf_types::constants::{SHT_INIT_ARRAY, SHT_PROGBITS};
use elf_types::{DIRTY, DataId, Ehdr, ElfError, LAYOUT, Octets, Part, ScnId, Shdr};
use elf_xlate::Items;
use test_kit_descriptors::{DescriptorWork, are_done, is_as_opened};
use test_kit_images::BuiltImage;
use test_kit_rows::{failed, same};

/// An edit of an object whose homes are read and whose pieces are marked.
#[derive(Clone, Copy)]
enum Edit {
    /// The parts keep their places.
    Layout,
    /// Another fill byte.
    Fill(u8),
    /// Another entry point.
    Entry(u64),
    /// So many program headers.
    Segments(u32),
    /// Another type and another alignment of section 1.
    Header(u32, u64),
    /// A new section of two pieces.
    Pieces,
}

/// Adds a piece of bytes to section 3, at a multiple of 4.
fn add_piece<S: Source>(elf: &mut Elf<S>, bytes: &[u8]) -> Result<(), ElfError> {
    let bytes = Octets::from_slice(elf.alloc(), bytes)?;
    match elf.newdata_aligned(ScnId(3), Items::Bytes(bytes), 4) {
        Ok(_) => Ok(()),
        Err((_, e)) => Err(e),
    }
}

/// Adds a section of two pieces, with a gap between them.
fn add_pieces<S: Source>(elf: &mut Elf<S>) -> Result<(), ElfError> {
    let s = elf.newscn()?;
    let header = elf.shdr(s)?;
    elf.update_shdr(
        s,
        &Shdr {
            stype: SHT_PROGBITS,
            ..header
        },
    )?;
    add_piece(elf, b"abc")?;
    add_piece(elf, b"de")
}

/// Edits an object.
fn make_edit<S: Source>(elf: &mut Elf<S>, edit: Edit) -> Result<(), ElfError> {
    match edit {
        Edit::Layout => {
            elf.flag(Part::Object, true, LAYOUT)?;
        }
        Edit::Fill(byte) => elf.set_fill(byte),
        Edit::Entry(entry) => {
            let header = elf.ehdr();
            elf.update_ehdr(&Ehdr { entry, ..header })?;
        }
        Edit::Segments(n) => elf.newphdr(n)?,
        Edit::Header(stype, addralign) => {
            let header = elf.shdr(ScnId(1))?;
            elf.update_shdr(
                ScnId(1),
                &Shdr {
                    stype,
                    addralign,
                    ..header
                },
            )?;
        }
        Edit::Pieces => add_pieces(elf)?,
    }
    Ok(())
}

/// Reads the homes, marks the object and the pieces, and makes edits.
fn make_edits<S: Source>(elf: &mut Elf<S>, edits: &[Edit]) -> Result<(), ElfError> {
    elf.flag(Part::Object, true, DIRTY)?;
    keep(elf, 1)?;
    keep(elf, 2)?;
    for edit in edits {
        make_edit(elf, *edit)?;
    }
    Ok(())
}

/// The piece of section 2.
const SECOND: DataId = DataId {
    section: 2,
    piece: 0,
};

/// Whether the bytes of section 2 are lent, and then they alone are marked.
fn are_lent<S: Source>(rt: &HostRuntime, elf: &mut Elf<S>) -> bool {
    let lent = match elf.bytes_mut(SECOND) {
        Ok(bytes) => same(rt, &bytes.len(), &8) && same(rt, &bytes.push(7), &Ok(())),
        Err(e) => failed(rt, e),
    };
    let marks = (elf.flags(Part::Piece(2, 0)), elf.flags(Part::Piece(1, 0)));
    lent && same(rt, &marks, &(Ok(DIRTY), Ok(0))) && same(rt, &elf.flags(Part::Section(2)), &Ok(0))
}

/// Edits of an object that is settled then.
struct Row {
    edits: &'static [Edit],
}

impl Row {
    /// Whether a descriptor is settled over the image of another one, and behaves as it should.
    fn is_settled<D: Device, F: Source>(
        &self,
        rt: &HostRuntime,
        elf: &mut Elf<D>,
        fresh: &mut Elf<F>,
        image: &mut BuiltImage,
    ) -> bool {
        match tell_image(fresh, ROOM) {
            Ok(bytes) => {
                let mut stated = same(rt, &settle_over(elf, bytes.as_slice()), &Ok(()));
                stated &= same(rt, &elf.base_len(), &bytes.len());
                stated &= is_as_opened(rt, elf, bytes.as_slice()) && are_lent(rt, elf);
                image.bytes = bytes;
                stated
            }
            Err(e) => failed(rt, e),
        }
    }
}

impl DescriptorWork for Row {
    fn is_done<D: Device, F: Source>(
        &self,
        rt: &HostRuntime,
        elf: &mut Elf<D>,
        fresh: &mut Elf<F>,
        image: &mut BuiltImage,
    ) -> bool
        requires { length elf.old.room ≡ length elf.old.o.sections }
    {
        let edited = same(rt, &make_edits(elf, self.edits), &Ok(()));
        edited
            && same(rt, &make_edits(fresh, self.edits), &Ok(()))
            && self.is_settled(rt, elf, fresh, image)
    }
}

/// Objects whose image is as long as the base, shorter, and longer: then the base is shorter than
/// the device when the descriptor is settled, as after a write that failed.
static ROWS: [Row; 7] = [
    Row {
        edits: &[Edit::Layout],
    },
    Row { edits: &[] },
    Row {
        edits: &[Edit::Layout, Edit::Entry(7)],
    },
    Row {
        edits: &[Edit::Entry(7), Edit::Segments(2)],
    },
    Row {
        edits: &[Edit::Header(SHT_INIT_ARRAY, 128)],
    },
    Row {
        edits: &[Edit::Fill(9), Edit::Pieces],
    },
    Row {
        edits: &[Edit::Fill(9), Edit::Pieces, Edit::Header(SHT_PROGBITS, 32)],
    },
];

#[test]
fn a_settled_object_is_as_one_that_is_opened_on_its_image(rt: HostRuntime) {
    assert!(rt; are_done(&rt, &TWO_HOMES, &ROWS));
}
