//! Each refusal of an edit leaves every result as it was.

use crate::steps::{Change, DescriptorStep, Given, answers};
use elf_descriptor::Elf;
use elf_outside::{MemSource, Source};
use elf_types::{DIRTY, DataId, ElfError, LAYOUT, Part};
use std::alloc::Global;
use test_kit_descriptors::all_agree;
use test_kit_images::{ImageStart, NARROW, OBJECT, Recipe, image_of};
use test_kit_rows::{failed, holds, in_step};
use test_kit_sources::{Sparse, source};

/// There is no section 3.
const NO_SECTION: ElfError = ElfError::NoSection { index: 3, count: 3 };

/// There is no second piece.
const NO_DATA: ElfError = ElfError::NoData { index: 1, count: 1 };

/// The header does not fit.
const UNFIT_HEADER: ElfError = ElfError::Unfit {
    part: Part::Header,
    index: 0,
};

/// The second program header does not fit.
const UNFIT_SEGMENT: ElfError = ElfError::Unfit {
    part: Part::Segments,
    index: 1,
};

/// The header of section 1 does not fit.
const UNFIT_SECTION: ElfError = ElfError::Unfit {
    part: Part::Section(1),
    index: 0,
};

/// The second item of its piece does not fit.
const UNFIT_ITEM: ElfError = ElfError::Unfit {
    part: Part::Piece(1, 0),
    index: 1,
};

/// The second item of a new piece does not fit.
const UNFIT_NEW_ITEM: ElfError = ElfError::Unfit {
    part: Part::Piece(1, 1),
    index: 1,
};

/// What does not fit class 32.
const LARGE: u64 = 1 << 32;

/// Two addresses, of which the second does not fit class 32.
const TWO: Given = Given::Addrs(&[0, LARGE]);

/// Pieces that are not there, and a section's that is.
const IN_NO_SECTION: DataId = DataId {
    section: 3,
    piece: 1,
};

const IN_SECTION_0: DataId = DataId {
    section: 0,
    piece: 1,
};

const SECOND: DataId = DataId {
    section: 1,
    piece: 1,
};

const FIRST: DataId = DataId {
    section: 1,
    piece: 0,
};

/// Each refusal of an edit in class 32, but for those of out of memory and of the greatest counts.
static REFUSALS: [DescriptorStep; 20] = [
    DescriptorStep::StoreHeader(3, LARGE, Err(NO_SECTION)),
    DescriptorStep::StoreHeader(2, LARGE, Err(UNFIT_HEADER)),
    DescriptorStep::StoreSegment(2, LARGE, Err(ElfError::NoEntry { index: 2, count: 2 })),
    DescriptorStep::StoreSegment(1, LARGE, Err(UNFIT_SEGMENT)),
    DescriptorStep::Newphdr(0xffff, Err(ElfError::TooMany)),
    DescriptorStep::Store(0, 3, Change::Size(LARGE), Err(NO_SECTION)),
    DescriptorStep::Store(0, 0, Change::Size(LARGE), Err(ElfError::Reserved)),
    DescriptorStep::Store(0, 1, Change::Size(LARGE), Err(UNFIT_SECTION)),
    DescriptorStep::Add(3, Some(3), TWO, Err(NO_SECTION)),
    DescriptorStep::Add(0, Some(3), TWO, Err(ElfError::Reserved)),
    DescriptorStep::Add(1, Some(3), TWO, Err(ElfError::BadAlign { align: 3 })),
    DescriptorStep::Add(1, Some(1), TWO, Err(UNFIT_NEW_ITEM)),
    DescriptorStep::Replace(IN_NO_SECTION, TWO, Err(NO_SECTION)),
    DescriptorStep::Replace(IN_SECTION_0, TWO, Err(ElfError::Reserved)),
    DescriptorStep::Replace(SECOND, TWO, Err(NO_DATA)),
    DescriptorStep::Replace(FIRST, TWO, Err(UNFIT_ITEM)),
    DescriptorStep::Flag(Part::Section(3), false, DIRTY, Err(NO_SECTION)),
    DescriptorStep::Flag(Part::Piece(2, 1), false, DIRTY, Err(NO_DATA)),
    DescriptorStep::Flag(Part::Piece(2, 0), false, DIRTY, Err(ElfError::FlagKept)),
    DescriptorStep::Flag(Part::Object, false, DIRTY + LAYOUT, Err(ElfError::FlagKept)),
];

/// Whether each refusal comes as stated and leaves what another descriptor answers.
fn all_leave<S: Source, F: Source>(
    rt: &HostRuntime,
    elf: &mut Elf<S>,
    fresh: &Elf<F>,
    steps: &[DescriptorStep],
) -> bool {
    for (n, step) in steps.iter().enumerate() {
        let so = answers(rt, elf, step) && holds(rt, "nothing changes", all_agree(rt, elf, fresh));
        if !in_step(rt, n, so) {
            return false;
        }
    }
    true
}

/// Whether refusals leave all over a source, which is given back.
fn all_leave_over<S: Source, F: Source>(rt: &HostRuntime, src: S, fresh: &Elf<F>) -> (S, bool) {
    match Elf::begin(rt.alloc(), src) {
        Ok(mut elf) => {
            let left = all_leave(rt, &mut elf, fresh, &REFUSALS);
            (elf.end(), left)
        }
        Err((src, e)) => (src, failed(rt, e)),
    }
}

/// The object in class 32, the greatest byte first.
const TWO_TABLES: Recipe = Recipe {
    form: NARROW,
    start: ImageStart::TwoTables,
    ..OBJECT
};

/// A source of its bytes.
fn told(alloc: Global) -> Option<MemSource> {
    match image_of(alloc, &TWO_TABLES) {
        Ok(image) => source(alloc, image.bytes, 0).ok(),
        Err(_) => None,
    }
}

/// A source that does not tell them.
fn untold(alloc: Global) -> Option<Sparse> {
    match image_of(alloc, &TWO_TABLES) {
        Ok(image) => {
            let len = image.bytes.len();
            Some(Sparse::new(image.bytes, len))
        }
        Err(_) => None,
    }
}

/// Whether refusals leave all over a source, where there is one.
fn all_leave_of<S: Source, F: Source>(rt: &HostRuntime, src: Option<S>, fresh: &Elf<F>) -> bool
where
    S: Drop,
{
    match src {
        Some(src) => all_leave_over(rt, src, fresh).1,
        None => false,
    }
}

/// Whether refusals leave all over either source, beside another descriptor over the image.
fn all_leave_beside<F: Source>(rt: &HostRuntime, fresh: &Elf<F>) -> bool {
    all_leave_of(rt, told(rt.alloc()), fresh) && all_leave_of(rt, untold(rt.alloc()), fresh)
}

/// Whether refusals leave all, beside a descriptor that begins over that image.
fn refused_edits_leave(rt: &HostRuntime) -> bool {
    match told(rt.alloc()) {
        Some(src) => match Elf::begin(rt.alloc(), src) {
            Ok(fresh) => all_leave_beside(rt, &fresh),
            Err((_src, e)) => failed(rt, e),
        },
        None => false,
    }
}

#[test]
fn a_refused_edit_changes_nothing(rt: HostRuntime) {
    assert!(rt; refused_edits_leave(&rt));
}
