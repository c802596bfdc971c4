//! An update to a sink.

ghost use Rattle.std.specs.Prelude.{◌≡◌, [], length, true, false, IfOk, IfErr, OnOk};
ghost use Rattle.elf_update_plan.specs.elf_object.Object.{is_dirty};
ghost use Rattle.elf_update_plan.specs.elf_object.Image.{kept_base};
ghost use Rattle.elf_update_plan.specs.elf_object.Words.{result_map};
ghost use Rattle.elf_update_plan.specs.Placing.{ArePlaced, IsRefused};
ghost use Rattle.elf_update_to.specs.Updates.{IsPlanned, UpdatesTo};

use crate::pages::Page;
use crate::walks::{Ground, put_end, put_image};
use elf_types::ElfError;
use elf_update_plan::prelude::{Elf, Parts, Places, Sink, Source};
use elf_update_plan::{PlacedParts, has_layout, place_parts, plan};

/// The plan of an image, and where its parts are.
#[derive(Drop)]
pub struct PlannedParts {
    /// The parts that are not empty, by their places.
    pub parts: Parts,
    /// Where all parts are, and the image's length.
    pub places: Places,
}

/// The plan of an image whose parts are placed. It fails with `Memory` alone.
fn plan_placed<S: Source>(elf: &Elf<S>, placed: PlacedParts) -> Result<PlannedParts, ElfError>
    requires dirty { is_dirty elf.now.o ≡ true }
    requires placed { ArePlaced elf.now.o placed }
    ensures ok { IfOk result (IsPlanned elf.now.o) }
    ensures err { IfErr result (IsRefused elf.now.o) }
{
    let _dirty = elf.dirty();
    let PlacedParts { parts, places } = placed;
    match plan(elf.alloc(), parts, &places) {
        Ok(parts) => Ok(PlannedParts { parts, places }),
        Err(e) => Err(e),
    }
}

/// The plan of the image of an object in which something is dirty. It fails as an update does, and
/// reads nothing.
pub fn plan_update<S: Source>(elf: &Elf<S>) -> Result<PlannedParts, ElfError>
    requires { is_dirty elf.now.o ≡ true }
    ensures ok { IfOk result (IsPlanned elf.now.o) }
    ensures err { IfErr result (IsRefused elf.now.o) }
{
    match place_parts(elf) {
        Ok(placed) => plan_placed(elf, placed),
        Err(e) => Err(e),
    }
}

/// What is between the parts of an image.
pub fn ground_of<S: Source>(elf: &Elf<S>) -> Ground
    ensures kept { result.kept ≡ kept_base elf.now.o }
    ensures fill { result.fill ≡ elf.now.o.fill }
{
    Ground {
        kept: base_that_counts(elf),
        fill: elf.fill(),
    }
}

/// How many bytes of the base count.
#[tactic(auto, unfolding(elf_update_plan::specs::Passed::kept_base))]
fn base_that_counts<S: Source>(elf: &Elf<S>) -> u64
    ensures { result ≡ kept_base elf.now.o }
{
    if has_layout(elf) {
        return elf.base_len();
    }
    0
}

/// Stores the places of the parts and puts the image.
fn write_planned<S: Source, K: Sink>(
    elf: &mut Elf<S>,
    sink: &mut K,
    page: &mut Page,
    planned: &PlannedParts,
) -> Result<(), ElfError>
    requires planned { IsPlanned elf.old.o planned.now }
    requires empty { page.old ≡ [] }
    ensures { UpdatesTo S.Source K.Sink (result_map (λ _. planned.now.places.end) result)
        elf.old elf.new sink.old sink.new }
{
    let ground = ground_of(elf);
    elf.store_places(&planned.places);
    put_image(
        elf,
        page,
        sink,
        planned.parts.as_slice(),
        ground,
        planned.places.end,
    )
}

/// Puts the base, the image of an object in which nothing is dirty.
fn write_base<S: Source, K: Sink>(
    elf: &mut Elf<S>,
    sink: &mut K,
    page: &mut Page,
) -> Result<(), ElfError>
    requires clean { is_dirty elf.old.o ≡ false }
    requires empty { page.old ≡ [] }
    ensures { UpdatesTo S.Source K.Sink (result_map (λ _. length elf.old.o.base) result)
        elf.old elf.new sink.old sink.new }
{
    let len = elf.base_len();
    put_end(elf, page, sink, Ground { kept: len, fill: 0 }, 0, len)
}

/// An update where nothing is dirty.
fn update_clean<S: Source, K: Sink>(elf: &mut Elf<S>, sink: &mut K) -> Result<u64, ElfError>
    requires { is_dirty elf.old.o ≡ false }
    ensures { UpdatesTo S.Source K.Sink result elf.old elf.new sink.old sink.new }
{
    let len = elf.base_len();
    let mut page = match Page::new(elf.alloc()) {
        Ok(page) => page,
        Err(e) => return Err(e),
    };
    if let Err(e) = write_base(elf, sink, &mut page) {
        return Err(e);
    }
    Ok(len)
}

/// An update where something is dirty.
fn update_dirty<S: Source, K: Sink>(elf: &mut Elf<S>, sink: &mut K) -> Result<u64, ElfError>
    requires { is_dirty elf.old.o ≡ true }
    ensures { UpdatesTo S.Source K.Sink result elf.old elf.new sink.old sink.new }
{
    let planned = match plan_update(elf) {
        Ok(planned) => planned,
        Err(e) => return Err(e),
    };
    let mut page = match Page::new(elf.alloc()) {
        Ok(page) => page,
        Err(e) => return Err(e),
    };
    if let Err(e) = write_planned(elf, sink, &mut page, &planned) {
        return Err(e);
    }
    Ok(planned.places.end)
}

/// Puts the image to a sink, in order, and returns its length. The places of the parts are stored
/// as [`update_null`](elf_update_plan::update_null) does, and the marks stay. Where nothing is
/// dirty it puts the base. It fails with, in this order, `TooMany`, `Unfit`, `OutOfFile`, `Overlap`
/// and `TooLarge`, which leave descriptor and sink as they were, and `Memory` in place of a value
/// and of the last two. After `Read` and `Write` the sink has a prefix of the image, and the places
/// are stored.
///
/// Source: elf_update with ELF_C_WRITE of elf(3E).
pub fn update_to<S: Source, K: Sink>(elf: &mut Elf<S>, sink: &mut K) -> Result<u64, ElfError>
    ensures { UpdatesTo S.Source K.Sink result elf.old elf.new sink.old sink.new }
{
    if elf.dirty() {
        return update_dirty(elf, sink);
    }
    update_clean(elf, sink)
}
