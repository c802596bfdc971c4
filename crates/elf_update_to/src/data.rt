//! The pieces of a section, as they are in the file.

ghost use Rattle.std.specs.Prelude.{◌≡◌, ◌<◌, ◌+◌, ◌^◌, ◌≤◌, true, false, None, IsTrue, length, take, drop, slice_index_or, IfErr, OnOk};
ghost use Rattle.elf_types.specs.declared.records.Part.TheVariants as part;
ghost use Rattle.elf_update_to.specs.declared.parts.Origin.TheVariants.{Piece};
ghost use Rattle.elf_update_plan.specs.elf_xlate.Translation.{encoded, file_size, first_unfit, items_count, items_kind};
ghost use Rattle.elf_update_plan.specs.elf_object.Answers.{piece_count};
ghost use Rattle.elf_update_plan.specs.elf_object.Object.{section_at, has_file_bytes};
ghost use Rattle.elf_update_plan.specs.law_object.Writing.Plan.{places_below};
ghost use Rattle.elf_update_plan.specs.elf_descriptor.Held.{IsUnread};
ghost use Rattle.elf_update_to.specs.Origins.{absent_piece, origin_due, IsExtent, CopiesBy};
ghost use Rattle.elf_update_to.specs.Descriptors.{HasStoredPlaces, kept_of_elf, faults_of, taken_of, stored_pieces, stored_due};

use crate::entries::{copy_entries, copy_range};
use crate::items::ItemsForm;
use crate::parts::PieceExtent;
use elf_types::{Class, DataId, ElfError, Order, ScnId};
use elf_update_plan::prelude::{Elf, Held, Items, Source, fsize};
use elf_update_plan::{count_pieces, home_extent, is_in_file};

/// The number of pieces of a section in the file.
pub(crate) fn section_pieces<S: Source>(elf: &Elf<S>, s: u32) -> u32
    ensures { result ≡ length (stored_pieces elf.now.o (part.Section s)) }
{
    if !is_in_file(elf, s) {
        return 0;
    }
    count_pieces(elf, ScnId(s))
}

/// The number of bytes of items in the file, which fits.
fn items_length(items: &Items, class: Class) -> u64
    requires { file_size (items_kind items.now) class (items_count items.now) < 2 ^ 64 }
    ensures { result ≡ file_size (items_kind items.now) class (items_count items.now) }
{
    match fsize(items.kind(), class, items.count()) {
        Some(len) => len,
        None => unreachable!(),
    }
}

/// The length of a piece of a section in the file.
#[tactic(auto, unfolding(elf_update_plan::specs::Passed::piece_refusal, elf_update_plan::specs::Passed::piece_count))]
fn piece_length<S: Source>(elf: &Elf<S>, d: DataId) -> u64
    requires stored { HasStoredPlaces elf.now.o }
    requires section { d.section < length elf.now.o.sections }
    requires piece { d.piece < piece_count elf.now.o d.section }
    requires filled { has_file_bytes d.section (section_at elf.now.o d.section) ≡ true }
    ensures { result
        ≡ length (slice_index_or
        (stored_pieces elf.now.o (part.Section d.section)) d.piece absent_piece).1 }
{
    let class = elf.ehdr().class;
    match elf.held(d) {
        Ok(Held::Edited(items)) => items_length(items, class),
        Ok(Held::Raw(bytes)) => bytes.len() as u64,
        Ok(Held::Unread) => home_extent(elf, d.section).1,
        Err(_) => unreachable!(),
    }
}

/// The alignment and the length of a piece of a section in the file.
#[tactic(auto, unfolding(elf_update_plan::specs::Passed::piece_align_answer, elf_update_plan::specs::Passed::piece_refusal, elf_update_plan::specs::Passed::piece_count))]
pub(crate) fn piece_extent<S: Source>(elf: &Elf<S>, d: DataId) -> PieceExtent
    requires stored { HasStoredPlaces elf.now.o }
    requires section { d.section < length elf.now.o.sections }
    requires piece { d.piece < piece_count elf.now.o d.section }
    requires filled { has_file_bytes d.section (section_at elf.now.o d.section) ≡ true }
    ensures { IsExtent result
        (slice_index_or (stored_pieces elf.now.o (part.Section d.section)) d.piece absent_piece) }
{
    let align = match elf.piece_align(d) {
        Ok(align) => align,
        Err(_) => unreachable!(),
    };
    PieceExtent {
        align,
        len: piece_length(elf, d),
    }
}

/// Writes bytes of items in their file form.
fn copy_items(items: &Items, class: Class, order: Order, from: u64, buf: &mut [u8])
    requires fits { first_unfit class items.now ≡ None }
    requires there { from + length buf.old ≤ length (encoded class order items.now) }
    requires small { from + length buf.old < 2 ^ 64 }
    ensures { buf.new ≡ take (length buf.old) (drop from (encoded class order items.now)) }
{
    copy_entries(
        &ItemsForm {
            items,
            class,
            order,
        },
        from,
        buf,
    );
}

/// Copies bytes of a piece of a section where it is held, and returns whether it is.
#[tactic(auto, unfolding(elf_update_plan::specs::Passed::piece_refusal, elf_update_plan::specs::Passed::piece_count))]
pub(crate) fn copy_held<S: Source>(elf: &Elf<S>, d: DataId, from: u64, buf: &mut [u8]) -> bool
    requires stored { HasStoredPlaces elf.now.o }
    requires there { from + length buf.old ≤ length (slice_index_or
        (stored_pieces elf.now.o (part.Section d.section)) d.piece absent_piece).1 }
    requires small { from + length buf.old < 2 ^ 64 }
    requires section { d.section < length elf.now.o.sections }
    requires piece { d.piece < piece_count elf.now.o d.section }
    requires filled { has_file_bytes d.section (section_at elf.now.o d.section) ≡ true }
    ensures held { result ≡ true → IsTrue elf.now.told → buf.new ≡ take (length buf.old)
        (drop from (slice_index_or
        (stored_pieces elf.now.o (part.Section d.section)) d.piece absent_piece).1) }
    ensures unread { result ≡ false → IsUnread elf.now d.section d.piece }
    ensures len { length buf.new ≡ length buf.old }
{
    let header = elf.ehdr();
    match elf.held(d) {
        Ok(Held::Edited(items)) => {
            copy_items(items, header.class, header.order, from, buf);
            true
        }
        Ok(Held::Raw(bytes)) => {
            copy_range(bytes, from, buf);
            true
        }
        Ok(Held::Unread) => false,
        Err(_) => unreachable!(),
    }
}

/// Copies bytes of a clean home piece that is not loaded, at least one, from the base, where its
/// home lies. It fails with `Read` alone and takes no memory.
pub(crate) fn copy_home<S: Source>(
    elf: &mut Elf<S>,
    d: DataId,
    from: u64,
    buf: &mut [u8],
) -> Result<(), ElfError>
    requires stored { HasStoredPlaces elf.old.o }
    requires unread { IsUnread elf.old d.section d.piece }
    requires some { 0 < length buf.old }
    requires there { from + length buf.old ≤ length (slice_index_or
        (stored_pieces elf.old.o (part.Section d.section)) d.piece absent_piece).1 }
    ensures bytes { IsTrue elf.old.told → OnOk result (buf.new ≡ take (length buf.old)
        (drop from (slice_index_or
        (stored_pieces elf.old.o (part.Section d.section)) d.piece absent_piece).1)) }
    ensures copies { CopiesBy (kept_of_elf S.Source) (faults_of S.Source) (taken_of S.Source) result
        elf.old elf.new (places_below (origin_due (stored_due elf.old.o elf.old.loaded) 0
        (Piece (part.Section d.section) d.piece)) from (from + length buf.old)) }
    ensures err { IfErr result (λ e. e ≡ ElfError.Read) }
{
    let at = home_extent(elf, d.section).0 + from;
    elf.copy_base(at, buf)
}
