//! The walk over the plan of an image: its parts by their places, and what lies between them.

ghost use Rattle.std.specs.Prelude.{◌≡◌, ◌+◌, ◌-◌, ◌^◌, ◌≤◌, ◌<◌, [], length, take, drop, sum_by, slice_index_or, IfOk, OnOk, All};
ghost use Rattle.elf_update_plan.specs.elf_layout.Layout.{rounded_up};
ghost use Rattle.elf_update_plan.specs.law_object.Writing.Lines.{AreInLine, in_line};
ghost use Rattle.elf_update_plan.specs.law_object.Writing.Plan.{places_below, base_gaps};
ghost use Rattle.elf_update_to.specs.Origins.{absent_piece, origin_due};
ghost use Rattle.elf_update_to.specs.Pieces.{filled_piece, stacked_text, blocks_at, HasLength};
ghost use Rattle.elf_update_to.specs.Emits.{Emits, gap_text, ground_byte};
ghost use Rattle.elf_update_to.specs.declared.parts.Origin.TheVariants.{Piece};

use crate::pages::Page;
use crate::parts::{ImageParts, Origin};
use crate::puts::{put_fill, put_range};
use elf_types::{ElfError, Part};
use elf_update_plan::prelude::{PartAt, Sink};

/// What is between the parts of an image: the bytes of the base below a length, and then the fill
/// byte.
#[derive(Clone, Copy, Debug, PartialEq, Eq)]
pub struct Ground {
    /// How many bytes of the base count.
    pub kept: u64,
    /// The fill byte.
    pub fill: u8,
}

/// Puts the bytes of the base from one place on and before another, where there are any.
fn put_base<P: ImageParts, K: Sink>(
    parts: &mut P,
    page: &mut Page,
    sink: &mut K,
    from: u64,
    to: u64,
) -> Result<(), ElfError>
    requires there { to ≤ length (P.base (P.kept parts.old)) }
    ensures { Emits P.ImageParts K.Sink result parts.old parts.new sink.old sink.new page.old
        page.new
        (take (to - from) (drop from (P.base (P.kept parts.old)))) (to - from) }
{
    if from >= to {
        return Ok(());
    }
    put_range(parts, page, sink, Origin::Base, from, to)
}

/// Puts what is between the parts from one place on and before another.
fn put_gap<P: ImageParts, K: Sink>(
    parts: &mut P,
    page: &mut Page,
    sink: &mut K,
    ground: Ground,
    from: u64,
    end: u64,
) -> Result<(), ElfError>
    requires kept { ground.kept ≤ length (P.base (P.kept parts.old)) }
    ensures { Emits P.ImageParts K.Sink result parts.old parts.new sink.old sink.new page.old
        page.new
        (gap_text (P.base (P.kept parts.old)) ground.kept ground.fill from end)
        (places_below ground.kept from end) }
{
    if let Err(e) = put_base(parts, page, sink, from, end.min(ground.kept)) {
        return Err(e);
    }
    let start = from.max(ground.kept);
    put_fill(page, sink, ground.fill, end.saturating_sub(start))
}

/// Puts a piece of a part, which is at the end so far, rounded up to its alignment, with the fill
/// byte before it, and returns the end after it.
fn put_piece<P: ImageParts, K: Sink>(
    parts: &mut P,
    page: &mut Page,
    sink: &mut K,
    part: Part,
    p: u32,
    end: u64,
    fill: u8,
) -> Result<u64, ElfError>
    requires ready { P.ready (P.kept parts.old) }
    requires there { p < length (P.pieces (P.kept parts.old) part) }
    requires small { let piece = slice_index_or (P.pieces (P.kept parts.old) part) p absent_piece in
        rounded_up end piece.0 + length piece.1 < 2 ^ 64 }
    ensures end { let piece = slice_index_or (P.pieces (P.kept parts.old) part) p absent_piece in
        IfOk result (λ after. after ≡ rounded_up end piece.0 + length piece.1) }
    ensures emits { Emits P.ImageParts K.Sink result parts.old parts.new sink.old sink.new page.old
        page.new
        (filled_piece (slice_index_or (P.pieces (P.kept parts.old) part) p absent_piece) end fill)
        (origin_due (P.due (P.kept parts.old)) 0 (Piece part p)) }
{
    let piece = parts.piece(part, p);
    let at = end.next_multiple_of(piece.align.max(1));
    if let Err(e) = put_fill(page, sink, fill, at - end) {
        return Err(e);
    }
    if let Err(e) = put_range(parts, page, sink, Origin::Piece(part, p), 0, piece.len) {
        return Err(e);
    }
    Ok(at + piece.len)
}

/// Puts a part: its pieces, with the fill byte between them.
fn put_part<P: ImageParts, K: Sink>(
    parts: &mut P,
    page: &mut Page,
    sink: &mut K,
    part: PartAt,
    fill: u8,
) -> Result<(), ElfError>
    requires ready { P.ready (P.kept parts.old) }
    requires long { HasLength (P.pieces (P.kept parts.old)) part }
    requires small { part.len < 2 ^ 64 }
    ensures { Emits P.ImageParts K.Sink result parts.old parts.new sink.old sink.new page.old
        page.new
        (stacked_text fill (P.pieces (P.kept parts.old) part.part))
        (P.due (P.kept parts.old) part.part) }
{
    let count = parts.piece_count(part.part);
    let mut end = 0;
    for p in 0..count {
        match put_piece(parts, page, sink, part.part, p, end, fill) {
            Ok(after) => end = after,
            Err(e) => return Err(e),
        }
    }
    Ok(())
}

/// Puts what follows the last part, and what waits. It fails with `Read` and `Write` alone and
/// takes no memory.
pub fn put_end<P: ImageParts, K: Sink>(
    parts: &mut P,
    page: &mut Page,
    sink: &mut K,
    ground: Ground,
    from: u64,
    end: u64,
) -> Result<(), ElfError>
    requires kept { ground.kept ≤ length (P.base (P.kept parts.old)) }
    ensures emits { Emits P.ImageParts K.Sink result parts.old parts.new sink.old sink.new page.old
        page.new (gap_text (P.base (P.kept parts.old)) ground.kept ground.fill from end)
        (places_below ground.kept from end) }
    ensures empty { OnOk result (page.new ≡ []) }
{
    if let Err(e) = put_gap(parts, page, sink, ground, from, end) {
        return Err(e);
    }
    page.flush(sink)
}

/// Puts an image: the parts of its plan, each at its place, what is between them, and what waits.
/// It fails with `Read` and `Write` alone and takes no memory.
pub fn put_image<P: ImageParts, K: Sink>(
    parts: &mut P,
    page: &mut Page,
    sink: &mut K,
    plan: &[PartAt],
    ground: Ground,
    end: u64,
) -> Result<(), ElfError>
    requires ready { P.ready (P.kept parts.old) }
    requires kept { ground.kept ≤ length (P.base (P.kept parts.old)) }
    requires long { All (HasLength (P.pieces (P.kept parts.old))) plan.now }
    requires line { AreInLine end 0
        (blocks_at ground.fill (P.pieces (P.kept parts.old)) plan.now) }
    ensures emits { Emits P.ImageParts K.Sink result parts.old parts.new sink.old sink.new page.old
        page.new
        (in_line end (ground_byte (P.base (P.kept parts.old)) ground.kept ground.fill) 0
        (blocks_at ground.fill (P.pieces (P.kept parts.old)) plan.now))
        (sum_by (λ p. P.due (P.kept parts.old) p.part) plan.now
        + base_gaps ground.kept end 0
        (blocks_at ground.fill (P.pieces (P.kept parts.old)) plan.now)) }
    ensures empty { OnOk result (page.new ≡ []) }
{
    let mut from = 0;
    for part in plan {
        if let Err(e) = put_gap(parts, page, sink, ground, from, part.at) {
            return Err(e);
        }
        if let Err(e) = put_part(parts, page, sink, *part, ground.fill) {
            return Err(e);
        }
        from = part.at + part.len;
    }
    put_end(parts, page, sink, ground, from, end)
}
