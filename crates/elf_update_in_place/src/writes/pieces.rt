//! A part, put over a device: its pieces, with the fill byte between them.

ghost use Rattle.std.specs.Prelude.{◌≡◌, ◌+◌, ◌-◌, ◌^◌, ◌≤◌, ◌<◌, length, take, drop, slice_index_or, IfOk};
ghost use Rattle.std.proofs.Math.ListN.{replicate};
ghost use Rattle.elf_layout.specs.Layout.{rounded_up};
ghost use Rattle.elf_update_to.specs.Origins.{absent_piece};
ghost use Rattle.elf_update_to.specs.Pieces.{filled_piece, stacked_text, HasLength};
ghost use Rattle.elf_update_to.specs.Descriptors.{HasStoredPlaces, stored_pieces};
ghost use Rattle.elf_update_in_place.specs.Writes.Overwrites.{NeedsNoRead, MayOverwrite, Overwrites};

use crate::writes::fills::write_fill;
use elf_layout::PartAt;
use elf_outside::Device;
use elf_types::{ElfError, Part};
use elf_update_to::prelude::Elf;
use elf_update_to::{ImageParts, copy_at_hand};

/// Puts as many bytes of a piece as `buf` has, at least one, from the place `from` of the piece on,
/// over the device from the place `at` on.
fn write_some<D: Device>(
    elf: &mut Elf<D>,
    buf: &mut [u8],
    part: Part,
    p: u32,
    from: u64,
    at: u64,
) -> Result<(), ElfError>
    requires stored { HasStoredPlaces elf.old.o }
    requires held { NeedsNoRead elf.old part }
    requires some { 0 < length buf.old }
    requires there { from + length buf.old
        ≤ length (slice_index_or (stored_pieces elf.old.o part) p absent_piece).1 }
    requires small { from + length buf.old < 2 ^ 64 }
    requires may { MayOverwrite D.Source elf.old at (length buf.old) }
    ensures over { Overwrites D.Source D.Device.own result elf.old elf.new at (take
        (length buf.old)
        (drop from (slice_index_or (stored_pieces elf.old.o part) p absent_piece).1)) }
    ensures len { length buf.new ≡ length buf.old }
{
    match copy_at_hand(elf, part, p, from, buf) {
        None => elf.write_base(at, buf),
        Some(_) => unreachable!(),
    }
}

/// Puts a piece of a part, which has `len` bytes, over the device from the place `at` on, buffer by
/// buffer.
fn write_range<D: Device>(
    elf: &mut Elf<D>,
    page: &mut [u8],
    part: Part,
    p: u32,
    at: u64,
    len: u64,
) -> Result<(), ElfError>
    requires room { 0 < length page.old }
    requires stored { HasStoredPlaces elf.old.o }
    requires held { NeedsNoRead elf.old part }
    requires long { len
        ≡ length (slice_index_or (stored_pieces elf.old.o part) p absent_piece).1 }
    requires may { MayOverwrite D.Source elf.old at len }
    ensures over { Overwrites D.Source D.Device.own result elf.old elf.new at
        (slice_index_or (stored_pieces elf.old.o part) p absent_piece).1 }
    ensures page { length page.new ≡ length page.old }
{
    let mut done = 0;
    while done < len {
        let some = (len - done).min(page.len() as u64);
        let buf = &mut page[..some as usize];
        let _object = elf.dirty();
        if let Err(e) = write_some(elf, buf, part, p, done, at + done) {
            return Err(e);
        }
        done += some;
    }
    Ok(())
}

/// Puts a piece of a part, which is at the end so far, rounded up to its alignment, with the fill
/// byte before it, and returns the end after it. The part is at the place `start` of the device.
fn write_piece<D: Device>(
    elf: &mut Elf<D>,
    page: &mut [u8],
    part: Part,
    p: u32,
    start: u64,
    end: u64,
    fill: u8,
) -> Result<u64, ElfError>
    requires room { 0 < length page.old }
    requires stored { HasStoredPlaces elf.old.o }
    requires held { NeedsNoRead elf.old part }
    requires there { p < length (stored_pieces elf.old.o part) }
    requires small { let piece = slice_index_or (stored_pieces elf.old.o part) p absent_piece in
        start + (rounded_up end piece.0 + length piece.1) < 2 ^ 64 }
    requires may { MayOverwrite D.Source elf.old (start + end)
        (length (filled_piece
        (slice_index_or (stored_pieces elf.old.o part) p absent_piece) end fill)) }
    ensures end { let piece = slice_index_or (stored_pieces elf.old.o part) p absent_piece in
        IfOk result (λ after. after ≡ rounded_up end piece.0 + length piece.1) }
    ensures over { Overwrites D.Source D.Device.own result elf.old elf.new (start + end)
        (filled_piece (slice_index_or (stored_pieces elf.old.o part) p absent_piece) end fill) }
    ensures page { length page.new ≡ length page.old }
{
    let piece = elf.piece(part, p);
    let at = end.next_multiple_of(piece.align.max(1));
    if let Err(e) = write_fill(elf, page, start + end, at - end, fill) {
        return Err(e);
    }
    let _object = elf.dirty();
    if let Err(e) = write_range(elf, page, part, p, start + at, piece.len) {
        return Err(e);
    }
    Ok(at + piece.len)
}

/// Puts a part over the device, where it is: its pieces, with the fill byte between them. Its bytes
/// are in memory. It fails with `Write` alone, reads nothing and takes no memory.
pub fn write_part<D: Device>(
    elf: &mut Elf<D>,
    page: &mut [u8],
    part: PartAt,
    fill: u8,
) -> Result<(), ElfError>
    requires room { 0 < length page.old }
    requires stored { HasStoredPlaces elf.old.o }
    requires held { NeedsNoRead elf.old part.part }
    requires long { HasLength (stored_pieces elf.old.o) part }
    requires small { part.at + part.len < 2 ^ 64 }
    requires may { MayOverwrite D.Source elf.old part.at part.len }
    ensures over { Overwrites D.Source D.Device.own result elf.old elf.new part.at
        (stacked_text fill (stored_pieces elf.old.o part.part)) }
    ensures page { length page.new ≡ length page.old }
{
    let count = elf.piece_count(part.part);
    let mut end = 0;
    for p in 0..count {
        let _object = elf.dirty();
        match write_piece(elf, page, part.part, p, part.at, end, fill) {
            Ok(after) => end = after,
            Err(e) => return Err(e),
        }
    }
    Ok(())
}
