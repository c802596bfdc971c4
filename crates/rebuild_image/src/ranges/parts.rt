//! Ranges of bytes as the parts of an image.

ghost use Rattle.std.specs.Prelude.{◌≡◌, ℕ, List, ◌<◌, ◌+◌, ◌^◌, ◌≤◌, IsTrue, is_some, length, take, drop, slice_index_or, if◌then◌else◌, IfErr, OnOk};
ghost use Rattle.elf_update_to.specs.Origins.{absent_piece, CopiesBy, IsExtent};
ghost use Rattle.rebuild_image.specs.Ranges.Ranges.{IsInside, LiesInside, range_bytes, pieces_at, range_piece_due, bytes_of_source, kept_of_source, source_faults, source_taken};

use crate::ranges::ranges::{ByteRange, PartRanges, range_at};
use elf_outside::Source;
use elf_outside::reads::read;
use elf_types::{ElfError, Part};
use elf_update_to::{ImageParts, Origin, PieceExtent};
use strtab_shared::bytes::SharedBytes;

/// The parts of an image: each is one piece, a range of the bytes that are held or of those of a
/// source, which are the base. Between the parts are the first bytes of that base.
#[derive(Drop)]
pub struct RangedParts<S: Source> {
    /// The source from which it is copied.
    pub source: S,
    /// The bytes that are held.
    pub held: SharedBytes,
    /// The ranges of the parts.
    pub ranges: PartRanges,
    /// How many first bytes of the base are between the parts.
    pub kept: u64,
}

/// The number of bytes of a source.
pub(crate) fn base_len<S: Source>(src: &S) -> u64
    ensures { result ≡ length (bytes_of_source S.Source src.now) }
{
    src.len()
}

/// Copies bytes of a source from the place `at` on into the whole of `buf`. It fails with `Read`
/// alone and takes no memory.
fn copy_source<S: Source>(src: &mut S, at: u64, buf: &mut [u8]) -> Result<(), ElfError>
    requires { at + length buf.old ≤ length (bytes_of_source S.Source src.old) }
    ensures bytes { IsTrue (is_some (S.holds src.old)) → OnOk result (buf.new
        ≡ take (length buf.old) (drop at (bytes_of_source S.Source src.old))) }
    ensures copies { CopiesBy (kept_of_source S.Source) (source_faults S.Source)
        (source_taken S.Source) result src.old src.new (length buf.old) }
    ensures err { IfErr result (λ e. e ≡ ElfError.Read) }
{
    read(src, at, buf)
}

/// Copies bytes of a range from a place in it on into the whole of `buf`. It fails with `Read`
/// alone and takes no memory.
fn copy_range<S: Source>(
    src: &mut S,
    held: &SharedBytes,
    range: ByteRange,
    from: u64,
    buf: &mut [u8],
) -> Result<(), ElfError>
    requires inside { IsInside held.now (bytes_of_source S.Source src.old) range }
    requires there { from + length buf.old ≤ range.len }
    ensures bytes { IsTrue (is_some (S.holds src.old)) → OnOk result (buf.new
        ≡ take (length buf.old)
        (drop from (range_bytes held.now (bytes_of_source S.Source src.old) range))) }
    ensures copies { CopiesBy (kept_of_source S.Source) (source_faults S.Source)
        (source_taken S.Source) result src.old src.new (if range.held then 0 else length buf.old) }
    ensures err { IfErr result (λ e. e ≡ ElfError.Read) }
{
    if range.held {
        let _count = held.len();
        let place = range.at + from;
        held.copy_at(place, buf);
        return Ok(());
    }
    let _len = base_len(src);
    let at = range.at + from;
    copy_source(src, at, buf)
}

/// Copies bytes of a piece of a part, of which this is the range, at least one, from a place in it
/// on into the whole of `buf`. It fails with `Read` alone and takes no memory.
fn copy_some<S: Source>(
    src: &mut S,
    held: &SharedBytes,
    range: Option<ByteRange>,
    p: u32,
    from: u64,
    buf: &mut [u8],
) -> Result<(), ElfError>
    requires inside { LiesInside held.now (bytes_of_source S.Source src.old) range }
    requires there { from + length buf.old
        ≤ length (slice_index_or (pieces_at held.now (bytes_of_source S.Source src.old) range) p
        absent_piece).1 }
    requires some { 0 < length buf.old }
    ensures bytes { IsTrue (is_some (S.holds src.old)) → OnOk result (buf.new
        ≡ take (length buf.old) (drop from (slice_index_or
        (pieces_at held.now (bytes_of_source S.Source src.old) range) p absent_piece).1)) }
    ensures copies { CopiesBy (kept_of_source S.Source) (source_faults S.Source)
        (source_taken S.Source) result src.old src.new
        (range_piece_due range p from (from + length buf.old)) }
    ensures err { IfErr result (λ e. e ≡ ElfError.Read) }
{
    match range {
        Some(range) => copy_range(src, held, range, from, buf),
        None => Ok(()),
    }
}

/// Copies any number of bytes of a piece, from a place in it on, into the whole of `buf`.
fn copy_piece<S: Source>(
    src: &mut S,
    held: &SharedBytes,
    range: Option<ByteRange>,
    p: u32,
    from: u64,
    buf: &mut [u8],
) -> Result<(), ElfError>
    requires inside { LiesInside held.now (bytes_of_source S.Source src.old) range }
    requires there { from + length buf.old
        ≤ length (slice_index_or (pieces_at held.now (bytes_of_source S.Source src.old) range) p
        absent_piece).1 }
    ensures bytes { IsTrue (is_some (S.holds src.old)) → OnOk result (buf.new
        ≡ take (length buf.old) (drop from (slice_index_or
        (pieces_at held.now (bytes_of_source S.Source src.old) range) p absent_piece).1)) }
    ensures copies { CopiesBy (kept_of_source S.Source) (source_faults S.Source)
        (source_taken S.Source) result src.old src.new
        (range_piece_due range p from (from + length buf.old)) }
    ensures err { IfErr result (λ e. e ≡ ElfError.Read) }
{
    if buf.is_empty() {
        return Ok(());
    }
    copy_some(src, held, range, p, from, buf)
}

/// The number of pieces of a part, of which this is the range.
fn count_pieces(range: Option<ByteRange>) -> u32
    ensures { (held base : List ℕ) → result ≡ length (pieces_at held base range) }
{
    match range {
        Some(_) => 1,
        None => 0,
    }
}

/// The alignment and the length of a piece that is there.
fn extent_of(range: Option<ByteRange>) -> PieceExtent
    ensures { (held base : List ℕ) (p : ℕ) → LiesInside held base range
        → p < length (pieces_at held base range)
        → IsExtent result (slice_index_or (pieces_at held base range) p absent_piece) }
{
    match range {
        Some(range) => PieceExtent {
            align: 1,
            len: range.len,
        },
        None => PieceExtent { align: 1, len: 0 },
    }
}

impl<S: Source> ImageParts for RangedParts<S> {
    ghost use Rattle.std.specs.Prelude.{ℕ, List};
    ghost use Rattle.rebuild_image.specs.Ranges.Ranges.{KeptRanges, AreInside, kept_of_parts, ranged_pieces, ranged_base, ranged_due, parts_faults, parts_taken};

    ghost Kept = { KeptRanges };

    ghost kept = { kept_of_parts S.Source };

    ghost ready = { AreInside };

    ghost told = { λ k. k.source.told };

    ghost pieces = { ranged_pieces };

    ghost base = { ranged_base };

    ghost due = { ranged_due };

    ghost faults = { parts_faults S.Source };

    ghost taken = { parts_taken S.Source };

    fn piece_count(&self, part: Part) -> u32 {
        count_pieces(range_at(&self.ranges, part))
    }

    fn piece(&self, part: Part, _p: u32) -> PieceExtent {
        extent_of(range_at(&self.ranges, part))
    }

    fn copy(&mut self, of: Origin, from: u64, buf: &mut [u8]) -> Result<(), ElfError> {
        match of {
            Origin::Piece(part, p) => {
                let range = range_at(&self.ranges, part);
                copy_piece(&mut self.source, &self.held, range, p, from, buf)
            }
            Origin::Base => copy_source(&mut self.source, from, buf),
        }
    }
}
