//! What is noted of blocks of pieces.

ghost use Rattle.std.specs.Prelude.{◌≡◌, ◌⊎◌, ◌+◌, ◌*◌, ◌%◌, ◌<◌, ◌≤◌, ℕ, List, length, Some, None, IfSome, slice_index_or};
ghost use Rattle.elf_object.specs.Object.{Piece as PlainPiece};
ghost use Rattle.section_data.specs.declared.spans.Span.{Span as TheSpan};
ghost use Rattle.section_data.specs.Spans.{AreNoted, IsNoted, IsRun};

use crate::piece::Piece;
use crate::spans::{Span, piece_span, span_of};

/// How many blocks there are in a block of the next length.
const PARTS: usize = 32;

/// How many pieces there are in a short block.
pub(crate) const SHORT: usize = 16;

/// How many pieces there are in a block of 32 short blocks.
pub(crate) const MIDDLE: usize = 512;

/// How many pieces there are in a long block, of 32 such blocks.
pub(crate) const LONG: usize = 16_384;

/// So many of the pieces that come first, each of which holds bytes, and where the last of them
/// ends.
#[derive(Clone, Copy)]
pub(crate) struct Run {
    /// The number of the pieces.
    pub(crate) count: usize,
    /// The end of the last one.
    pub(crate) end: u64,
}

/// What is noted of a block.
fn noted(spans: &[Option<Span>], block: usize) -> Option<Span>
    ensures { result ≡ slice_index_or spans.now block None }
{
    if spans.len() <= block {
        return None;
    }
    spans[block]
}

/// Forgets what is noted of a block.
pub(crate) fn forget(spans: &mut Vec<Option<Span>>, block: usize)
    ensures { (i : ℕ) (s : TheSpan) → slice_index_or spans.new.items i None ≡ Some s
        → (slice_index_or spans.old.items i None ≡ Some s) × (i ≡ block → ⊥) }
{
    if spans.len() <= block {
        return;
    }
    spans[block] = None;
}

/// Notes something of a block, where there is memory for it and something is noted of the block
/// before it.
fn note(spans: &mut Vec<Option<Span>>, block: usize, span: Span)
    ensures { (i : ℕ) (s : TheSpan) → slice_index_or spans.new.items i None ≡ Some s
        → (slice_index_or spans.old.items i None ≡ Some s) ⊎ ((i ≡ block) × (s ≡ span)) }
{
    if block < spans.len() {
        spans[block] = Some(span);
        return;
    }
    if spans.len() < block {
        return;
    }
    let _noted = spans.push(Some(span));
}

/// What the pieces of a short block do to the end before them, where each of them has bytes of its
/// own.
fn short_span(pieces: &[Piece], block: usize) -> Option<Span>
    requires { 16 * block + 16 ≤ length pieces.now }
    ensures { IfSome result (λ s. IsNoted 16 block s pieces.now) }
{
    let from = block * SHORT;
    span_of(&pieces[from..from + SHORT])
}

/// What the pieces of a block of shorter blocks do to the end before them, where something is noted
/// of each of those.
fn joined_span(spans: &[Option<Span>], block: usize) -> Option<Span>
    ensures { (size : ℕ) (pieces : List PlainPiece) → AreNoted size spans.now pieces
        → IfSome result (λ s. IsNoted (size * 32) block s pieces) }
{
    if spans.len() / PARTS <= block {
        return None;
    }
    let from = block * PARTS;
    let mut span = Span::none();
    for part in 0..PARTS {
        let Some(next) = spans[from + part] else {
            return None;
        };
        let Some(more) = span.joined(next) else {
            return None;
        };
        span = more;
    }
    Some(span)
}

/// Notes a short block, of which nothing may be noted yet; false where that can not be told.
fn note_short(pieces: &[Piece], short: &mut Vec<Option<Span>>, block: usize) -> bool
    requires there { 16 * block + 16 ≤ length pieces.now }
    requires short { AreNoted 16 short.old.items pieces.now }
    ensures { AreNoted 16 short.new.items pieces.now }
{
    if noted(short.as_slice(), block).is_some() {
        return true;
    }
    let Some(span) = short_span(pieces, block) else {
        return false;
    };
    note(short, block, span);
    true
}

/// Notes the short blocks from one up to another; false where one of them can not be told.
fn note_shorts(pieces: &[Piece], short: &mut Vec<Option<Span>>, from: usize, to: usize) -> bool
    requires there { 16 * to ≤ length pieces.now }
    requires short { AreNoted 16 short.old.items pieces.now }
    ensures { AreNoted 16 short.new.items pieces.now }
{
    for block in from..to {
        if !note_short(pieces, short, block) {
            return false;
        }
    }
    true
}

/// Notes a block of short blocks, of which nothing may be noted yet, and first those in it; false
/// where one of them can not be told.
fn note_middle(
    pieces: &[Piece],
    short: &mut Vec<Option<Span>>,
    middle: &mut Vec<Option<Span>>,
    block: usize,
) -> bool
    requires there { 512 * block + 512 ≤ length pieces.now }
    requires short { AreNoted 16 short.old.items pieces.now }
    requires middle { AreNoted 512 middle.old.items pieces.now }
    ensures short { AreNoted 16 short.new.items pieces.now }
    ensures middle { AreNoted 512 middle.new.items pieces.now }
{
    if noted(middle.as_slice(), block).is_some() {
        return true;
    }
    let first = block * PARTS;
    if !note_shorts(pieces, short, first, first + PARTS) {
        return false;
    }
    let Some(span) = joined_span(short.as_slice(), block) else {
        return false;
    };
    note(middle, block, span);
    true
}

/// Notes the blocks of short blocks from one up to another, and first those in them; false where
/// one of them can not be told.
fn note_middles(
    pieces: &[Piece],
    short: &mut Vec<Option<Span>>,
    middle: &mut Vec<Option<Span>>,
    from: usize,
    to: usize,
) -> bool
    requires there { 512 * to ≤ length pieces.now }
    requires short { AreNoted 16 short.old.items pieces.now }
    requires middle { AreNoted 512 middle.old.items pieces.now }
    ensures short { AreNoted 16 short.new.items pieces.now }
    ensures middle { AreNoted 512 middle.new.items pieces.now }
{
    for block in from..to {
        if !note_middle(pieces, short, middle, block) {
            return false;
        }
    }
    true
}

/// Notes a long block, of which nothing may be noted yet, and first those in it; false where one of
/// them can not be told.
fn note_long(
    pieces: &[Piece],
    short: &mut Vec<Option<Span>>,
    middle: &mut Vec<Option<Span>>,
    long: &mut Vec<Option<Span>>,
    block: usize,
) -> bool
    requires there { 16384 * block + 16384 ≤ length pieces.now }
    requires short { AreNoted 16 short.old.items pieces.now }
    requires middle { AreNoted 512 middle.old.items pieces.now }
    requires long { AreNoted 16384 long.old.items pieces.now }
    ensures short { AreNoted 16 short.new.items pieces.now }
    ensures middle { AreNoted 512 middle.new.items pieces.now }
    ensures long { AreNoted 16384 long.new.items pieces.now }
{
    if noted(long.as_slice(), block).is_some() {
        return true;
    }
    let first = block * PARTS;
    if !note_middles(pieces, short, middle, first, first + PARTS) {
        return false;
    }
    let Some(span) = joined_span(middle.as_slice(), block) else {
        return false;
    };
    note(long, block, span);
    true
}

/// Notes the long blocks, and first those in them; false where one of them can not be told.
fn note_longs(
    pieces: &[Piece],
    short: &mut Vec<Option<Span>>,
    middle: &mut Vec<Option<Span>>,
    long: &mut Vec<Option<Span>>,
) -> bool
    requires short { AreNoted 16 short.old.items pieces.now }
    requires middle { AreNoted 512 middle.old.items pieces.now }
    requires long { AreNoted 16384 long.old.items pieces.now }
    ensures short { AreNoted 16 short.new.items pieces.now }
    ensures middle { AreNoted 512 middle.new.items pieces.now }
    ensures long { AreNoted 16384 long.new.items pieces.now }
{
    for block in 0..pieces.len() / LONG {
        if !note_long(pieces, short, middle, long, block) {
            return false;
        }
    }
    true
}

/// Notes what the pieces of each block do to the end before them, up to the first short block of
/// which that can not be told. A block of which it is noted is passed over, with those in it.
pub(crate) fn note_blocks(
    pieces: &[Piece],
    short: &mut Vec<Option<Span>>,
    middle: &mut Vec<Option<Span>>,
    long: &mut Vec<Option<Span>>,
)
    requires short { AreNoted 16 short.old.items pieces.now }
    requires middle { AreNoted 512 middle.old.items pieces.now }
    requires long { AreNoted 16384 long.old.items pieces.now }
    ensures short { AreNoted 16 short.new.items pieces.now }
    ensures middle { AreNoted 512 middle.new.items pieces.now }
    ensures long { AreNoted 16384 long.new.items pieces.now }
{
    let count = pieces.len();
    if !note_longs(pieces, short, middle, long) {
        return;
    }
    if !note_middles(pieces, short, middle, count / LONG * PARTS, count / MIDDLE) {
        return;
    }
    let _all = note_shorts(pieces, short, count / MIDDLE * PARTS, count / SHORT);
}

/// A run with the blocks of a length after it, as far as something is noted of them and they end at
/// a limit at the latest.
fn run_of_blocks(spans: &[Option<Span>], size: usize, pieces: &[Piece], run: Run, limit: u64) -> Run
    requires some { 0 < size }
    requires noted { AreNoted size spans.now pieces.now }
    requires whole { run.count % size ≡ 0 }
    requires within { run.end ≤ limit }
    ensures longer { (before : ℕ) → IsRun before pieces.now run.count run.end
        → IsRun before pieces.now result.count result.end }
    ensures whole { result.count % size ≡ 0 }
    ensures within { result.end ≤ limit }
{
    let mut count = run.count;
    let mut end = run.end;
    for block in run.count / size..spans.len() {
        let Some(span) = spans[block] else {
            return Run { count, end };
        };
        let Some(next) = span.end_within(end, limit) else {
            return Run { count, end };
        };
        count += size;
        end = next;
    }
    Run { count, end }
}

/// A run with the pieces after it, as far as they have bytes of their own and end at a limit at the
/// latest.
fn run_of_pieces(pieces: &[Piece], run: Run, limit: u64) -> Run
    requires there { run.count ≤ length pieces.now }
    requires within { run.end ≤ limit }
    ensures longer { (before : ℕ) → IsRun before pieces.now run.count run.end
        → IsRun before pieces.now result.count result.end }
    ensures within { result.end ≤ limit }
{
    let all = pieces.len();
    let mut end = run.end;
    for i in run.count..all {
        let Some(span) = piece_span(&pieces[i]) else {
            return Run { count: i, end };
        };
        let Some(next) = span.end_within(end, limit) else {
            return Run { count: i, end };
        };
        end = next;
    }
    Run { count: all, end }
}

/// The pieces that come first, as far as they have bytes of their own and end at a limit at the
/// latest, where the piece before them ends at `before`: block by block as far as something is
/// noted of them, the long ones first, and then piece by piece.
pub(crate) fn first_run(
    short: &[Option<Span>],
    middle: &[Option<Span>],
    long: &[Option<Span>],
    pieces: &[Piece],
    before: u64,
    limit: u64,
) -> Run
    requires short { AreNoted 16 short.now pieces.now }
    requires middle { AreNoted 512 middle.now pieces.now }
    requires long { AreNoted 16384 long.now pieces.now }
    requires within { before ≤ limit }
    ensures run { IsRun before pieces.now result.count result.end }
    ensures within { result.end ≤ limit }
{
    let start = Run {
        count: 0,
        end: before,
    };
    let first = run_of_blocks(long, LONG, pieces, start, limit);
    let second = run_of_blocks(middle, MIDDLE, pieces, first, limit);
    let third = run_of_blocks(short, SHORT, pieces, second, limit);
    run_of_pieces(pieces, third, limit)
}
