//! What a run of pieces does to the end before it.

ghost use Rattle.std.specs.Prelude.{◌≡◌, ◌+◌, ◌%◌, ◌<◌, ◌≤◌, ◌∷◌, [], ℕ, length, IfSome};
ghost use Rattle.std.specs.Option.{SomeIff};
ghost use Rattle.elf_object.specs.elf_layout.Layout.{rounded_up};
ghost use Rattle.section_data.specs.Spans.{OwnsBytes, IsSpan, span_end};

use crate::piece::Piece;
use elf_object::prelude::rounded_within;
use elf_types::Kind;

/// What a run of pieces that hold bytes does to the end before it, whatever that end is.
#[derive(Clone, Copy)]
pub(crate) struct Span {
    /// So many bytes come first.
    pub(crate) before: u64,
    /// Then the place is rounded up to this alignment, the greatest of the pieces.
    pub(crate) align: u64,
    /// So many bytes follow.
    pub(crate) len: u64,
}

impl Span {
    /// The span of no pieces.
    #[tactic(auto, using(crate::proofs::Rounding::rounded_to_one))]
    pub(crate) fn none() -> Span
        ensures end { (end : ℕ) → span_end result end ≡ end }
        ensures some { 0 < result.align }
    {
        Span {
            before: 0,
            align: 1,
            len: 0,
        }
    }

    /// Where the run ends that is after an end; None exactly where that is above a limit.
    #[tactic(auto, using(crate::proofs::Sizes::rounded_up_le))]
    pub(crate) fn end_within(&self, end: u64, limit: u64) -> Option<u64>
        ensures { SomeIff result (span_end self.now end ≤ limit) (span_end self.now end) }
    {
        let Some(from) = end.checked_add(self.before) else {
            return None;
        };
        let Some(at) = rounded_within(from, self.align, limit) else {
            return None;
        };
        if limit - at < self.len {
            return None;
        }
        Some(at + self.len)
    }

    /// The run with a piece more, whose alignment divides the run's.
    fn lengthened(&self, align: u64, len: u64) -> Option<Span>
        requires run { 0 < self.now.align }
        requires some { 0 < align }
        requires divides { self.now.align % align ≡ 0 }
        ensures some { IfSome result (λ s. 0 < s.align) }
        ensures end { IfSome result (λ s. (end : ℕ)
            → span_end s end ≡ rounded_up (span_end self.now end) align + len) }
    {
        let Some(at) = rounded_within(self.len, align, u64::MAX) else {
            return None;
        };
        let Some(len) = at.checked_add(len) else {
            return None;
        };
        Some(Span {
            before: self.before,
            align: self.align,
            len,
        })
    }

    /// The run with a piece more, whose alignment is a multiple of the run's.
    fn widened(&self, align: u64, len: u64) -> Option<Span>
        requires run { 0 < self.now.align }
        requires some { 0 < align }
        requires divides { align % self.now.align ≡ 0 }
        ensures some { IfSome result (λ s. 0 < s.align) }
        ensures end { IfSome result (λ s. (end : ℕ)
            → span_end s end ≡ rounded_up (span_end self.now end) align + len) }
    {
        let Some(more) = rounded_within(self.len, self.align, u64::MAX) else {
            return None;
        };
        let Some(before) = self.before.checked_add(more) else {
            return None;
        };
        Some(Span { before, align, len })
    }

    /// The run with a piece more, of an alignment and a length. It is None only where a number
    /// passes 2^64 - 1, or where neither of the two alignments divides the other, as powers of two
    /// do.
    fn followed(&self, align: u64, len: u64) -> Option<Span>
        requires { 0 < self.now.align }
        ensures some { IfSome result (λ s. 0 < s.align) }
        ensures end { IfSome result (λ s. (end : ℕ)
            → span_end s end ≡ rounded_up (span_end self.now end) align + len) }
    {
        if align == 0 {
            return None;
        }
        if self.align % align == 0 {
            return self.lengthened(align, len);
        }
        if align % self.align == 0 {
            return self.widened(align, len);
        }
        None
    }

    /// The run with another one after it. It is None only where `followed` is.
    pub(crate) fn joined(&self, next: Span) -> Option<Span>
        requires { 0 < self.now.align }
        ensures some { IfSome result (λ s. 0 < s.align) }
        ensures end { IfSome result (λ s. (end : ℕ)
            → span_end s end ≡ span_end next (span_end self.now end)) }
    {
        let Some(len) = self.len.checked_add(next.before) else {
            return None;
        };
        let longer = Span {
            before: self.before,
            align: self.align,
            len,
        };
        longer.followed(next.align, next.len)
    }
}

/// The number of the bytes of a piece that has bytes of its own.
pub(crate) fn own_len(piece: &Piece) -> Option<u64>
    ensures { IfSome result (OwnsBytes piece.now) }
{
    if !piece.is_own() {
        return None;
    }
    let items = piece.items();
    if items.kind() != Kind::Bytes {
        return None;
    }
    Some(items.count())
}

/// What a piece does to the end before it, where it has bytes of its own.
pub(crate) fn piece_span(piece: &Piece) -> Option<Span>
    ensures { IfSome result (λ s. IsSpan s (piece.now ∷ [])) }
{
    let Some(len) = own_len(piece) else {
        return None;
    };
    Some(Span {
        before: 0,
        align: piece.align(),
        len,
    })
}

/// What pieces do to the end before them, where each of them has bytes of its own.
pub(crate) fn span_of(pieces: &[Piece]) -> Option<Span>
    ensures { IfSome result (λ s. IsSpan s pieces.now) }
{
    let mut span = Span::none();
    for i in 0..pieces.len() {
        let Some(len) = own_len(&pieces[i]) else {
            return None;
        };
        let Some(more) = span.followed(pieces[i].align(), len) else {
            return None;
        };
        span = more;
    }
    Some(span)
}
