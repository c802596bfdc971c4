//! Ranges of a text, one after the other.

ghost use Rattle.std.specs.Prelude.{◌≡◌, ◌+◌, ◌-◌, ◌<◌, ◌≤◌, ℕ, length, drop, slice_index_or};
ghost use Rattle.std.specs.List.Sorted.{IsNonDecreasingBy};
ghost use Rattle.strtab_shared.specs.Bytes.Stretches.{StandFrom, no_stretch, stretch_bytes, stretched};
ghost use Rattle.strtab_shared.specs.Bytes.Pieces.{IsPieceAt};

/// A range of a text that is among other bytes.
#[derive(Clone, Copy)]
pub struct Stretch {
    /// The place of its first byte in the text.
    pub at: u64,
    /// The number of its bytes.
    pub len: u64,
    /// The place after its last byte, where it is.
    pub end: u64,
}

/// The index of the first stretch that ends after a place, of those whose ends do not fall.
fn index_at(stretches: &[Stretch], at: u64) -> usize
    requires { IsNonDecreasingBy (λ (s : Stretch). s.end) stretches.now }
    ensures before { (k : ℕ) (d : Stretch) → k < result
        → (slice_index_or stretches.now k d).end ≤ at }
    ensures behind { (k : ℕ) (d : Stretch) → result ≤ k → k < length stretches.now
        → at < (slice_index_or stretches.now k d).end }
{
    stretches.partition_point(|s| s.end <= at)
}

/// The stretch at an index.
fn stretch_at(stretches: &[Stretch], i: usize) -> Stretch
    requires { i < length stretches.now }
    ensures { result ≡ slice_index_or stretches.now i no_stretch }
{
    stretches[i]
}

/// The bytes of a stretch from a place on, at which or before which it begins.
fn rest_of(text: &[u8], s: Stretch, at: u64) -> &[u8]
    requires inside { s.at + s.len ≤ length text.now }
    requires begun { s.end ≤ at + s.len }
    requires ends { at < s.end }
    ensures { result.now ≡ drop (at + s.len - s.end) (stretch_bytes text.now s) }
{
    let _held = text.len();
    let past = s.at + s.len;
    let first = past - (s.end - at);
    &text[first as usize..past as usize]
}

/// The bytes from a place on that are together in a stretch.
pub(crate) fn piece_of<'a>(text: &'a [u8], stretches: &[Stretch], at: u64) -> &'a [u8]
    requires stand { StandFrom text.now 0 stretches.now }
    requires below { at < length (stretched text.now stretches.now) }
    ensures { IsPieceAt at (stretched text.now stretches.now) result.now }
{
    let i = index_at(stretches, at);
    let s = stretch_at(stretches, i);
    rest_of(text, s, at)
}
