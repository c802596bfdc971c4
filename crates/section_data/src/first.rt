//! The first pieces of a section.

ghost use Rattle.std.specs.Prelude.{◌≡◌};

/// So many pieces, the first of a section, each of which holds bytes, and where they end.
#[derive(Clone, Copy)]
pub struct FirstPieces {
    /// The number of the pieces.
    pub count: u32,
    /// Where the last of them ends in the section's data.
    pub end: u64,
}

impl FirstPieces {
    /// No pieces.
    pub(crate) fn none() -> FirstPieces
        ensures count { result.count ≡ 0 }
        ensures end { result.end ≡ 0 }
    {
        FirstPieces { count: 0, end: 0 }
    }
}
