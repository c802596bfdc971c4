//! The size of a section's data.

ghost use Rattle.std.specs.Prelude.{◌≡◌, ◌-◌, ◌^◌, ◌<◌, ◌≤◌, min};
ghost use Rattle.std.specs.Option.{SomeIff};
ghost use Rattle.section_data.specs.Views.{IsCell};
ghost use Rattle.section_data.specs.Sizes.{piece_size, piece_end, home_size, data_size};
ghost use Rattle.section_data.specs.Spans.{AreFirstIn};

use crate::cell::Cell;
use crate::first::FirstPieces;
use crate::piece::Piece;
use elf_object::prelude::{fsize, rounded_within};
use elf_types::Class;

/// The number of bytes of a piece in the file of a class, in a section whose home has so many; None
/// exactly where it passes 2^64 - 1.
#[tactic(auto, unfolding(crate::specs::Sizes::piece_size))]
fn piece_size(piece: &Piece, class: Class, home_len: u64) -> Option<u64>
    ensures { SomeIff result (piece_size class home_len piece.now < 2 ^ 64)
        (piece_size class home_len piece.now) }
{
    if !piece.is_own() {
        return Some(home_len);
    }
    let items = piece.items();
    fsize(items.kind(), class, items.count())
}

/// Where a piece ends that is next after an end; None exactly where that passes 2^64 - 1.
#[tactic(auto, unfolding(crate::specs::Sizes::piece_end))]
fn piece_end(piece: &Piece, class: Class, home_len: u64, end: u64) -> Option<u64>
    ensures { SomeIff result (piece_end class home_len end piece.now < 2 ^ 64)
        (piece_end class home_len end piece.now) }
{
    let Some(len) = piece_size(piece, class, home_len) else {
        return None;
    };
    let Some(at) = rounded_within(end, piece.align(), u64::MAX) else {
        return None;
    };
    at.checked_add(len)
}

impl Cell {
    /// How many bytes the home has in the file: none where it passes the end of the image.
    fn home_size(&self) -> u64
        ensures { result ≡ home_size self.now }
    {
        self.kept.home_size()
    }

    /// Notes where the pieces that hold bytes end, so that a place among them is found in few
    /// steps. It changes no result. It rejects nothing, and where there is no memory it notes less.
    #[inline(always)]
    pub fn note_pieces(&mut self)
        ensures value { self.new ≡ self.old }
        ensures cell { IsCell self.new }
    {
        self.kept.note_pieces();
    }

    /// The first pieces of the section, each of which holds bytes, as far as the last of them ends
    /// at a limit at the latest. It takes few steps where it is noted where they end, and no
    /// memory.
    ///
    /// Source: gABI chapter 4, "Sections", and elf_newdata of elf(3E).
    #[inline(always)]
    pub fn first_pieces(&self, limit: u64) -> FirstPieces
        ensures first { AreFirstIn self.now result.count result.end }
        ensures within { result.end ≤ limit }
    {
        self.kept.first_pieces(limit)
    }

    /// The size of the section's data in the file of a class: where its last piece ends, and
    /// 2^64 - 1 where that is more. It takes no memory.
    ///
    /// Source: gABI chapter 4, "Sections", and elf_newdata of elf(3E).
    pub fn size(&self, class: Class) -> u64
        ensures { result ≡ min (data_size class self.now) (2 ^ 64 - 1) }
    {
        let home_len = self.home_size();
        let first = self.first_pieces(u64::MAX);
        let mut end = first.end;
        for p in first.count..self.piece_count() {
            match piece_end(self.piece(p), class, home_len, end) {
                Some(next) => end = next,
                None => return u64::MAX,
            }
        }
        end
    }
}
