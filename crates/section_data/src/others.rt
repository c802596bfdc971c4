//! The pieces of a section after the first.

ghost use Rattle.std.specs.Prelude.{◌≡◌, ◌<◌, ◌≤◌, ◌++◌, ◌∷◌, [], length, true, IfErr, OnOk, OnErr};
ghost use Rattle.std.specs.Borrow.{sem};
ghost use Rattle.section_data.specs.Views.{piece_of};
ghost use Rattle.section_data.specs.Spans.{IsRun};

use crate::blocks::{LONG, MIDDLE, Run, SHORT, first_run, forget, note_blocks};
use crate::piece::Piece;
use crate::spans::Span;
use std::alloc::Global;
use std::marker::Model;

/// The pieces of a section after the first. Of each block of 16 pieces that hold bytes, of each 32
/// such blocks and of each 32 of those it can be noted what they do to the end before them, in 32
/// bytes. So a place among the pieces is found in some 32 steps for each of the three lengths, and
/// what is noted of a piece that is changed is forgotten and noted again in as many. Contracts see
/// the pieces.
#[derive(Drop)]
pub(crate) struct Others {
    pieces: Vec<Piece>,
    /// What is noted of each block of 16 pieces, from the first on; nothing of one that was changed
    /// since.
    short: Vec<Option<Span>>,
    /// What each block of 512 pieces does to the end before it.
    middle: Vec<Option<Span>>,
    /// What each block of 16,384 pieces does to the end before it.
    long: Vec<Option<Span>>,
}

impl Model for Others {
    ghost use Rattle.std.specs.Prelude.{List};
    ghost use Rattle.elf_object.specs.Object.{Piece as PlainPiece};
    ghost use Rattle.section_data.specs.Spans.{AreAllNoted};

    ghost Value = { List PlainPiece };

    ghost view = { λ o. o.pieces.items };

    ghost invariant = { λ o.
        AreAllNoted o.short.items o.middle.items o.long.items o.pieces.items };
}

impl Others {
    ghost use Rattle.section_data.specs.Lends.{LendsOther};

    /// No pieces. It takes no memory.
    pub(crate) fn new(alloc: Global) -> Others
        ensures { result ≡ [] }
    {
        Others {
            pieces: Vec::new(alloc),
            short: Vec::new(alloc),
            middle: Vec::new(alloc),
            long: Vec::new(alloc),
        }
    }

    /// The number of the pieces.
    pub(crate) fn len(&self) -> usize
        ensures { result ≡ length self.now }
    {
        self.pieces.len()
    }

    /// Whether there are none.
    pub(crate) fn is_empty(&self) -> bool
        ensures { result ≡ true → self.now ≡ [] }
    {
        self.pieces.is_empty()
    }

    /// A piece by its place among these.
    pub(crate) fn get(&self, i: usize) -> &Piece
        requires { i < length self.now }
        ensures { result.now ≡ piece_of self.now i }
    {
        &self.pieces[i]
    }

    /// A piece, lent for writing: what the borrower leaves is in its place.
    pub(crate) fn get_mut(&mut self, i: usize) -> &mut Piece
        requires { i < length self.old }
        ensures* lends { sem 𝓛 (LendsOther i self.entry result) }
        ensures value { result.now ≡ piece_of self.old i }
    {
        forget(&mut self.short, i / SHORT);
        forget(&mut self.middle, i / MIDDLE);
        forget(&mut self.long, i / LONG);
        &mut self.pieces[i]
    }

    /// Adds a piece. Where there is no memory it hands the piece back, and nothing changes.
    pub(crate) fn push(&mut self, piece: Piece) -> Result<(), Piece>
        ensures ok { OnOk result (self.new ≡ self.old ++ piece ∷ []) }
        ensures unchanged { OnErr result (self.new ≡ self.old) }
        ensures back { IfErr result (λ back. back ≡ piece) }
    {
        match self.pieces.push(piece) {
            Ok(()) => Ok(()),
            Err(refused) => Err(refused.value),
        }
    }

    /// Notes where pieces that hold bytes end, block by block, as far as there is memory for it.
    pub(crate) fn note(&mut self)
        ensures { self.new ≡ self.old }
    {
        note_blocks(
            self.pieces.as_slice(),
            &mut self.short,
            &mut self.middle,
            &mut self.long,
        );
    }

    /// The pieces that come first, as far as they hold bytes and end at a limit at the latest,
    /// where the piece before them ends at `before`. It takes few steps where it is noted where
    /// they end.
    pub(crate) fn run(&self, before: u64, limit: u64) -> Run
        requires { before ≤ limit }
        ensures run { IsRun before self.now result.count result.end }
        ensures within { result.end ≤ limit }
    {
        first_run(
            self.short.as_slice(),
            self.middle.as_slice(),
            self.long.as_slice(),
            self.pieces.as_slice(),
            before,
            limit,
        )
    }
}
