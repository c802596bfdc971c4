//! What an image is written from.

ghost use Rattle.std.specs.Prelude.{◌≡◌, ℕ, ◌+◌, ◌^◌, ◌≤◌, ◌<◌, Bool, List, length, take, drop, slice_index_or, IsTrue, OnOk, IfErr};
ghost use Rattle.elf_types.specs.declared.records.Part.{Part as ThePart};

use elf_types::{ElfError, Part};

/// Where bytes of an image come from.
#[derive(Clone, Copy, Debug, PartialEq, Eq)]
pub enum Origin {
    /// The piece of a part with that number.
    Piece(Part, u32),
    /// The base, whose bytes are between the parts.
    Base,
}

/// A piece of a part: its alignment in the part, and its length.
#[derive(Clone, Copy, Debug, PartialEq, Eq)]
pub struct PieceExtent {
    /// The alignment in bytes; 0 counts as 1.
    pub align: u64,
    /// The length in bytes.
    pub len: u64,
}

/// What an image is written from: the pieces of its parts, and the base between the parts. Pieces
/// are copied by ranges, so whoever has them need not hold them.
///
/// - `kept` is all that a copy leaves.
/// - `ready` says that pieces can be copied.
/// - `told` says whether the bytes are told. Where they are not, contracts know their number alone.
/// - `pieces` are the pieces of a part, each with its alignment in the part.
/// - `base` is the base.
/// - `due` is how many bytes of the first piece of a part are read from a source: its first ones.
/// - `faults` counts the reads that failed: it never falls, and a copy fails only where it
///   increased, or is at 2^64 - 1.
/// - `taken` counts the bytes that were asked for.
pub trait ImageParts {
    ghost use Rattle.elf_update_to.specs.declared.parts.Origin.{Origin};
    ghost use Rattle.elf_update_to.specs.Origins.{absent_piece, origin_bytes, origin_due, ReadyFor, IsExtent, CopiesBy};
    ghost use Rattle.elf_update_plan.specs.law_object.Writing.Plan.{places_below};

    ghost Kept: { Type 0 };

    ghost kept: { Self → Kept };

    ghost ready: { Kept → Type 0 };

    ghost told: { Kept → Bool };

    ghost pieces: { Kept → ThePart → List (ℕ × List ℕ) };

    ghost base: { Kept → List ℕ };

    ghost due: { Kept → ThePart → ℕ };

    ghost faults: { Self → ℕ };

    ghost taken: { Self → ℕ };

    /// The number of a part's pieces.
    fn piece_count(&self, part: Part) -> u32
        ensures { result ≡ length (pieces (kept self.now) part) };

    /// The alignment and the length of a piece that is there.
    fn piece(&self, part: Part, p: u32) -> PieceExtent
        requires ready { ready (kept self.now) }
        requires there { p < length (pieces (kept self.now) part) }
        ensures { IsExtent result (slice_index_or (pieces (kept self.now) part) p absent_piece) };

    /// Copies bytes from the place `from` in a piece or in the base on into the whole of `buf`. It
    /// fails with `Read` alone and takes no memory.
    fn copy(&mut self, of: Origin, from: u64, buf: &mut [u8]) -> Result<(), ElfError>
        requires ready { ReadyFor (ready (kept self.old)) of }
        requires there { from + length buf.old
            ≤ length (origin_bytes (pieces (kept self.old)) (base (kept self.old)) of) }
        requires small { from + length buf.old < 2 ^ 64 }
        ensures bytes { IsTrue (told (kept self.old)) → OnOk result (buf.new ≡ take
            (length buf.old) (drop from
            (origin_bytes (pieces (kept self.old)) (base (kept self.old)) of))) }
        ensures copies { CopiesBy kept faults taken result self.old self.new
            (places_below
            (origin_due (due (kept self.old)) (length (base (kept self.old))) of)
            from (from + length buf.old)) }
        ensures err { IfErr result (λ e. e ≡ ElfError.Read) };
}
