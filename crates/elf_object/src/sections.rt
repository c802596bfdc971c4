//! Small questions on sections and their pieces.

ghost use Rattle.std.specs.Prelude.{◌≡◌};
ghost use Rattle.elf_object.specs.Object.{is_allocated, occupies_file};
ghost use Rattle.elf_object.specs.Open.{home_len};
ghost use Rattle.elf_object.specs.Calls.{is_piece_align};

use elf_types::Shdr;
use elf_types::constants::{MAX_PIECE_ALIGN, SHF_ALLOC, SHT_NOBITS, SHT_NULL};

/// Whether a section with this header occupies space in the file, be it 0 bytes.
pub fn occupies_file(h: &Shdr) -> bool
    ensures { result ≡ occupies_file h.now }
{
    h.stype != SHT_NULL && h.stype != SHT_NOBITS
}

/// Whether a section with this header is in memory when the program runs.
///
/// Source: gABI chapter 4, "Sections", SHF_ALLOC.
#[tactic(auto, unfolding(crate::specs::Object::is_allocated))]
pub fn is_allocated(h: &Shdr) -> bool
    ensures { result ≡ is_allocated h.now }
{
    h.flags / SHF_ALLOC % 2 == 1
}

/// How many bytes of the file a section with this header has.
#[tactic(auto, unfolding(crate::specs::Open::home_len))]
pub fn home_len(h: &Shdr) -> u64
    ensures { result ≡ home_len h.now }
{
    if occupies_file(h) { h.size } else { 0 }
}

/// Whether a piece of data may have this alignment: a power of two, at most [`MAX_PIECE_ALIGN`].
#[tactic(auto, unfolding(crate::specs::Calls::is_piece_align))]
pub fn is_piece_align(align: u64) -> bool
    ensures { result ≡ is_piece_align align }
{
    align.is_power_of_two() && align <= MAX_PIECE_ALIGN
}
