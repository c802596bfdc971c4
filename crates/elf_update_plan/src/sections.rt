//! Small questions on the sections of a descriptor.

ghost use Rattle.std.specs.Prelude.{◌≡◌, ◌<◌, length};
ghost use Rattle.elf_descriptor.specs.elf_object.Answers.{piece_count};
ghost use Rattle.elf_descriptor.specs.elf_object.Object.{section_at, has_file_bytes, home_is_clean, occupies_file};

use elf_descriptor::prelude::{Source, occupies_file};
use elf_descriptor::{Elf, Held};
use elf_types::{DataId, ScnId};

/// Whether a section that is there occupies space in the file, by its present type.
pub(crate) fn section_occupies_file<S: Source>(elf: &Elf<S>, s: ScnId) -> bool
    requires { s.0 < length elf.now.o.sections }
    ensures { result ≡ occupies_file (section_at elf.now.o s.0).header }
{
    occupies_file(&elf.section_header(s))
}

/// Whether the image holds bytes of a section that is there, empty or not: section 0 has none, and
/// neither has one of type `SHT_NULL` or `SHT_NOBITS`. It reads nothing and takes no memory.
///
/// Source: gABI chapter 4, "Sections".
#[tactic(auto, unfolding(elf_descriptor::specs::Passed::has_file_bytes))]
pub fn has_file_bytes<S: Source>(elf: &Elf<S>, s: ScnId) -> bool
    requires { s.0 < length elf.now.o.sections }
    ensures { result ≡ has_file_bytes s.0 (section_at elf.now.o s.0) }
{
    s.0 != 0 && section_occupies_file(elf, s)
}

/// Whether the image holds bytes of a section, as [`has_file_bytes`] tells it; of one that is not
/// there it holds none. It reads nothing and takes no memory.
pub fn is_in_file<S: Source>(elf: &Elf<S>, s: u32) -> bool
    ensures { result ≡ has_file_bytes s (section_at elf.now.o s) }
{
    if s < elf.shnum() {
        return has_file_bytes(elf, ScnId(s));
    }
    false
}

/// The place and the length of the home of a section that is there. It reads nothing and takes no
/// memory.
#[tactic(auto, unfolding(elf_descriptor::specs::Passed::home_answer))]
pub fn home_extent<S: Source>(elf: &Elf<S>, s: u32) -> (u64, u64)
    requires { s < length elf.now.o.sections }
    ensures place { result.0 ≡ (section_at elf.now.o s).home.at }
    ensures len { result.1 ≡ (section_at elf.now.o s).home.len }
{
    match elf.home(ScnId(s)) {
        Ok(home) => home,
        Err(_) => unreachable!(),
    }
}

/// Whether the home piece of a section that is there is its first one and clean.
#[tactic(auto, unfolding(elf_descriptor::specs::Passed::home_is_clean, elf_descriptor::specs::Passed::piece_at, elf_descriptor::specs::Passed::piece_refusal, elf_descriptor::specs::Passed::piece_count))]
pub(crate) fn home_is_clean<S: Source>(elf: &Elf<S>, s: ScnId) -> bool
    requires { s.0 < length elf.now.o.sections }
    ensures { result ≡ home_is_clean (section_at elf.now.o s.0) }
{
    match elf.held(DataId {
        section: s.0,
        piece: 0,
    }) {
        Ok(Held::Edited(_)) => false,
        Ok(Held::Raw(_)) => true,
        Ok(Held::Unread) => true,
        Err(_) => false,
    }
}

/// The number of pieces of a section that is there. It reads nothing and takes no memory.
#[tactic(auto, unfolding(elf_descriptor::specs::Passed::pieces_answer))]
pub fn count_pieces<S: Source>(elf: &Elf<S>, s: ScnId) -> u32
    requires { s.0 < length elf.now.o.sections }
    ensures { result ≡ piece_count elf.now.o s.0 }
{
    match elf.pieces(s) {
        Ok(count) => count,
        Err(_) => unreachable!(),
    }
}
