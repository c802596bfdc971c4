//! Where a string begins in the pieces of a section.

ghost use Rattle.std.specs.Prelude.{◌≡◌, ◌<◌, ◌-◌, ◌^◌, min, None, Some, length, IfOk, IfErr, IsTrue};
ghost use Rattle.std.specs.List.{list_all};
ghost use Rattle.elf_types.specs.declared.records.Kind.TheVariants as kinds;
ghost use Rattle.elf_descriptor.specs.elf_object.Object.{section_at, piece_at};
ghost use Rattle.elf_descriptor.specs.elf_object.Answers.{kind_at, no_section, piece_count, piece_refusal, same_kind};
ghost use Rattle.elf_descriptor.specs.elf_object.Joined.{pieces_end};
ghost use Rattle.elf_descriptor.specs.elf_object.Strings.{kind_of_piece, no_string};
ghost use Rattle.gelf_view.specs.Strings.{bytes_in, IsOver, Stands};

use elf_descriptor::prelude::{Source, rounded_within};
use elf_descriptor::{Elf, Held};
use elf_types::{DataId, ElfError, ScnId};

/// Where an offset of a section is to a piece.
#[derive(Clone, Copy)]
pub enum Stand {
    /// In the piece, so many bytes from its first one.
    Covers(u64),
    /// After the piece, which ends there.
    Ends(u64),
    /// Before the piece.
    Before,
}

/// Where a string begins.
#[derive(Clone, Copy)]
pub struct Start {
    /// The number of its piece.
    pub piece: u32,
    /// How many bytes of the piece are before it.
    pub start: u64,
}

/// Where an offset is to the piece of `len` bytes that comes next after an end.
fn stand_of(end: u64, align: u64, len: u64, offset: u64) -> Stand
    ensures { Stands end align len offset result }
{
    let Some(at) = rounded_within(end, align, offset) else {
        return Stand::Before;
    };
    if offset - at < len {
        return Stand::Covers(offset - at);
    }
    Stand::Ends(at + len)
}

/// The alignment of a piece that is there.
#[tactic(auto, unfolding(elf_descriptor::specs::Passed::piece_align_answer))]
fn alignment<S: Source>(elf: &Elf<S>, d: DataId) -> u64
    requires { piece_refusal elf.now.o d.section d.piece ≡ None }
    ensures { result ≡ (piece_at elf.now.o d.section d.piece).align }
{
    match elf.piece_align(d) {
        Ok(align) => align,
        Err(_) => unreachable!(),
    }
}

/// The number of bytes of a piece of bytes that is there, in a section whose home has so many.
fn byte_count<S: Source>(elf: &Elf<S>, d: DataId, home_len: u64) -> u64
    requires there { piece_refusal elf.now.o d.section d.piece ≡ None }
    requires kind { kind_at elf.now.o d.section d.piece ≡ kinds.Bytes }
    requires home { home_len ≡ length (section_at elf.now.o d.section).raw }
    ensures { result ≡ length (bytes_in elf.now.o d.section d.piece) }
{
    match elf.held(d) {
        Ok(Held::Edited(items)) => items.count(),
        Ok(Held::Raw(_)) => home_len,
        Ok(Held::Unread) => home_len,
        Err(_) => unreachable!(),
    }
}

/// The size of the data of a section that is there, at most 2^64 - 1.
fn data_size<S: Source>(elf: &Elf<S>, s: ScnId) -> u64
    requires { no_section elf.now.o s.0 ≡ None }
    ensures { result ≡ min (pieces_end elf.now.o s.0) (2 ^ 64 - 1) }
{
    match elf.data_size(s) {
        Ok(size) => size,
        Err(_) => unreachable!(),
    }
}

/// Where an offset begins in the pieces of a section of bytes, whose home has so many; else
/// `NoString`. It passes over the first pieces where it is noted where they end.
#[inline(always)]
pub fn find_start<S: Source>(
    elf: &Elf<S>,
    s: ScnId,
    count: u32,
    home_len: u64,
    offset: u64,
) -> Result<Start, ElfError>
    requires section { no_section elf.now.o s.0 ≡ None }
    requires count { count ≡ piece_count elf.now.o s.0 }
    requires bytes { IsTrue (list_all
        (λ p. same_kind (kind_of_piece (section_at elf.now.o s.0) p) kinds.Bytes)
        (section_at elf.now.o s.0).pieces) }
    requires home { home_len ≡ length (section_at elf.now.o s.0).raw }
    ensures ok { IfOk result (λ x. IsOver elf.now.o s.0 offset x.piece x.start) }
    ensures err { IfErr result (λ e. no_string elf.now.o s.0 offset ≡ Some e) }
{
    let first = elf.first_pieces(s, offset);
    let mut end = first.end;
    for piece in first.count..count {
        let d = DataId {
            section: s.0,
            piece,
        };
        match stand_of(end, alignment(elf, d), byte_count(elf, d, home_len), offset) {
            Stand::Covers(start) => return Ok(Start { piece, start }),
            Stand::Ends(next) => end = next,
            Stand::Before => {
                let size = data_size(elf, s);
                return Err(ElfError::NoString { offset, size });
            }
        }
    }
    Err(ElfError::NoString { offset, size: end })
}
