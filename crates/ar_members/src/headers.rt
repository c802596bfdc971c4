//! The header of a member.

ghost use Rattle.std.specs.Prelude.{◌≡◌, ◌⊎◌, ◌+◌, ◌^◌, ◌<◌, ◌≤◌, nat_le, take, true, IfSome, IfOk, IfErr};
ghost use Rattle.elf_types.specs.Answers.{Follows};
ghost use Rattle.elf_types.specs.Constants.{are_numbers};
ghost use Rattle.elf_types.specs.declared.constants.TheConstants.{MAX_IMAGE};
ghost use Rattle.elf_outside.specs.Asks.{Asks};
ghost use Rattle.ar_members.specs.Constants.{header_end, lengths};
ghost use Rattle.ar_members.specs.declared.headers.TheConstants.{HEADER_LEN};
ghost use Rattle.ar_members.specs.declared.numbers.TheConstants.{ARFMAG};
ghost use Rattle.ar_members.specs.Headers.{next_at, name_field, header_in, header_asks, header_at, BodyLies};
ghost use Rattle.ar_members.specs.Members.{shown_header};

use crate::numbers::{Numbers, header_numbers};
use elf_outside::Source;
use elf_outside::reads::read_array;
use elf_types::{ElfError, Octets};
use std::alloc::Global;

/// The bytes of a header.
pub const HEADER_LEN: usize = 60;

/// The place of the first header: what is before it is `ARMAG`.
pub const FIRST: u64 = 8;

/// A header as it was read: its bytes, and its numbers.
#[derive(Clone, Copy)]
pub struct Header {
    /// The bytes.
    pub bytes: [u8; HEADER_LEN],
    /// The numbers.
    pub numbers: Numbers,
}

impl Header {
    /// The field of the name.
    pub fn name_field(&self) -> &[u8]
        ensures { result.now ≡ name_field self.now }
    {
        &self.bytes[..16]
    }
}

/// The header of a member (ar.h, `struct ar_hdr`).
#[derive(Drop)]
pub struct ArHdr {
    /// The place of the header in the archive, in bytes.
    pub at: u64,
    /// The place of the body in the archive, in bytes.
    pub body: u64,
    /// The size of the body, in bytes.
    pub size: u64,
    /// The name, resolved in the table of long names.
    pub name: Octets,
    /// The time of the last change, in seconds since 1970.
    pub date: u64,
    /// The owner's number.
    pub uid: u32,
    /// The group's number.
    pub gid: u32,
    /// The mode of the file.
    pub mode: u32,
}

/// The header of the member at a place, as it is shown. It fails with `Memory` alone.
pub fn shown_header(
    alloc: Global,
    at: u64,
    numbers: &Numbers,
    name: &[u8],
) -> Result<ArHdr, ElfError>
    requires { at + HEADER_LEN < 2 ^ 64 }
    ensures ok { IfOk result (λ header. header ≡ shown_header at numbers.now name.now) }
    ensures err { IfErr result (λ e. e ≡ ElfError.Memory) }
{
    let name = Octets::from_slice(alloc, name)?;
    Ok(ArHdr {
        at,
        body: at + HEADER_LEN as u64,
        size: numbers.size,
        name,
        date: numbers.date,
        uid: numbers.uid,
        gid: numbers.gid,
        mode: numbers.mode,
    })
}

/// The place of the header after a body: the next even one.
pub fn next_place(at: u64, size: u64) -> u64
    requires { BodyLies at size MAX_IMAGE }
    ensures { result ≡ next_at at size }
{
    let end = at + HEADER_LEN as u64 + size;
    end + end % 2
}

/// Whether a header at a place lies in an archive of `size` bytes.
fn is_whole(size: u64, at: u64) -> bool
    ensures { result ≡ nat_le (at + HEADER_LEN) size }
{
    size >= HEADER_LEN as u64 && at <= size - HEADER_LEN as u64
}

/// The header at a place, of these bytes and with `room` bytes after it. It is bad where it has
/// other end bytes, a bad number, or a body that is longer.
#[tactic(auto, unfolding(crate::specs::Headers::header_in))]
fn header_in(at: u64, bytes: [u8; HEADER_LEN], room: u64) -> Result<Header, ElfError>
    ensures value { result ≡ header_in at bytes room }
    ensures room { IfOk result (λ header. header.numbers.size ≤ room) }
    ensures refusals { IfErr result (λ e. e ≡ ElfError.BadMember at) }
{
    let numbers = header_numbers(at, &bytes)?;
    if numbers.size > room {
        return Err(ElfError::BadMember { at });
    }
    Ok(Header { bytes, numbers })
}

/// Reads the header at a place. It does not look at the name. It reads 60 bytes, or none where the
/// header is cut, and takes no memory.
///
/// `BadMember` comes where the header is cut, has other end bytes, a bad number, or a body past the
/// end.
pub fn read_header<S: Source>(src: &mut S, at: u64) -> Result<Header, ElfError>
    ensures header { IfSome (S.holds src.old) (λ image. Follows result (header_at image at)) }
    ensures body { IfOk result (λ header. BodyLies at header.numbers.size (S.size src.old)) }
    ensures refusals { IfErr result (λ e. (e ≡ ElfError.BadMember at) ⊎ (e ≡ ElfError.Read)) }
    ensures asks { Asks S.Source result src.old src.new (header_asks (S.size src.old) at) }
{
    let size = src.len();
    if !is_whole(size, at) {
        return Err(ElfError::BadMember { at });
    }
    let bytes: [u8; HEADER_LEN] = read_array(src, at)?;
    header_in(at, bytes, size - HEADER_LEN as u64 - at)
}

/// Each constant is the number, or the bytes, that are beside its name in the tables of
/// specs/Constants. It is for the reader and for proofs, and does nothing.
pub fn constants_are()
    ensures lengths { are_numbers lengths ≡ true }
    ensures header_end { ARFMAG ≡ header_end }
{}
