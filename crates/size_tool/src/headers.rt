//! The sums of an image, by its section headers alone.

ghost use Rattle.std.specs.Prelude.{◌≡◌, ◌+◌, ◌*◌, ◌/◌, ◌%◌, ◌^◌, ◌<◌, ◌≤◌, length, take, drop, IfOk, OnOk, IfErr, IfSome};
ghost use Rattle.elf_types.specs.Answers.{Follows};
ghost use Rattle.elf_types.specs.declared.constants.TheConstants.{MAX_SECTIONS};
ghost use Rattle.elf_types.specs.declared.errors.ElfError.TheVariants.{Read};
ghost use Rattle.elf_types.specs.declared.records.Class.TheVariants.{C64};
ghost use Rattle.elf_outside.specs.Asks.{Asks};
ghost use Rattle.elf_xlate.specs.Headers.{shdr_size, shdr_of};
ghost use Rattle.elf_xlate.specs.Translation.{items_of};
ghost use Rattle.elf_ident.specs.Front.{shdrs_at, front_bytes, most_front_bytes};
ghost use Rattle.elf_ident.specs.Reading.{IsFrontRefusal};
ghost use Rattle.size_tool.specs.Sums.{header_sums, sums_in, AreWithin, Adds};

use crate::sums::{Sums, no_sums, with_section};
use elf_ident::read_head;
use elf_outside::Source;
use elf_outside::reads::read;
use elf_types::{Ehdr, ElfError};
use elf_xlate::{get_shdr, shdr_size};

/// How many section headers are read at once, at most: so few that a source which serves small
/// reads from a window serves these.
const PIECE: u64 = 32;

/// The bytes of so many of class 64.
const ROOM: usize = 2048;

/// The number of bytes of the section headers that are read at once.
fn piece_size(count: u64, entry_size: usize) -> u64
    requires few { count ≤ 32 }
    requires small { entry_size ≤ shdr_size C64 }
    ensures value { result ≡ count * entry_size }
    ensures most { result ≤ 2048 }
{
    count * entry_size as u64
}

/// Adds the sections whose headers bytes hold, of whose number the size of one is a divisor.
fn add_headers(h: &Ehdr, bytes: &[u8], mut sums: Sums) -> Sums
    requires whole { length bytes.now % shdr_size h.now.class ≡ 0 }
    requires few { length bytes.now / shdr_size h.now.class ≤ 2 ^ 20 }
    requires within { AreWithin (2 ^ 20) sums }
    ensures { Adds (items_of (shdr_of h.now.class h.now.order) (shdr_size h.now.class)
        (length bytes.now / shdr_size h.now.class) bytes.now) sums result }
{
    let size = shdr_size(h.class);
    let count = bytes.len() / size;
    for i in 0..count {
        let at = i * size;
        sums = with_section(sums, &get_shdr(h.class, h.order, &bytes[at..at + size]));
    }
    sums
}

/// Reads the section headers from the place `at` on into `bytes`, and adds their sections. It fails
/// with `Read` alone.
fn add_piece<S: Source>(
    src: &mut S,
    h: &Ehdr,
    at: u64,
    bytes: &mut [u8],
    sums: Sums,
) -> Result<Sums, ElfError>
    requires whole { length bytes.old % shdr_size h.now.class ≡ 0 }
    requires few { length bytes.old / shdr_size h.now.class ≤ 2 ^ 20 }
    requires within { AreWithin (2 ^ 20) sums }
    requires inside { at + length bytes.old ≤ S.size src.old }
    ensures bytes { OnOk result (IfSome (S.holds src.old) (λ image.
        bytes.new ≡ take (length bytes.old) (drop at image))) }
    ensures adds { IfOk result (Adds (items_of (shdr_of h.now.class h.now.order)
        (shdr_size h.now.class) (length bytes.old / shdr_size h.now.class) bytes.new) sums) }
    ensures asks { Asks S.Source result src.old src.new (length bytes.old) }
    ensures err { IfErr result (λ e. e ≡ Read) }
    ensures len { length bytes.new ≡ length bytes.old }
{
    if let Err(e) = read(src, at, bytes) {
        return Err(e);
    }
    Ok(add_headers(h, bytes, sums))
}

/// The sums over a table of section headers, which is read by a buffer, as many of them at once as
/// fit in it. It fails with `Read` alone.
fn sum_pieces<S: Source>(
    src: &mut S,
    h: &Ehdr,
    count: u64,
    buffer: &mut [u8],
) -> Result<Sums, ElfError>
    requires few { count ≤ MAX_SECTIONS }
    requires inside { h.now.shoff + count * shdr_size h.now.class ≤ S.size src.old }
    requires small { h.now.shoff + count * shdr_size h.now.class < 2 ^ 64 }
    requires room { length buffer.old ≡ 2048 }
    ensures value { IfOk result (λ sums. IfSome (S.holds src.old) (λ image.
        sums ≡ header_sums (shdrs_at h.now count image))) }
    ensures within { IfOk result (AreWithin (2 ^ 32)) }
    ensures asks { Asks S.Source result src.old src.new (count * shdr_size h.now.class) }
    ensures err { IfErr result (λ e. e ≡ Read) }
{
    let size = shdr_size(h.class);
    let mut sums = no_sums();
    let mut at = h.shoff;
    let mut done = 0;
    while done < count {
        let some = (count - done).min(PIECE);
        let len = piece_size(some, size);
        let bytes = &mut buffer[..len as usize];
        let more = match add_piece(src, h, at, bytes, sums) {
            Ok(more) => more,
            Err(e) => return Err(e),
        };
        sums = more;
        at += len;
        done += some;
    }
    Ok(sums)
}

/// The sums over a table of section headers, which is read by a buffer of `N` bytes.
fn sum_table<S: Source, const N: usize>(src: &mut S, h: &Ehdr, count: u64) -> Result<Sums, ElfError>
    requires room { N ≡ 2048 }
    requires few { count ≤ MAX_SECTIONS }
    requires inside { h.now.shoff + count * shdr_size h.now.class ≤ S.size src.old }
    ensures value { IfOk result (λ sums. IfSome (S.holds src.old) (λ image.
        sums ≡ header_sums (shdrs_at h.now count image))) }
    ensures within { IfOk result (AreWithin (2 ^ 32)) }
    ensures asks { Asks S.Source result src.old src.new (count * shdr_size h.now.class) }
    ensures err { IfErr result (λ e. e ≡ Read) }
{
    let _end = src.len();
    let mut buffer = [0u8; N];
    sum_pieces(src, h, count, &mut buffer)
}

/// The sums of the sections of the image that a source holds. No descriptor is made of it: of the
/// section headers, which are read a few at a time, three fields are looked at, and no list of them
/// is kept.
///
/// It fails as `read_front` of elf_ident does, in its order, but for `Memory`: it takes none. It
/// reads at most one header and one section header, and the table of section headers where nothing
/// is rejected; never for the program headers.
///
/// Source: gABI chapter 4, "ELF Header" and "Sections".
pub fn sum_source<S: Source>(src: &mut S) -> Result<Sums, ElfError>
    ensures sums { IfSome (S.holds src.old) (λ image. Follows result (sums_in image)) }
    ensures within { IfOk result (AreWithin (2 ^ 32)) }
    ensures asks { Asks S.Source result src.old src.new most_front_bytes }
    ensures bound { IfSome (S.holds src.old) (λ image.
        S.taken src.new ≤ S.taken src.old + front_bytes image) }
    ensures err { IfErr result (IsFrontRefusal (S.size src.old)) }
{
    match read_head(src) {
        Ok(head) => sum_table::<S, ROOM>(src, &head.header, head.counts.shnum),
        Err(e) => Err(e),
    }
}
