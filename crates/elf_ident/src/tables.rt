//! The two header tables.

ghost use Rattle.std.specs.Prelude.{◌≡◌, ℕ, ◌+◌, ◌*◌, ◌/◌, ◌%◌, ◌^◌, ◌<◌, ◌≤◌, ◌++◌, ◌⊎◌, [], length, take, drop, OnOk, IfOk, IfErr, IfSome};
ghost use Rattle.elf_types.specs.declared.constants.TheConstants.{MAX_SECTIONS, MAX_SEGMENTS};
ghost use Rattle.elf_types.specs.declared.records.Class.TheVariants.{C64};
ghost use Rattle.elf_types.specs.declared.errors.ElfError.TheVariants.{Memory, Read};
ghost use Rattle.elf_outside.specs.Asks.{Asks};
ghost use Rattle.elf_xlate.specs.Headers.{phdr_size, shdr_size, shdr_of};
ghost use Rattle.elf_xlate.specs.Translation.{items_of};
ghost use Rattle.elf_ident.specs.Reading.{IsPhdrTable, IsShdrTable};
ghost use Rattle.elf_ident.specs.Front.{phdrs_at, shdrs_at};

use elf_outside::Source;
use elf_outside::reads::{read, read_range};
use elf_types::{Ehdr, ElfError, List, Phdrs, Shdrs};
use elf_xlate::{get_phdrs, get_shdr, get_shdrs, phdr_size, shdr_size};
use std::alloc::Global;

/// How many section headers are read at once, at most: those of 64 KiB in class 64.
const PIECE: u64 = 1024;

/// The number of bytes of a table of so many entries.
fn table_size(count: u64, entry_size: usize) -> u64
    requires few { count ≤ MAX_SECTIONS }
    requires small { entry_size ≤ shdr_size C64 }
    ensures { result ≡ count * entry_size }
{
    count * entry_size as u64
}

/// The table of `count` program headers. It takes one read, and none where there are none. It fails
/// with `Memory` and `Read` alone.
///
/// Source: gABI chapter 5, "Program Header".
pub fn read_phdrs<S: Source>(
    alloc: Global,
    src: &mut S,
    h: &Ehdr,
    count: u64,
) -> Result<Phdrs, ElfError>
    requires few { count ≤ MAX_SEGMENTS }
    requires within { 0 < count → h.now.phoff + count * phdr_size h.now.class ≤ S.size src.old }
    ensures value { IfOk result (λ phdrs.
        IfSome (S.holds src.old) (λ image. phdrs ≡ phdrs_at h.now count image)) }
    ensures table { IfOk result (IsPhdrTable h.now.class count) }
    ensures asks { Asks S.Source result src.old src.new (count * phdr_size h.now.class) }
    ensures err { IfErr result (λ e. (e ≡ Memory) ⊎ (e ≡ Read)) }
{
    let len = table_size(count, phdr_size(h.class));
    let bytes = read_range(alloc, src, h.phoff, len)?;
    get_phdrs(alloc, h.class, h.order, bytes.as_slice())
}

/// The number of bytes of the entries that are read at once.
fn piece_size(count: u64, entry_size: usize) -> u64
    requires few { count ≤ 1024 }
    requires small { entry_size ≤ shdr_size C64 }
    ensures value { result ≡ count * entry_size }
    ensures most { result ≤ 1024 * entry_size }
{
    table_size(count, entry_size)
}

/// Appends the section headers that bytes hold, of whose number the size of one is a divisor. It
/// fails with `Memory` alone.
fn add_shdrs(h: &Ehdr, bytes: &[u8], shdrs: &mut Shdrs) -> Result<(), ElfError>
    requires { length bytes.now % shdr_size h.now.class ≡ 0 }
    ensures value { OnOk result (shdrs.new ≡ shdrs.old
        ++ items_of (shdr_of h.now.class h.now.order) (shdr_size h.now.class)
        (length bytes.now / shdr_size h.now.class) bytes.now) }
    ensures table { OnOk result ((n : ℕ) → IsShdrTable h.now.class n shdrs.old
        → IsShdrTable h.now.class (n + length bytes.now / shdr_size h.now.class) shdrs.new) }
    ensures err { IfErr result (λ e. e ≡ Memory) }
{
    let size = shdr_size(h.class);
    let count = bytes.len() / size;
    for i in 0..count {
        let at = i * size;
        shdrs.push(get_shdr(h.class, h.order, &bytes[at..at + size]))?;
    }
    Ok(())
}

/// Reads the section headers from the place `at` on into `bytes`, and appends them. It fails with
/// `Memory` and `Read` alone.
fn read_piece<S: Source>(
    src: &mut S,
    h: &Ehdr,
    at: u64,
    bytes: &mut [u8],
    shdrs: &mut Shdrs,
) -> Result<(), ElfError>
    requires whole { length bytes.old % shdr_size h.now.class ≡ 0 }
    requires within { at + length bytes.old ≤ S.size src.old }
    ensures value { OnOk result (IfSome (S.holds src.old) (λ image. shdrs.new ≡ shdrs.old
        ++ items_of (shdr_of h.now.class h.now.order) (shdr_size h.now.class)
        (length bytes.old / shdr_size h.now.class) (take (length bytes.old) (drop at image)))) }
    ensures table { OnOk result ((n : ℕ) → IsShdrTable h.now.class n shdrs.old
        → IsShdrTable h.now.class (n + length bytes.old / shdr_size h.now.class) shdrs.new) }
    ensures asks { Asks S.Source result src.old src.new (length bytes.old) }
    ensures err { IfErr result (λ e. (e ≡ Memory) ⊎ (e ≡ Read)) }
    ensures len { length bytes.new ≡ length bytes.old }
{
    if let Err(e) = read(src, at, bytes) {
        return Err(e);
    }
    add_shdrs(h, bytes, shdrs)
}

/// Reads a table of section headers by a buffer, as many at once as fit in it, and appends them to
/// a list that is empty. It fails with `Memory` and `Read` alone.
fn read_pieces<S: Source>(
    src: &mut S,
    h: &Ehdr,
    count: u64,
    buffer: &mut [u8],
    shdrs: &mut Shdrs,
) -> Result<(), ElfError>
    requires few { count ≤ MAX_SECTIONS }
    requires within { h.now.shoff + count * shdr_size h.now.class ≤ S.size src.old }
    requires small { h.now.shoff + count * shdr_size h.now.class < 2 ^ 64 }
    requires room { length buffer.old ≡ 1024 * shdr_size h.now.class }
    requires none { shdrs.old ≡ [] }
    ensures value { OnOk result (IfSome (S.holds src.old) (λ image.
        shdrs.new ≡ shdrs_at h.now count image)) }
    ensures table { OnOk result (IsShdrTable h.now.class count shdrs.new) }
    ensures asks { Asks S.Source result src.old src.new (count * shdr_size h.now.class) }
    ensures err { IfErr result (λ e. (e ≡ Memory) ⊎ (e ≡ Read)) }
{
    let size = shdr_size(h.class);
    let mut done = 0;
    while done < count {
        let some = (count - done).min(PIECE);
        let before = table_size(done, size);
        let at = h.shoff + before;
        let len = piece_size(some, size);
        let bytes = &mut buffer[..len as usize];
        if let Err(e) = read_piece(src, h, at, bytes, shdrs) {
            return Err(e);
        }
        done += some;
    }
    Ok(())
}

/// A table of section headers that takes one read, and none where there are none.
fn read_few<S: Source>(alloc: Global, src: &mut S, h: &Ehdr, count: u64) -> Result<Shdrs, ElfError>
    requires few { count ≤ MAX_SECTIONS }
    requires within { 0 < count → h.now.shoff + count * shdr_size h.now.class ≤ S.size src.old }
    ensures value { IfOk result (λ shdrs.
        IfSome (S.holds src.old) (λ image. shdrs ≡ shdrs_at h.now count image)) }
    ensures table { IfOk result (IsShdrTable h.now.class count) }
    ensures asks { Asks S.Source result src.old src.new (count * shdr_size h.now.class) }
    ensures err { IfErr result (λ e. (e ≡ Memory) ⊎ (e ≡ Read)) }
{
    let len = table_size(count, shdr_size(h.class));
    let bytes = read_range(alloc, src, h.shoff, len)?;
    get_shdrs(alloc, h.class, h.order, bytes.as_slice())
}

/// A table of section headers that is read in pieces, so that no more than one piece of it is held
/// in its file form.
fn read_many<S: Source>(alloc: Global, src: &mut S, h: &Ehdr, count: u64) -> Result<Shdrs, ElfError>
    requires few { count ≤ MAX_SECTIONS }
    requires within { h.now.shoff + count * shdr_size h.now.class ≤ S.size src.old }
    requires small { h.now.shoff + count * shdr_size h.now.class < 2 ^ 64 }
    ensures value { IfOk result (λ shdrs.
        IfSome (S.holds src.old) (λ image. shdrs ≡ shdrs_at h.now count image)) }
    ensures table { IfOk result (IsShdrTable h.now.class count) }
    ensures asks { Asks S.Source result src.old src.new (count * shdr_size h.now.class) }
    ensures err { IfErr result (λ e. (e ≡ Memory) ⊎ (e ≡ Read)) }
{
    let mut shdrs = List::with_capacity(alloc, count)?;
    let room = piece_size(PIECE, shdr_size(h.class));
    let mut buffer = vec![in alloc; 0u8; room as usize]?;
    if let Err(e) = read_pieces(src, h, count, buffer.as_mut_slice(), &mut shdrs) {
        return Err(e);
    }
    Ok(shdrs)
}

/// The table of `count` section headers. It takes one read for each 1,024 of them, and none where
/// there are none. It fails with `Memory` and `Read` alone.
///
/// Source: gABI chapter 4, "Sections".
pub fn read_shdrs<S: Source>(
    alloc: Global,
    src: &mut S,
    h: &Ehdr,
    count: u64,
) -> Result<Shdrs, ElfError>
    requires few { count ≤ MAX_SECTIONS }
    requires within { 0 < count → h.now.shoff + count * shdr_size h.now.class ≤ S.size src.old }
    ensures value { IfOk result (λ shdrs.
        IfSome (S.holds src.old) (λ image. shdrs ≡ shdrs_at h.now count image)) }
    ensures table { IfOk result (IsShdrTable h.now.class count) }
    ensures asks { Asks S.Source result src.old src.new (count * shdr_size h.now.class) }
    ensures err { IfErr result (λ e. (e ≡ Memory) ⊎ (e ≡ Read)) }
{
    if count <= PIECE {
        return read_few(alloc, src, h, count);
    }
    let _end = src.len();
    read_many(alloc, src, h, count)
}
