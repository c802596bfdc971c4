//! The true counts of an image's tables.

ghost use Rattle.std.specs.Prelude.{◌≡◌, ◌+◌, ◌^◌, ◌<◌, ◌≤◌, length, take, drop, IsTrue, IfOk, OnOk, IfErr, IfSome, Ok};
ghost use Rattle.elf_types.specs.Answers.{Follows, IsRefusal, err_of};
ghost use Rattle.elf_types.specs.declared.records.Class.TheVariants.{C64};
ghost use Rattle.elf_types.specs.declared.constants.TheConstants.{EV_CURRENT, MAX_IMAGE, MAX_SECTIONS, MAX_SEGMENTS};
ghost use Rattle.elf_outside.specs.Asks.{Asks};
ghost use Rattle.elf_xlate.specs.Headers.{phdr_size, shdr_size, shdr_of};
ghost use Rattle.elf_ident.specs.Reading.{HasTables, AreCounts, IsCountRefusal};
ghost use Rattle.elf_ident.specs.Front.{with_counts, needs_first, first_section, true_counts, true_phnum, true_shnum, true_shstrndx, lies_in, header_refusal, count_refusal, counts_by, counts_in};

use elf_outside::Source;
use elf_outside::reads::read;
use elf_types::constants::{
    EV_CURRENT, MAX_IMAGE, MAX_SECTIONS, MAX_SEGMENTS, PN_XNUM, SHN_XINDEX,
};
use elf_types::{Ehdr, ElfError, NULL_SECTION, Shdr};
use elf_xlate::{get_shdr, phdr_size, shdr_size};

/// The true counts and the true string index of an image, after extended numbering. Source: gABI
/// chapter 4, "ELF Header", `e_shnum` and `e_shstrndx`, and chapter 5, "Program Header", `PN_XNUM`.
#[derive(Clone, Copy, Debug, PartialEq, Eq)]
pub struct Counts {
    /// The number of program headers.
    pub phnum: u32,
    /// The number of section headers.
    pub shnum: u64,
    /// The number of the section that holds the sections' names.
    pub shstrndx: u32,
}

/// The bytes of the longest section header, that of class 64.
const MAX_SHDR_SIZE: usize = 64;

/// Whether a count or the string index is in section 0.
fn needs_first(h: &Ehdr) -> bool
    ensures { result ≡ needs_first h.now }
{
    h.shoff != 0 && (h.shnum == 0 || h.shstrndx == SHN_XINDEX || h.phnum == PN_XNUM)
}

/// Whether `count` entries of a size lie in an image of `len` bytes from the place `at` on.
fn lies_in(len: u64, at: u64, count: u64, size: u64) -> bool
    requires { 0 < size }
    ensures { result ≡ lies_in len at count size }
{
    at <= len && count <= (len - at) / size
}

/// What a header is rejected by before section 0 is looked at: `Version`, `TooLarge`, `ShTable`, in
/// this order.
#[tactic(auto, unfolding(crate::specs::Front::header_refusal))]
fn check_header(h: &Ehdr, len: u64) -> Result<(), ElfError>
    ensures refusal { err_of result ≡ header_refusal h.now len }
    ensures version { OnOk result (h.now.version ≡ EV_CURRENT) }
    ensures small { OnOk result (len ≤ MAX_IMAGE) }
    ensures err { IfErr result IsRefusal }
    ensures named { IfErr result (IsCountRefusal len) }
{
    if h.version != EV_CURRENT {
        return Err(ElfError::Version);
    }
    if len > MAX_IMAGE {
        return Err(ElfError::TooLarge);
    }
    if h.shoff == 0 && h.shnum != 0 {
        return Err(ElfError::ShTable);
    }
    let size = shdr_size(h.class) as u64;
    if h.shoff != 0 && u64::from(h.shentsize) != size {
        return Err(ElfError::ShTable);
    }
    if needs_first(h) && !lies_in(len, h.shoff, 1, size) {
        return Err(ElfError::ShTable);
    }
    Ok(())
}

/// What a header is rejected by for its true counts: `ShTable`, `PhTable`, `TooMany`, in this
/// order.
#[tactic(auto, unfolding(crate::specs::Front::count_refusal))]
fn check_counts(h: &Ehdr, c: &Counts, len: u64) -> Result<(), ElfError>
    requires { h.now.phnum ≡ 0 → c.now.phnum ≡ 0 }
    ensures refusal { err_of result ≡ count_refusal h.now c.now len }
    ensures tables { OnOk result (HasTables (with_counts h.now c.now) len) }
    ensures few { OnOk result ((c.now.shnum ≤ MAX_SECTIONS) × (c.now.phnum ≤ MAX_SEGMENTS)) }
    ensures err { IfErr result IsRefusal }
    ensures named { IfErr result (IsCountRefusal len) }
{
    if !lies_in(len, h.shoff, c.shnum, shdr_size(h.class) as u64) {
        return Err(ElfError::ShTable);
    }
    let size = phdr_size(h.class) as u64;
    if h.phnum != 0 && u64::from(h.phentsize) != size {
        return Err(ElfError::PhTable);
    }
    if h.phnum == PN_XNUM && h.shoff == 0 {
        return Err(ElfError::PhTable);
    }
    if h.phnum != 0 && !lies_in(len, h.phoff, u64::from(c.phnum), size) {
        return Err(ElfError::PhTable);
    }
    if c.shnum > MAX_SECTIONS || u64::from(c.phnum) > MAX_SEGMENTS {
        return Err(ElfError::TooMany);
    }
    Ok(())
}

/// The number of program headers, by the header of section 0.
#[tactic(auto, unfolding(crate::specs::Front::true_phnum))]
fn true_phnum(h: &Ehdr, first: &Shdr) -> u32
    ensures phnum { result ≡ true_phnum h.now first.now }
    ensures none { h.now.phnum ≡ 0 → result ≡ 0 }
{
    if h.phnum == PN_XNUM {
        first.info
    } else {
        h.phnum
    }
}

/// The number of section headers, by the header of section 0.
#[tactic(auto, unfolding(crate::specs::Front::true_shnum))]
fn true_shnum(h: &Ehdr, first: &Shdr) -> u64
    ensures { result ≡ true_shnum h.now first.now }
{
    if h.shoff != 0 && h.shnum == 0 {
        first.size
    } else {
        u64::from(h.shnum)
    }
}

/// The string index, by the header of section 0; without sections it is 0.
#[tactic(auto, unfolding(crate::specs::Front::true_shstrndx))]
fn true_shstrndx(h: &Ehdr, first: &Shdr) -> u32
    ensures shstrndx { result ≡ true_shstrndx h.now first.now }
    ensures none { true_shnum h.now first.now ≡ 0 → result ≡ 0 }
{
    if true_shnum(h, first) == 0 {
        0
    } else if h.shstrndx == SHN_XINDEX {
        first.link
    } else {
        h.shstrndx
    }
}

/// The true counts, by the header of section 0, or the first refusal by them.
#[tactic(auto, unfolding(crate::specs::Front::counts_by))]
fn counts_by(h: &Ehdr, first: &Shdr, len: u64) -> Result<Counts, ElfError>
    ensures counts { result ≡ counts_by h.now first.now len }
    ensures sound { IfOk result (AreCounts h.now len) }
    ensures err { IfErr result IsRefusal }
    ensures named { IfErr result (IsCountRefusal len) }
{
    let counts = Counts {
        phnum: true_phnum(h, first),
        shnum: true_shnum(h, first),
        shstrndx: true_shstrndx(h, first),
    };
    check_counts(h, &counts, len)?;
    Ok(counts)
}

/// Reads the header of section 0 where it is needed; a header of zeros stands for it else. It fails
/// with `Read` alone.
fn read_first_section<S: Source>(src: &mut S, h: &Ehdr) -> Result<Shdr, ElfError>
    requires { IsTrue (needs_first h.now) → h.now.shoff + shdr_size h.now.class ≤ S.size src.old }
    ensures first { IfSome (S.holds src.old) (λ image.
        Follows result (Ok (first_section h.now image))) }
    ensures asks { Asks S.Source result src.old src.new (shdr_size h.now.class) }
    ensures err { IfErr result (λ e. e ≡ ElfError.Read) }
{
    if !needs_first(h) {
        return Ok(NULL_SECTION);
    }
    let mut bytes = [0u8; MAX_SHDR_SIZE];
    read_shdr_by(src, h, &mut bytes)
}

/// Reads the header of section 0 by a buffer.
fn read_shdr_by<S: Source>(src: &mut S, h: &Ehdr, bytes: &mut [u8]) -> Result<Shdr, ElfError>
    requires len { length bytes.old ≡ shdr_size C64 }
    requires within { h.now.shoff + shdr_size h.now.class ≤ S.size src.old }
    ensures header { IfSome (S.holds src.old) (λ image. Follows result (Ok (shdr_of h.now.class
        h.now.order (take (shdr_size h.now.class) (drop h.now.shoff image))))) }
    ensures asks { Asks S.Source result src.old src.new (shdr_size h.now.class) }
    ensures err { IfErr result (λ e. e ≡ ElfError.Read) }
{
    let header = &mut bytes[..shdr_size(h.class)];
    read(src, h.shoff, header)?;
    Ok(get_shdr(h.class, h.order, header))
}

/// The true counts of an image with the header `h`, or the first refusal, in this order: `Version`
/// (`e_version`), `TooLarge` (more than 2^40 bytes), `ShTable` (of the header's own fields, and
/// where section 0 is needed and does not lie in the image), `Read` (of section 0), `ShTable` (the
/// table does not lie in the image), `PhTable`, `TooMany` (more than 2^20 entries of a table). It
/// reads at most one section header, where section 0 is needed, and takes no memory.
pub fn read_counts<S: Source>(src: &mut S, h: &Ehdr) -> Result<Counts, ElfError>
    ensures counts { IfSome (S.holds src.old) (λ image. Follows result (counts_in h.now image)) }
    ensures sound { IfOk result (AreCounts h.now (S.size src.old)) }
    ensures version { OnOk result (h.now.version ≡ EV_CURRENT) }
    ensures small { OnOk result (S.size src.old ≤ MAX_IMAGE) }
    ensures asks { Asks S.Source result src.old src.new (shdr_size h.now.class) }
    ensures err { IfErr result (IsCountRefusal (S.size src.old)) }
{
    let len = src.len();
    check_header(h, len)?;
    let first = read_first_section(src, h)?;
    counts_by(h, &first, len)
}
