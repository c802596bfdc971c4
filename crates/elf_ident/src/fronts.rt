//! The header and the two tables of an image.

ghost use Rattle.std.specs.Prelude.{◌≡◌, ◌+◌, ◌<◌, ◌≤◌, ◌⊎◌, OnOk, IfOk, IfErr, IfSome, Err};
ghost use Rattle.elf_types.specs.Answers.{Follows};
ghost use Rattle.elf_types.specs.declared.records.Class.TheVariants.{C64};
ghost use Rattle.elf_types.specs.declared.constants.TheConstants.{EI_NIDENT, MAX_IMAGE, MAX_SECTIONS};
ghost use Rattle.elf_outside.specs.Asks.{Asks};
ghost use Rattle.elf_xlate.specs.Headers.{ehdr_size, shdr_size, HasNarrowCounts, IsEhdr};
ghost use Rattle.elf_ident.specs.Reading.{HasTables, IsSound, IsPhdrTable, IsShdrTable, IsFittingFront, IsCounted, IsFrontRefusal};
ghost use Rattle.elf_ident.specs.Front.{head_in, front, front_with, phdrs_at, shdrs_at, table_bytes, header_bytes, first_bytes, front_bytes, most_front_bytes};

use crate::counts::{Counts, read_counts};
use crate::headers::read_header;
use crate::tables::{read_phdrs, read_shdrs};
use elf_outside::Source;
use elf_types::{Ehdr, ElfError, Phdrs, Shdrs};
use std::alloc::Global;

/// The header of an image as it is there, and its true counts.
#[derive(Drop)]
pub struct Head {
    /// The header, with the counts and the string index as they are.
    pub header: Ehdr,
    /// Bytes 9 to 15 of the identification.
    pub pad: [u8; 7],
    /// The true counts and the true string index.
    pub counts: Counts,
}

/// The headers of an image.
#[derive(Drop)]
pub struct Front {
    /// The header, with the true counts and the true string index.
    pub ehdr: Ehdr,
    /// Bytes 9 to 15 of the identification.
    pub pad: [u8; 7],
    /// `e_phnum`, `e_shnum` and `e_shstrndx` as they are in the image.
    pub written: [u16; 3],
    /// The program headers.
    pub phdrs: Phdrs,
    /// The section headers.
    pub shdrs: Shdrs,
}

/// Reads the header, and section 0 where a count is there: what `read_front` reads before the two
/// tables, which lie in the image where it succeeds. It fails as `read_front` does, in its order,
/// but for `Memory`: it takes none.
///
/// It reads at most one header and one section header.
///
/// Source: gABI chapter 4, "ELF Header" and "Sections", chapter 5, "Program Header".
pub fn read_head<S: Source>(src: &mut S) -> Result<Head, ElfError>
    ensures head { IfSome (S.holds src.old) (λ image. Follows result (head_in image)) }
    ensures sound { IfOk result (λ head. IsSound head (S.size src.old)) }
    ensures asks { Asks S.Source result src.old src.new (ehdr_size C64 + shdr_size C64) }
    ensures bound { IfSome (S.holds src.old) (λ image.
        S.taken src.new ≤ S.taken src.old + (header_bytes image + first_bytes image)) }
    ensures err { IfErr result (IsFrontRefusal (S.size src.old)) }
    ensures short { S.size src.old < EI_NIDENT → result ≡ Err ElfError.Short }
    ensures small { OnOk result (S.size src.old ≤ MAX_IMAGE) }
{
    let (header, pad) = read_header(src)?;
    let counts = read_counts(src, &header)?;
    Ok(Head {
        header,
        pad,
        counts,
    })
}

/// Reads the two tables. It fails with `Memory` and `Read` alone.
fn read_tables<S: Source>(
    alloc: Global,
    src: &mut S,
    head: &Head,
) -> Result<(Phdrs, Shdrs), ElfError>
    requires { IsSound head.now (S.size src.old) }
    ensures phdrs { IfOk result (λ t. IfSome (S.holds src.old) (λ image.
        t.0 ≡ phdrs_at head.now.header head.now.counts.phnum image)) }
    ensures shdrs { IfOk result (λ t. IfSome (S.holds src.old) (λ image.
        t.1 ≡ shdrs_at head.now.header head.now.counts.shnum image)) }
    ensures tables { IfOk result (λ t. IsPhdrTable head.now.header.class head.now.counts.phnum t.0
        × IsShdrTable head.now.header.class head.now.counts.shnum t.1) }
    ensures asks { Asks S.Source result src.old src.new
        (table_bytes head.now.header head.now.counts) }
    ensures err { IfErr result (λ e. (e ≡ ElfError.Memory) ⊎ (e ≡ ElfError.Read)) }
{
    let h = &head.header;
    let phdrs = read_phdrs(alloc, src, h, u64::from(head.counts.phnum))?;
    let shdrs = read_shdrs(alloc, src, h, head.counts.shnum)?;
    Ok((phdrs, shdrs))
}

/// The front with a head and its tables.
fn front_of(head: Head, phdrs: Phdrs, shdrs: Shdrs) -> Front
    requires narrow { HasNarrowCounts head.header }
    requires few { head.counts.shnum ≤ MAX_SECTIONS }
    ensures front { result ≡ front_with head phdrs shdrs }
    ensures range { IsEhdr result.ehdr }
{
    let written = [
        head.header.phnum as u16,
        head.header.shnum as u16,
        head.header.shstrndx as u16,
    ];
    let ehdr = Ehdr {
        phnum: head.counts.phnum,
        shnum: head.counts.shnum as u32,
        shstrndx: head.counts.shstrndx,
        ..head.header
    };
    let pad = head.pad;
    Front {
        ehdr,
        pad,
        written,
        phdrs,
        shdrs,
    }
}

/// Reads the headers of an image, as elf_begin of elf(3E) does: the header with its true counts
/// (after extended numbering), the bytes 9 to 15 of the identification, and the two tables. Also
/// where the source does not tell its bytes, all numbers of a front fit the class, and both tables
/// lie in the image.
///
/// The first refusal of these is the result: `Short` (fewer than 16 bytes), `Magic`, `Class`,
/// `Order`, `Version` (of the identification), `Short` (fewer bytes than the class's header),
/// `Version` (`e_version`), `TooLarge` (more than 2^40 bytes), `ShTable`, `PhTable` (a table that
/// is not well formed or does not lie in the image), `TooMany` (more than 2^20 entries of a table).
/// `Read` and `Memory` may come at any read before. No other refusal comes, also where the source
/// does not tell its bytes.
///
/// It reads at most one header and one section header, and the two tables where nothing is
/// rejected. The table of program headers takes one read, and that of section headers one for each
/// 1,024 of them.
///
/// Source: gABI chapter 4, "ELF Header" and "Sections", chapter 5, "Program Header".
pub fn read_front<S: Source>(alloc: Global, src: &mut S) -> Result<Front, ElfError>
    ensures front { IfSome (S.holds src.old) (λ image. Follows result (front image)) }
    ensures fitting { IfOk result IsFittingFront }
    ensures counted { IfOk result IsCounted }
    ensures tables { IfOk result (λ f. HasTables f.ehdr (S.size src.old)) }
    ensures asks { Asks S.Source result src.old src.new most_front_bytes }
    ensures bound { IfSome (S.holds src.old) (λ image.
        S.taken src.new ≤ S.taken src.old + front_bytes image) }
    ensures err { IfErr result (IsFrontRefusal (S.size src.old)) }
    ensures short { S.size src.old < EI_NIDENT → result ≡ Err ElfError.Short }
    ensures small { OnOk result (S.size src.old ≤ MAX_IMAGE) }
{
    let head = read_head(src)?;
    let (phdrs, shdrs) = read_tables(alloc, src, &head)?;
    Ok(front_of(head, phdrs, shdrs))
}
