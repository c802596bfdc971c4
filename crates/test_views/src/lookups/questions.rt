//! An image with symbols and both kinds of hash sections, and questions on it, put to descriptors
//! over sources that tell their bytes and over those that do not.

use elf_descriptor::Elf;
use elf_outside::{MemSource, Source};
use elf_types::constants::{
    SHN_ABS, SHT_GNU_HASH, SHT_HASH, SHT_STRTAB, SHT_SYMTAB, STB_GLOBAL, STB_LOCAL, STB_WEAK,
};
use elf_types::{Addrs, Class, Ehdr, ElfError, Kind, NULL_SECTION, ScnId, Shdr, Sym, Syms, Words};
use elf_xlate::{Items, item_size, shdr_size};
use std::alloc::Global;
use test_kit_images::{BuiltImage, ClassAndOrder, header_of};
use test_kit_rows::failed;
use test_kit_sources::{Sparse, source};

/// The section of the symbols.
pub const SYMBOLS: ScnId = ScnId(2);

/// The section of type `SHT_HASH`.
pub const SYSV: ScnId = ScnId(3);

/// GNU's hash section.
pub const GNU: ScnId = ScnId(4);

/// The places of the section header table, of the strings, of the symbols and of the hash sections.
const TABLE_AT: u64 = 64;

const STRINGS_AT: u64 = 512;

const SYMBOLS_AT: u64 = 544;

const HASHES_AT: u64 = 800;

/// The names of the symbols. No NUL ends the last one.
const STRINGS: &[u8] = b"\0hidden\0missing\0printf\0exit\0tail";

/// The symbols: of each the place of its name, its binding and its section's index.
///
/// Symbol 1 is local, 2 is undefined, 3 has an empty name, the name of 4 has no end and that of 7
/// is none of the strings. `printf` is the name of 5 and of 6.
const SYMBOL_ROWS: [(u32, u8, u16); 8] = [
    (0, STB_LOCAL, 0),
    (1, STB_LOCAL, ABSOLUTE),
    (8, STB_GLOBAL, 0),
    (0, STB_GLOBAL, ABSOLUTE),
    (28, STB_GLOBAL, ABSOLUTE),
    (16, STB_GLOBAL, ABSOLUTE),
    (16, STB_WEAK, ABSOLUTE),
    (900, STB_GLOBAL, ABSOLUTE),
];

/// The index of a symbol that lies in no section.
const ABSOLUTE: u16 = SHN_ABS as u16;

/// The symbol of a row.
fn symbol(row: (u32, u8, u16)) -> Sym {
    Sym {
        name: row.0,
        info: row.1 % 16 * 16,
        other: 0,
        shndx: row.2,
        value: 0,
        size: 0,
    }
}

/// Puts the symbols on a list.
fn put_symbols(list: &mut Syms) -> Result<(), ElfError> {
    for row in SYMBOL_ROWS.iter() {
        list.push(symbol(*row))?;
    }
    Ok(())
}

/// The symbols.
fn symbols(alloc: Global) -> Result<Items, ElfError> {
    let mut list = Syms::new(alloc);
    put_symbols(&mut list)?;
    Ok(Items::Sym(list))
}

/// The two hash sections of an image. GNU's has four words, a bloom word and words again, of which
/// so many bytes are in the section.
#[derive(Clone, Copy)]
pub struct Hashes {
    /// The words of the section of type `SHT_HASH`.
    pub sysv: &'static [u32],
    /// The four words with which GNU's begins.
    pub head: [u32; 4],
    /// Its bloom word, whose low half alone counts in class 32.
    pub bloom: u64,
    /// The words after it.
    pub rest: &'static [u32],
    /// The number of its bytes.
    pub size: u64,
}

/// Puts words at a place, and returns the place after them.
fn put_words(
    alloc: Global,
    image: &mut BuiltImage,
    at: u64,
    words: &[u32],
) -> Result<u64, ElfError> {
    let items = Items::Word(Words::from_slice(alloc, words)?);
    match image.put_items(at, &items) {
        Ok(()) => Ok(at.saturating_add((words.len() as u64).saturating_mul(4))),
        Err(e) => Err(e),
    }
}

/// Puts a bloom word at a place, and returns the place after it.
fn put_bloom(alloc: Global, image: &mut BuiltImage, at: u64, bloom: u64) -> Result<u64, ElfError> {
    let (class, size) = (
        image.header.class,
        item_size(Kind::Addr, image.header.class),
    );
    let word = match class {
        Class::C32 => bloom % 0x1_0000_0000,
        Class::C64 => bloom,
    };
    let items = Items::Addr(Addrs::from_slice(alloc, &[word])?);
    match image.put_items(at, &items) {
        Ok(()) => Ok(at.saturating_add(size)),
        Err(e) => Err(e),
    }
}

/// Puts a hash section that links to the symbols into the table of section headers.
fn put_hash(
    image: &mut BuiltImage,
    s: ScnId,
    stype: u32,
    extent: (u64, u64),
) -> Result<(), ElfError> {
    let header = Shdr {
        stype,
        offset: extent.0,
        size: extent.1,
        link: SYMBOLS.0,
        ..NULL_SECTION
    };
    image.put_section(u64::from(s.0), &header)
}

/// Puts both hash sections.
fn put_hashes(alloc: Global, image: &mut BuiltImage, h: &Hashes) -> Result<(), ElfError> {
    let gnu_at = put_words(alloc, image, HASHES_AT, h.sysv)?;
    let bloom_at = put_words(alloc, image, gnu_at, &h.head)?;
    let rest_at = put_bloom(alloc, image, bloom_at, h.bloom)?;
    put_words(alloc, image, rest_at, h.rest)?;
    image.grow(gnu_at.saturating_add(h.size))?;
    put_hash(
        image,
        SYSV,
        SHT_HASH,
        (HASHES_AT, gnu_at.saturating_sub(HASHES_AT)),
    )?;
    put_hash(image, GNU, SHT_GNU_HASH, (gnu_at, h.size))
}

/// Puts the symbols at their place.
fn put_symbol_items(alloc: Global, image: &mut BuiltImage) -> Result<(), ElfError> {
    match symbols(alloc) {
        Ok(items) => image.put_items(SYMBOLS_AT, &items),
        Err(e) => Err(e),
    }
}

/// Puts the symbols and their strings.
fn put_tables(alloc: Global, image: &mut BuiltImage) -> Result<(), ElfError> {
    let strings = Shdr {
        stype: SHT_STRTAB,
        offset: STRINGS_AT,
        size: STRINGS.len() as u64,
        ..NULL_SECTION
    };
    let symbols_are = Shdr {
        stype: SHT_SYMTAB,
        offset: SYMBOLS_AT,
        size: item_size(Kind::Sym, image.header.class).saturating_mul(8),
        link: 1,
        ..NULL_SECTION
    };
    image.put_bytes(STRINGS_AT, STRINGS)?;
    put_symbol_items(alloc, image)?;
    image.put_section(0, &NULL_SECTION)?;
    image.put_section(1, &strings)?;
    image.put_section(2, &symbols_are)
}

/// Puts all parts of the image after its header.
fn put_parts(alloc: Global, image: &mut BuiltImage, h: &Hashes) -> Result<(), ElfError> {
    put_tables(alloc, image)?;
    put_hashes(alloc, image, h)
}

/// The image.
fn image_with(alloc: Global, form: ClassAndOrder, h: &Hashes) -> Result<BuiltImage, ElfError> {
    let header = Ehdr {
        shoff: TABLE_AT,
        shentsize: shdr_size(form.0) as u16,
        shnum: 5,
        ..header_of(form.0, form.1)
    };
    let mut image = BuiltImage::new(alloc, header, [0; 7])?;
    match put_parts(alloc, &mut image, h) {
        Ok(()) => Ok(image),
        Err(e) => Err(e),
    }
}

/// A question on the image, with its result.
pub trait Question {
    /// The image's hash sections.
    fn hashes(&self) -> Hashes;

    /// Whether the descriptor that began over it behaves as it should.
    fn is_answered<S: Source>(&self, rt: &HostRuntime, elf: &mut Elf<S>) -> bool;
}

/// Whether a question is answered over a source, which is given back.
fn is_answered_over<Q: Question, S: Source>(rt: &HostRuntime, q: &Q, src: S) -> (S, bool) {
    match Elf::begin(rt.alloc(), src) {
        Ok(mut elf) => {
            let answered = q.is_answered(rt, &mut elf);
            (elf.end(), answered)
        }
        Err((src, e)) => (src, failed(rt, e)),
    }
}

/// How many bytes of a source in memory were asked for once a question was answered; none where it
/// was not.
fn asked_of<Q: Question>(rt: &HostRuntime, q: &Q, src: MemSource) -> Option<u64> {
    let (src, answered) = is_answered_over(rt, q, src);
    if answered { Some(src.asked()) } else { None }
}

/// How many bytes of an image in memory were asked for once a question was answered; none where it
/// was not.
pub fn bytes_requested<Q: Question>(
    rt: &HostRuntime,
    q: &Q,
    form: ClassAndOrder,
) -> Result<Option<u64>, ElfError> {
    let image = image_with(rt.alloc(), form, &q.hashes())?;
    match source(rt.alloc(), image.bytes, 0) {
        Ok(src) => Ok(asked_of(rt, q, src)),
        Err(e) => Err(e),
    }
}

/// Whether a question is answered over a source that does not tell its bytes.
fn is_answered_untold<Q: Question>(rt: &HostRuntime, q: &Q, form: ClassAndOrder) -> bool {
    match image_with(rt.alloc(), form, &q.hashes()) {
        Ok(image) => {
            let len = image.bytes.len();
            let (_src, answered) = is_answered_over(rt, q, Sparse::new(image.bytes, len));
            answered
        }
        Err(e) => failed(rt, e),
    }
}

/// Whether a question is answered over either source.
pub fn is_answered<Q: Question>(rt: &HostRuntime, q: &Q, form: ClassAndOrder) -> bool {
    match bytes_requested(rt, q, form) {
        Ok(asked) => asked.is_some() && is_answered_untold(rt, q, form),
        Err(e) => failed(rt, e),
    }
}
