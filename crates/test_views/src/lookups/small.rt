//! Looking a symbol of the object with two up, by hash sections of one bucket.

use elf_descriptor::Elf;
use elf_outside::Source;
use elf_types::constants::{SHT_GNU_HASH, SHT_HASH};
use elf_types::{ElfError, Octets, ScnId, Shdr};
use symbol_lookup::{find_gnu, find_sysv};
use test_kit_images::{Content, Field, HeaderField, NULL_SECTION, OBJECT, Put, Recipe, image_of};
use test_kit_rows::{failed, in_row, same};
use test_kit_sources::{Sparse, source};

/// A hash section of words that links to the symbols, which are section 2.
const HASH: Shdr = Shdr {
    stype: SHT_HASH,
    link: 2,
    addralign: 8,
    ..NULL_SECTION
};

/// GNU's hash section of the symbol from 1 on: one bucket, one bloom word with the bits 6 and 24 of
/// the name `a`, whose hash is 0x2b606, and that hash with the bit that ends the chain.
const GNU_HASH: &[u8] = b"\x01\0\0\0\x01\0\0\0\x01\0\0\0\x06\0\0\0\x40\0\0\x01\0\0\0\0\
    \x01\0\0\0\x07\xb6\x02\0";

/// The object with three hash sections: one of words, GNU's, and one of words whose chain goes from
/// symbol 1 to symbol 1.
static HASHED: Recipe = Recipe {
    puts: &[
        Put::Field(Field::Header(HeaderField::Shnum), 6),
        Put::Section(3, HASH),
        Put::Section(
            4,
            Shdr {
                stype: SHT_GNU_HASH,
                ..HASH
            },
        ),
        Put::Section(5, HASH),
        Put::Home(3, Content::Words(&[1, 2, 1, 0, 0])),
        Put::Home(4, Content::Bytes(GNU_HASH)),
        Put::Home(5, Content::Words(&[1, 2, 1, 0, 1])),
    ],
    ..OBJECT
};

/// A hash section, a name, and what the name finds there.
type Row = (u32, &'static [u8], Result<Option<u64>, ElfError>);

/// By words: symbol 1 alone has a name, and the second section has no end for another one.
static BY_WORDS: [Row; 3] = [
    (3, b"a", Ok(Some(1))),
    (3, b"b", Ok(None)),
    (5, b"b", Err(ElfError::BadChain { at: 16 })),
];

/// By bytes.
static BY_BYTES: [Row; 2] = [(4, b"a", Ok(Some(1))), (4, b"b", Ok(None))];

/// Whether a row of words is as it is found.
fn is_found_by_words<S: Source>(rt: &HostRuntime, elf: &mut Elf<S>, row: &Row) -> bool {
    same(rt, &find_sysv(elf, ScnId(row.0), row.1), &row.2)
}

/// Whether a row of bytes is.
fn is_found_by_bytes<S: Source>(rt: &HostRuntime, elf: &mut Elf<S>, row: &Row) -> bool {
    same(rt, &find_gnu(elf, ScnId(row.0), row.1), &row.2)
}

/// Whether the symbol of each row is found.
fn are_found<S: Source>(rt: &HostRuntime, elf: &mut Elf<S>) -> bool {
    for (n, row) in BY_WORDS.iter().enumerate() {
        if !in_row(rt, n, is_found_by_words(rt, elf, row)) {
            return false;
        }
    }
    for (n, row) in BY_BYTES.iter().enumerate() {
        if !in_row(rt, n, is_found_by_bytes(rt, elf, row)) {
            return false;
        }
    }
    true
}

/// Whether the symbols of all rows are found over a source.
fn are_found_over<S: Source + Drop>(rt: &HostRuntime, src: S) -> bool {
    match Elf::begin(rt.alloc(), src) {
        Ok(mut elf) => {
            let found = are_found(rt, &mut elf);
            let _src = elf.end();
            found
        }
        Err((_src, e)) => failed(rt, e),
    }
}

/// Whether the symbols of all rows are found over a source in memory of these bytes.
fn are_found_told(rt: &HostRuntime, bytes: Octets) -> bool {
    match source(rt.alloc(), bytes, 0) {
        Ok(src) => are_found_over(rt, src),
        Err(e) => failed(rt, e),
    }
}

/// Whether the symbols of all rows are found over a source that does not tell these bytes.
fn are_found_untold(rt: &HostRuntime, bytes: Octets) -> bool {
    let len = bytes.len();
    are_found_over(rt, Sparse::new(bytes, len))
}

/// Whether the symbols of all rows are found in an image, over a source that tells its bytes or
/// does not.
fn are_found_in(rt: &HostRuntime, recipe: &Recipe, told: bool) -> bool {
    match image_of(rt.alloc(), recipe) {
        Ok(image) => {
            if told {
                return are_found_told(rt, image.bytes);
            }
            are_found_untold(rt, image.bytes)
        }
        Err(e) => failed(rt, e),
    }
}

#[test]
fn a_name_is_found_by_sections_of_one_bucket(rt: HostRuntime) {
    assert!(rt; are_found_in(&rt, &HASHED, true));
    assert!(rt; are_found_in(&rt, &HASHED, false));
}
