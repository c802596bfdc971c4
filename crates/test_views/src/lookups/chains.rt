//! Looking a symbol up by the two kinds of hash sections.

use crate::lookups::questions::{GNU, Hashes, Question, SYSV, bytes_requested, is_answered};
use elf_descriptor::Elf;
use elf_outside::Source;
use elf_types::{ElfError, Kind, ScnId, Shdr};
use symbol_lookup::{find_gnu, find_sysv};
use test_kit_images::{ClassAndOrder, NARROW, WIDE};
use test_kit_rows::{in_row, same};

/// What a name finds: a symbol, none, or a chain that is bad at a place.
#[derive(Clone, Copy)]
enum Found {
    At(u64),
    Nowhere,
    Bad(u64),
}

/// The result of a lookup.
fn answer(found: Found) -> Result<Option<u64>, ElfError> {
    match found {
        Found::At(i) => Ok(Some(i)),
        Found::Nowhere => Ok(None),
        Found::Bad(at) => Err(ElfError::BadChain { at }),
    }
}

/// One bucket, from which a chain goes from symbol 7 to symbol 1. `printf` is the name of 5 and 6.
const CHAIN: &[u32] = &[1, 8, 7, 0, 0, 1, 2, 3, 4, 5, 6];

/// Whole hash sections: GNU's knows the symbols from 5 on, and has the bits of `printf` in a bloom
/// word of either class. Their chains go over 5, 6 and 7.
const WHOLE: Hashes = Hashes {
    sysv: CHAIN,
    head: [1, 5, 1, 6],
    bloom: 0x0100_4000_0100_4000,
    rest: &[5, 0x156b_2bb8, 0x156b_2bb8, 1],
    size: 40,
};

/// The words of a section of type `SHT_HASH`, a name, and what it finds.
type WordsRow = (&'static [u32], &'static [u8], Found);

static WORDS_ROWS: [WordsRow; 13] = [
    (CHAIN, b"printf", Found::At(5)),
    (CHAIN, b"hidden", Found::Nowhere),
    (CHAIN, b"", Found::Nowhere),
    // the name's bucket is the first of two
    (
        &[2, 8, 6, 7, 0, 0, 0, 0, 0, 0, 5, 0],
        b"printf",
        Found::At(5),
    ),
    // symbol 8 is none
    (
        &[1, 9, 8, 0, 0, 1, 2, 3, 4, 5, 6, 5],
        b"printf",
        Found::At(5),
    ),
    // no buckets
    (&[0, 8, 7, 0, 0, 1, 2, 3, 4, 5, 6], b"printf", Found::Bad(0)),
    // words past the end
    (&[], b"printf", Found::Bad(0)),
    (&[1], b"printf", Found::Bad(4)),
    (&[1, 8], b"printf", Found::Bad(8)),
    (&[1, 8, 7, 0, 0, 1, 2, 3, 4, 5], b"printf", Found::Bad(40)),
    // symbol 7 is not below the number of chain words
    (
        &[1, 7, 7, 0, 0, 1, 2, 3, 4, 5, 6],
        b"printf",
        Found::Bad(40),
    ),
    // a loop, of one symbol and of two
    (
        &[1, 8, 7, 0, 0, 1, 2, 3, 4, 5, 7],
        b"printf",
        Found::Bad(40),
    ),
    (
        &[1, 8, 7, 0, 0, 1, 2, 3, 4, 7, 6],
        b"printf",
        Found::Bad(36),
    ),
];

/// GNU's hash section in class 64, and what `printf` finds. Its bloom word is at 16, its bucket at
/// 24, and its chain words from 28 on.
type BytesRow = (Hashes, Found);

static BYTES_ROWS: [BytesRow; 19] = [
    (WHOLE, Found::At(5)),
    // one of the two bits is clear
    (
        Hashes {
            bloom: 0x0100_0000_0000_0000,
            ..WHOLE
        },
        Found::Nowhere,
    ),
    (
        Hashes {
            bloom: 0x0000_4000_0000_0000,
            ..WHOLE
        },
        Found::Nowhere,
    ),
    // a shift of 32 and more leaves bit 0
    (
        Hashes {
            head: [1, 5, 1, 32],
            ..WHOLE
        },
        Found::Nowhere,
    ),
    (
        Hashes {
            head: [1, 5, 1, 40],
            bloom: 0x0100_0000_0000_0001,
            ..WHOLE
        },
        Found::At(5),
    ),
    // the bucket has no symbol
    (
        Hashes {
            rest: &[0, 0, 0, 1],
            ..WHOLE
        },
        Found::Nowhere,
    ),
    // symbol 8 is none
    (
        Hashes {
            rest: &[8, 0, 0, 0, 1],
            size: 44,
            ..WHOLE
        },
        Found::Nowhere,
    ),
    // no buckets, no bloom words, and a bucket below the first symbol that is known
    (
        Hashes {
            head: [0, 5, 1, 6],
            ..WHOLE
        },
        Found::Bad(0),
    ),
    (
        Hashes {
            head: [1, 5, 0, 6],
            ..WHOLE
        },
        Found::Bad(8),
    ),
    (
        Hashes {
            rest: &[4, 0, 0, 1],
            ..WHOLE
        },
        Found::Bad(24),
    ),
    // words past the end
    (Hashes { size: 3, ..WHOLE }, Found::Bad(0)),
    (Hashes { size: 4, ..WHOLE }, Found::Bad(4)),
    (Hashes { size: 8, ..WHOLE }, Found::Bad(8)),
    (Hashes { size: 12, ..WHOLE }, Found::Bad(12)),
    (Hashes { size: 20, ..WHOLE }, Found::Bad(16)),
    (Hashes { size: 24, ..WHOLE }, Found::Bad(24)),
    (Hashes { size: 28, ..WHOLE }, Found::Bad(28)),
    // no end mark: up to the end of the section, and past as many symbols as there are
    (
        Hashes {
            rest: &[5, 0, 0, 0],
            ..WHOLE
        },
        Found::Bad(40),
    ),
    (
        Hashes {
            rest: &[5, 0, 0, 0, 0, 0, 0, 0, 0, 0],
            size: 64,
            ..WHOLE
        },
        Found::Bad(56),
    ),
];

/// A name is looked up by words.
#[derive(Drop)]
struct ByWords<'a>(&'a WordsRow);

impl Question for ByWords<'_> {
    fn hashes(&self) -> Hashes {
        Hashes {
            sysv: self.0.0,
            ..WHOLE
        }
    }

    fn is_answered<S: Source>(&self, rt: &HostRuntime, elf: &mut Elf<S>) -> bool {
        same(rt, &find_sysv(elf, SYSV, self.0.1), &answer(self.0.2))
    }
}

/// `printf` is looked up by bytes.
#[derive(Drop)]
struct ByBytes<'a>(&'a BytesRow);

impl Question for ByBytes<'_> {
    fn hashes(&self) -> Hashes {
        self.0.0
    }

    fn is_answered<S: Source>(&self, rt: &HostRuntime, elf: &mut Elf<S>) -> bool {
        same(rt, &find_gnu(elf, GNU, b"printf"), &answer(self.0.1))
    }
}

/// Whether each row of words is answered in a form.
fn words_are_answered(rt: &HostRuntime, rows: &[WordsRow], form: ClassAndOrder) -> bool {
    for (n, row) in rows.iter().enumerate() {
        if !in_row(rt, n, is_answered(rt, &ByWords(row), form)) {
            return false;
        }
    }
    true
}

/// Whether each row of bytes is answered in class 64.
fn bytes_are_answered(rt: &HostRuntime, rows: &[BytesRow]) -> bool {
    for (n, row) in rows.iter().enumerate() {
        if !in_row(rt, n, is_answered(rt, &ByBytes(row), WIDE)) {
            return false;
        }
    }
    true
}

#[test]
fn a_chain_of_words_is_walked_to_its_end(rt: HostRuntime) {
    assert!(rt; words_are_answered(&rt, &WORDS_ROWS, WIDE));
    assert!(rt; words_are_answered(&rt, &WORDS_ROWS, NARROW));
}

#[test]
fn a_chain_of_bytes_is_walked_to_its_end(rt: HostRuntime) {
    assert!(rt; bytes_are_answered(&rt, &BYTES_ROWS));
}

/// Whether `printf` is found by bytes in class 32, the greatest byte first, whose bloom words have
/// four bytes.
fn is_found_in_class_32(rt: &HostRuntime) -> bool {
    is_answered(rt, &ByBytes(&(WHOLE, Found::At(5))), NARROW)
}

#[test]
fn a_bloom_of_class_32_is_passed(rt: HostRuntime) {
    assert!(rt; is_found_in_class_32(&rt));
}

/// Sections that are rejected before they are read.
struct Refused;

/// Makes a hash section link to the strings.
fn link_to_strings<S: Source>(elf: &mut Elf<S>, h: ScnId) -> Result<(), ElfError> {
    let header = elf.shdr(h)?;
    elf.update_shdr(h, &Shdr { link: 1, ..header })
}

/// The refusal of a section of bytes.
const BYTES: Result<Option<u64>, ElfError> = Err(ElfError::WrongKind { held: Kind::Bytes });

/// The refusal of a section of words.
const WORDS: Result<Option<u64>, ElfError> = Err(ElfError::WrongKind { held: Kind::Word });

/// The refusal of a section that is not there.
const NO_SECTION: Result<Option<u64>, ElfError> = Err(ElfError::NoSection { index: 9, count: 5 });

impl Question for Refused {
    fn hashes(&self) -> Hashes {
        WHOLE
    }

    fn is_answered<S: Source>(&self, rt: &HostRuntime, elf: &mut Elf<S>) -> bool {
        let mut refused = same(rt, &find_sysv(elf, GNU, b"printf"), &BYTES);
        refused &= same(rt, &find_gnu(elf, SYSV, b"printf"), &WORDS);
        refused &= same(rt, &find_sysv(elf, ScnId(9), b"printf"), &NO_SECTION);
        refused &= same(rt, &find_gnu(elf, ScnId(9), b"printf"), &NO_SECTION);
        refused &= same(rt, &link_to_strings(elf, SYSV), &Ok(()));
        refused &= same(rt, &link_to_strings(elf, GNU), &Ok(()));
        refused &= same(rt, &find_sysv(elf, SYSV, b"printf"), &BYTES);
        refused && same(rt, &find_gnu(elf, GNU, b"printf"), &BYTES)
    }
}

#[test]
fn other_sections_are_refused(rt: HostRuntime) {
    assert!(rt; is_answered(&rt, &Refused, WIDE));
}

/// A name is looked up twice by words and twice by bytes.
struct Twice;

impl Question for Twice {
    fn hashes(&self) -> Hashes {
        WHOLE
    }

    fn is_answered<S: Source>(&self, rt: &HostRuntime, elf: &mut Elf<S>) -> bool {
        for _ in 0..2u8 {
            if !same(rt, &find_sysv(elf, SYSV, b"printf"), &Ok(Some(5))) {
                return false;
            }
            if !same(rt, &find_gnu(elf, GNU, b"printf"), &Ok(Some(5))) {
                return false;
            }
        }
        true
    }
}

/// The bytes of the front and of both hash sections, the symbols and the strings.
const ONCE: u64 = FRONT + 44 + 40 + 8 * 24 + 32;

/// The bytes of the ELF header and of five section headers.
const FRONT: u64 = 64 + 5 * 64;

#[test]
fn each_section_is_read_once(rt: HostRuntime) {
    assert!(rt; same(&rt, &bytes_requested(&rt, &Twice, WIDE), &Ok(Some(ONCE))));
}
