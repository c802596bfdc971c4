//! What is built for the object with two symbols, and the order of symbols.

use crate::hashes::images::{Question, SYMBOLS, UNSORTED, is_answered, is_refusal};
use elf_descriptor::Elf;
use elf_outside::Source;
use elf_types::{ElfError, Octets, Words};
use hash_build::{GnuShape, build_gnu, build_sysv, gnu_order};
use test_kit_images::{NARROW, OBJECT, WIDE};
use test_kit_rows::{failed, same_bytes, same_items};

/// Whether these are the words.
fn are_words(rt: &HostRuntime, words: &Result<Words, ElfError>, wanted: &[u32]) -> bool {
    match words {
        Ok(l) => same_items(rt, l.as_slice(), wanted),
        Err(e) => failed(rt, *e),
    }
}

/// Whether these are the bytes.
fn are_bytes(rt: &HostRuntime, bytes: &Result<Octets, ElfError>, wanted: &[u8]) -> bool {
    match bytes {
        Ok(l) => same_bytes(rt, l.as_slice(), wanted),
        Err(e) => failed(rt, *e),
    }
}

/// One bucket and one bloom word.
const ONE: GnuShape = GnuShape {
    nbuckets: 1,
    bloom: 1,
    shift: 6,
};

/// GNU's hash section of that shape, of the symbol `a` alone.
const WIDE_BYTES: &[u8] = &[
    1, 0, 0, 0, 1, 0, 0, 0, 1, 0, 0, 0, 6, 0, 0, 0, 0x40, 0, 0, 1, 0, 0, 0, 0, 1, 0, 0, 0, 7, 0xb6,
    2, 0,
];

/// GNU's hash section of that shape in class 32, the greatest byte first: the hash is 0x2b606, so
/// the bloom's word has the bits 6 and 24.
const NARROW_BYTES: &[u8] = &[
    0, 0, 0, 1, 0, 0, 0, 1, 0, 0, 0, 1, 0, 0, 0, 6, 1, 0, 0, 0x40, 0, 0, 0, 1, 0, 2, 0xb6, 7,
];

/// Both sections and the order are those of the object with one symbol that is listed.
struct Built(&'static [u8]);

impl Question for Built {
    fn is_answered<S: Source>(&self, rt: &HostRuntime, elf: &mut Elf<S>) -> bool {
        let words = build_sysv(elf, SYMBOLS, 1);
        let order = gnu_order(elf, SYMBOLS, 1);
        let bytes = build_gnu(elf, SYMBOLS, ONE);
        are_words(rt, &words, &[1, 2, 1, 0, 0])
            && are_words(rt, &order, &[0, 1])
            && are_bytes(rt, &bytes, self.0)
    }
}

#[test]
fn both_sections_are_built_for_one_symbol(rt: HostRuntime) {
    assert!(rt; is_answered(&rt, &Built(WIDE_BYTES), WIDE, &OBJECT));
    assert!(rt; is_answered(&rt, &Built(NARROW_BYTES), NARROW, &OBJECT));
}

/// Two buckets.
const TWO: GnuShape = GnuShape {
    nbuckets: 2,
    bloom: 1,
    shift: 6,
};

/// Symbols out of their order: those that are not listed come first, and then the others by bucket.
struct Ordered;

impl Question for Ordered {
    fn is_answered<S: Source>(&self, rt: &HostRuntime, elf: &mut Elf<S>) -> bool {
        let two = gnu_order(elf, SYMBOLS, 2);
        let one = gnu_order(elf, SYMBOLS, 1);
        let refused = build_gnu(elf, SYMBOLS, TWO);
        are_words(rt, &two, &[0, 3, 2, 4, 1])
            && are_words(rt, &one, &[0, 3, 1, 2, 4])
            && is_refusal(rt, &refused, ElfError::Unsorted { at: 2 })
    }
}

#[test]
fn symbols_are_ordered_by_bucket(rt: HostRuntime) {
    assert!(rt; is_answered(&rt, &Ordered, WIDE, &UNSORTED));
    assert!(rt; is_answered(&rt, &Ordered, NARROW, &UNSORTED));
}

/// Chains go up in a section of type `SHT_HASH`, whatever the order of the symbols is: the elf
/// hashes of `b`, `a` and `printf` are 0x62, 0x61 and 0x77905a6.
struct Chained;

impl Question for Chained {
    fn is_answered<S: Source>(&self, rt: &HostRuntime, elf: &mut Elf<S>) -> bool {
        let two = build_sysv(elf, SYMBOLS, 2);
        let one = build_sysv(elf, SYMBOLS, 1);
        are_words(rt, &two, &[2, 5, 1, 2, 0, 4, 0, 0, 0])
            && are_words(rt, &one, &[1, 5, 1, 0, 2, 4, 0, 0])
    }
}

#[test]
fn chains_of_words_go_up(rt: HostRuntime) {
    assert!(rt; is_answered(&rt, &Chained, WIDE, &UNSORTED));
    assert!(rt; is_answered(&rt, &Chained, NARROW, &UNSORTED));
}
