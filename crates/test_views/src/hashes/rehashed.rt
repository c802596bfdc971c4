//! Hash sections of dynamic symbols are rebuilt in an object, and what goes by the symbols follows.

use crate::hashes::dynamic::{DYNAMIC, GROUP, INDEXES, RELAS, RELS, VERSIONS, WORDS_ALONE};
use crate::hashes::images::{GNU, Question, SYMBOLS, SYSV, first_piece, is_answered};
use elf_descriptor::Elf;
use elf_outside::Source;
use elf_types::{ElfError, Octets, ScnId, Words};
use elf_xlate::Items;
use gelf_view::{rel, rela, sym};
use rehash_tool::rehash;
use std::alloc::Global;
use symbol_lookup::{find_gnu, find_sysv};
use test_kit_images::{NARROW, WIDE};
use test_kit_rows::{failed, in_row, other, same, same_bytes, same_items};

/// Whether a section's items are these bytes.
fn are_bytes<S: Source>(rt: &HostRuntime, elf: &mut Elf<S>, s: ScnId, wanted: &[u8]) -> bool {
    match elf.data(first_piece(s)) {
        Ok(items) => match items {
            Items::Bytes(l) => same_bytes(rt, l.as_slice(), wanted),
            held => other(rt, &held.kind(), "bytes"),
        },
        Err(e) => failed(rt, e),
    }
}

/// Whether a section's items are these words.
fn are_words<S: Source>(rt: &HostRuntime, elf: &mut Elf<S>, s: ScnId, wanted: &[u32]) -> bool {
    match elf.data(first_piece(s)) {
        Ok(items) => match items {
            Items::Word(l) => same_items(rt, l.as_slice(), wanted),
            held => other(rt, &held.kind(), "words"),
        },
        Err(e) => failed(rt, e),
    }
}

/// Whether a section's items are these two-byte numbers.
fn are_halves<S: Source>(rt: &HostRuntime, elf: &mut Elf<S>, s: ScnId, wanted: &[u16]) -> bool {
    match elf.data(first_piece(s)) {
        Ok(items) => match items {
            Items::Half(l) => same_items(rt, l.as_slice(), wanted),
            held => other(rt, &held.kind(), "two-byte numbers"),
        },
        Err(e) => failed(rt, e),
    }
}

/// What is where once an image was rehashed.
struct Moved {
    /// The hash section of words.
    words: &'static [u32],
    /// GNU's hash section.
    bytes: &'static [u8],
    /// The versions.
    versions: &'static [u16],
    /// The extended indexes.
    indexes: &'static [u32],
    /// The new index of symbol 1, which is `b`.
    b: u32,
    /// The new index of symbol 2, which is `a`.
    a: u32,
}

/// Whether a relocation with an addend is by a symbol.
fn is_rela_of<S: Source>(rt: &HostRuntime, elf: &mut Elf<S>, i: u64, symbol: u32) -> bool {
    match rela(elf, first_piece(RELAS), i) {
        Ok(r) => same(rt, &r.sym, &symbol)
            && same(rt, &r.offset, &8)
            && same(rt, &r.rtype, &1)
            && same(rt, &r.addend, &-4),
        Err(e) => failed(rt, e),
    }
}

/// Whether a relocation without an addend is by a symbol.
fn is_rel_of<S: Source>(rt: &HostRuntime, elf: &mut Elf<S>, i: u64, symbol: u32) -> bool {
    match rel(elf, first_piece(RELS), i) {
        Ok(r) => same(rt, &r.sym, &symbol) && same(rt, &r.offset, &8) && same(rt, &r.rtype, &1),
        Err(e) => failed(rt, e),
    }
}

/// Whether a symbol has the name at an offset.
fn is_named<S: Source>(rt: &HostRuntime, elf: &mut Elf<S>, symbol: u32, name: u32) -> bool {
    match sym(elf, first_piece(SYMBOLS), u64::from(symbol)) {
        Ok(held) => same(rt, &held.name, &name),
        Err(e) => failed(rt, e),
    }
}

/// Whether the signature of the group is a symbol.
fn is_signed<S: Source>(rt: &HostRuntime, elf: &Elf<S>, symbol: u32) -> bool {
    match elf.shdr(GROUP) {
        Ok(header) => same(rt, &header.info, &symbol),
        Err(e) => failed(rt, e),
    }
}

impl Moved {
    /// Whether the sections hold what they should.
    fn is_there<S: Source>(&self, rt: &HostRuntime, elf: &mut Elf<S>) -> bool {
        are_words(rt, elf, SYSV, self.words)
            && are_bytes(rt, elf, GNU, self.bytes)
            && are_halves(rt, elf, VERSIONS, self.versions)
            && are_words(rt, elf, INDEXES, self.indexes)
    }

    /// Whether relocations and the group name the symbols that they named.
    fn is_followed<S: Source>(&self, rt: &HostRuntime, elf: &mut Elf<S>) -> bool {
        is_rela_of(rt, elf, 0, self.b)
            && is_rela_of(rt, elf, 1, 1)
            && is_rela_of(rt, elf, 2, 7)
            && is_rel_of(rt, elf, 0, self.b)
            && is_rel_of(rt, elf, 1, 7)
            && is_signed(rt, elf, self.b)
            && is_named(rt, elf, self.b, 3)
            && is_named(rt, elf, 1, 24)
    }

    /// Whether both sections find both names.
    fn is_found<S: Source>(&self, rt: &HostRuntime, elf: &mut Elf<S>) -> bool {
        same(rt, &find_gnu(elf, GNU, b"a"), &Ok(Some(u64::from(self.a))))
            && same(rt, &find_gnu(elf, GNU, b"b"), &Ok(Some(u64::from(self.b))))
            && same(
                rt,
                &find_sysv(elf, SYSV, b"a"),
                &Ok(Some(u64::from(self.a))),
            )
            && same(
                rt,
                &find_sysv(elf, SYSV, b"b"),
                &Ok(Some(u64::from(self.b))),
            )
            && same(rt, &find_gnu(elf, GNU, b"hidden"), &Ok(None))
    }
}

impl Question for Moved {
    fn is_answered<S: Source>(&self, rt: &HostRuntime, elf: &mut Elf<S>) -> bool {
        same(rt, &rehash(elf), &Ok(true))
            && self.is_there(rt, elf)
            && self.is_followed(rt, elf)
            && self.is_found(rt, elf)
    }
}

/// Two buckets: the symbols are the first one, `hidden`, `a`, `printf` and `b`. The hashes of the
/// last three are 0x2b606, 0x156b2bb8 and 0x2b607, so that the bloom's word has the bits 6, 7, 24,
/// 46 and 56.
static IN_TWO: Moved = Moved {
    words: &[2, 5, 3, 2, 0, 0, 0, 4, 0],
    bytes: &[
        2, 0, 0, 0, 2, 0, 0, 0, 1, 0, 0, 0, 6, 0, 0, 0, 0xc0, 0, 0, 1, 0, 0x40, 0, 1, 2, 0, 0, 0,
        4, 0, 0, 0, 6, 0xb6, 2, 0, 0xb9, 0x2b, 0x6b, 0x15, 7, 0xb6, 2, 0,
    ],
    versions: &[0, 3, 2, 4, 1, 9],
    indexes: &[10, 13, 12, 14, 11, 15],
    b: 4,
    a: 2,
};

/// In class 32 with the greatest byte first the section begins with 2^25 buckets, which are not
/// kept: with one bucket the symbols are the first one, `hidden`, `b`, `a` and `printf`, and the
/// bloom's word has the bits 6, 7, 16, 24 and 29.
static IN_ONE: Moved = Moved {
    words: &[2, 5, 2, 3, 0, 0, 4, 0, 0],
    bytes: &[
        0, 0, 0, 1, 0, 0, 0, 2, 0, 0, 0, 1, 0, 0, 0, 5, 0x21, 1, 0, 0xc0, 0, 0, 0, 2, 0, 2, 0xb6,
        6, 0, 2, 0xb6, 6, 0x15, 0x6b, 0x2b, 0xb9,
    ],
    versions: &[0, 3, 1, 2, 4, 9],
    indexes: &[10, 13, 11, 12, 14, 15],
    b: 2,
    a: 3,
};

#[test]
fn what_goes_by_the_symbols_follows_their_order(rt: HostRuntime) {
    assert!(rt; is_answered(&rt, &IN_TWO, WIDE, &DYNAMIC));
    assert!(rt; is_answered(&rt, &IN_ONE, NARROW, &DYNAMIC));
}

/// Without GNU's section the symbols stay where they are, and nothing else is looked at: the
/// versions may be too few.
struct WordsAlone;

impl Question for WordsAlone {
    fn is_answered<S: Source>(&self, rt: &HostRuntime, elf: &mut Elf<S>) -> bool {
        same(rt, &rehash(elf), &Ok(true))
            && are_words(rt, elf, SYSV, &[2, 5, 1, 2, 0, 4, 0, 0, 0])
            && are_halves(rt, elf, VERSIONS, &[0, 1, 2])
            && is_named(rt, elf, 1, 3)
    }
}

#[test]
fn a_section_of_words_alone_is_built_without_a_new_order(rt: HostRuntime) {
    assert!(rt; is_answered(&rt, &WordsAlone, WIDE, &WORDS_ALONE));
    assert!(rt; is_answered(&rt, &WordsAlone, NARROW, &WORDS_ALONE));
}

/// Beginnings of GNU's hash section that are not kept: too short, no bucket, too many, no bloom
/// word, 2^31 of them, and a shift of 32.
static NOT_KEPT: [&[u8]; 7] = [
    &[],
    &[2, 0, 0, 0, 0, 0, 0, 0, 1, 0, 0, 0, 6, 0, 0],
    &[0, 0, 0, 0, 0, 0, 0, 0, 1, 0, 0, 0, 6, 0, 0, 0],
    &[0xff, 0xff, 0xff, 0xff, 0, 0, 0, 0, 1, 0, 0, 0, 6, 0, 0, 0],
    &[2, 0, 0, 0, 0, 0, 0, 0, 0, 0, 0, 0, 6, 0, 0, 0],
    &[2, 0, 0, 0, 0, 0, 0, 0, 0, 0, 0, 0x80, 6, 0, 0, 0],
    &[2, 0, 0, 0, 0, 0, 0, 0, 1, 0, 0, 0, 32, 0, 0, 0],
];

/// The section of one bucket and one bloom word.
const SMALLEST: &[u8] = &[
    1, 0, 0, 0, 2, 0, 0, 0, 1, 0, 0, 0, 6, 0, 0, 0, 0xc0, 0, 0, 1, 0, 0x40, 0, 1, 2, 0, 0, 0, 6,
    0xb6, 2, 0, 6, 0xb6, 2, 0, 0xb9, 0x2b, 0x6b, 0x15,
];

/// Gives a section bytes, and rehashes.
fn rehash_with_bytes<S: Source>(
    alloc: Global,
    elf: &mut Elf<S>,
    bytes: &[u8],
) -> Result<bool, ElfError> {
    let held = Octets::from_slice(alloc, bytes)?;
    match elf.replace(first_piece(GNU), Items::Bytes(held)) {
        Ok(()) => rehash(elf),
        Err((_, e)) => Err(e),
    }
}

/// The smallest section is built where the present one has no shape to keep.
struct Shaped;

impl Question for Shaped {
    fn is_answered<S: Source>(&self, rt: &HostRuntime, elf: &mut Elf<S>) -> bool {
        for (n, bytes) in NOT_KEPT.iter().enumerate() {
            let so = same(rt, &rehash_with_bytes(rt.alloc(), elf, bytes), &Ok(true))
                && are_bytes(rt, elf, GNU, SMALLEST);
            if !in_row(rt, n, so) {
                return false;
            }
        }
        true
    }
}

#[test]
fn a_shape_that_is_too_large_or_none_becomes_the_smallest(rt: HostRuntime) {
    assert!(rt; is_answered(&rt, &Shaped, WIDE, &DYNAMIC));
}

/// Numbers of buckets that are not kept.
static NO_BUCKETS: [&[u32]; 3] = [&[], &[0, 5], &[0xffff_ffff]];

/// Gives the section of words others, and rehashes.
fn rehash_with_words<S: Source>(
    alloc: Global,
    elf: &mut Elf<S>,
    words: &[u32],
) -> Result<bool, ElfError> {
    let held = Words::from_slice(alloc, words)?;
    match elf.replace(first_piece(SYSV), Items::Word(held)) {
        Ok(()) => rehash(elf),
        Err((_, e)) => Err(e),
    }
}

/// One bucket is built for them.
struct Bucket;

impl Question for Bucket {
    fn is_answered<S: Source>(&self, rt: &HostRuntime, elf: &mut Elf<S>) -> bool {
        for (n, words) in NO_BUCKETS.iter().enumerate() {
            let so = same(rt, &rehash_with_words(rt.alloc(), elf, words), &Ok(true))
                && are_words(rt, elf, SYSV, &[1, 5, 2, 0, 0, 3, 4, 0]);
            if !in_row(rt, n, so) {
                return false;
            }
        }
        true
    }
}

#[test]
fn too_many_buckets_or_none_become_one(rt: HostRuntime) {
    assert!(rt; is_answered(&rt, &Bucket, WIDE, &DYNAMIC));
}
