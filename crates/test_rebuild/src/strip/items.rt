//! What follows in the sections that stay.

use crate::strip::removed::{COUNT, bytes_in};
use elf_descriptor::Elf;
use elf_outside::Source;
use elf_types::constants::{SHF_INFO_LINK, SHT_PROGBITS, SHT_RELA};
use elf_types::{ElfError, NULL_SECTION, Octets, Shdr, Sym, Syms, Words};
use rebuild_numbers::{Numbering, followed_group, followed_header, followed_syms, followed_words};
use rebuild_select::{SectionSet, removed};
use std::alloc::Global;
use test_kit_images::WIDE;
use test_kit_rows::{failed, in_row, other, same, same_items};
use test_kit_sources::source;
use tool_text::Args;

/// The link and the info of a section of a type with flags, and what they become: sections 4 and 6
/// stay, as 2 and 3, and 5 goes.
const LINKS: [(u32, u64, (u32, u32), (u32, u32)); 5] = [
    (SHT_PROGBITS, 0, (4, 4), (2, 4)),
    (SHT_PROGBITS, SHF_INFO_LINK, (5, 6), (0, 3)),
    (SHT_RELA, 0, (6, 5), (3, 0)),
    (SHT_RELA, 0, (0, 16), (0, 16)),
    (SHT_RELA, 0, (15, 99), (9, 99)),
];

/// Whether a header's links become what they should.
fn is_linked(
    rt: &HostRuntime,
    numbering: &Numbering,
    row: &(u32, u64, (u32, u32), (u32, u32)),
) -> bool {
    let h = Shdr {
        stype: row.0,
        flags: row.1,
        link: row.2.0,
        info: row.2.1,
        ..NULL_SECTION
    };
    let new = followed_header(numbering, &h);
    same(rt, &(new.link, new.info), &row.3)
}

/// Whether the links of all headers become what they should.
fn are_linked(rt: &HostRuntime, numbering: &Numbering) -> bool {
    for (n, row) in LINKS.iter().enumerate() {
        if !in_row(rt, n, is_linked(rt, numbering, row)) {
            return false;
        }
    }
    true
}

/// The flags of a group and its members, and what is left: a number that is no section's stays.
const GROUP: [u32; 6] = [2, 4, 5, 0, 6, 16];

const GROUP_LEFT: [u32; 5] = [2, 2, 0, 3, 16];

/// Whether a group has the members that are left.
fn is_grouped(rt: &HostRuntime, numbering: &Numbering) -> bool {
    match followed_group(rt.alloc(), numbering, &GROUP) {
        Ok(words) => same_items(rt, words.as_slice(), GROUP_LEFT.as_slice()),
        Err(e) => failed(rt, e),
    }
}

/// The index of a symbol, its word, and what both become, with the symbol's value.
const SYMBOLS: [(u16, u32, u16, u32, u64); 8] = [
    (0, 0, 0, 0, 7),
    (4, 9, 2, 9, 7),
    (5, 0, 0, 0, 0),
    (16, 0, 16, 0, 7),
    (0xfff1, 4, 0xfff1, 4, 7),
    (0xffff, 6, 3, 0, 7),
    (0xffff, 1, 0xffff, 1, 7),
    (0xffff, 5, 0, 0, 0),
];

/// A symbol with an index and a value.
fn symbol(shndx: u16, value: u64) -> Sym {
    Sym {
        name: 1,
        info: 2,
        other: 3,
        shndx,
        value,
        size: 4,
    }
}

/// Puts the symbols and their words into lists.
fn fill(syms: &mut Syms, words: &mut Words) -> Result<(), ElfError> {
    for row in SYMBOLS.iter() {
        syms.push(symbol(row.0, 7))?;
        words.push(row.1)?;
    }
    Ok(())
}

/// Whether symbols and words are those that the rows tell.
fn are_told(rt: &HostRuntime, syms: &[Sym], words: &[u32]) -> bool {
    for (i, row) in SYMBOLS.iter().enumerate() {
        let told = same(rt, &syms.get(i).copied(), &Some(symbol(row.2, row.4)))
            && same(rt, &words.get(i).copied(), &Some(row.3));
        if !in_row(rt, i, told) {
            return false;
        }
    }
    true
}

/// What symbols and their words become.
fn followed(
    alloc: Global,
    numbering: &Numbering,
    syms: &[Sym],
    words: &[u32],
) -> Result<(Syms, Words), ElfError> {
    let new_syms = followed_syms(alloc, numbering, words, syms)?;
    match followed_words(alloc, numbering, syms, words) {
        Ok(new_words) => Ok((new_syms, new_words)),
        Err(e) => Err(e),
    }
}

/// What the symbols and their words become.
fn indexed(alloc: Global, numbering: &Numbering) -> Result<(Syms, Words), ElfError> {
    let mut syms = Syms::new(alloc);
    let mut words = Words::new(alloc);
    match fill(&mut syms, &mut words) {
        Ok(()) => followed(alloc, numbering, syms.as_slice(), words.as_slice()),
        Err(e) => Err(e),
    }
}

/// Whether symbols and words become what they should.
fn are_indexed(rt: &HostRuntime, numbering: &Numbering) -> bool {
    match indexed(rt.alloc(), numbering) {
        Ok((syms, words)) => are_told(rt, syms.as_slice(), words.as_slice()),
        Err(e) => failed(rt, e),
    }
}

/// Whether all follows where these sections are removed.
fn all_follows(rt: &HostRuntime, gone: &SectionSet) -> bool {
    if gone.contains(0) {
        return other(rt, &"section 0 among them", "sections from 1 on");
    }
    match Numbering::without(rt.alloc(), COUNT, gone) {
        Ok(numbering) => {
            are_linked(rt, &numbering) && is_grouped(rt, &numbering) && are_indexed(rt, &numbering)
        }
        Err(e) => failed(rt, e),
    }
}

/// Whether all follows where strip removes sections of an object.
fn follows_in<S: Source>(rt: &HostRuntime, elf: &mut Elf<S>) -> bool {
    match removed(rt.alloc(), elf, false, &Args::new(rt.alloc())) {
        Ok(gone) => all_follows(rt, &gone),
        Err(e) => failed(rt, e),
    }
}

/// Whether it does over a source.
fn follows_over<S: Source + Drop>(rt: &HostRuntime, src: S) -> bool {
    match Elf::begin(rt.alloc(), src) {
        Ok(mut elf) => {
            let follows = follows_in(rt, &mut elf);
            let _src = elf.end();
            follows
        }
        Err((_src, e)) => failed(rt, e),
    }
}

/// Whether it does in an image of these bytes.
fn follows_of(rt: &HostRuntime, bytes: Octets) -> bool {
    match source(rt.alloc(), bytes, 0) {
        Ok(src) => follows_over(rt, src),
        Err(e) => failed(rt, e),
    }
}

#[test]
fn what_stays_follows_the_new_numbers(rt: HostRuntime) {
    let follows = match bytes_in(rt.alloc(), WIDE) {
        Ok(bytes) => follows_of(&rt, bytes),
        Err(e) => failed(&rt, e),
    };
    assert!(rt; follows);
}
