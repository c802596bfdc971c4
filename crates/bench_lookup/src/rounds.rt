//! The rounds, and the sum of the symbols' numbers that they find.

use crate::work::{LookupRound, LookupTask};
use elf_descriptor::Elf;
use elf_outside::{Files, Source};
use elf_types::constants::{SHT_GNU_HASH, SHT_HASH, SHT_SYMTAB};
use elf_types::{ElfError, ScnId};
use std::alloc::Global;
use symbol_lookup::{find_gnu, find_linear, find_sysv};

/// The first section of a type.
fn first_of<S: Source>(elf: &Elf<S>, stype: u32) -> Option<ScnId> {
    for s in 0..elf.shnum() {
        let header = elf.shdr(ScnId(s)).ok()?;
        if header.stype == stype {
            return Some(ScnId(s));
        }
    }
    None
}

/// The number of a symbol that was found, and 0 where none was.
fn number(found: Result<Option<u64>, ElfError>) -> Option<u64> {
    match found {
        Ok(Some(i)) => Some(i),
        Ok(None) => Some(0),
        Err(_) => None,
    }
}

/// The section that is looked through.
fn section_of<S: Source>(elf: &Elf<S>, what: LookupRound) -> Option<ScnId> {
    match what {
        LookupRound::Sysv => first_of(elf, SHT_HASH),
        LookupRound::Gnu => first_of(elf, SHT_GNU_HASH),
        _ => first_of(elf, SHT_SYMTAB),
    }
}

/// One lookup.
fn lookup<S: Source>(elf: &mut Elf<S>, what: LookupRound, s: ScnId, name: &[u8]) -> Option<u64> {
    match what {
        LookupRound::Sysv => number(find_sysv(elf, s, name)),
        LookupRound::Gnu => number(find_gnu(elf, s, name)),
        _ => number(find_linear(elf, s, name)),
    }
}

/// The sum of so many lookups, after a first one that reads what is looked through.
fn lookups<S: Source>(elf: &mut Elf<S>, work: &LookupTask, rounds: u32) -> Option<u64> {
    let name = work.name.as_str().as_bytes();
    let s = section_of(elf, work.what)?;
    let mut sum = lookup(elf, work.what, s, name)?;
    for _ in 0..rounds {
        sum = sum.wrapping_add(lookup(elf, work.what, s, name)?);
    }
    Some(sum)
}

/// The sum of the lookups over a source, which is given back.
fn over<S: Source>(alloc: Global, src: S, work: &LookupTask, rounds: u32) -> (S, Option<u64>) {
    match Elf::begin(alloc, src) {
        Ok(mut elf) => {
            let sum = lookups(&mut elf, work, rounds);
            (elf.end(), sum)
        }
        Err((src, _)) => (src, None),
    }
}

/// The sum of the lookups over the file, which is opened and closed.
fn over_file<F: Files>(
    alloc: Global,
    files: &mut F,
    work: &LookupTask,
    rounds: u32,
) -> Option<u64> {
    let file = files.open(alloc, work.file.as_str()).ok()?;
    let (file, sum) = over(alloc, file, work, rounds);
    files.close(work.file.as_str(), file);
    sum
}

/// The sum of all rounds, or None where one failed.
pub fn lookup_total<F: Files>(alloc: Global, files: &mut F, work: &LookupTask) -> Option<u64> {
    if work.what != LookupRound::Open {
        return over_file(alloc, files, work, work.rounds);
    }
    let mut sum = 0u64;
    for _ in 0..work.rounds {
        sum = sum.wrapping_add(over_file(alloc, files, work, 0)?);
    }
    Some(sum)
}
