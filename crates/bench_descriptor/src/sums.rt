//! The sums of what is read.

use crate::growth::{lists, sections};
use crate::work::{DescriptorRound, DescriptorTask};
use elf_descriptor::Elf;
use elf_outside::reads::read_range;
use elf_outside::{Files, Source};
use elf_types::constants::SHT_SYMTAB;
use elf_types::{Class, DataId, ElfError, Order, ScnId, Sym};
use elf_xlate::get_shdrs;
use std::alloc::Global;

/// The sum of the sizes of all sections, modulo 2^64.
fn headers<S: Source>(elf: &Elf<S>) -> Option<u64> {
    let mut sum = 0u64;
    for s in 0..elf.shnum() {
        let header = elf.shdr(ScnId(s)).ok()?;
        sum = sum.wrapping_add(header.size);
    }
    Some(sum)
}

/// The number of the first symbol table.
fn first_symbols<S: Source>(elf: &Elf<S>) -> Option<u32> {
    for s in 0..elf.shnum() {
        let header = elf.shdr(ScnId(s)).ok()?;
        if header.stype == SHT_SYMTAB {
            return Some(s);
        }
    }
    None
}

/// The sum of the values of the symbols of the first symbol table, modulo 2^64, each read by its
/// own call.
fn symbols<S: Source>(elf: &mut Elf<S>) -> Option<u64> {
    let section = first_symbols(elf)?;
    let table = DataId { section, piece: 0 };
    let mut sum = 0u64;
    for i in 0..u64::MAX {
        match elf.item::<Sym>(table, i) {
            Ok(symbol) => sum = sum.wrapping_add(symbol.value),
            Err(ElfError::NoEntry { .. }) => break,
            Err(_) => return None,
        }
    }
    Some(sum)
}

/// The number of symbols of the first symbol table, of which one is edited so often.
fn edited<S: Source>(elf: &mut Elf<S>, times: u32) -> Option<u64> {
    let section = first_symbols(elf)?;
    let table = DataId { section, piece: 0 };
    let mut count = 0;
    for _ in 0..times {
        count = edit_first(elf, table)?;
    }
    Some(count)
}

/// Adds 1 to the value of the first symbol of a piece, and returns how many it has.
fn edit_first<S: Source>(elf: &mut Elf<S>, table: DataId) -> Option<u64> {
    match elf.syms_mut(table) {
        Ok(symbols) => {
            if let Some(first) = symbols.as_mut_slice().first_mut() {
                first.value = first.value.wrapping_add(1);
            }
            Some(symbols.len())
        }
        Err(_) => None,
    }
}

/// The sum of one round over a source, which is given back.
fn round<S: Source>(alloc: Global, src: S, what: DescriptorRound) -> (S, Option<u64>) {
    match Elf::begin(alloc, src) {
        Ok(mut elf) => {
            let sum = match what {
                DescriptorRound::Open => Some(u64::from(elf.shnum())),
                DescriptorRound::Headers => headers(&elf),
                DescriptorRound::Symbols => symbols(&mut elf),
                DescriptorRound::Once => edited(&mut elf, 1),
                DescriptorRound::Twice => edited(&mut elf, 2),
                _ => None,
            };
            (elf.end(), sum)
        }
        Err((src, _)) => (src, None),
    }
}

/// The number of the section headers of class 64, least byte first, of which a source consists. They
/// are read and decoded.
fn decoded<S: Source>(alloc: Global, src: &mut S) -> Option<u64> {
    let size = src.len();
    let table = read_range(alloc, src, 0, size).ok()?;
    let bytes = table.as_slice();
    if bytes.len() % 64 != 0 {
        return None;
    }
    let headers = get_shdrs(alloc, Class::C64, Order::Least, bytes).ok()?;
    Some(headers.len())
}

/// The sum of one round over a file of section headers, or None where it is not there.
fn table_round<F: Files>(alloc: Global, files: &mut F, work: &DescriptorTask) -> Option<u64> {
    let mut file = files.open(alloc, work.name.as_str()).ok()?;
    let part = decoded(alloc, &mut file);
    files.close(work.name.as_str(), file);
    part
}

/// The sum of one round over an image, or None where it is not there or was rejected.
fn file_round<F: Files>(alloc: Global, files: &mut F, work: &DescriptorTask) -> Option<u64> {
    let file = files.open(alloc, work.name.as_str()).ok()?;
    let (file, part) = round(alloc, file, work.what);
    files.close(work.name.as_str(), file);
    part
}

/// The sum of one round.
fn part<F: Files>(alloc: Global, files: &mut F, work: &DescriptorTask) -> Option<u64> {
    match work.what {
        DescriptorRound::Sections => sections(alloc, work.count()?),
        DescriptorRound::Lists => lists(alloc, work.count()?),
        DescriptorRound::Decode => table_round(alloc, files, work),
        _ => file_round(alloc, files, work),
    }
}

/// The sum of all rounds, or None where one failed.
pub fn descriptor_total<F: Files>(
    alloc: Global,
    files: &mut F,
    work: &DescriptorTask,
) -> Option<u64> {
    let mut sum = 0u64;
    for _ in 0..work.rounds {
        sum = sum.wrapping_add(part(alloc, files, work)?);
    }
    Some(sum)
}
