//! What a descriptor reads, and the memory that is taken for that and freed.

use super::{DescriptorStep, STRINGS_PIECE};
use crate::callers::reads::{first_two, long, symbol};
use elf_descriptor::Elf;
use elf_outside::Source;
use elf_types::{DataId, ElfError, Kind, ScnId, Sym};
use elf_xlate::Items;
use test_kit_rows::{failed, other, same, same_bytes};

/// The kind and the number of the items of a piece.
fn data_of<S: Source>(elf: &mut Elf<S>, d: DataId) -> Result<(Kind, u64), ElfError> {
    let items = elf.data(d)?;
    Ok((items.kind(), items.count()))
}

/// Whether the raw bytes of a section are told so.
fn is_raw<S: Source>(
    rt: &HostRuntime,
    elf: &mut Elf<S>,
    s: ScnId,
    told: Result<&[u8], ElfError>,
) -> bool {
    match (elf.raw(s), told) {
        (Ok(raw), Ok(bytes)) => same_bytes(rt, raw, bytes),
        (Err(e), Err(wanted)) => same(rt, &e, &wanted),
        (Ok(_), Err(wanted)) => other(rt, &wanted, "that in place of bytes"),
        (Err(e), Ok(_)) => failed(rt, e),
    }
}

/// Byte 1 of the strings.
fn byte<S: Source>(elf: &mut Elf<S>) -> Option<u8> {
    match elf.data(STRINGS_PIECE) {
        Ok(Items::Bytes(bytes)) => bytes.get(1),
        _ => None,
    }
}

/// The first two base bytes, where there are so many.
fn first_base<S: Source>(elf: &mut Elf<S>) -> Result<[u8; 2], ElfError> {
    let mut start = [0u8; 2];
    if 2 <= elf.base_len() {
        elf.copy_base(0, &mut start)?;
    }
    Ok(start)
}

/// Whether a step that reads, or takes memory or lets it go, is answered so.
pub fn is_read<S: Source>(rt: &HostRuntime, elf: &mut Elf<S>, step: &DescriptorStep) -> bool {
    match step {
        DescriptorStep::Data(d, told) => same(rt, &data_of(elf, *d), told),
        DescriptorStep::Long(s, told) => same(rt, &long(elf, ScnId(*s)), told),
        DescriptorStep::Raw(s, told) => is_raw(rt, elf, ScnId(*s), *told),
        DescriptorStep::Byte(told) => same(rt, &byte(elf), &Some(*told)),
        DescriptorStep::FirstTwo(d, first, second) => first_two::<S, Sym>(elf, *d)
            == Ok((*first, *second)),
        DescriptorStep::Symbol(d, i, told) => same(rt, &symbol(elf, *d, *i), told),
        DescriptorStep::Base(told) => same(rt, &first_base(elf), &Ok(*told)),
        DescriptorStep::Reserve => same(rt, &elf.reserve(), &Ok(())),
        DescriptorStep::ReserveHome(s, told) => same(rt, &elf.reserve_home(ScnId(*s)), told),
        DescriptorStep::Unload(s, told) => same(rt, &elf.unload(ScnId(*s)), told),
        _ => false,
    }
}
