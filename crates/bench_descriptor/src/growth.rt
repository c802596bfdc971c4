//! What is added to an object, and as much pushed to lists.

use elf_descriptor::Elf;
use elf_outside::Source;
use elf_types::{Class, NULL_SECTION, Octets, Order, Shdrs};
use elf_xlate::Items;
use std::alloc::Global;

/// The number of sections that were added to an object, each with a piece.
pub fn sections(alloc: Global, count: u32) -> Option<u64> {
    let mut elf = Elf::create(alloc, Class::C64, Order::Least);
    match add_sections(&mut elf, alloc, count) {
        Some(()) => Some(u64::from(elf.shnum().saturating_sub(1))),
        None => None,
    }
}

/// Adds section 0 and so many sections, each with a piece.
fn add_sections<S: Source>(elf: &mut Elf<S>, alloc: Global, count: u32) -> Option<()> {
    elf.newnull().ok()?;
    for _ in 0..count {
        let s = elf.newscn().ok()?;
        elf.newdata(s, Items::Bytes(Octets::new(alloc))).ok()?;
    }
    Some(())
}

/// A piece of a section.
#[derive(Drop)]
struct Piece {
    items: Items,
    align: u64,
}

/// The number of headers that were pushed to a list, each with a piece to another.
pub fn lists(alloc: Global, count: u32) -> Option<u64> {
    let mut headers = Shdrs::new(alloc);
    let mut pieces = Vec::new(alloc);
    for _ in 0..count {
        headers.push(NULL_SECTION).ok()?;
        let items = Items::Bytes(Octets::new(alloc));
        pieces.push(Piece { items, align: 1 }).ok()?;
    }
    match pieces.last() {
        Some(last) => Some(headers.len().wrapping_add(last.items.count())),
        None => Some(0),
    }
}
