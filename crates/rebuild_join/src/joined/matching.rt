//! Whether two objects are halves of one program.

ghost use Rattle.std.specs.Prelude.{◌≡◌, ◌<◌, length, slice_get, Some, IfOk, IfErr};
ghost use Rattle.std.specs.Cmp.Lexicographic.{pointwise};
ghost use Rattle.elf_types.specs.declared.errors.ElfError.TheVariants.{Memory};
ghost use Rattle.rebuild_keep.specs.elf_object.Sections.{header_at};
ghost use Rattle.rebuild_keep.specs.rebuild_model.Split.{same_class, same_order, same_header, same_phdr, same_loaded, allocated, allocated_headers, matches};

use crate::joined::loaded::allocated;
use elf_outside::Source;
use elf_types::{Class, Ehdr, ElfError, Order, Phdr, ScnId, Shdr};
use rebuild_keep::prelude::Elf;
use std::alloc::Global;

// ---- The headers

/// Whether two classes are the same.
fn same_class(a: Class, b: Class) -> bool
    ensures { result ≡ same_class a b }
{
    match a {
        Class::C32 => match b {
            Class::C32 => true,
            Class::C64 => false,
        },
        Class::C64 => match b {
            Class::C32 => false,
            Class::C64 => true,
        },
    }
}

/// Whether two byte orders are the same.
fn same_order(a: Order, b: Order) -> bool
    ensures { result ≡ same_order a b }
{
    match a {
        Order::Least => match b {
            Order::Least => true,
            Order::Greatest => false,
        },
        Order::Greatest => match b {
            Order::Least => false,
            Order::Greatest => true,
        },
    }
}

/// Whether two ELF headers are those of halves of one program: their class, order, osabi,
/// abiversion, type, machine, entry and flags are the same.
#[tactic(auto, unfolding(rebuild_keep::specs::Passed::same_header))]
fn same_header(a: &Ehdr, b: &Ehdr) -> bool
    ensures { result ≡ same_header a.now b.now }
{
    let class = same_class(a.class, b.class);
    let order = same_order(a.order, b.order);
    class
        && order
        && a.osabi == b.osabi
        && a.abiversion == b.abiversion
        && a.etype == b.etype
        && a.machine == b.machine
        && a.entry == b.entry
        && a.flags == b.flags
}

/// Whether the headers of two objects are those of halves of one program.
fn same_headers<S: Source, T: Source>(stripped: &Elf<S>, debug: &Elf<T>) -> bool
    ensures { result ≡ same_header stripped.now.o.header debug.now.o.header }
{
    let one = stripped.ehdr();
    let other = debug.ehdr();
    same_header(&one, &other)
}

// ---- The program headers

/// Whether all fields of two program headers are the same.
#[tactic(auto, unfolding(rebuild_keep::specs::Passed::same_phdr))]
fn same_phdr(a: &Phdr, b: &Phdr) -> bool
    ensures { result ≡ same_phdr a.now b.now }
{
    a.ptype == b.ptype
        && a.flags == b.flags
        && a.offset == b.offset
        && a.vaddr == b.vaddr
        && a.paddr == b.paddr
        && a.filesz == b.filesz
        && a.memsz == b.memsz
        && a.align == b.align
}

/// Whether the program headers of two objects are the same, one after another.
fn same_segments<S: Source, T: Source>(stripped: &Elf<S>, debug: &Elf<T>) -> bool
    ensures { result ≡ pointwise same_phdr stripped.now.o.phdrs debug.now.o.phdrs }
{
    if stripped.phnum() != debug.phnum() {
        return false;
    }
    for i in 0..stripped.phnum() {
        let one = stripped.phdr_at(i);
        let other = debug.phdr_at(i);
        if !same_phdr(&one, &other) {
            return false;
        }
    }
    true
}

// ---- The allocated sections

/// Whether flags, address, size, alignment and entry size of two sections are the same.
#[tactic(auto, unfolding(rebuild_keep::specs::Passed::same_loaded))]
fn same_loaded(a: &Shdr, b: &Shdr) -> bool
    ensures { result ≡ same_loaded a.now b.now }
{
    a.flags == b.flags
        && a.addr == b.addr
        && a.size == b.size
        && a.addralign == b.addralign
        && a.entsize == b.entsize
}

/// The number at an index of a list.
pub fn listed_number(numbers: &[u32], i: usize) -> u32
    requires { i < length numbers.now }
    ensures { slice_get numbers.now i ≡ Some result }
{
    numbers[i]
}

/// Whether two sections that are there take one place of memory.
fn same_place<S: Source, T: Source>(stripped: &Elf<S>, t: ScnId, debug: &Elf<T>, s: ScnId) -> bool
    requires stripped { t.0 < length stripped.now.o.sections }
    requires debug { s.0 < length debug.now.o.sections }
    ensures { result
        ≡ same_loaded (header_at stripped.now.o t.0) (header_at debug.now.o s.0) }
{
    let one = stripped.section_header(t);
    let other = debug.section_header(s);
    same_loaded(&one, &other)
}

/// Whether the allocated sections of two objects take the same places, one after another.
fn same_places<S: Source, T: Source>(
    stripped: &Elf<S>,
    loaded: &[u32],
    debug: &Elf<T>,
    others: &[u32],
) -> bool
    requires loaded { loaded.now ≡ allocated stripped.now.o }
    requires others { others.now ≡ allocated debug.now.o }
    ensures { result ≡ pointwise same_loaded (allocated_headers stripped.now.o)
        (allocated_headers debug.now.o) }
{
    if loaded.len() != others.len() {
        return false;
    }
    for i in 0..loaded.len() {
        let t = ScnId(listed_number(loaded, i));
        let s = ScnId(listed_number(others, i));
        if !same_place(stripped, t, debug, s) {
            return false;
        }
    }
    true
}

// ---- All of it

/// Whether two objects are halves of one program, by their allocated sections.
#[tactic(auto, unfolding(rebuild_keep::specs::Passed::matches))]
fn matches<S: Source, T: Source>(
    stripped: &Elf<S>,
    loaded: &[u32],
    debug: &Elf<T>,
    others: &[u32],
) -> bool
    requires loaded { loaded.now ≡ allocated stripped.now.o }
    requires others { others.now ≡ allocated debug.now.o }
    ensures { result ≡ matches stripped.now.o debug.now.o }
{
    same_headers(stripped, debug)
        && same_segments(stripped, debug)
        && same_places(stripped, loaded, debug, others)
}

/// Whether two objects are halves of one program: their headers, their program headers and their
/// allocated sections from 1 on tell. It fails with `Memory` alone.
pub fn are_halves<S: Source, T: Source>(
    alloc: Global,
    stripped: &Elf<S>,
    loaded: &[u32],
    debug: &Elf<T>,
) -> Result<bool, ElfError>
    requires { loaded.now ≡ allocated stripped.now.o }
    ensures ok { IfOk result (λ same. same ≡ matches stripped.now.o debug.now.o) }
    ensures err { IfErr result (λ e. e ≡ Memory) }
{
    match allocated(alloc, debug) {
        Ok(others) => Ok(matches(stripped, loaded, debug, others.as_slice())),
        Err(e) => Err(e),
    }
}
