//! Whether the headers of a plan can be those of an object.

ghost use Rattle.std.specs.Prelude.{◌≡◌, ◌↔◌, ◌<◌, length, slice_index_or, true, None, IsTrue};
ghost use Rattle.elf_xlate.specs.Headers.{IsEhdr, phdr_fits};
ghost use Rattle.elf_object.specs.Object.{no_phdr};
ghost use Rattle.elf_object.specs.Refusal.{unfit_segment};
ghost use Rattle.elf_object.specs.elf_ident.Front.{zero_shdr};
ghost use Rattle.rebuild_object.specs.Fitting.{IsFrontReady, IsHeaderReady};
ghost use Rattle.rebuild_object.specs.Objects.{arranged_header};
ghost use Rattle.rebuild_object.specs.Planned.{IsNewHeader};

use elf_outside::Source;
use elf_types::constants::{EV_CURRENT, PN_XNUM};
use elf_types::{Class, Ehdr, NULL_SECTION, Order, Shdr};
use elf_xlate::{ehdr_fits, phdr_fits};
use rebuild_plan::Arranged;
use rebuild_plan::prelude::Elf;

// ---- The ELF header

/// The fields of a header are in the range of their types: it is for proofs, and does nothing.
fn ehdr_is_ranged(_h: Ehdr)
    ensures { IsEhdr _h }
{}

/// Whether two classes are one.
fn is_same_class(a: Class, b: Class) -> bool
    ensures { result ≡ true → a ≡ b }
{
    match a {
        Class::C32 => matches!(b, Class::C32),
        Class::C64 => matches!(b, Class::C64),
    }
}

/// Whether two byte orders are one.
fn is_same_order(a: Order, b: Order) -> bool
    ensures { result ≡ true → a ≡ b }
{
    match a {
        Order::Least => matches!(b, Order::Least),
        Order::Greatest => matches!(b, Order::Greatest),
    }
}

/// Whether of a header the fields that an update does not store are those of a new one.
fn is_new_header(h: &Ehdr) -> bool
    ensures { result ≡ true → IsNewHeader h.now }
{
    if h.version != EV_CURRENT {
        return false;
    }
    if h.ehsize != 0 {
        return false;
    }
    if h.phentsize != 0 {
        return false;
    }
    h.shentsize == 0
}

/// Whether a header counts the program headers of an object, and so many sections.
fn has_counts<S: Source>(elf: &Elf<S>, h: &Ehdr, count: u64) -> bool
    ensures phnum { result ≡ true → h.now.phnum ≡ length elf.now.o.phdrs }
    ensures shnum { result ≡ true → h.now.shnum ≡ count }
{
    let segments = elf.phnum();
    if h.phnum != segments {
        return false;
    }
    h.shnum as u64 == count
}

/// Whether a header is that of a new object with the class, the order and the program headers of
/// another one, and with so many sections.
pub(crate) fn is_header_ready<S: Source>(elf: &Elf<S>, h: &Ehdr, count: u64) -> bool
    ensures { result ≡ true → IsHeaderReady elf.now.o h.now count }
{
    ehdr_is_ranged(*h);
    let old = elf.ehdr();
    if !is_same_class(h.class, old.class) {
        return false;
    }
    if !is_same_order(h.order, old.order) {
        return false;
    }
    if !is_new_header(h) {
        return false;
    }
    if !has_counts(elf, h, count) {
        return false;
    }
    if !ehdr_fits(h) {
        return false;
    }
    h.shstrndx == 0 || (h.shstrndx as u64) < count
}

// ---- The program headers

/// Whether a program header that is there fits the class.
fn segment_fits<S: Source>(elf: &Elf<S>, i: u32) -> bool
    requires { i < length elf.now.o.phdrs }
    ensures { result
        ≡ phdr_fits elf.now.o.header.class (slice_index_or elf.now.o.phdrs i no_phdr) }
{
    let class = elf.ehdr().class;
    phdr_fits(&elf.phdr_at(i), class)
}

/// Whether each program header fits the class.
fn segments_fit<S: Source>(elf: &Elf<S>) -> bool
    ensures { result ≡ true → unfit_segment elf.now.o ≡ None }
{
    for i in 0..elf.phnum() {
        if !segment_fits(elf, i) {
            return false;
        }
    }
    true
}

/// Whether the base reaches to a tail, and the program headers can be counted and fit the class.
pub(crate) fn is_front_ready<S: Source>(elf: &Elf<S>, tail: Option<u64>) -> bool
    ensures { result ≡ true → IsFrontReady elf.now.o tail }
{
    if elf.phnum() >= PN_XNUM {
        return false;
    }
    if !segments_fit(elf) {
        return false;
    }
    match tail {
        Some(n) => n <= elf.base_len(),
        None => true,
    }
}

// ---- Section 0

/// Whether two section headers are the same.
fn is_same_header(a: Shdr, b: Shdr) -> bool
    ensures { IsTrue result ↔ (a ≡ b) }
{
    a == b
}

/// Whether section 0, where there is one, has a header of zeros.
pub(crate) fn is_first_ready(x: &Arranged) -> bool
    ensures { result ≡ true → 0 < length x.now.listed.headers
        → arranged_header x.now 0 ≡ zero_shdr }
{
    let headers = x.listed.headers.as_slice();
    if headers.is_empty() {
        return true;
    }
    is_same_header(headers[0], NULL_SECTION)
}
