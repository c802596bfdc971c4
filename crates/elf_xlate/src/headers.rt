//! The ELF header.

ghost use Rattle.std.specs.Prelude.{◌≡◌, ◌≤◌, ◌++◌, length, drop, IsTrue};
ghost use Rattle.elf_xlate.specs.Fields.{class_of};
ghost use Rattle.elf_xlate.specs.Headers.{ident, class_code, order_code, ehdr_bytes, ehdr_fits, ehdr_of, ehdr_size, HasNarrowCounts, IsEhdr};

use crate::byte_order::{Endian, in_form};
use crate::fields::{
    get_field, get_four, get_native, get_one, get_two, put_field, put_four, put_native, put_one,
    put_two,
};
use byteorder::{BigEndian, LittleEndian};
use elf_types::constants::{
    EI_ABIVERSION, EI_CLASS, EI_NIDENT, EI_OSABI, EI_PAD, ELFCLASS32, ELFCLASS64, ELFDATA2LSB,
    ELFDATA2MSB, ELFMAG, EV_CURRENT,
};
use elf_types::{Class, Ehdr, Order};

/// The ELF header, of class 64 or of class 32.
#[tactic(auto, unfolding(crate::proofs::Words::ehdr))]
fn decode_ehdr<T: Endian, const WIDE: bool>(class: Class, order: Order, bytes: &[u8]) -> Ehdr
    requires size { length bytes.now ≡ ehdr_size (class_of WIDE) }
    requires class { class ≡ class_of WIDE }
    requires order { order ≡ T.order }
    ensures value { result ≡ ehdr_of class order bytes.now }
    ensures counts { HasNarrowCounts result }
    ensures ranged { IsEhdr result }
    ensures fits { IsTrue (ehdr_fits result) }
{
    Ehdr {
        class,
        order,
        osabi: get_field!(T, WIDE, bytes, EI_OSABI:1, EI_OSABI:1),
        abiversion: get_field!(T, WIDE, bytes, EI_ABIVERSION:1, EI_ABIVERSION:1),
        etype: get_field!(T, WIDE, bytes, 16:2, 16:2),
        machine: get_field!(T, WIDE, bytes, 18:2, 18:2),
        version: get_field!(T, WIDE, bytes, 20:4, 20:4),
        entry: get_field!(T, WIDE, bytes, 24:4, 24:8),
        phoff: get_field!(T, WIDE, bytes, 28:4, 32:8),
        shoff: get_field!(T, WIDE, bytes, 32:4, 40:8),
        flags: get_field!(T, WIDE, bytes, 36:4, 48:4),
        ehsize: get_field!(T, WIDE, bytes, 40:2, 52:2),
        phentsize: get_field!(T, WIDE, bytes, 42:2, 54:2),
        phnum: u32::from(get_field!(T, WIDE, bytes, 44:2, 56:2)),
        shentsize: get_field!(T, WIDE, bytes, 46:2, 58:2),
        shnum: u32::from(get_field!(T, WIDE, bytes, 48:2, 60:2)),
        shstrndx: u32::from(get_field!(T, WIDE, bytes, 50:2, 62:2)),
    }
}

/// Writes the identification, in which osabi and abiversion are 0.
#[tactic(auto, unfolding(crate::specs::Headers::ident))]
fn encode_ident(class: Class, order: Order, pad: [u8; 7], out: &mut [u8])
    requires { 16 ≤ length out.old }
    ensures { out.new ≡ ident class order pad ++ drop 16 out.old }
{
    let (magic, rest) = out.split_at_mut(EI_CLASS);
    magic.copy_from_slice(&ELFMAG);
    let (front, rest) = rest.split_at_mut(EI_PAD - EI_CLASS);
    front.copy_from_slice(&[class_byte(class), order_byte(order), EV_CURRENT as u8, 0, 0]);
    let (back, _) = rest.split_at_mut(EI_NIDENT - EI_PAD);
    back.copy_from_slice(&pad);
}

/// e_ident[EI_CLASS].
fn class_byte(class: Class) -> u8
    ensures { result ≡ class_code class }
{
    match class {
        Class::C32 => ELFCLASS32,
        Class::C64 => ELFCLASS64,
    }
}

/// e_ident[EI_DATA].
fn order_byte(order: Order) -> u8
    ensures { result ≡ order_code order }
{
    match order {
        Order::Least => ELFDATA2LSB,
        Order::Greatest => ELFDATA2MSB,
    }
}

/// Writes the ELF header, of class 64 or of class 32.
#[tactic(auto, using(crate::proofs::Tables::ehdr_laid), unfolding(crate::proofs::Words::ehdr))]
fn encode_ehdr<T: Endian, const WIDE: bool>(h: &Ehdr, pad: [u8; 7], out: &mut [u8])
    requires class { h.now.class ≡ class_of WIDE }
    requires order { h.now.order ≡ T.order }
    requires size { length out.old ≡ ehdr_size (class_of WIDE) }
    requires fits { IsTrue (ehdr_fits h.now) }
    requires counts { HasNarrowCounts h.now }
    ensures { out.new ≡ ehdr_bytes h.now pad }
{
    encode_ident(h.class, h.order, pad, out);
    put_field!(T, WIDE, out, EI_OSABI:1, EI_OSABI:1, h.osabi);
    put_field!(T, WIDE, out, EI_ABIVERSION:1, EI_ABIVERSION:1, h.abiversion);
    put_field!(T, WIDE, out, 16:2, 16:2, h.etype);
    put_field!(T, WIDE, out, 18:2, 18:2, h.machine);
    put_field!(T, WIDE, out, 20:4, 20:4, h.version);
    put_field!(T, WIDE, out, 24:4, 24:8, h.entry);
    put_field!(T, WIDE, out, 28:4, 32:8, h.phoff);
    put_field!(T, WIDE, out, 32:4, 40:8, h.shoff);
    put_field!(T, WIDE, out, 36:4, 48:4, h.flags);
    put_field!(T, WIDE, out, 40:2, 52:2, h.ehsize);
    put_field!(T, WIDE, out, 42:2, 54:2, h.phentsize);
    put_field!(T, WIDE, out, 44:2, 56:2, h.phnum as u16);
    put_field!(T, WIDE, out, 46:2, 58:2, h.shentsize);
    put_field!(T, WIDE, out, 48:2, 60:2, h.shnum as u16);
    put_field!(T, WIDE, out, 50:2, 62:2, h.shstrndx as u16);
}

/// The ELF header of a class and an order that bytes hold, with the two counts and the string index
/// as they are there, before extended numbering. There are as many bytes as the header has: 52 in
/// class 32, 64 in class 64. It rejects nothing and takes no memory.
///
/// Source: gABI chapter 4, "ELF Header"; gelf_getehdr of gelf(3E).
pub fn get_ehdr(class: Class, order: Order, bytes: &[u8]) -> Ehdr
    requires { length bytes.now ≡ ehdr_size class }
    ensures value { result ≡ ehdr_of class order bytes.now }
    ensures counts { HasNarrowCounts result }
    ensures ranged { IsEhdr result }
    ensures fits { IsTrue (ehdr_fits result) }
{
    in_form!(class, order, decode_ehdr(class, order, bytes))
}

/// Writes an ELF header in the class and the order that it names; `pad` is the bytes 9 to 15 of its
/// identification. `out` has just the header's size, the header fits its class, and its two counts
/// and its string index are below 2^16. It rejects nothing and takes no memory.
///
/// Source: gABI chapter 4, "ELF Header"; gelf_update_ehdr of gelf(3E).
pub fn put_ehdr(h: &Ehdr, pad: [u8; 7], out: &mut [u8])
    requires size { length out.old ≡ ehdr_size h.now.class }
    requires fits { IsTrue (ehdr_fits h.now) }
    requires counts { HasNarrowCounts h.now }
    ensures { out.new ≡ ehdr_bytes h.now pad }
{
    in_form!(h.class, h.order, encode_ehdr(h, pad, out))
}
