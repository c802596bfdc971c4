//! The headers of the two header tables.

ghost use Rattle.std.specs.Prelude.{◌≡◌, ◌≤◌, ◌<◌, ◌/◌, ◌%◌, length, IsTrue, IfOk, IfErr};
ghost use Rattle.std.specs.List.{All};
ghost use Rattle.elf_types.specs.declared.errors.ElfError.TheVariants.{Memory};
ghost use Rattle.elf_xlate.specs.Fields.{class_of};
ghost use Rattle.elf_xlate.specs.Headers.{phdr_of, phdr_size, phdr_fits, phdr_bytes, IsPhdr, shdr_of, shdr_size, shdr_fits, shdr_bytes, IsShdr};
ghost use Rattle.elf_xlate.specs.Translation.{items_of};

use crate::byte_order::{Endian, in_form};
use crate::decode::decode_list;
use crate::fields::{get_field, get_four, get_native, put_field, put_four, put_native};
use crate::fitting::{class, phdr_fits, shdr_fits};
use crate::records::{Codec, Form, decode_one, encode_one};
use crate::sizes::{phdr_size, shdr_size};
use byteorder::{BigEndian, LittleEndian};
use elf_types::{Class, ElfError, Order, Phdr, Phdrs, Shdr, Shdrs};
use std::alloc::Global;

impl<T: Endian, const WIDE: bool> Codec<Phdr> for Form<T, WIDE> {
    ghost use Rattle.std.proofs.Common.{rules};

    ghost size = { phdr_size (class_of WIDE) };

    ghost item_of = { phdr_of (class_of WIDE) T.order };

    ghost bytes_of = { phdr_bytes (class_of WIDE) T.order };

    ghost in_range = { IsPhdr };

    ghost fitting = { phdr_fits (class_of WIDE) };

    ghost is_some = { Prim.search rules };

    ghost is_small = { Prim.search rules };

    fn file_size() -> usize {
        phdr_size(class::<WIDE>())
    }

    #[tactic(auto, unfolding(crate::proofs::Words::phdr))]
    fn decode(bytes: &[u8]) -> Phdr {
        Phdr {
            ptype: get_field!(T, WIDE, bytes, 0:4, 0:4),
            flags: get_field!(T, WIDE, bytes, 24:4, 4:4),
            offset: get_field!(T, WIDE, bytes, 4:4, 8:8),
            vaddr: get_field!(T, WIDE, bytes, 8:4, 16:8),
            paddr: get_field!(T, WIDE, bytes, 12:4, 24:8),
            filesz: get_field!(T, WIDE, bytes, 16:4, 32:8),
            memsz: get_field!(T, WIDE, bytes, 20:4, 40:8),
            align: get_field!(T, WIDE, bytes, 28:4, 48:8),
        }
    }

    fn fits(item: &Phdr) -> bool {
        phdr_fits(item, class::<WIDE>())
    }

    #[tactic(auto, using(crate::proofs::Tables::phdr_laid), unfolding(crate::proofs::Words::phdr))]
    fn encode(item: &Phdr, out: &mut [u8]) {
        put_field!(T, WIDE, out, 0:4, 0:4, item.ptype);
        put_field!(T, WIDE, out, 24:4, 4:4, item.flags);
        put_field!(T, WIDE, out, 4:4, 8:8, item.offset);
        put_field!(T, WIDE, out, 8:4, 16:8, item.vaddr);
        put_field!(T, WIDE, out, 12:4, 24:8, item.paddr);
        put_field!(T, WIDE, out, 16:4, 32:8, item.filesz);
        put_field!(T, WIDE, out, 20:4, 40:8, item.memsz);
        put_field!(T, WIDE, out, 28:4, 48:8, item.align);
    }
}

impl<T: Endian, const WIDE: bool> Codec<Shdr> for Form<T, WIDE> {
    ghost use Rattle.std.proofs.Common.{rules};

    ghost size = { shdr_size (class_of WIDE) };

    ghost item_of = { shdr_of (class_of WIDE) T.order };

    ghost bytes_of = { shdr_bytes (class_of WIDE) T.order };

    ghost in_range = { IsShdr };

    ghost fitting = { shdr_fits (class_of WIDE) };

    ghost is_some = { Prim.search rules };

    ghost is_small = { Prim.search rules };

    fn file_size() -> usize {
        shdr_size(class::<WIDE>())
    }

    #[tactic(auto, unfolding(crate::proofs::Words::shdr))]
    fn decode(bytes: &[u8]) -> Shdr {
        Shdr {
            name: get_field!(T, WIDE, bytes, 0:4, 0:4),
            stype: get_field!(T, WIDE, bytes, 4:4, 4:4),
            flags: get_field!(T, WIDE, bytes, 8:4, 8:8),
            addr: get_field!(T, WIDE, bytes, 12:4, 16:8),
            offset: get_field!(T, WIDE, bytes, 16:4, 24:8),
            size: get_field!(T, WIDE, bytes, 20:4, 32:8),
            link: get_field!(T, WIDE, bytes, 24:4, 40:4),
            info: get_field!(T, WIDE, bytes, 28:4, 44:4),
            addralign: get_field!(T, WIDE, bytes, 32:4, 48:8),
            entsize: get_field!(T, WIDE, bytes, 36:4, 56:8),
        }
    }

    fn fits(item: &Shdr) -> bool {
        shdr_fits(item, class::<WIDE>())
    }

    #[tactic(auto, using(crate::proofs::Tables::shdr_laid), unfolding(crate::proofs::Words::shdr))]
    fn encode(item: &Shdr, out: &mut [u8]) {
        put_field!(T, WIDE, out, 0:4, 0:4, item.name);
        put_field!(T, WIDE, out, 4:4, 4:4, item.stype);
        put_field!(T, WIDE, out, 8:4, 8:8, item.flags);
        put_field!(T, WIDE, out, 12:4, 16:8, item.addr);
        put_field!(T, WIDE, out, 16:4, 24:8, item.offset);
        put_field!(T, WIDE, out, 20:4, 32:8, item.size);
        put_field!(T, WIDE, out, 24:4, 40:4, item.link);
        put_field!(T, WIDE, out, 28:4, 44:4, item.info);
        put_field!(T, WIDE, out, 32:4, 48:8, item.addralign);
        put_field!(T, WIDE, out, 36:4, 56:8, item.entsize);
    }
}

/// The program header that bytes hold. There are as many bytes as the header has: 32 in class 32,
/// 56 in class 64. It rejects nothing and takes no memory.
///
/// Source: gABI chapter 5, "Program Header"; gelf_getphdr of gelf(3E).
pub fn get_phdr(class: Class, order: Order, bytes: &[u8]) -> Phdr
    requires { length bytes.now ≡ phdr_size class }
    ensures value { result ≡ phdr_of class order bytes.now }
    ensures ranged { IsPhdr result }
    ensures fits { IsTrue (phdr_fits class result) }
{
    in_form!(class, order, decode_one::<Phdr>(bytes))
}

/// The section header that bytes hold. There are as many bytes as the header has: 40 in class 32,
/// 64 in class 64. It rejects nothing and takes no memory.
///
/// Source: gABI chapter 4, "Sections"; gelf_getshdr of gelf(3E).
pub fn get_shdr(class: Class, order: Order, bytes: &[u8]) -> Shdr
    requires { length bytes.now ≡ shdr_size class }
    ensures value { result ≡ shdr_of class order bytes.now }
    ensures ranged { IsShdr result }
    ensures fits { IsTrue (shdr_fits class result) }
{
    in_form!(class, order, decode_one::<Shdr>(bytes))
}

/// The program headers of a table, of whose bytes the size of one is a divisor. It fails with
/// `Memory` alone.
///
/// Source: gABI chapter 5, "Program Header".
pub fn get_phdrs(alloc: Global, class: Class, order: Order, bytes: &[u8]) -> Result<Phdrs, ElfError>
    requires { length bytes.now % phdr_size class ≡ 0 }
    ensures value { IfOk result (λ l. l ≡ items_of (phdr_of class order) (phdr_size class)
        (length bytes.now / phdr_size class) bytes.now) }
    ensures count { IfOk result (λ l. length l ≡ length bytes.now / phdr_size class) }
    ensures ranged { IfOk result (λ l. All IsPhdr l) }
    ensures fits { IfOk result (λ l. All (λ p. IsTrue (phdr_fits class p)) l) }
    ensures err { IfErr result (λ e. e ≡ Memory) }
{
    in_form!(class, order, decode_list::<Phdr>(alloc, bytes))
}

/// The section headers of a table, of whose bytes the size of one is a divisor. It fails with
/// `Memory` alone.
///
/// Source: gABI chapter 4, "Sections".
pub fn get_shdrs(alloc: Global, class: Class, order: Order, bytes: &[u8]) -> Result<Shdrs, ElfError>
    requires { length bytes.now % shdr_size class ≡ 0 }
    ensures value { IfOk result (λ l. l ≡ items_of (shdr_of class order) (shdr_size class)
        (length bytes.now / shdr_size class) bytes.now) }
    ensures count { IfOk result (λ l. length l ≡ length bytes.now / shdr_size class) }
    ensures ranged { IfOk result (λ l. All IsShdr l) }
    ensures fits { IfOk result (λ l. All (λ h. IsTrue (shdr_fits class h)) l) }
    ensures err { IfErr result (λ e. e ≡ Memory) }
{
    in_form!(class, order, decode_list::<Shdr>(alloc, bytes))
}

/// Writes a program header. `out` has just the header's size, and the header fits the class. It
/// rejects nothing and takes no memory.
///
/// Source: gABI chapter 5, "Program Header"; gelf_update_phdr of gelf(3E).
pub fn put_phdr(class: Class, order: Order, p: &Phdr, out: &mut [u8])
    requires size { length out.old ≡ phdr_size class }
    requires fits { IsTrue (phdr_fits class p.now) }
    ensures { out.new ≡ phdr_bytes class order p.now }
{
    in_form!(class, order, encode_one::<Phdr>(p, out))
}

/// Writes a section header. `out` has just the header's size, and the header fits the class. It
/// rejects nothing and takes no memory.
///
/// Source: gABI chapter 4, "Sections"; gelf_update_shdr of gelf(3E).
pub fn put_shdr(class: Class, order: Order, h: &Shdr, out: &mut [u8])
    requires size { length out.old ≡ shdr_size class }
    requires fits { IsTrue (shdr_fits class h.now) }
    ensures { out.new ≡ shdr_bytes class order h.now }
{
    in_form!(class, order, encode_one::<Shdr>(h, out))
}
