//! One item of a section's data.

ghost use Rattle.std.specs.Prelude.{◌≡◌, length, IsTrue};
ghost use Rattle.elf_types.specs.declared.records.Kind.TheVariants as kinds;
ghost use Rattle.elf_xlate.specs.Fields.{fits};
ghost use Rattle.elf_xlate.specs.Items.{item_size, half_of, word_of, addr_of, sym_of, sym_fits, IsSym, rel_of, rel_fits, IsRel, rela_of, rela_fits, IsRela, dyn_of, dyn_fits, IsDyn};

use crate::byte_order::in_form;
use crate::records::{Form, decode_one};
use byteorder::{BigEndian, LittleEndian};
use elf_types::{Class, Dyn, Order, Rel, Rela, Sym};

/// The two-byte number that bytes hold. There are as many bytes as an item has. It rejects nothing
/// and takes no memory.
///
/// Source: gABI chapter 4, "Data Representation".
pub fn get_half(class: Class, order: Order, bytes: &[u8]) -> u16
    requires { length bytes.now ≡ item_size kinds.Half class }
    ensures value { result ≡ half_of class order bytes.now }
{
    in_form!(class, order, decode_one::<u16>(bytes))
}

/// The four-byte number that bytes hold. There are as many bytes as an item has. It rejects nothing
/// and takes no memory.
///
/// Source: gABI chapter 4, "Data Representation".
pub fn get_word(class: Class, order: Order, bytes: &[u8]) -> u32
    requires { length bytes.now ≡ item_size kinds.Word class }
    ensures value { result ≡ word_of class order bytes.now }
{
    in_form!(class, order, decode_one::<u32>(bytes))
}

/// The address that bytes hold. There are as many bytes as an item has. It rejects nothing and
/// takes no memory.
///
/// Source: gABI chapter 4, "Data Representation".
pub fn get_addr(class: Class, order: Order, bytes: &[u8]) -> u64
    requires { length bytes.now ≡ item_size kinds.Addr class }
    ensures value { result ≡ addr_of class order bytes.now }
    ensures fits { IsTrue (fits class result) }
{
    in_form!(class, order, decode_one::<u64>(bytes))
}

/// The symbol that bytes hold. There are as many bytes as an item has. It rejects nothing and takes
/// no memory.
///
/// Source: gABI chapter 4, "Symbol Table"; gelf_getsym of gelf(3E).
pub fn get_sym(class: Class, order: Order, bytes: &[u8]) -> Sym
    requires { length bytes.now ≡ item_size kinds.Sym class }
    ensures value { result ≡ sym_of class order bytes.now }
    ensures ranged { IsSym result }
    ensures fits { IsTrue (sym_fits class result) }
{
    in_form!(class, order, decode_one::<Sym>(bytes))
}

/// The relocation that bytes hold. There are as many bytes as an item has. It rejects nothing and
/// takes no memory.
///
/// Source: gABI chapter 4, "Relocation"; gelf_getrel of gelf(3E).
pub fn get_rel(class: Class, order: Order, bytes: &[u8]) -> Rel
    requires { length bytes.now ≡ item_size kinds.Rel class }
    ensures value { result ≡ rel_of class order bytes.now }
    ensures ranged { IsRel result }
    ensures fits { IsTrue (rel_fits class result) }
{
    in_form!(class, order, decode_one::<Rel>(bytes))
}

/// The relocation with an addend that bytes hold. There are as many bytes as an item has. It
/// rejects nothing and takes no memory.
///
/// Source: gABI chapter 4, "Relocation"; gelf_getrela of gelf(3E).
pub fn get_rela(class: Class, order: Order, bytes: &[u8]) -> Rela
    requires { length bytes.now ≡ item_size kinds.Rela class }
    ensures value { result ≡ rela_of class order bytes.now }
    ensures ranged { IsRela result }
    ensures fits { IsTrue (rela_fits class result) }
{
    in_form!(class, order, decode_one::<Rela>(bytes))
}

/// The entry of the dynamic section that bytes hold. There are as many bytes as an item has. It
/// rejects nothing and takes no memory.
///
/// Source: gABI chapter 5, "Dynamic Section"; gelf_getdyn of gelf(3E).
pub fn get_dyn(class: Class, order: Order, bytes: &[u8]) -> Dyn
    requires { length bytes.now ≡ item_size kinds.Dyn class }
    ensures value { result ≡ dyn_of class order bytes.now }
    ensures ranged { IsDyn result }
    ensures fits { IsTrue (dyn_fits class result) }
{
    in_form!(class, order, decode_one::<Dyn>(bytes))
}
