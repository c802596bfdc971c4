//! One item of a section's data, from the home's bytes or from a list.

ghost use Rattle.std.specs.Prelude.{◌≡◌, ℕ, ◌*◌, ◌/◌, ◌%◌, ◌<◌, ◌≤◌, List, length, take, drop, IsTrue, IfSome, None, Ok};
ghost use Rattle.std.specs.Option.{option_map};
ghost use Rattle.elf_types.specs.declared.records.Class.{Class as TheClass};
ghost use Rattle.elf_types.specs.declared.records.Order.{Order as TheOrder};
ghost use Rattle.elf_object.specs.elf_xlate.Items.{item_size, half_of, word_of, addr_of, sym_of, rel_of, rela_of, dyn_of};
ghost use Rattle.elf_object.specs.elf_xlate.Translation.{decoded, listed, is_whole};
ghost use Rattle.elf_object.specs.Answers.{entry_at};
ghost use Rattle.elf_xlate.proofs.ListedItems.{half_decoded, half_sized, word_decoded, word_sized, addr_decoded, addr_sized, sym_decoded, sym_sized, rel_decoded, rel_sized, rela_decoded, rela_sized, dyn_decoded, dyn_sized};
ghost use Rattle.section_data.specs.Held.{items_of_bytes};

use crate::listed::Listed;
use elf_object::prelude::{
    get_addr, get_dyn, get_half, get_rel, get_rela, get_sym, get_word, item_size,
};
use elf_types::{Class, Dyn, ElfError, Kind, List, Order, Rel, Rela, Sym};

/// A type whose items are told one by one.
pub trait Item: Listed + Copy + Drop {
    // The item that bytes hold.
    ghost item_of: { TheClass → TheOrder → List ℕ → Self };

    /// The number of bytes of an item in the file of a class.
    fn size(class: Class) -> usize
        ensures { result ≡ item_size Self.kind class };

    /// The item that bytes hold. It takes no memory.
    fn get(class: Class, order: Order, bytes: &[u8]) -> Self
        requires { length bytes.now ≡ item_size Self.kind class }
        ensures { result ≡ item_of class order bytes.now };

    // The items that bytes hold are those at each place.
    ghost listed_in: { (class : TheClass) (order : TheOrder) (bytes : List ℕ) →
        decoded Self.kind class order bytes ≡ option_map Self.variant
        (listed (item_of class order) (item_size Self.kind class) bytes) };

    // An item has bytes.
    ghost sized: { (class : TheClass) → 0 < item_size Self.kind class };
}

impl Item for u16 {
    ghost item_of = { half_of };

    fn size(class: Class) -> usize {
        item_size(Kind::Half, class) as usize
    }

    fn get(class: Class, order: Order, bytes: &[u8]) -> u16 {
        get_half(class, order, bytes)
    }

    ghost listed_in = { half_decoded };

    ghost sized = { half_sized };
}

impl Item for u32 {
    ghost item_of = { word_of };

    fn size(class: Class) -> usize {
        item_size(Kind::Word, class) as usize
    }

    fn get(class: Class, order: Order, bytes: &[u8]) -> u32 {
        get_word(class, order, bytes)
    }

    ghost listed_in = { word_decoded };

    ghost sized = { word_sized };
}

impl Item for u64 {
    ghost item_of = { addr_of };

    fn size(class: Class) -> usize {
        item_size(Kind::Addr, class) as usize
    }

    fn get(class: Class, order: Order, bytes: &[u8]) -> u64 {
        get_addr(class, order, bytes)
    }

    ghost listed_in = { addr_decoded };

    ghost sized = { addr_sized };
}

impl Item for Sym {
    ghost item_of = { sym_of };

    fn size(class: Class) -> usize {
        item_size(Kind::Sym, class) as usize
    }

    fn get(class: Class, order: Order, bytes: &[u8]) -> Sym {
        get_sym(class, order, bytes)
    }

    ghost listed_in = { sym_decoded };

    ghost sized = { sym_sized };
}

impl Item for Rel {
    ghost item_of = { rel_of };

    fn size(class: Class) -> usize {
        item_size(Kind::Rel, class) as usize
    }

    fn get(class: Class, order: Order, bytes: &[u8]) -> Rel {
        get_rel(class, order, bytes)
    }

    ghost listed_in = { rel_decoded };

    ghost sized = { rel_sized };
}

impl Item for Rela {
    ghost item_of = { rela_of };

    fn size(class: Class) -> usize {
        item_size(Kind::Rela, class) as usize
    }

    fn get(class: Class, order: Order, bytes: &[u8]) -> Rela {
        get_rela(class, order, bytes)
    }

    ghost listed_in = { rela_decoded };

    ghost sized = { rela_sized };
}

impl Item for Dyn {
    ghost item_of = { dyn_of };

    fn size(class: Class) -> usize {
        item_size(Kind::Dyn, class) as usize
    }

    fn get(class: Class, order: Order, bytes: &[u8]) -> Dyn {
        get_dyn(class, order, bytes)
    }

    ghost listed_in = { dyn_decoded };

    ghost sized = { dyn_sized };
}

/// The entry of a list at an index. It fails with `NoEntry` alone and takes no memory.
pub(crate) fn entry<T: Copy + Drop>(list: &List<T>, i: u64) -> Result<T, ElfError>
    ensures { result ≡ entry_at list.now i }
{
    match list.get(i) {
        Some(item) => Ok(item),
        None => Err(ElfError::NoEntry {
            index: i,
            count: list.len(),
        }),
    }
}

/// The bytes of item `i` of items of a size, where the bytes are whole items and there is such an
/// item.
#[tactic(auto, using(crate::proofs::Rules::item_bytes))]
#[inline(always)]
fn bytes_of_item(bytes: &[u8], size: usize, i: u64) -> Option<&[u8]>
    requires { 0 < size }
    ensures there { IfSome result (λ b. b.now ≡ take size (drop (i * size) bytes.now)) }
    ensures inside { IfSome result (λ b. i < length bytes.now / size) }
    ensures len { IfSome result (λ b. length b.now ≡ size) }
    ensures whole { IfSome result (λ b. length bytes.now % size ≡ 0) }
    ensures past { result ≡ None → length bytes.now % size ≡ 0 → length bytes.now / size ≤ i }
{
    let len = bytes.len();
    if len % size != 0 {
        return None;
    }
    let at = (i as usize).checked_mul(size)?;
    if len <= at {
        return None;
    }
    Some(&bytes[at..at + size])
}

/// Item `i` of the items that bytes hold in the file of a class, where they are whole items and
/// there is such an item.
#[inline(always)]
fn item_of_class<T: Item>(bytes: &[u8], i: u64, class: Class, order: Order) -> Option<T>
    ensures whole { IfSome result (λ _. IsTrue (is_whole T.kind class (length bytes.now))) }
    ensures value { IfSome result (λ item.
        entry_at (T.list_of (items_of_bytes T.kind class order bytes.now)) i ≡ Ok item) }
{
    match bytes_of_item(bytes, T::size(class), i) {
        Some(item) => Some(T::get(class, order, item)),
        None => None,
    }
}

/// Item `i` of the items that bytes hold in a class, where they are whole items: the sizes are
/// constants in each arm, so that no division is left.
#[inline(always)]
pub(crate) fn item_if_whole<T: Item>(bytes: &[u8], i: u64, class: Class, order: Order) -> Option<T>
    ensures whole { IfSome result (λ _. IsTrue (is_whole T.kind class (length bytes.now))) }
    ensures value { IfSome result (λ item.
        entry_at (T.list_of (items_of_bytes T.kind class order bytes.now)) i ≡ Ok item) }
{
    match class {
        Class::C32 => item_of_class::<T>(bytes, i, Class::C32, order),
        Class::C64 => item_of_class::<T>(bytes, i, Class::C64, order),
    }
}

/// Item `i` of the items that bytes hold. It fails with `NoEntry` alone and takes no memory.
pub(crate) fn item_in<T: Item>(
    bytes: &[u8],
    i: u64,
    class: Class,
    order: Order,
) -> Result<T, ElfError>
    requires { IsTrue (is_whole T.kind class (length bytes.now)) }
    ensures { result ≡ entry_at (T.list_of (items_of_bytes T.kind class order bytes.now)) i }
{
    let size = T::size(class);
    match bytes_of_item(bytes, size, i) {
        Some(item) => Ok(T::get(class, order, item)),
        None => Err(ElfError::NoEntry {
            index: i,
            count: (bytes.len() / size) as u64,
        }),
    }
}
