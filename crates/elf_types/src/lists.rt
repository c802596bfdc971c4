//! The one list in which elfkit keeps its records.

ghost use Rattle.std.specs.Prelude.{◌≡◌, ◌++◌, ◌∷◌, ◌≤◌, [], length, take, slice_get, ◌==◌, OnOk, OnErr, IfErr, IfOk};
ghost use Rattle.std.specs.Borrow.{sem};
ghost use Rattle.elf_types.specs.Lists.{LendsItems};

use crate::errors::ElfError;
use crate::records::{Dyn, Phdr, Rel, Rela, Shdr, Sym};
use std::alloc::Global;
use std::marker::Model;

/// A list of items, which contracts see as the list itself. It keeps its allocator.
#[derive(Drop)]
pub struct List<T> {
    items: Vec<T>,
}

impl<T> Model for List<T> {
    ghost use Rattle.std.specs.Prelude.{List as Seq};

    ghost Value = { Seq T };

    ghost view = { λ l. l.items.items };
}

/// Bytes.
pub type Octets = List<u8>;
/// Two-byte numbers.
pub type Halves = List<u16>;
/// Four-byte numbers.
pub type Words = List<u32>;
/// Addresses and other eight-byte numbers.
pub type Addrs = List<u64>;
/// Symbols.
pub type Syms = List<Sym>;
/// Relocations without an addend.
pub type Rels = List<Rel>;
/// Relocations with an addend.
pub type Relas = List<Rela>;
/// Entries of the dynamic section.
pub type Dyns = List<Dyn>;
/// Program headers.
pub type Phdrs = List<Phdr>;
/// Section headers.
pub type Shdrs = List<Shdr>;

impl<T: Drop> List<T> {
    /// The empty list. It takes no memory.
    pub fn new(alloc: Global) -> List<T>
        ensures { result ≡ [] }
    {
        List {
            items: Vec::new(alloc),
        }
    }

    /// The empty list with room for `count` items. It fails with `Memory` alone.
    pub fn with_capacity(alloc: Global, count: u64) -> Result<List<T>, ElfError>
        ensures ok { IfOk result (λ l. l ≡ []) }
        ensures err { IfErr result (λ e. e ≡ ElfError.Memory) }
    {
        let items = Vec::with_capacity(alloc, count as usize)?;
        Ok(List { items })
    }

    /// Appends an item. It fails with `Memory` alone, and then the list is as before.
    pub fn push(&mut self, v: T) -> Result<(), ElfError>
        ensures ok { OnOk result (self.new ≡ self.old ++ v ∷ []) }
        ensures unchanged { OnErr result (self.new ≡ self.old) }
        ensures err { IfErr result (λ e. e ≡ ElfError.Memory) }
    {
        self.items.push(v)?;
        Ok(())
    }

    /// The number of items. It takes no memory.
    pub fn len(&self) -> u64
        ensures { result ≡ length self.now }
    {
        self.items.len() as u64
    }

    /// Whether there is no item. It takes no memory.
    pub fn is_empty(&self) -> bool
        ensures { result ≡ (length self.now == 0) }
    {
        self.items.is_empty()
    }

    /// The items. It takes no memory.
    pub fn as_slice(&self) -> &[T]
        ensures { result.now ≡ self.now }
    {
        self.items.as_slice()
    }

    /// The items, lent for writing: what the borrower leaves in them stays. It takes no memory.
    pub fn as_mut_slice(&mut self) -> &mut [T]
        ensures* writes_back { sem 𝓛 (LendsItems T.row self.entry result) }
        ensures value { result.now ≡ self.old }
    {
        self.items.as_mut_slice()
    }

    /// The list of a vector's items. It takes no memory.
    pub fn from_vec(items: Vec<T>) -> List<T>
        ensures { result ≡ items.items }
    {
        List { items }
    }

    /// The vector of the list's items. It takes no memory.
    pub fn into_vec(self) -> Vec<T>
        ensures { result.items ≡ self }
    {
        self.items
    }
}

impl<T: Copy> List<T> {
    /// The item at an index, or None exactly where the index is not below the length. It takes no
    /// memory.
    pub fn get(&self, i: u64) -> Option<T>
        ensures { result ≡ slice_get self.now i }
    {
        self.items.get(i as usize).copied()
    }

    /// The list of a slice's items. It fails with `Memory` alone.
    pub fn from_slice(alloc: Global, items: &[T]) -> Result<List<T>, ElfError>
        ensures ok { IfOk result (λ l. l ≡ items.now) }
        ensures err { IfErr result (λ e. e ≡ ElfError.Memory) }
    {
        let mut list = List::with_capacity(alloc, items.len() as u64)?;
        list.extend(items)?;
        Ok(list)
    }

    /// Appends items. It fails with `Memory` alone, and then the list is as before.
    pub fn extend(&mut self, v: &[T]) -> Result<(), ElfError>
        ensures ok { OnOk result (self.new ≡ self.old ++ v.now) }
        ensures unchanged { OnErr result (self.new ≡ self.old) }
        ensures err { IfErr result (λ e. e ≡ ElfError.Memory) }
    {
        self.items.extend_from_slice(v)?;
        Ok(())
    }

    /// Keeps the first `n` items, or all where there are fewer. It takes no memory.
    pub fn truncate(&mut self, n: u64)
        ensures { self.new ≡ take n self.old }
    {
        self.items.truncate(n as usize);
    }

    /// Makes room for `count` more items. It fails with `Memory` alone; the items stay.
    pub fn reserve(&mut self, count: u64) -> Result<(), ElfError>
        ensures same { self.new ≡ self.old }
        ensures err { IfErr result (λ e. e ≡ ElfError.Memory) }
    {
        self.items.reserve(count as usize)?;
        Ok(())
    }
}
