//! Bytes that are held once and may be at many places.

ghost use Rattle.std.specs.Prelude.{◌≡◌, ◌++◌, ◌<◌, ◌==◌, [], length, OnOk, OnErr, IfErr};
ghost use Rattle.elf_types.specs.Lists.{AreBytes};
ghost use Rattle.elf_types.specs.declared.errors.ElfError.TheVariants.{Memory};
ghost use Rattle.elf_xlate.specs.Translation.{encoded};
ghost use Rattle.strtab_shared.specs.Bytes.Pieces.{IsPieceAt};

use crate::bytes::parts::{
    StretchParts, clear_parts, count_bytes, make_room, no_parts, put_behind, put_items,
};
use crate::bytes::pieces::piece_at;
use crate::bytes::sharing::{hold_behind, parts_are_ranged, put_near, put_shared};
use crate::bytes::texts::{text_of, text_place};
use elf_types::{Class, ElfError, Order};
use elf_xlate::Items;
use std::alloc::Global;
use std::marker::Model;

/// Bytes, which contracts see as their list, as ranges of a text that is held. As many bytes may be
/// in it as can be counted by 64 bits, however short the text is.
#[derive(Drop)]
pub struct SharedBytes {
    parts: StretchParts,
}

impl Model for SharedBytes {
    ghost use Rattle.std.specs.Prelude.{ℕ, List as Seq};

    ghost Value = { Seq ℕ };

    ghost use Rattle.strtab_shared.specs.Bytes.Parts.{whole, AreKept};

    ghost view = { λ s. whole s.parts };

    ghost invariant = { λ s. AreKept s.parts };
}

impl SharedBytes {
    /// No bytes. It takes no memory.
    pub fn new(alloc: Global) -> SharedBytes
        ensures { result ≡ [] }
    {
        SharedBytes {
            parts: no_parts(alloc),
        }
    }

    /// The number of bytes. It takes no memory.
    pub fn len(&self) -> u64
        ensures { result ≡ length self.now }
    {
        count_bytes(&self.parts)
    }

    /// Whether there is no byte. It takes no memory.
    pub fn is_empty(&self) -> bool
        ensures { result ≡ (length self.now == 0) }
    {
        self.len() == 0
    }

    /// The bytes from a place on that are together in the text: at least one, and it may be that
    /// more of them follow. It takes no memory.
    pub fn piece_at(&self, at: u64) -> &[u8]
        requires { at < length self.now }
        ensures { IsPieceAt at self.now result.now }
    {
        piece_at(&self.parts, at)
    }

    /// The text in which `len` bytes from a place on are, from the first of them up to the last
    /// one, and its place. Nothing is stated of it: it is held by others, so that the same bytes
    /// are ranges of it there. It takes no memory, and looks at each range once.
    pub fn text_of(&self, at: u64, len: u64) -> (u64, &[u8]) {
        text_of(&self.parts, at, len)
    }

    /// The place in the text of the byte at a place. Nothing is stated of it. It takes no memory.
    pub fn text_place(&self, at: u64) -> u64 {
        text_place(&self.parts, at)
    }

    /// Appends bytes, which are held. It fails with `Memory` alone, which is also where they could
    /// not be counted; then the bytes are as before.
    pub fn extend(&mut self, bytes: &[u8]) -> Result<(), ElfError>
        ensures ok { OnOk result (self.new ≡ self.old ++ bytes.now) }
        ensures unchanged { OnErr result (self.new ≡ self.old) }
        ensures err { IfErr result (λ e. e ≡ Memory) }
    {
        put_behind(&mut self.parts, bytes)
    }

    /// Appends bytes: as a range of the text where they are in it at a place that is told, and else
    /// they are held. Nothing but the memory depends on that place. It fails with `Memory` alone,
    /// and then the bytes are as before.
    pub fn extend_near(&mut self, bytes: &[u8], near: u64) -> Result<(), ElfError>
        ensures ok { OnOk result (self.new ≡ self.old ++ bytes.now) }
        ensures unchanged { OnErr result (self.new ≡ self.old) }
        ensures err { IfErr result (λ e. e ≡ Memory) }
    {
        put_near(&mut self.parts, bytes, near)
    }

    /// Appends the file form of items. It fails with `Memory` alone, which is also what items give
    /// that do not fit the class; then the bytes are as before.
    pub fn append_items(
        &mut self,
        class: Class,
        order: Order,
        items: &Items,
    ) -> Result<(), ElfError>
        ensures ok { OnOk result (self.new ≡ self.old ++ encoded class order items.now) }
        ensures unchanged { OnErr result (self.new ≡ self.old) }
        ensures err { IfErr result (λ e. e ≡ Memory) }
    {
        put_items(&mut self.parts, class, order, items)
    }

    /// Appends other shared bytes: their text is held besides, and where its ranges lie. It fails
    /// with `Memory` alone; what a refusal leaves is not stated.
    pub fn append_shared(&mut self, more: &SharedBytes) -> Result<(), ElfError>
        ensures ok { OnOk result (self.new ≡ self.old ++ more.now) }
        ensures err { IfErr result (λ e. e ≡ Memory) }
    {
        put_shared(&mut self.parts, &more.parts)
    }

    /// Appends bytes to the text alone, and returns the place from which on they have their places
    /// for `extend_near`. It fails with `Memory` alone.
    pub fn hold(&mut self, text: &[u8]) -> Result<u64, ElfError>
        ensures same { self.new ≡ self.old }
        ensures err { IfErr result (λ e. e ≡ Memory) }
    {
        hold_behind(&mut self.parts, text)
    }

    /// Makes room for `count` more bytes that are held. It fails with `Memory` alone; the bytes
    /// stay.
    pub fn reserve(&mut self, count: u64) -> Result<(), ElfError>
        ensures same { self.new ≡ self.old }
        ensures err { IfErr result (λ e. e ≡ Memory) }
    {
        make_room(&mut self.parts, count)
    }

    /// Frees all bytes and of the text. It takes no memory.
    pub fn clear(&mut self)
        ensures { self.new ≡ [] }
    {
        clear_parts(&mut self.parts);
    }

    /// What these are are bytes: it is for the proofs of callers, and does nothing.
    pub fn are_ranged(&self)
        ensures { AreBytes self.now }
    {
        parts_are_ranged(&self.parts);
    }
}
