//! What is kept of a section once it is used.

ghost use Rattle.std.specs.Prelude.{◌≡◌, ◌+◌, ◌<◌, ◌≤◌, [], ◌∷◌, ◌++◌, length, take, drop, false, Some, None, is_some, IsSome, IfSome, IfOk, IfErr, OnOk, OnErr};
ghost use Rattle.std.specs.Option.{option_map};
ghost use Rattle.elf_types.specs.declared.errors.ElfError.TheVariants.{Memory, Read};
ghost use Rattle.elf_types.specs.declared.records.Kind.TheVariants as kinds;
ghost use Rattle.elf_object.specs.elf_xlate.declared.content.Items.TheVariants as items;
ghost use Rattle.elf_object.specs.elf_xlate.Translation.{items_kind};
ghost use Rattle.elf_object.specs.elf_outside.Asks.{Asks};
ghost use Rattle.elf_object.specs.Answers.{bytes_of};
ghost use Rattle.section_data.specs.declared.held.HomeItems.TheVariants.{Nothing};
ghost use Rattle.section_data.specs.Leaves.{bytes_or_none};
ghost use Rattle.section_data.specs.Nuls.{IsEndedFront};
ghost use Rattle.section_data.specs.Kept.{held_view, unboxed, IsRoomFor, IsUse, Opens, Forgets, Fills, KeepsRoom};

use crate::held::HomeItems;
use crate::others::Others;
use crate::piece::Piece;
use crate::raw::RawBytes;
use crate::room::Room;
use elf_object::prelude::{Items, Source, read};
use elf_types::{ElfError, Octets};
use std::alloc::Global;
use std::mem;

/// What is kept of a section's data once it is read, or memory is reserved for it, or it has more
/// than one piece.
#[derive(Drop)]
pub(crate) struct Used {
    /// The home's bytes, once they are read, as items of kind `Bytes`.
    pub(crate) raw: Option<RawBytes>,
    /// The home's items where they are held in memory form.
    pub(crate) held: HomeItems,
    /// Memory for the home's bytes that is reserved: as many zeros.
    pub(crate) room: Option<Octets>,
    /// The pieces after the first.
    pub(crate) others: Others,
}

/// Puts a value in the place of another.
pub(crate) fn put<T: Drop>(slot: &mut T, value: T)
    ensures { slot.new ≡ value }
{
    let _before = mem::replace(slot, value);
}

/// Makes a place for what is kept, where there is none. It fails with `Memory` alone.
pub(crate) fn open(alloc: Global, slot: &mut Option<Box<Used>>) -> Result<(), ElfError>
    ensures ok { OnOk result (Opens (unboxed slot.old) (unboxed slot.new)) }
    ensures unchanged { OnErr result (slot.new ≡ slot.old) }
    ensures err { IfErr result (λ e. e ≡ Memory) }
{
    if slot.is_some() {
        return Ok(());
    }
    let used = Used {
        raw: None,
        held: HomeItems::Nothing,
        room: None,
        others: Others::new(alloc),
    };
    put(slot, Some(Box::new(alloc, used)?));
    Ok(())
}

/// Frees the raw bytes and the items, and of the place for them where nothing else is kept.
pub(crate) fn forget(slot: &mut Option<Box<Used>>)
    ensures { Forgets (unboxed slot.old) (unboxed slot.new) }
{
    let Some(used) = slot else {
        return;
    };
    if used.keeps_more() {
        used.forget();
        return;
    }
    put(slot, None);
}

/// So many zeros. It fails with `Memory` alone.
pub(crate) fn zeros(alloc: Global, len: u64) -> Result<Octets, ElfError>
    ensures ok { IfOk result (λ octets. length octets ≡ len) }
    ensures err { IfErr result (λ e. e ≡ Memory) }
{
    let bytes = vec![in alloc; 0u8; len as usize]?;
    Ok(Octets::from_vec(bytes))
}

/// Fills bytes with those of a source from a place on. It fails with `Read` alone.
fn fill<S: Source>(src: &mut S, at: u64, bytes: &mut Octets) -> Result<(), ElfError>
    requires { 0 < length bytes.old → at + length bytes.old ≤ S.size src.old }
    ensures bytes { OnOk result (IfSome (S.holds src.old)
        (λ image. bytes.new ≡ take (length bytes.old) (drop at image))) }
    ensures len { length bytes.new ≡ length bytes.old }
    ensures asks { Asks S.Source result src.old src.new (length bytes.old) }
    ensures err { IfErr result (λ e. (e ≡ Read) × (0 < length bytes.old)) }
{
    if bytes.is_empty() {
        return Ok(());
    }
    read(src, at, bytes.as_mut_slice())
}

/// The bytes that are kept.
fn bytes_in(raw: &Option<RawBytes>) -> &[u8]
    ensures { result.now ≡ bytes_or_none (option_map bytes_of raw.now) }
{
    match raw {
        Some(raw) => raw.bytes(),
        None => &[],
    }
}

/// The bytes that are kept, up to their last NUL where that was looked for.
fn ended_in(raw: &Option<RawBytes>) -> &[u8]
    ensures { IsEndedFront (bytes_or_none (option_map bytes_of raw.now)) result.now }
{
    match raw {
        Some(raw) => raw.ended(),
        None => &[],
    }
}

impl Used {
    /// Whether something is kept besides the raw bytes and the items.
    fn keeps_more(&self) -> bool
        ensures room { result ≡ false → is_some self.now.room ≡ false }
        ensures others { result ≡ false → self.now.others ≡ [] }
    {
        self.room.is_some() || !self.others.is_empty()
    }

    /// Keeps the home's bytes.
    pub(crate) fn set_raw(&mut self, bytes: Octets)
        ensures { self.new ≡ record self.old { raw = Some (items.Bytes bytes) } }
    {
        put(&mut self.raw, Some(RawBytes::of(bytes)));
    }

    /// Keeps the home's items, as far as they are held.
    pub(crate) fn set_held(&mut self, held: HomeItems)
        ensures { self.new ≡ record self.old { held = held } }
    {
        put(&mut self.held, held);
    }

    /// Reserves memory.
    pub(crate) fn set_room(&mut self, room: Octets)
        ensures { self.new ≡ record self.old { room = Some room } }
    {
        put(&mut self.room, Some(room));
    }

    /// Frees the raw bytes and the items.
    fn forget(&mut self)
        ensures { self.new ≡ record self.old { raw = None; held = Nothing } }
    {
        put(&mut self.raw, None);
        put(&mut self.held, HomeItems::Nothing);
    }

    /// Adds a piece. Where there is no memory it hands the piece back, and nothing changes.
    pub(crate) fn push(&mut self, piece: Piece) -> Result<(), Piece>
        ensures rest { self.new ≡ record self.old { others = self.new.others } }
        ensures ok { OnOk result (self.new.others ≡ self.old.others ++ piece ∷ []) }
        ensures unchanged { OnErr result (self.new.others ≡ self.old.others) }
        ensures back { IfErr result (λ back. back ≡ piece) }
    {
        self.others.push(piece)
    }

    /// Notes where the pieces after the first end.
    #[inline(always)]
    pub(crate) fn note_pieces(&mut self)
        ensures { self.new ≡ self.old }
    {
        self.others.note();
    }

    /// The raw bytes.
    pub(crate) fn bytes(&self) -> &[u8]
        ensures { result.now ≡ bytes_or_none (option_map bytes_of self.now.raw) }
    {
        bytes_in(&self.raw)
    }

    /// The raw bytes up to their last NUL, where that was looked for.
    pub(crate) fn ended(&self) -> &[u8]
        ensures { IsEndedFront (bytes_or_none (option_map bytes_of self.now.raw)) result.now }
    {
        ended_in(&self.raw)
    }

    /// Looks for the last NUL of the raw bytes, where that was not done yet.
    #[inline(always)]
    pub(crate) fn note_end(&mut self)
        ensures { self.new ≡ self.old }
    {
        let Some(raw) = &mut self.raw else {
            return;
        };
        raw.note_end();
    }

    /// The home's items, which are held.
    pub(crate) fn items(&self) -> &Items
        requires { IsSome (held_view self.now.raw self.now.held) }
        ensures { held_view self.now.raw self.now.held ≡ Some result.now }
    {
        match &self.held {
            HomeItems::Translated(items) => items,
            HomeItems::Raw(_) => there(&self.raw),
            HomeItems::Nothing => unreachable!(),
        }
    }

    /// The home's items, which are held, for a piece to own: the translated items go, and of raw
    /// bytes, which stay, it is a copy in the room for it. It takes no memory.
    #[tactic(auto, using(crate::proofs::Holdings::bytes_back))]
    pub(crate) fn take_items(&mut self) -> Items
        requires held { IsSome (held_view self.old.raw self.old.held) }
        requires copy { IsRoomFor self.old.raw self.old.held }
        requires bytes { IfSome self.old.raw (λ items. items_kind items ≡ kinds.Bytes) }
        ensures value { held_view self.old.raw self.old.held ≡ Some result }
        ensures after { self.new ≡ record self.old { held = Nothing } }
    {
        match mem::replace(&mut self.held, HomeItems::Nothing) {
            HomeItems::Translated(items) => items,
            HomeItems::Raw(room) => Items::Bytes(room.fill(self.bytes())),
            HomeItems::Nothing => unreachable!(),
        }
    }

    /// Reads the home's bytes, which are not held, from a place on into the memory that is reserved
    /// for them. It fails with `Read` alone, and then the memory is kept.
    pub(crate) fn fill_room<S: Source>(
        &mut self,
        src: &mut S,
        at: u64,
        len: u64,
    ) -> Result<(), ElfError>
        requires lies { 0 < len → at + len ≤ S.size src.old }
        requires room { IsSome self.old.room }
        requires used { IsUse len self.old }
        requires unread { self.old.raw ≡ None }
        ensures fills { OnOk result (Fills (S.holds src.old) at len self.old self.new) }
        ensures keeps { OnErr result (KeepsRoom len self.old self.new) }
        ensures asks { Asks S.Source result src.old src.new len }
        ensures err { IfErr result (λ e. (e ≡ Read) × (0 < len)) }
    {
        let Some(mut bytes) = mem::replace(&mut self.room, None) else {
            unreachable!()
        };
        if let Err(e) = fill(src, at, &mut bytes) {
            self.set_room(bytes);
            return Err(e);
        }
        self.set_raw(bytes);
        Ok(())
    }
}

/// Raw bytes that are there, as items.
fn there(slot: &Option<RawBytes>) -> &Items
    requires { IsSome slot.now }
    ensures { slot.now ≡ Some result.now }
{
    match slot {
        Some(raw) => raw.items(),
        None => unreachable!(),
    }
}
