//! What is kept of a section's cell.

ghost use Rattle.std.specs.Prelude.{◌≡◌, ◌+◌, ◌<◌, ◌≤◌, ◌∷◌, ◌++◌, [], length, true, false, Some, None, is_some, IsSome, IfSome, OnOk, OnErr, IfErr};
ghost use Rattle.std.specs.Option.{option_map};
ghost use Rattle.std.specs.Borrow.{sem};
ghost use Rattle.elf_types.specs.declared.errors.ElfError.TheVariants.{Memory, Read};
ghost use Rattle.elf_types.specs.declared.constants.TheConstants.{MAX_PIECES};
ghost use Rattle.elf_object.specs.elf_xlate.declared.content.Items.TheVariants as items;
ghost use Rattle.elf_object.specs.elf_outside.Asks.{Asks};
ghost use Rattle.section_data.specs.Views.{home_view, made_cell, piece_of};
ghost use Rattle.section_data.specs.Held.{cell_is_loaded, is_untouched};
ghost use Rattle.section_data.specs.Leaves.{bytes_or_none, FillsRoom};
ghost use Rattle.section_data.specs.Nuls.{IsEndedFront};
ghost use Rattle.section_data.specs.Sizes.{home_size};
ghost use Rattle.section_data.specs.Spans.{AreFirstIn};

use crate::first::FirstPieces;
use crate::held::HomeItems;
use crate::home::Home;
use crate::piece::Piece;
use crate::room::Room;
use crate::spans::own_len;
use crate::used::{Used, forget, open, put, zeros};
use elf_object::prelude::{Items, Source};
use elf_types::{ElfError, Kind, Octets};
use std::alloc::Global;
use std::marker::Model;
use std::mem;

/// What is kept of a section's cell, in 80 bytes: the home, and the first piece, which is in the
/// struct itself. What a section needs once it is used follows one pointer. Contracts see it as the
/// cell.
#[derive(Drop)]
pub(crate) struct Kept {
    at: u64,
    len: u64,
    section: u32,
    kind: Kind,
    /// The home passes the end of the image.
    out: bool,
    /// The home is empty and was read; then nothing is kept of it.
    empty_read: bool,
    /// There is a first piece; else there is none at all.
    has_first: bool,
    first: Piece,
    used: Option<Box<Used>>,
}

impl Model for Kept {
    ghost use Rattle.section_data.specs.Views.{CellView, home_view};
    ghost use Rattle.section_data.specs.Kept.{kept_view, used_view, unboxed, IsKept};

    ghost Value = { CellView };

    ghost view = { λ k. kept_view k.section (home_view k.at k.len k.kind k.out) k.empty_read
        k.has_first k.first (used_view (unboxed k.used)) };

    ghost invariant = { λ k. IsKept k.len k.has_first k.first (unboxed k.used) };
}

impl Kept {
    ghost use Rattle.section_data.specs.Lends.{LendsPieceOf};

    /// A home of which nothing is read, with the clean home piece or none. It takes no memory.
    pub(crate) fn over(section: u32, home: Home, out: bool, has_first: bool) -> Kept
        ensures { result ≡ made_cell section (home_view home.at home.len home.kind out) has_first }
    {
        Kept {
            at: home.at,
            len: home.len,
            section,
            kind: home.kind,
            out,
            empty_read: false,
            has_first,
            first: Piece::home(),
            used: None,
        }
    }

    /// The section's number.
    pub(crate) fn section(&self) -> u32
        ensures { result ≡ self.now.section }
    {
        self.section
    }

    /// The home.
    pub(crate) fn home(&self) -> Home
        ensures at { result.at ≡ self.now.home.at }
        ensures len { result.len ≡ self.now.home.len }
        ensures kind { result.kind ≡ self.now.home.kind }
    {
        Home {
            at: self.at,
            len: self.len,
            kind: self.kind,
        }
    }

    /// Whether the home passes the end of the image.
    pub(crate) fn out(&self) -> bool
        ensures { result ≡ self.now.home.out }
    {
        self.out
    }

    /// Whether the home's bytes are held.
    pub(crate) fn is_loaded(&self) -> bool
        ensures { result ≡ cell_is_loaded self.now }
    {
        match &self.used {
            Some(used) => used.raw.is_some() || self.empty_read,
            None => self.empty_read,
        }
    }

    /// The home's bytes, where they are held.
    pub(crate) fn bytes(&self) -> &[u8]
        ensures { result.now ≡ bytes_or_none self.now.raw }
    {
        match &self.used {
            Some(used) => used.bytes(),
            None => &[],
        }
    }

    /// The home's bytes, where they are held, up to their last NUL where that was looked for.
    pub(crate) fn ended_bytes(&self) -> &[u8]
        ensures { IsEndedFront (bytes_or_none self.now.raw) result.now }
    {
        match &self.used {
            Some(used) => used.ended(),
            None => &[],
        }
    }

    /// Looks for the last NUL of the home's bytes, where they are held and that was not done yet.
    #[inline(always)]
    pub(crate) fn note_end(&mut self)
        ensures { self.new ≡ self.old }
    {
        let Some(used) = &mut self.used else {
            return;
        };
        used.note_end();
    }

    /// Whether the home's items are held.
    pub(crate) fn holds_items(&self) -> bool
        ensures { result ≡ is_some self.now.held }
    {
        match &self.used {
            Some(used) => used.held.is_some(),
            None => false,
        }
    }

    /// The home's items, which are held.
    pub(crate) fn items(&self) -> &Items
        requires { IsSome self.now.held }
        ensures { self.now.held ≡ Some result.now }
    {
        match &self.used {
            Some(used) => used.items(),
            None => unreachable!(),
        }
    }

    /// The number of pieces.
    pub(crate) fn count(&self) -> u32
        ensures { result ≡ length self.now.pieces }
    {
        if !self.has_first {
            return 0;
        }
        match &self.used {
            Some(used) => (used.others.len() + 1) as u32,
            None => 1,
        }
    }

    /// Whether the piece with that number is the clean home piece.
    pub(crate) fn is_clean_home(&self, p: u32) -> bool
        ensures there { result ≡ true → p < length self.now.pieces }
        ensures clean { result ≡ true → is_some (piece_of self.now.pieces p).own ≡ false }
    {
        self.has_first && p == 0 && !self.first.is_own()
    }

    /// Whether the first piece is the clean home piece and is not marked.
    #[tactic(auto, unfolding(crate::specs::Held::is_untouched))]
    pub(crate) fn is_untouched(&self) -> bool
        ensures { result ≡ is_untouched self.now }
    {
        self.has_first && !self.first.is_own() && !self.first.is_marked()
    }

    /// The piece with that number.
    pub(crate) fn get(&self, p: u32) -> &Piece
        requires { p < length self.now.pieces }
        ensures { result.now ≡ piece_of self.now.pieces p }
    {
        if p == 0 {
            return &self.first;
        }
        match &self.used {
            Some(used) => used.others.get(p as usize - 1),
            None => unreachable!(),
        }
    }

    /// A piece, lent for writing: what the borrower leaves is in its place.
    pub(crate) fn get_mut(&mut self, p: u32) -> &mut Piece
        requires { p < length self.old.pieces }
        ensures* lends { sem 𝓛 (LendsPieceOf p self.entry result) }
        ensures value { result.now ≡ piece_of self.old.pieces p }
    {
        if p == 0 {
            return &mut self.first;
        }
        match &mut self.used {
            Some(used) => used.others.get_mut(p as usize - 1),
            None => unreachable!(),
        }
    }

    /// Adds a piece at the end; the first takes no memory. Where there is none it hands the piece
    /// back, and nothing changes.
    pub(crate) fn push(&mut self, alloc: Global, piece: Piece) -> Result<(), Piece>
        requires { length self.old.pieces < MAX_PIECES }
        ensures ok { OnOk result
            (self.new ≡ record self.old { pieces = self.old.pieces ++ piece ∷ [] }) }
        ensures unchanged { OnErr result (self.new ≡ self.old) }
        ensures back { IfErr result (λ back. back ≡ piece) }
    {
        if !self.has_first {
            put(&mut self.first, piece);
            self.has_first = true;
            return Ok(());
        }
        if let Err(_) = open(alloc, &mut self.used) {
            return Err(piece);
        }
        let Some(used) = &mut self.used else {
            unreachable!()
        };
        used.push(piece)
    }

    /// How many bytes the home has in the file: none where it passes the end of the image.
    pub(crate) fn home_size(&self) -> u64
        ensures { result ≡ home_size self.now }
    {
        if self.out { 0 } else { self.len }
    }

    /// Where the first piece ends, where it is there and holds bytes.
    #[inline(always)]
    fn first_end(&self) -> Option<u64>
        ensures { IfSome result (λ end. AreFirstIn self.now 1 end) }
    {
        if !self.has_first {
            return None;
        }
        if self.first.is_own() {
            return own_len(&self.first);
        }
        if self.kind != Kind::Bytes {
            return None;
        }
        Some(self.home_size())
    }

    /// The first pieces after the first one, which ends there.
    fn pieces_behind(&self, end: u64, limit: u64) -> FirstPieces
        requires first { AreFirstIn self.now 1 end }
        requires within { end ≤ limit }
        ensures first { AreFirstIn self.now result.count result.end }
        ensures within { result.end ≤ limit }
    {
        match &self.used {
            Some(used) => {
                let run = used.others.run(end, limit);
                FirstPieces {
                    count: (run.count + 1) as u32,
                    end: run.end,
                }
            }
            None => FirstPieces { count: 1, end },
        }
    }

    /// The first pieces, as far as they hold bytes and the last of them ends at a limit at the
    /// latest. It takes few steps where it is noted where they end.
    #[inline(always)]
    pub(crate) fn first_pieces(&self, limit: u64) -> FirstPieces
        ensures first { AreFirstIn self.now result.count result.end }
        ensures within { result.end ≤ limit }
    {
        let Some(end) = self.first_end() else {
            return FirstPieces::none();
        };
        if limit < end {
            return FirstPieces::none();
        }
        self.pieces_behind(end, limit)
    }

    /// Notes where the pieces that hold bytes end, as far as there is memory for it.
    #[inline(always)]
    pub(crate) fn note_pieces(&mut self)
        ensures { self.new ≡ self.old }
    {
        let Some(used) = &mut self.used else {
            return;
        };
        used.note_pieces();
    }

    /// Keeps the home's bytes, which are not held. It fails with `Memory` alone, and takes none
    /// where there are no bytes.
    pub(crate) fn keep_bytes(&mut self, alloc: Global, bytes: Octets) -> Result<(), ElfError>
        requires { cell_is_loaded self.old ≡ false }
        ensures ok { OnOk result (self.new ≡ record self.old { raw = Some bytes }) }
        ensures unchanged { OnErr result (self.new ≡ self.old) }
        ensures err { IfErr result (λ e. (0 < length bytes) × (e ≡ Memory)) }
    {
        if bytes.is_empty() {
            self.empty_read = true;
            return Ok(());
        }
        open(alloc, &mut self.used)?;
        let Some(used) = &mut self.used else {
            unreachable!()
        };
        used.set_raw(bytes);
        Ok(())
    }

    /// Keeps the home's items in memory form. It fails with `Memory` alone.
    pub(crate) fn keep_items(&mut self, alloc: Global, items: Items) -> Result<(), ElfError>
        ensures ok { OnOk result (self.new ≡ record self.old { held = Some items }) }
        ensures unchanged { OnErr result (self.new ≡ self.old) }
        ensures err { IfErr result (λ e. e ≡ Memory) }
    {
        open(alloc, &mut self.used)?;
        let Some(used) = &mut self.used else {
            unreachable!()
        };
        used.set_held(HomeItems::Translated(items));
        Ok(())
    }

    /// Keeps the home's bytes, of which there are some, as its items too, and room for a copy. It
    /// fails with `Memory` alone.
    pub(crate) fn keep_copy(&mut self, alloc: Global) -> Result<(), ElfError>
        requires { 0 < length (bytes_or_none self.old.raw) }
        ensures ok { OnOk result
            (self.new ≡ record self.old { held = option_map items.Bytes self.old.raw }) }
        ensures unchanged { OnErr result (self.new ≡ self.old) }
        ensures err { IfErr result (λ e. e ≡ Memory) }
    {
        let len = self.bytes().len() as u64;
        let room = Room::of(alloc, len)?;
        let Some(used) = &mut self.used else {
            unreachable!()
        };
        used.set_held(HomeItems::Raw(room));
        Ok(())
    }

    /// The home's items, which are held, for a piece to own. It takes no memory.
    pub(crate) fn take_items(&mut self) -> Items
        requires { IsSome self.old.held }
        ensures value { self.old.held ≡ Some result }
        ensures after { self.new ≡ record self.old { held = None } }
    {
        let Some(used) = &mut self.used else {
            unreachable!()
        };
        used.take_items()
    }

    /// Reserves memory for the home's bytes. It fails with `Memory` alone.
    pub(crate) fn reserve(&mut self, alloc: Global) -> Result<(), ElfError>
        ensures ok { OnOk result (self.new ≡ record self.old { room = true }) }
        ensures unchanged { OnErr result (self.new ≡ self.old) }
        ensures err { IfErr result (λ e. e ≡ Memory) }
    {
        let room = zeros(alloc, self.len)?;
        open(alloc, &mut self.used)?;
        let Some(used) = &mut self.used else {
            unreachable!()
        };
        used.set_room(room);
        Ok(())
    }

    /// Reads the home's bytes, which are not held, into the memory that is reserved for them. It
    /// fails with `Read` alone, and then nothing changes.
    pub(crate) fn fill_room<S: Source>(&mut self, src: &mut S) -> Result<(), ElfError>
        requires lies { 0 < self.old.home.len
            → self.old.home.at + self.old.home.len ≤ S.size src.old }
        requires room { self.old.room ≡ true }
        requires unread { cell_is_loaded self.old ≡ false }
        requires inside { self.old.home.out ≡ false }
        ensures fills { OnOk result (FillsRoom (S.holds src.old) self.old self.new) }
        ensures unchanged { OnErr result (self.new ≡ self.old) }
        ensures asks { Asks S.Source result src.old src.new self.old.home.len }
        ensures err { IfErr result (λ e. (e ≡ Read) × (0 < self.old.home.len)) }
    {
        let Some(used) = &mut self.used else {
            unreachable!()
        };
        used.fill_room(src, self.at, self.len)
    }

    /// Frees the home's bytes and items. It takes no memory.
    pub(crate) fn forget(&mut self)
        ensures { self.new ≡ record self.old { raw = None; held = None } }
    {
        self.empty_read = false;
        forget(&mut self.used);
    }
}
