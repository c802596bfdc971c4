//! Reading the home, and translating it once.

ghost use Rattle.std.specs.Prelude.{◌≡◌, ◌≢◌, ◌⊎◌, ◌+◌, ◌<◌, ◌≤◌, length, take, drop, true, false, IsTrue, IsSome, IfOk, IfErr, IfSome, OnOk, OnErr, Some, None, is_some, ◌||◌, if◌then◌else◌};
ghost use Rattle.elf_types.specs.declared.errors.ElfError.TheVariants.{Memory, Read};
ghost use Rattle.elf_types.specs.Answers.{answered, IsRefusal};
ghost use Rattle.elf_object.specs.elf_outside.Asks.{Asks};
ghost use Rattle.elf_object.specs.elf_xlate.Translation.{decoded, is_whole};
ghost use Rattle.elf_object.specs.Words.{Answers};
ghost use Rattle.elf_types.specs.declared.records.Class.{Class as TheClass};
ghost use Rattle.elf_types.specs.declared.records.Order.{Order as TheOrder};
ghost use Rattle.elf_types.specs.declared.records.Kind.TheVariants as kinds;
ghost use Rattle.section_data.specs.Views.{IsCell};
ghost use Rattle.section_data.specs.Held.{piece_in, cell_is_loaded, piece_holds_items, HeldIs};
ghost use Rattle.section_data.specs.Refused.{no_piece, no_home_items, items_refused, home_out, load_due, piece_due, items_due, loading, preparing};
ghost use Rattle.section_data.specs.Leaves.{LiesIn, Warms, IsReadFrom, bytes_or_none};
ghost use Rattle.section_data.specs.Nuls.{IsEndedFront};

use crate::cell::Cell;
use crate::home::Home;
use elf_object::prelude::{Items, Source, XlateError, item_size, read_range, to_memory};
use elf_types::{Class, ElfError, Kind, Octets, Order};
use std::alloc::Global;

/// The bytes of a home. An empty one is not read, and takes no memory.
fn read_home<S: Source>(alloc: Global, src: &mut S, home: Home) -> Result<Octets, ElfError>
    requires { 0 < home.len → home.at + home.len ≤ S.size src.old }
    ensures bytes { IfOk result (λ octets.
        IfSome (S.holds src.old) (λ image. octets ≡ take home.len (drop home.at image))) }
    ensures len { IfOk result (λ octets. length octets ≡ home.len) }
    ensures asks { Asks S.Source result src.old src.new home.len }
    ensures err { IfErr result (λ e. (0 < home.len) × ((e ≡ Memory) ⊎ (e ≡ Read))) }
{
    if home.len == 0 {
        return Ok(Octets::new(alloc));
    }
    read_range(alloc, src, home.at, home.len)
}

/// The items that a home's bytes hold. It fails with `Memory` alone.
fn translated(
    alloc: Global,
    kind: Kind,
    class: Class,
    order: Order,
    bytes: &[u8],
) -> Result<Items, ElfError>
    requires { IsTrue (is_whole kind class (length bytes.now)) }
    ensures ok { IfOk result (λ items. decoded kind class order bytes.now ≡ Some items) }
    ensures err { IfErr result (λ e. e ≡ Memory) }
{
    match to_memory(alloc, kind, class, order, bytes) {
        Ok(items) => Ok(items),
        Err(_) => Err(ElfError::Memory),
    }
}

/// Whether so many bytes are whole items of a kind.
fn is_whole(kind: Kind, class: Class, len: u64) -> bool
    ensures { result ≡ is_whole kind class len }
{
    kind == Kind::Empty || len % item_size(kind, class) == 0
}

impl Cell {
    /// Reads the home's bytes, which are not held.
    fn read_raw<S: Source>(&mut self, src: &mut S) -> Result<(), ElfError>
        requires lies { LiesIn self.old (S.size src.old) }
        requires inside { self.old.home.out ≡ false }
        requires unread { cell_is_loaded self.old ≡ false }
        ensures ok { OnOk result (IsSome self.new.raw) }
        ensures raw { OnOk result (self.new ≡ record self.old { raw = self.new.raw }) }
        ensures bytes { OnOk result
            (IsReadFrom (S.holds src.old) self.old.home (bytes_or_none self.new.raw)) }
        ensures err { IfErr result (λ e. (0 < self.old.home.len) × ((e ≡ Memory) ⊎ (e ≡ Read))) }
        ensures unchanged { OnErr result (self.new ≡ self.old) }
        ensures asks { Asks S.Source result src.old src.new self.old.home.len }
        ensures cell { IsCell self.new }
    {
        let bytes = read_home(self.alloc, src, self.kept.home())?;
        if let Err(e) = self.kept.keep_bytes(self.alloc, bytes) {
            return Err(e);
        }
        Ok(())
    }

    /// Reads the home's bytes where they are not held. It fails with, in this order: `OutOfFile`
    /// exactly where the home passes the end of the image, then `Memory` or `Read`, and then the
    /// cell is as before. It reads nothing where it is rejected or the section is loaded.
    pub fn load<S: Source>(&mut self, src: &mut S) -> Result<(), ElfError>
        requires { LiesIn self.old (S.size src.old) }
        ensures answer { Answers true (loading (load_due self.old)) result
            (answered (home_out self.old) tt) }
        ensures loaded { OnOk result (IsTrue (cell_is_loaded self.new)) }
        ensures held { self.new.held ≡ self.old.held }
        ensures warms { Warms (S.holds src.old) self.old self.new }
        ensures unchanged { OnErr result (self.new ≡ self.old) }
        ensures asks { Asks S.Source result src.old src.new (load_due self.old) }
        ensures err { IfErr result (λ e. self.old.home.out ≡ false
            → (0 < load_due self.old) × ((e ≡ Memory) ⊎ (e ≡ Read))) }
        ensures cell { IsCell self.new }
    {
        if self.is_loaded() {
            return Ok(());
        }
        if self.out() {
            return Err(ElfError::OutOfFile {
                section: self.section(),
            });
        }
        self.read_raw(src)
    }

    /// The home's bytes, which are held. It takes no memory.
    pub fn bytes(&self) -> &[u8]
        requires { IsSome self.now.raw }
        ensures value { self.now.raw ≡ Some result.now }
        ensures len { length result.now ≡ self.now.home.len }
        ensures cell { IsCell self.now }
    {
        self.kept.bytes()
    }

    /// The home's bytes, which are held, up to their last NUL where that was looked for. It takes
    /// no memory.
    pub fn ended_bytes(&self) -> &[u8]
        requires { IsSome self.now.raw }
        ensures { IfSome self.now.raw (λ bytes. IsEndedFront bytes result.now) }
    {
        self.kept.ended_bytes()
    }

    /// Looks for the last NUL of the home's bytes, where they are held and that was not done yet.
    /// It changes no result but that of `ended_bytes`, and takes no memory.
    #[inline(always)]
    pub fn note_end(&mut self)
        ensures value { self.new ≡ self.old }
        ensures cell { IsCell self.new }
    {
        self.kept.note_end();
    }

    /// Whether there is a piece with that number; else `NoData`. It takes no memory.
    #[inline(always)]
    pub fn check_piece(&self, p: u32) -> Result<(), ElfError>
        ensures answer { result ≡ answered (no_piece self.now p) tt }
        ensures there { OnOk result (p < length self.now.pieces) }
        ensures err { IfErr result IsRefusal }
        ensures cell { IsCell self.now }
    {
        let count = self.kept.count();
        if p < count {
            Ok(())
        } else {
            Err(ElfError::NoData { index: p, count })
        }
    }

    /// Whether a piece has items: of the clean home piece `OutOfFile`, then `Ragged`.
    #[tactic(auto, unfolding(crate::specs::Refused::no_home_items))]
    pub(super) fn check_home(&self, p: u32, class: Class) -> Result<(), ElfError>
        requires { p < length self.now.pieces }
        ensures answer { result ≡ answered (no_home_items class self.now p) tt }
        ensures err { IfErr result IsRefusal }
    {
        let section = self.section();
        if self.is_own(p) {
            return Ok(());
        }
        if self.out() {
            return Err(ElfError::OutOfFile { section });
        }
        let home = self.home();
        if !is_whole(home.kind, class, home.len) {
            return Err(ElfError::Ragged { section });
        }
        Ok(())
    }

    /// Whether a piece has items that can be told. It fails with, in this order: `NoData`, and for
    /// the clean home piece `OutOfFile` and `Ragged`. It takes no memory.
    #[tactic(auto, unfolding(crate::specs::Refused::items_refused))]
    pub fn check(&self, p: u32, class: Class) -> Result<(), ElfError>
        ensures answer { result ≡ answered (items_refused class self.now p) tt }
        ensures there { OnOk result (p < length self.now.pieces) }
        ensures err { IfErr result IsRefusal }
        ensures cell { IsCell self.now }
    {
        self.check_piece(p)?;
        self.check_home(p, class)
    }

    /// Loads the home of a piece that is not own. It fails as `load`, and nothing for an own piece,
    /// whose cell stays as it is.
    pub fn fetch<S: Source>(&mut self, src: &mut S, p: u32) -> Result<(), ElfError>
        requires piece { p < length self.old.pieces }
        requires lies { LiesIn self.old (S.size src.old) }
        ensures answer { Answers true (loading (piece_due self.old p)) result
            (answered (if is_some (piece_in self.old p).own then None else home_out self.old) tt) }
        ensures loaded { OnOk result
            (IsTrue (is_some (piece_in self.old p).own || cell_is_loaded self.new)) }
        ensures held { self.new.held ≡ self.old.held }
        ensures warms { Warms (S.holds src.old) self.old self.new }
        ensures unchanged { OnErr result (self.new ≡ self.old) }
        ensures own { is_some (piece_in self.old p).own ≡ true → self.new ≡ self.old }
        ensures asks { Asks S.Source result src.old src.new (piece_due self.old p) }
        ensures cell { IsCell self.new }
    {
        if self.is_own(p) {
            return Ok(());
        }
        self.load(src)
    }

    /// Whether a piece holds its items: an own one does, and the clean home piece where the home's
    /// items are held in memory form. It takes no memory.
    #[tactic(auto, using(crate::proofs::Holdings::holds_either))]
    pub fn holds_items(&self, p: u32) -> bool
        requires { p < length self.now.pieces }
        ensures value { result ≡ piece_holds_items self.now p }
        ensures cell { IsCell self.now }
    {
        self.is_own(p) || self.kept.holds_items()
    }

    /// Translates a home that is loaded. It fails with `Memory` alone, and then the cell is as
    /// before.
    fn translate(&mut self, class: Class, order: Order) -> Result<(), ElfError>
        requires loaded { IsTrue (cell_is_loaded self.old) }
        requires whole { IsTrue (is_whole self.old.home.kind class self.old.home.len) }
        ensures ok { OnOk result (IsSome self.new.held) }
        ensures held { OnOk result (self.new ≡ record self.old { held = self.new.held }) }
        ensures items { OnOk result (HeldIs class order self.new) }
        ensures err { IfErr result (λ e. e ≡ Memory) }
        ensures unchanged { OnErr result (self.new ≡ self.old) }
        ensures cell { IsCell self.new }
    {
        let items = translated(self.alloc, self.home().kind, class, order, self.bytes())?;
        self.kept.keep_items(self.alloc, items)
    }

    /// Makes room for a copy of a home that is loaded, of bytes and not empty. It fails with
    /// `Memory` alone, and then the cell is as before.
    #[tactic(auto, using(crate::proofs::Loading::held_bytes))]
    fn keep_room(&mut self) -> Result<(), ElfError>
        requires loaded { IsTrue (cell_is_loaded self.old) }
        requires kind { self.old.home.kind ≡ kinds.Bytes }
        requires some { 0 < self.old.home.len }
        ensures ok { OnOk result (IsSome self.new.held) }
        ensures held { OnOk result (self.new ≡ record self.old { held = self.new.held }) }
        ensures items { (class : TheClass) (order : TheOrder) →
            OnOk result (HeldIs class order self.new) }
        ensures err { IfErr result (λ e. e ≡ Memory) }
        ensures unchanged { OnErr result (self.new ≡ self.old) }
        ensures cell { IsCell self.new }
    {
        self.kept.keep_copy(self.alloc)
    }

    /// Holds the items of a home that is loaded and has whole items. It fails with `Memory` alone,
    /// and then the cell is as before.
    fn hold(&mut self, class: Class, order: Order) -> Result<(), ElfError>
        requires loaded { IsTrue (cell_is_loaded self.old) }
        requires whole { IsTrue (is_whole self.old.home.kind class self.old.home.len) }
        ensures ok { OnOk result (IsSome self.new.held) }
        ensures held { OnOk result (self.new ≡ record self.old { held = self.new.held }) }
        ensures items { OnOk result (HeldIs class order self.new) }
        ensures err { IfErr result (λ e. e ≡ Memory) }
        ensures unchanged { OnErr result (self.new ≡ self.old) }
        ensures cell { IsCell self.new }
    {
        let home = self.home();
        if home.kind == Kind::Bytes && home.len > 0 {
            return self.keep_room();
        }
        self.translate(class, order)
    }

    /// Reads a home that lies in the file and has whole items, where it is not read, and translates
    /// it. It fails with `Memory` and `Read`.
    fn warm<S: Source>(&mut self, src: &mut S, class: Class, order: Order) -> Result<(), ElfError>
        requires lies { LiesIn self.old (S.size src.old) }
        requires inside { self.old.home.out ≡ false }
        requires whole { IsTrue (is_whole self.old.home.kind class self.old.home.len) }
        requires unheld { self.old.held ≡ None }
        ensures err { IfErr result (λ e. (e ≡ Memory) ⊎ ((e ≡ Read) × (0 < load_due self.old))) }
        ensures holds { OnOk result (IsSome self.new.held) }
        ensures items { HeldIs class order self.new }
        ensures warms { Warms (S.holds src.old) self.old self.new }
        ensures same { OnErr result (self.new.held ≡ self.old.held) }
        ensures unchanged { IfErr result (λ e. e ≢ Memory → self.new ≡ self.old) }
        ensures asks { Asks S.Source result src.old src.new (load_due self.old) }
        ensures cell { IsCell self.new }
    {
        self.load(src)?;
        self.hold(class, order)
    }

    /// Makes a piece hold its items, so that they can be handed out and claimed: the home is read
    /// and translated at the first use, and room is made for a copy where it is of bytes. For an
    /// own piece the cell stays as it is. It fails with, in this order: `NoData`, and for the clean
    /// home piece `OutOfFile` and `Ragged`; then `Memory` or `Read` where the piece does not hold
    /// its items. It reads nothing where it is rejected, the piece is own or the section is loaded.
    ///
    /// Source: elf_getdata of elf(3E).
    pub fn prepare<S: Source>(
        &mut self,
        src: &mut S,
        p: u32,
        class: Class,
        order: Order,
    ) -> Result<(), ElfError>
        requires lies { LiesIn self.old (S.size src.old) }
        requires items { HeldIs class order self.old }
        ensures answer { Answers true (preparing self.old p (items_due class self.old p)) result
            (answered (items_refused class self.old p) tt) }
        ensures there { OnOk result (p < length self.old.pieces) }
        ensures holds { OnOk result (IsTrue (piece_holds_items self.new p)) }
        ensures items { HeldIs class order self.new }
        ensures warms { Warms (S.holds src.old) self.old self.new }
        ensures same { OnErr result (self.new.held ≡ self.old.held) }
        ensures unchanged { IfErr result (λ e. e ≢ Memory → self.new ≡ self.old) }
        ensures own { is_some (piece_in self.old p).own ≡ true → self.new ≡ self.old }
        ensures asks { Asks S.Source result src.old src.new (items_due class self.old p) }
        ensures cell { IsCell self.new }
    {
        if let Err(e) = self.check(p, class) {
            return Err(e);
        }
        if self.holds_items(p) {
            return Ok(());
        }
        self.warm(src, class, order)
    }
}
