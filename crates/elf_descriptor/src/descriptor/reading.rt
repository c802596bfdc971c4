//! What a descriptor reads at the first use.

ghost use Rattle.std.specs.Prelude.{◌≡◌, true, IsTrue, OnOk, [], None};
ghost use Rattle.std.specs.Borrow.{sem};
ghost use Rattle.elf_types.specs.Answers.{answered};
ghost use Rattle.section_table.specs.elf_object.Words.{Answers, AlikeBytes, AlikeItems, IsLike, seen};
ghost use Rattle.section_table.specs.elf_object.Object.{section_at, piece_at};
ghost use Rattle.section_table.specs.elf_object.Answers.{raw_refusal, data_refusal, items_at};
ghost use Rattle.section_table.specs.elf_object.Due.{is_loaded, holds_items};
ghost use Rattle.section_table.specs.elf_object.Calls as calls;
ghost use Rattle.elf_descriptor.specs.Reads.{Queries, Looks, wanted};

use crate::descriptor::Elf;
use elf_types::{DataId, ElfError, ScnId};
use section_table::prelude::{Items, Source};

impl<S: Source> Elf<S> {
    ghost use Rattle.elf_descriptor.specs.Rests.{Rests, GivesRaw, GivesItems};

    /// Reads a section's home where its bytes are not held. It fails with, in this order:
    /// `NoSection`, `OutOfFile`, then `Memory` or `Read`.
    fn load(&mut self, s: u32) -> Result<(), ElfError>
        ensures answer { Answers true (wanted (calls.raw s) self.old) result
            (answered (raw_refusal self.old.o s) tt) }
        ensures loaded { OnOk result (IsTrue (is_loaded self.new.loaded s)) }
        ensures queries { Queries S.Source (calls.raw s) [] result self.old self.new }
    {
        self.body.load(&mut self.src, s)
    }

    /// The bytes of a home that is loaded.
    fn bytes(&self, s: u32) -> &[u8]
        requires { IsTrue (is_loaded self.now.loaded s) }
        ensures exact { IsTrue self.now.told → result.now ≡ (section_at self.now.o s).raw }
        ensures alike { AlikeBytes result.now (section_at self.now.o s).raw }
    {
        self.body.held_cell(s).bytes()
    }

    /// A home's bytes in file form, whatever was edited; a new section has none. It fails with, in
    /// this order: `NoSection`, `OutOfFile`, then `Memory` or `Read` where the section is not
    /// loaded. It reads the home at the first use.
    ///
    /// Source: elf_rawdata of elf(3E).
    pub fn raw(&mut self, s: ScnId) -> Result<&[u8], ElfError>
        ensures answer { Answers self.old.told (wanted (calls.raw s.0) self.old) (seen result)
            ((calls.raw s.0).answer self.old.o) }
        ensures like { IsLike AlikeBytes (seen result) ((calls.raw s.0).answer self.old.o) }
        ensures* rests { sem 𝓛 (Rests S.row S.Source self.entry (λ new.
            GivesRaw S.Source s.0 result self.old new)) }
    {
        match self.load(s.0) {
            Ok(()) => Ok(self.bytes(s.0)),
            Err(e) => Err(e),
        }
    }

    /// Makes a piece hold its items. It fails with, in this order: `NoSection`, `NoData`, and for
    /// the clean home piece `OutOfFile` and `Ragged`; then `Memory` or `Read`.
    fn prepare(&mut self, d: DataId) -> Result<(), ElfError>
        ensures answer { Answers true (wanted (calls.section_data d.section d.piece) self.old)
            result (answered (data_refusal self.old.o d.section d.piece) tt) }
        ensures holds { OnOk result
            (IsTrue (holds_items self.new.o self.new.held d.section d.piece)) }
        ensures loaded { OnOk result ((piece_at self.new.o d.section d.piece).own ≡ None
            → IsTrue (is_loaded self.new.loaded d.section)) }
        ensures looks { Looks S.Source (calls.section_data d.section d.piece) result self.old
            self.new }
    {
        self.body.prepare(&mut self.src, d)
    }

    /// The items of a piece that holds them.
    fn items(&self, d: DataId) -> &Items
        requires passed { data_refusal self.now.o d.section d.piece ≡ None }
        requires holds { IsTrue (holds_items self.now.o self.now.held d.section d.piece) }
        ensures exact { IsTrue self.now.told
            → result.now ≡ items_at self.now.o d.section d.piece }
        ensures alike { AlikeItems result.now (items_at self.now.o d.section d.piece) }
    {
        self.body.held_cell(d.section).items(d.piece)
    }

    /// A piece's items. It fails with, in this order: `NoSection`, `NoData`, and for the clean home
    /// piece `OutOfFile` where its home passes the end of the image and `Ragged` where the size of
    /// an item does not divide the home's length; then `Memory` or `Read` where the piece does not
    /// hold its items. The home is read and translated at the first use.
    ///
    /// Source: elf_getdata of elf(3E).
    pub fn data(&mut self, d: DataId) -> Result<&Items, ElfError>
        ensures answer { Answers self.old.told
            (wanted (calls.section_data d.section d.piece) self.old) (seen result)
            ((calls.section_data d.section d.piece).answer self.old.o) }
        ensures like { IsLike AlikeItems (seen result)
            ((calls.section_data d.section d.piece).answer self.old.o) }
        ensures* rests { sem 𝓛 (Rests S.row S.Source self.entry (λ new.
            GivesItems S.Source d.section d.piece result self.old new)) }
    {
        match self.prepare(d) {
            Ok(()) => Ok(self.items(d)),
            Err(e) => Err(e),
        }
    }
}
