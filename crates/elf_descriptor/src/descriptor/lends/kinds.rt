//! The eight kinds of items that are lent.

ghost use Rattle.std.specs.Prelude.{◌≡◌, length, IsTrue, IfOk, []};
ghost use Rattle.std.specs.Borrow.{sem, u8, u16, u32, u64};
ghost use Rattle.elf_types.specs.contracts.records.Sym.{the_row as sym_row};
ghost use Rattle.elf_types.specs.contracts.records.Rel.{the_row as rel_row};
ghost use Rattle.elf_types.specs.contracts.records.Rela.{the_row as rela_row};
ghost use Rattle.elf_types.specs.contracts.records.Dyn.{the_row as dyn_row};
ghost use Rattle.elf_types.specs.declared.records.Kind.TheVariants as kinds;
ghost use Rattle.section_table.specs.elf_xlate.declared.content.Items.TheVariants as items;
ghost use Rattle.section_table.specs.elf_object.Answers.{items_at, count_at, bytes_of, halves_of, words_of, addrs_of, syms_of, rels_of, relas_of, dyns_of};

use crate::descriptor::Elf;
use elf_types::{
    Addrs, DataId, Dyn, Dyns, ElfError, Halves, Octets, Rel, Rela, Relas, Rels, Sym, Syms, Words,
};
use section_table::prelude::Source;

impl<S: Source> Elf<S> {
    ghost use Rattle.elf_descriptor.specs.Lends.{LendsItems, LendAnswers};

    /// A piece's bytes, lent for writing as `lend` does.
    ///
    /// Source: elf_getdata and elf_flagdata of elf(3E).
    pub fn bytes_mut(&mut self, d: DataId) -> Result<&mut Octets, ElfError>
        ensures* lends { sem 𝓛 (LendsItems u8 items.Bytes S.row S.Source d.section d.piece
            self.entry result) }
        ensures answer { LendAnswers kinds.Bytes (items.Bytes []) d.section d.piece self.old
            result }
        ensures value { IsTrue self.old.told → IfOk result (λ lent.
            lent.now ≡ bytes_of (items_at self.old.o d.section d.piece)) }
        ensures sized { IfOk result (λ lent.
            length lent.now ≡ count_at self.old.o d.section d.piece) }
    {
        self.lend::<u8>(d)
    }

    /// A piece's two-byte numbers, lent for writing as `lend` does.
    ///
    /// Source: elf_getdata and elf_flagdata of elf(3E).
    pub fn halves_mut(&mut self, d: DataId) -> Result<&mut Halves, ElfError>
        ensures* lends { sem 𝓛 (LendsItems u16 items.Half S.row S.Source d.section d.piece
            self.entry result) }
        ensures answer { LendAnswers kinds.Half (items.Half []) d.section d.piece self.old result }
        ensures value { IsTrue self.old.told → IfOk result (λ lent.
            lent.now ≡ halves_of (items_at self.old.o d.section d.piece)) }
        ensures sized { IfOk result (λ lent.
            length lent.now ≡ count_at self.old.o d.section d.piece) }
    {
        self.lend::<u16>(d)
    }

    /// A piece's four-byte numbers, lent for writing as `lend` does.
    ///
    /// Source: elf_getdata and elf_flagdata of elf(3E).
    pub fn words_mut(&mut self, d: DataId) -> Result<&mut Words, ElfError>
        ensures* lends { sem 𝓛 (LendsItems u32 items.Word S.row S.Source d.section d.piece
            self.entry result) }
        ensures answer { LendAnswers kinds.Word (items.Word []) d.section d.piece self.old result }
        ensures value { IsTrue self.old.told → IfOk result (λ lent.
            lent.now ≡ words_of (items_at self.old.o d.section d.piece)) }
        ensures sized { IfOk result (λ lent.
            length lent.now ≡ count_at self.old.o d.section d.piece) }
    {
        self.lend::<u32>(d)
    }

    /// A piece's addresses, lent for writing as `lend` does.
    ///
    /// Source: elf_getdata and elf_flagdata of elf(3E).
    pub fn addrs_mut(&mut self, d: DataId) -> Result<&mut Addrs, ElfError>
        ensures* lends { sem 𝓛 (LendsItems u64 items.Addr S.row S.Source d.section d.piece
            self.entry result) }
        ensures answer { LendAnswers kinds.Addr (items.Addr []) d.section d.piece self.old result }
        ensures value { IsTrue self.old.told → IfOk result (λ lent.
            lent.now ≡ addrs_of (items_at self.old.o d.section d.piece)) }
        ensures sized { IfOk result (λ lent.
            length lent.now ≡ count_at self.old.o d.section d.piece) }
    {
        self.lend::<u64>(d)
    }

    /// A piece's symbols, lent for writing as `lend` does.
    ///
    /// Source: elf_getdata and elf_flagdata of elf(3E).
    pub fn syms_mut(&mut self, d: DataId) -> Result<&mut Syms, ElfError>
        ensures* lends { sem 𝓛 (LendsItems sym_row items.Sym S.row S.Source d.section d.piece
            self.entry result) }
        ensures answer { LendAnswers kinds.Sym (items.Sym []) d.section d.piece self.old result }
        ensures value { IsTrue self.old.told → IfOk result (λ lent.
            lent.now ≡ syms_of (items_at self.old.o d.section d.piece)) }
        ensures sized { IfOk result (λ lent.
            length lent.now ≡ count_at self.old.o d.section d.piece) }
    {
        self.lend::<Sym>(d)
    }

    /// A piece's relocations without an addend, lent for writing as `lend` does.
    ///
    /// Source: elf_getdata and elf_flagdata of elf(3E).
    pub fn rels_mut(&mut self, d: DataId) -> Result<&mut Rels, ElfError>
        ensures* lends { sem 𝓛 (LendsItems rel_row items.Rel S.row S.Source d.section d.piece
            self.entry result) }
        ensures answer { LendAnswers kinds.Rel (items.Rel []) d.section d.piece self.old result }
        ensures value { IsTrue self.old.told → IfOk result (λ lent.
            lent.now ≡ rels_of (items_at self.old.o d.section d.piece)) }
        ensures sized { IfOk result (λ lent.
            length lent.now ≡ count_at self.old.o d.section d.piece) }
    {
        self.lend::<Rel>(d)
    }

    /// A piece's relocations with an addend, lent for writing as `lend` does.
    ///
    /// Source: elf_getdata and elf_flagdata of elf(3E).
    pub fn relas_mut(&mut self, d: DataId) -> Result<&mut Relas, ElfError>
        ensures* lends { sem 𝓛 (LendsItems rela_row items.Rela S.row S.Source d.section d.piece
            self.entry result) }
        ensures answer { LendAnswers kinds.Rela (items.Rela []) d.section d.piece self.old result }
        ensures value { IsTrue self.old.told → IfOk result (λ lent.
            lent.now ≡ relas_of (items_at self.old.o d.section d.piece)) }
        ensures sized { IfOk result (λ lent.
            length lent.now ≡ count_at self.old.o d.section d.piece) }
    {
        self.lend::<Rela>(d)
    }

    /// A piece's entries of a dynamic section, lent for writing as `lend` does.
    ///
    /// Source: elf_getdata and elf_flagdata of elf(3E).
    pub fn dyns_mut(&mut self, d: DataId) -> Result<&mut Dyns, ElfError>
        ensures* lends { sem 𝓛 (LendsItems dyn_row items.Dyn S.row S.Source d.section d.piece
            self.entry result) }
        ensures answer { LendAnswers kinds.Dyn (items.Dyn []) d.section d.piece self.old result }
        ensures value { IsTrue self.old.told → IfOk result (λ lent.
            lent.now ≡ dyns_of (items_at self.old.o d.section d.piece)) }
        ensures sized { IfOk result (λ lent.
            length lent.now ≡ count_at self.old.o d.section d.piece) }
    {
        self.lend::<Dyn>(d)
    }
}
