//! Edits of a descriptor, which read nothing. Each refusal leaves the descriptor as it was.

ghost use Rattle.std.specs.Prelude.{◌≡◌, ◌<◌, ◌^◌, length, OnErr};
ghost use Rattle.std.specs.Borrow.{sem};
ghost use Rattle.section_table.specs.elf_xlate.Headers.{IsEhdr, IsShdr};
ghost use Rattle.section_table.specs.elf_object.Words.{handing_back, result_map, Edits, EditsWith};
ghost use Rattle.section_table.specs.elf_object.Calls as calls;
ghost use Rattle.law_object.specs.Laws.{EveryStepKeeps, EveryStepKeepsTied};
ghost use Rattle.law_object.specs.Writing.Based.{EveryStepKeepsBased};

use crate::descriptor::Elf;
use elf_types::{DataId, Ehdr, ElfError, Part, Phdr, ScnId, Shdr};
use law_object::prelude::{every_step_keeps, every_step_keeps_tied};
use law_object::writing::based::every_step_keeps_based;
use section_table::prelude::{Items, Source};

/// Every edit leaves an object, of which what is not dirty is in the base.
pub(super) fn every_step_is_sound()
    ensures object { EveryStepKeeps }
    ensures tied { EveryStepKeepsTied }
    ensures based { EveryStepKeepsBased }
{
    every_step_keeps();
    every_step_keeps_tied();
    every_step_keeps_based();
}

/// The fields of a header are in the range of their types.
fn ehdr_is_ranged(_h: Ehdr)
    ensures { IsEhdr _h }
{}

/// The fields of a section header are in the range of their types.
fn shdr_is_ranged(_h: Shdr)
    ensures { IsShdr _h }
{}

/// A byte is in the range of its type.
fn byte_is_ranged(_byte: u8)
    ensures { _byte < 2 ^ 8 }
{}

impl<S: Source> Elf<S> {
    ghost use Rattle.elf_descriptor.specs.Edits.{StepsTo, section_number, numbers_of, stepped, flagged, grown, nulled};
    ghost use Rattle.elf_descriptor.specs.LentSegments.{LendsSegments};

    /// Stores a header's `osabi`, `abiversion`, `etype`, `machine`, `entry`, `phoff`, `shoff`,
    /// `flags` and `shstrndx`, and marks the header dirty. It looks at no other field. It fails
    /// with, in this order: `NoSection` where `shstrndx` is neither 0 nor below the section count,
    /// `Unfit`. It reads nothing and takes no memory.
    ///
    /// Source: gelf_update_ehdr of gelf(3E).
    pub fn update_ehdr(&mut self, h: &Ehdr) -> Result<(), ElfError>
        ensures answer { result ≡ (calls.update_ehdr h.now).answer self.old.o }
        ensures state { StepsTo result self.old self.new
            (stepped (calls.update_ehdr h.now) self.old) }
    {
        every_step_is_sound();
        ehdr_is_ranged(*h);
        self.body.update_ehdr(h)
    }

    /// Stores a program header, and marks the program headers dirty. It fails with, in this order:
    /// `NoEntry`, `Unfit`. It reads nothing and takes no memory.
    ///
    /// Source: gelf_update_phdr of gelf(3E).
    pub fn update_phdr(&mut self, i: u32, p: &Phdr) -> Result<(), ElfError>
        ensures answer { result ≡ (calls.update_phdr i p.now).answer self.old.o }
        ensures state { StepsTo result self.old self.new
            (stepped (calls.update_phdr i p.now) self.old) }
    {
        every_step_is_sound();
        self.body.update_phdr(i, p)
    }

    /// Stores a section's header, and marks the section dirty. It fails with, in this order:
    /// `NoSection`, `Reserved` for section 0, `Unfit`. It reads nothing and takes no memory.
    ///
    /// Source: gelf_update_shdr of gelf(3E).
    pub fn update_shdr(&mut self, s: ScnId, h: &Shdr) -> Result<(), ElfError>
        ensures answer { result ≡ (calls.update_shdr s.0 h.now).answer self.old.o }
        ensures state { StepsTo result self.old self.new
            (stepped (calls.update_shdr s.0 h.now) self.old) }
    {
        every_step_is_sound();
        shdr_is_ranged(*h);
        self.body.update_shdr(s.0, h)
    }

    /// Gives the object so many program headers of zeros in place of those that it has, and marks
    /// them dirty. It fails with, in this order: `TooMany` above 65,534, `Memory`. It reads
    /// nothing.
    ///
    /// Source: gelf_newphdr of gelf(3E).
    pub fn newphdr(&mut self, n: u32) -> Result<(), ElfError>
        ensures { Edits result self.old self.new ((calls.newphdr n).answer self.old.o)
            (stepped (calls.newphdr n) self.old) }
    {
        every_step_is_sound();
        self.body.newphdr(self.alloc, n)
    }

    /// The program headers, lent for writing, and marked dirty. It rejects nothing, reads nothing
    /// and takes no memory. Whether what is left fits the class is looked at by an update.
    ///
    /// Source: gelf_getphdr and gelf_update_phdr of gelf(3E), on all of them.
    pub fn phdrs_mut(&mut self) -> &mut [Phdr]
        ensures* lends { sem 𝓛 (LendsSegments S.row S.Source self.entry result) }
        ensures value { result.now ≡ self.old.o.phdrs }
    {
        every_step_is_sound();
        self.body.phdrs_mut()
    }

    /// Adds a section at the end, whose header is zeros, which has no piece and is marked dirty,
    /// and returns it. An object without sections gets section 0 before it. It fails with, in this
    /// order: `TooMany` at 2^20 sections, `Memory`. It reads nothing.
    ///
    /// Source: elf_newscn of elf(3E).
    pub fn newscn(&mut self) -> Result<ScnId, ElfError>
        ensures { Edits (result_map section_number result) self.old self.new
            (calls.newscn.answer self.old.o) (grown calls.newscn self.old) }
    {
        every_step_is_sound();
        self.body.newscn(self.alloc)
    }

    /// Gives an object without sections section 0, whose header is zeros and which is marked dirty;
    /// where there are sections it changes nothing, rejects nothing and takes no memory. It fails
    /// with `Memory` alone. It reads nothing.
    ///
    /// Source: gABI chapter 4, "Sections", on section 0.
    pub fn newnull(&mut self) -> Result<(), ElfError>
        ensures answer { Edits result self.old self.new (calls.newnull.answer self.old.o)
            (nulled self.old) }
        ensures wants { OnErr result (length self.old.o.sections ≡ 0) }
    {
        every_step_is_sound();
        self.body.newnull(self.alloc)
    }

    /// Adds a piece with these items to a section, with that alignment in it, and returns the
    /// piece; it is own and marked. It fails with, in this order: `NoSection`, `Reserved` for
    /// section 0, `TooMany` at 2^20 pieces, `BadAlign` where the alignment is no power of two or is
    /// greater than 2^20, `Unfit` with the new piece's number, `Memory`, and hands the items back.
    /// It reads nothing. The section's `sh_addralign` stays.
    ///
    /// Source: elf_newdata of elf(3E).
    pub fn newdata_aligned(
        &mut self,
        s: ScnId,
        items: Items,
        align: u64,
    ) -> Result<DataId, (Items, ElfError)>
        ensures { EditsWith (result_map numbers_of result) items self.old self.new
            ((calls.newdata_aligned s.0 items align).answer self.old.o)
            (stepped (calls.newdata_aligned s.0 items align) self.old) }
    {
        every_step_is_sound();
        self.body.newdata(s.0, items, align)
    }

    /// Adds a piece with these items and alignment 1 to a section; it fails as `newdata_aligned`
    /// does.
    ///
    /// Source: elf_newdata of elf(3E).
    pub fn newdata(&mut self, s: ScnId, items: Items) -> Result<DataId, (Items, ElfError)>
        ensures { EditsWith (result_map numbers_of result) items self.old self.new
            ((calls.newdata s.0 items).answer self.old.o)
            (stepped (calls.newdata s.0 items) self.old) }
    {
        self.newdata_aligned(s, items, 1)
    }

    /// Gives a piece other items, of any kind; it becomes own and marked, and keeps its alignment.
    /// It fails with, in this order: `NoSection`, `Reserved` for section 0, `NoData`, `Unfit`, and
    /// hands the items back. It reads nothing and takes no memory.
    ///
    /// Source: elf_newdata of elf(3E), for data that takes the place of other data.
    pub fn replace(&mut self, d: DataId, items: Items) -> Result<(), (Items, ElfError)>
        ensures answer { result ≡ handing_back items
            ((calls.replace d.section d.piece items).answer self.old.o) }
        ensures state { StepsTo result self.old self.new
            (stepped (calls.replace d.section d.piece items) self.old) }
    {
        every_step_is_sound();
        self.body.replace(d, items)
    }

    /// Sets or clears the flags of a part that `bits` has, and returns those that the part has
    /// then. `LAYOUT` counts for the object alone, and the section header table stands for the
    /// object; other bits are not looked at. It fails with, in this order: `NoSection`, `NoData`,
    /// `FlagKept` where `DIRTY` would be cleared. It reads nothing and takes no memory.
    ///
    /// Source: elf_flagelf, elf_flagehdr, elf_flagphdr, elf_flagscn, elf_flagshdr and elf_flagdata
    /// of elf(3E).
    pub fn flag(&mut self, part: Part, set: bool, bits: u32) -> Result<u32, ElfError>
        ensures answer { result ≡ (calls.flag part set bits).answer self.old.o }
        ensures state { StepsTo result self.old self.new
            (flagged (calls.flag part set bits) self.old) }
    {
        every_step_is_sound();
        self.body.flag(part, set, bits)
    }

    /// Stores the fill byte, the byte of gaps. It marks nothing, rejects nothing, reads nothing and
    /// takes no memory.
    ///
    /// Source: elf_fill of elf(3E).
    pub fn set_fill(&mut self, byte: u8)
        ensures { self.new ≡ stepped (calls.set_fill byte) self.old }
    {
        every_step_is_sound();
        byte_is_ranged(byte);
        self.body.set_fill(byte);
    }
}
