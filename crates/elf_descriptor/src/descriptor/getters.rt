//! What a descriptor tells without reading.

ghost use Rattle.std.specs.Prelude.{◌≡◌, false, Ok, IfOk, is_some, length};
ghost use Rattle.elf_types.specs.Answers.{err_of};
ghost use Rattle.section_table.specs.elf_object.Object.{is_dirty};
ghost use Rattle.section_table.specs.elf_object.Answers.{piece_refusal};
ghost use Rattle.section_table.specs.elf_object.Calls as calls;

use crate::descriptor::Elf;
use crate::held::Held;
use elf_types::{DataId, Ehdr, ElfError, Kind, Part, Phdr, ScnId, Shdr};
use section_table::prelude::Source;
use std::alloc::Global;

impl<S: Source> Elf<S> {
    ghost use Rattle.elf_descriptor.specs.Fronts.{HoldsBaseAlone};
    ghost use Rattle.elf_descriptor.specs.Sound.{IsSound};
    ghost use Rattle.elf_descriptor.specs.Held.{IsHeld};

    /// The object's allocator: a call over an object that is handed none takes its memory from it.
    pub fn alloc(&self) -> Global {
        self.alloc
    }

    /// The ELF header, with its true counts and its true string index. It rejects nothing and takes
    /// no memory.
    ///
    /// Source: gelf_getehdr of gelf(3E).
    pub fn ehdr(&self) -> Ehdr
        ensures { Ok result ≡ calls.ehdr.answer self.now.o }
    {
        self.body.ehdr()
    }

    /// The number of program headers. It rejects nothing and takes no memory.
    ///
    /// Source: elf_getphdrnum of elf(3E).
    #[tactic(auto, unfolding(crate::specs::Views::object_of))]
    pub fn phnum(&self) -> u32
        ensures { Ok result ≡ calls.phnum.answer self.now.o }
    {
        self.body.header.phnum
    }

    /// The number of sections. It rejects nothing and takes no memory.
    ///
    /// Source: elf_getshdrnum of elf(3E).
    #[tactic(auto, using(crate::proofs::Objects::section_count_is))]
    pub fn shnum(&self) -> u32
        ensures { Ok result ≡ calls.shnum.answer self.now.o }
    {
        self.body.header.shnum
    }

    /// The number of the section that holds the sections' names, 0 where there is none. It rejects
    /// nothing and takes no memory.
    ///
    /// Source: elf_getshdrstrndx of elf(3E).
    #[tactic(auto, unfolding(crate::specs::Views::object_of))]
    pub fn shstrndx(&self) -> u32
        ensures { Ok result ≡ calls.shstrndx.answer self.now.o }
    {
        self.body.header.shstrndx
    }

    /// A program header. It fails with `NoEntry`, and takes no memory.
    ///
    /// Source: gelf_getphdr of gelf(3E).
    pub fn phdr(&self, i: u32) -> Result<Phdr, ElfError>
        ensures { result ≡ (calls.phdr i).answer self.now.o }
    {
        self.body.phdr(i)
    }

    /// The present header of a section. It fails with `NoSection`, and takes no memory.
    ///
    /// Source: gelf_getshdr of gelf(3E).
    pub fn shdr(&self, s: ScnId) -> Result<Shdr, ElfError>
        ensures { result ≡ (calls.shdr s.0).answer self.now.o }
    {
        self.body.shdr(s.0)
    }

    /// The number of a section's pieces. It fails with `NoSection`, and takes no memory.
    pub fn pieces(&self, s: ScnId) -> Result<u32, ElfError>
        ensures { result ≡ (calls.pieces s.0).answer self.now.o }
    {
        self.body.pieces(s.0)
    }

    /// The place and the length of a section's home, the extent in bytes that its header gave it
    /// when the image was opened. It fails with `NoSection`, and takes no memory.
    ///
    /// Source: gABI chapter 4, "Section Header".
    pub fn home(&self, s: ScnId) -> Result<(u64, u64), ElfError>
        ensures { result ≡ (calls.home s.0).answer self.now.o }
    {
        self.body.home(s.0)
    }

    /// The kind that a piece holds; for the clean home piece that is its home's. It fails with, in
    /// this order: `NoSection`, `NoData`. It takes no memory.
    pub fn piece_kind(&self, d: DataId) -> Result<Kind, ElfError>
        ensures { result ≡ (calls.piece_kind d.section d.piece).answer self.now.o }
    {
        self.body.piece_kind(d)
    }

    /// The alignment of a piece in its section, in bytes. It fails with, in this order:
    /// `NoSection`, `NoData`. It takes no memory.
    pub fn piece_align(&self, d: DataId) -> Result<u64, ElfError>
        ensures { result ≡ (calls.piece_align d.section d.piece).answer self.now.o }
    {
        self.body.piece_align(d)
    }

    /// The flags of a part: `DIRTY` for its dirty mark, `LAYOUT` for the object and the section
    /// header table where it is set. It fails with, in this order: `NoSection`, `NoData`. It takes
    /// no memory.
    ///
    /// Source: elf_flagelf and its like of elf(3E).
    pub fn flags(&self, part: Part) -> Result<u32, ElfError>
        ensures { result ≡ (calls.flags part).answer self.now.o }
    {
        self.body.flags(part)
    }

    /// The fill byte, the byte of gaps. It rejects nothing and takes no memory.
    ///
    /// Source: elf_fill of elf(3E).
    #[tactic(auto, unfolding(crate::specs::Views::object_of))]
    pub fn fill(&self) -> u8
        ensures { Ok result ≡ calls.fill.answer self.now.o }
    {
        self.body.fill
    }

    /// Whether something is dirty. It rejects nothing and takes no memory. What is in the
    /// descriptor is an object; where nothing is dirty and the source tells its bytes, it is the
    /// object of its base. Where nothing is dirty the source is the base and no more.
    pub fn dirty(&self) -> bool
        ensures dirty { result ≡ is_dirty self.now.o }
        ensures sound { IsSound (S.holds self.now.source) self.now.o }
        ensures told { self.now.told ≡ is_some (S.holds self.now.source) }
        ensures whole { result ≡ false → HoldsBaseAlone S.Source self.now }
    {
        self.body.dirty()
    }

    /// Bytes 9 to 15 of the identification. It rejects nothing and takes no memory.
    ///
    /// Source: gABI chapter 4, "ELF Identification".
    #[tactic(auto, unfolding(crate::specs::Views::object_of))]
    pub fn pad(&self) -> [u8; 7]
        ensures { result ≡ self.now.o.pad }
    {
        self.body.pad
    }

    /// The number of base bytes, those of the image as opened or last settled. It rejects nothing
    /// and takes no memory.
    #[tactic(auto, unfolding(crate::specs::Views::object_of))]
    pub fn base_len(&self) -> u64
        ensures { result ≡ length self.now.o.base }
    {
        self.body.base_len()
    }

    /// The number of bytes of the source: after a failed update in place it may be longer than the
    /// base. It rejects nothing and takes no memory.
    pub fn source_len(&self) -> u64
        ensures { result ≡ S.size self.now.source }
    {
        self.src.len()
    }

    /// What is held of a piece: its items exactly where it is own, else the home's bytes in file
    /// form exactly where the section is loaded. It fails with, in this order: `NoSection`,
    /// `NoData`. It reads nothing and takes no memory.
    pub fn held(&self, d: DataId) -> Result<Held<'_>, ElfError>
        ensures refusal { err_of result ≡ piece_refusal self.now.o d.section d.piece }
        ensures held { IfOk result (λ held. IsHeld self.now d.section d.piece held) }
    {
        if let Err(e) = self.body.check_piece(d) {
            return Err(e);
        }
        Ok(self.body.held_at(d.section, d.piece))
    }
}
