//! What an object tells without reading.

ghost use Rattle.std.specs.Prelude.{◌≡◌, ◌<◌, ◌≤◌, ℕ, List, Option, Ok, IfSome, length};
ghost use Rattle.std.specs.List.{list_any};
ghost use Rattle.section_table.specs.elf_object.Object.{is_dirty};
ghost use Rattle.section_table.specs.elf_object.Calls as calls;
ghost use Rattle.elf_descriptor.specs.Views.{HasCounts, object_of, base_of, scn_at};
ghost use Rattle.elf_descriptor.specs.Bodies.{is_scn_dirty};
ghost use Rattle.elf_descriptor.specs.Sound.{source_part};

use crate::body::{Base, Body};
use crate::cells::some_piece_marked;
use elf_types::{DataId, Ehdr, ElfError, Kind, Part, Phdr, Shdr};

impl Body {
    /// The header with its true counts.
    #[tactic(auto, using(crate::proofs::Objects::header_is))]
    pub fn ehdr(&self) -> Ehdr
        requires { HasCounts self.now }
        ensures { (image : Option (List ℕ)) (size : ℕ)
            → Ok result ≡ calls.ehdr.answer (object_of image size self.now) }
    {
        self.header
    }

    /// A program header; else `NoEntry`.
    #[tactic(auto, unfolding(crate::proofs::Words::phdr))]
    pub fn phdr(&self, i: u32) -> Result<Phdr, ElfError>
        ensures { (image : Option (List ℕ)) (size : ℕ)
            → result ≡ (calls.phdr i).answer (object_of image size self.now) }
    {
        let index = u64::from(i);
        match self.phdrs.get(index) {
            Some(p) => Ok(p),
            None => Err(ElfError::NoEntry {
                index,
                count: self.phdrs.len(),
            }),
        }
    }

    /// The present header of a section; else `NoSection`.
    #[tactic(auto, using(crate::proofs::Objects::shdr_is, crate::proofs::Rules::answered))]
    pub fn shdr(&self, s: u32) -> Result<Shdr, ElfError>
        requires { HasCounts self.now }
        ensures { (image : Option (List ℕ)) (size : ℕ)
            → result ≡ (calls.shdr s).answer (object_of image size self.now) }
    {
        self.check_section(s)?;
        Ok(*self.header_at(s))
    }

    /// The number of a section's pieces; else `NoSection`.
    #[tactic(auto, using(crate::proofs::Objects::pieces_is, crate::proofs::Rules::answered))]
    pub fn pieces(&self, s: u32) -> Result<u32, ElfError>
        requires { HasCounts self.now }
        ensures { (image : Option (List ℕ)) (size : ℕ)
            → result ≡ (calls.pieces s).answer (object_of image size self.now) }
    {
        self.check_section(s)?;
        let at = self.cell_at(s);
        Ok(at.cell().piece_count())
    }

    /// The place and the length of a section's home; else `NoSection`.
    #[tactic(auto, using(crate::proofs::Objects::home_is, crate::proofs::Rules::answered))]
    pub fn home(&self, s: u32) -> Result<(u64, u64), ElfError>
        requires { HasCounts self.now }
        ensures { (image : Option (List ℕ)) (size : ℕ)
            → result ≡ (calls.home s).answer (object_of image size self.now) }
    {
        self.check_section(s)?;
        let at = self.cell_at(s);
        let home = at.cell().home();
        Ok((home.at, home.len))
    }

    /// The kind that a piece holds; else `NoSection`, then `NoData`.
    #[tactic(auto, using(crate::proofs::Objects::piece_kind_is, crate::proofs::Rules::answered))]
    pub fn piece_kind(&self, d: DataId) -> Result<Kind, ElfError>
        requires { HasCounts self.now }
        ensures { (image : Option (List ℕ)) (size : ℕ) → result
            ≡ (calls.piece_kind d.section d.piece).answer (object_of image size self.now) }
    {
        self.check_piece(d)?;
        let at = self.cell_at(d.section);
        Ok(at.cell().piece_kind(d.piece))
    }

    /// The alignment of a piece in its section; else `NoSection`, then `NoData`.
    #[tactic(auto, using(crate::proofs::Objects::piece_align_is, crate::proofs::Rules::answered))]
    pub fn piece_align(&self, d: DataId) -> Result<u64, ElfError>
        requires { HasCounts self.now }
        ensures { (image : Option (List ℕ)) (size : ℕ) → result
            ≡ (calls.piece_align d.section d.piece).answer (object_of image size self.now) }
    {
        self.check_piece(d)?;
        let at = self.cell_at(d.section);
        Ok(at.cell().piece_align(d.piece))
    }

    /// The flags of a part; else `NoSection`, then `NoData`.
    #[tactic(auto, unfolding(crate::proofs::Words::flags), using(crate::proofs::Rules::answered))]
    pub fn flags(&self, part: Part) -> Result<u32, ElfError>
        requires { HasCounts self.now }
        ensures { (image : Option (List ℕ)) (size : ℕ)
            → result ≡ (calls.flags part).answer (object_of image size self.now) }
    {
        self.check_part(part)?;
        Ok(self.part_flags(part))
    }

    /// Whether a section that is there or one of its pieces is marked dirty.
    fn is_scn_dirty(&self, s: u32) -> bool
        requires { s < length self.now.sections }
        ensures { result ≡ is_scn_dirty (scn_at self.now s) }
    {
        if self.marked_at(s) {
            return true;
        }
        match self.made_at(s) {
            Some(cell) => some_piece_marked(cell),
            None => false,
        }
    }

    /// Whether a section or one of its pieces is marked dirty.
    #[tactic(auto, using(crate::proofs::Rules::marks))]
    fn some_section_marked(&self) -> bool
        ensures { result ≡ list_any is_scn_dirty self.now.sections }
    {
        for s in 0..self.sections.count() {
            if self.is_scn_dirty(s) {
                return true;
            }
        }
        false
    }

    /// Whether something is dirty.
    #[tactic(auto, using(crate::proofs::Objects::dirty_is))]
    pub fn dirty(&self) -> bool
        ensures { (image : Option (List ℕ)) (size : ℕ)
            → result ≡ is_dirty (object_of image size self.now) }
    {
        self.marked || self.header_marked || self.segments_marked || self.some_section_marked()
    }

    /// The number of base bytes.
    #[tactic(auto, using(crate::proofs::Objects::base_length))]
    pub fn base_len(&self) -> u64
        ensures { (image : Option (List ℕ)) (size : ℕ)
            → IfSome image (λ bytes. length bytes ≡ size) → source_part self.now.base ≤ size
            → result ≡ length (base_of self.now.base image size) }
    {
        match &self.base {
            Base::Own(bytes) => bytes.len(),
            Base::Source(n) => *n,
        }
    }
}
