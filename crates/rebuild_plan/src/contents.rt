//! What is kept of the sections of an object.

ghost use Rattle.std.specs.Prelude.{◌≡◌, [], OnOk, IfOk, IfErr};
ghost use Rattle.elf_types.specs.declared.errors.ElfError.TheVariants.{Memory};
ghost use Rattle.elf_types.specs.declared.records.Kind.TheVariants as kinds;
ghost use Rattle.rebuild_plan.specs.Contents.{IsPushed, IsPutBehind, HasFirst, kept_size};
ghost use Rattle.rebuild_plan.specs.Reading.{IsFirstRead, IsReadAs};
ghost use Rattle.rebuild_tables.specs.rebuild_image.Ranges.Ranges.{range_due};

use elf_types::{Addrs, ElfError, Kind, List, NULL_SECTION, Shdr, Shdrs};
use law_rebuild::prelude::occupies_file;
use rebuild_tables::prelude::{ByteRange, SharedBytes};
use std::alloc::Global;

/// The headers of the sections of a new image, how many bytes each has in the file, and where these
/// are.
#[derive(Drop)]
pub struct Contents {
    /// The headers, by number from 0 on.
    pub headers: Shdrs,
    /// The number of bytes in the file of each.
    pub sizes: Addrs,
    /// The range of each.
    pub ranges: List<ByteRange>,
    /// As items of which kind the bytes of each are read.
    pub kinds: List<Kind>,
    /// The bytes that are held.
    pub held: SharedBytes,
}

impl Contents {
    /// The contents of no section. It takes no memory.
    pub fn new(alloc: Global) -> Contents
        ensures headers { result.headers ≡ [] }
        ensures sizes { result.sizes ≡ [] }
        ensures ranges { result.ranges ≡ [] }
        ensures kinds { result.kinds ≡ [] }
        ensures held { result.held ≡ [] }
    {
        Contents {
            headers: List::new(alloc),
            sizes: List::new(alloc),
            ranges: List::new(alloc),
            kinds: List::new(alloc),
            held: SharedBytes::new(alloc),
        }
    }

    /// Adds a section with a header, so many bytes in the file, and a range that is read as items
    /// of a kind. It fails with `Memory` alone; what a refusal leaves is not stated.
    pub(crate) fn push(
        &mut self,
        h: Shdr,
        size: u64,
        range: ByteRange,
        kind: Kind,
    ) -> Result<(), ElfError>
        ensures pushed { OnOk result (IsPushed h size range kind self.old self.new) }
        ensures err { IfErr result (λ e. e ≡ Memory) }
    {
        self.headers.push(h)?;
        self.sizes.push(size)?;
        self.ranges.push(range)?;
        self.kinds.push(kind)?;
        Ok(())
    }

    /// Adds section 0 to those of no section: its header has zeros alone, and it has no bytes.
    pub(crate) fn push_first(&mut self) -> Result<(), ElfError>
        requires headers { self.old.headers ≡ [] }
        requires sizes { self.old.sizes ≡ [] }
        requires ranges { self.old.ranges ≡ [] }
        requires kinds { self.old.kinds ≡ [] }
        ensures first { OnOk result (HasFirst self.new) }
        ensures read { OnOk result (IsFirstRead self.new) }
        ensures err { IfErr result (λ e. e ≡ Memory) }
    {
        self.push(NULL_SECTION, 0, NOTHING, Kind::Empty)
    }

    /// The contents of section 0 alone, whose header has zeros alone, and which has no bytes. It
    /// fails with `Memory` alone.
    ///
    /// Source: gABI chapter 4, "Section Header", the entry of index 0.
    pub fn first(alloc: Global) -> Result<Contents, ElfError>
        ensures first { IfOk result HasFirst }
        ensures read { IfOk result IsFirstRead }
        ensures err { IfErr result (λ e. e ≡ Memory) }
    {
        let mut contents = Contents::new(alloc);
        match contents.push_first() {
            Ok(()) => Ok(contents),
            Err(e) => Err(e),
        }
    }

    /// Adds a section with a header whose bytes are a range, and are read as bytes. It fails with
    /// `Memory` alone; what a refusal leaves is not stated.
    pub fn add(&mut self, h: Shdr, range: ByteRange) -> Result<(), ElfError>
        ensures added { OnOk result (IsPutBehind h range self.old self.new) }
        ensures read { OnOk result (IsReadAs kinds.Bytes (range_due range) self.old self.new) }
        ensures err { IfErr result (λ e. e ≡ Memory) }
    {
        self.push(h, kept_size(&h, range.len), range, Kind::Bytes)
    }
}

/// A range of no bytes.
pub(crate) const NOTHING: ByteRange = ByteRange {
    held: true,
    at: 0,
    len: 0,
};

/// How many of so many bytes a section with a header has in the file.
pub(crate) fn kept_size(h: &Shdr, len: u64) -> u64
    ensures { result ≡ kept_size h.now len }
{
    if occupies_file(h) {
        return len;
    }
    0
}
