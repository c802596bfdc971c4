//! The records of GNU's version sections.

ghost use Rattle.std.specs.Prelude.{◌≡◌};
ghost use Rattle.gelf_view.specs.Versions.{verdef_at, verdaux_at, verneed_at, vernaux_at, verdef_of, verdaux_of, verneed_of, vernaux_of};
ghost use Rattle.gelf_view.specs.declared.versions.TheConstants.{VERDEF_SIZE, VERDAUX_SIZE, VERNEED_SIZE, VERNAUX_SIZE};

use crate::records::{Record, half_at, record_in, word_at};
use elf_types::{ElfError, Order};

/// The number of bytes of a `Verdef`.
pub const VERDEF_SIZE: usize = 20;
/// The number of bytes of a `Verdaux`.
pub const VERDAUX_SIZE: usize = 8;
/// The number of bytes of a `Verneed`.
pub const VERNEED_SIZE: usize = 16;
/// The number of bytes of a `Vernaux`.
pub const VERNAUX_SIZE: usize = 16;

/// A definition of a version, an entry of a section of type `SHT_GNU_VERDEF`. Its `cnt` names are
/// a list of `Verdaux`.
#[derive(Clone, Copy, Debug, PartialEq, Eq)]
pub struct Verdef {
    /// `vd_version`, the version of this record.
    pub version: u16,
    /// `vd_flags`.
    pub flags: u16,
    /// `vd_ndx`, the index by which symbols name the version.
    pub ndx: u16,
    /// `vd_cnt`, the number of its names.
    pub cnt: u16,
    /// `vd_hash`, the hash of its first name.
    pub hash: u32,
    /// `vd_aux`, in bytes from this record to its first name.
    pub aux: u32,
    /// `vd_next`, in bytes from this record to the next one; 0 for the last.
    pub next: u32,
}

/// A name of a version definition.
#[derive(Clone, Copy, Debug, PartialEq, Eq)]
pub struct Verdaux {
    /// `vda_name`, an offset into the linked string table.
    pub name: u32,
    /// `vda_next`, in bytes from this record to the next one; 0 for the last.
    pub next: u32,
}

/// The needs of versions of one file, an entry of a section of type `SHT_GNU_VERNEED`. Its `cnt`
/// versions are a list of `Vernaux`.
#[derive(Clone, Copy, Debug, PartialEq, Eq)]
pub struct Verneed {
    /// `vn_version`, the version of this record.
    pub version: u16,
    /// `vn_cnt`, the number of its versions.
    pub cnt: u16,
    /// `vn_file`, the offset of the file's name in the linked string table.
    pub file: u32,
    /// `vn_aux`, in bytes from this record to its first version.
    pub aux: u32,
    /// `vn_next`, in bytes from this record to the next one; 0 for the last.
    pub next: u32,
}

/// A version that is needed of a file.
#[derive(Clone, Copy, Debug, PartialEq, Eq)]
pub struct Vernaux {
    /// `vna_hash`, the hash of its name.
    pub hash: u32,
    /// `vna_flags`.
    pub flags: u16,
    /// `vna_other`, the index by which symbols name the version.
    pub other: u16,
    /// `vna_name`, an offset into the linked string table.
    pub name: u32,
    /// `vna_next`, in bytes from this record to the next one; 0 for the last.
    pub next: u32,
}

/// The version definition at a place of bytes in a byte order. It fails with `BadChain { at }`
/// exactly where the record does not lie in the bytes, and takes no memory.
///
/// Source: gelf_getverdef of gelf(3E).
#[tactic(auto, unfolding(crate::specs::Versions::verdef_at, crate::specs::Versions::verdef_of))]
pub fn verdef_in(bytes: &[u8], at: u64, order: Order) -> Result<Verdef, ElfError>
    ensures { result ≡ verdef_at order bytes.now at }
{
    let fields = record_in(bytes, at, VERDEF_SIZE)?;
    Ok(Verdef {
        version: half_at(fields, 0, order),
        flags: half_at(fields, 2, order),
        ndx: half_at(fields, 4, order),
        cnt: half_at(fields, 6, order),
        hash: word_at(fields, 8, order),
        aux: word_at(fields, 12, order),
        next: word_at(fields, 16, order),
    })
}

/// The name of a version definition at a place of bytes in a byte order. It fails with `BadChain {
/// at }` exactly where the record does not lie in the bytes, and takes no memory.
///
/// Source: gelf_getverdaux of gelf(3E).
#[tactic(auto, unfolding(crate::specs::Versions::verdaux_at, crate::specs::Versions::verdaux_of))]
pub fn verdaux_in(bytes: &[u8], at: u64, order: Order) -> Result<Verdaux, ElfError>
    ensures { result ≡ verdaux_at order bytes.now at }
{
    let fields = record_in(bytes, at, VERDAUX_SIZE)?;
    Ok(Verdaux {
        name: word_at(fields, 0, order),
        next: word_at(fields, 4, order),
    })
}

/// The needs of one file at a place of bytes in a byte order. It fails with `BadChain { at }`
/// exactly where the record does not lie in the bytes, and takes no memory.
///
/// Source: gelf_getverneed of gelf(3E).
#[tactic(auto, unfolding(crate::specs::Versions::verneed_at, crate::specs::Versions::verneed_of))]
pub fn verneed_in(bytes: &[u8], at: u64, order: Order) -> Result<Verneed, ElfError>
    ensures { result ≡ verneed_at order bytes.now at }
{
    let fields = record_in(bytes, at, VERNEED_SIZE)?;
    Ok(Verneed {
        version: half_at(fields, 0, order),
        cnt: half_at(fields, 2, order),
        file: word_at(fields, 4, order),
        aux: word_at(fields, 8, order),
        next: word_at(fields, 12, order),
    })
}

/// The needed version at a place of bytes in a byte order. It fails with `BadChain { at }` exactly
/// where the record does not lie in the bytes, and takes no memory.
///
/// Source: gelf_getvernaux of gelf(3E).
#[tactic(auto, unfolding(crate::specs::Versions::vernaux_at, crate::specs::Versions::vernaux_of))]
pub fn vernaux_in(bytes: &[u8], at: u64, order: Order) -> Result<Vernaux, ElfError>
    ensures { result ≡ vernaux_at order bytes.now at }
{
    let fields = record_in(bytes, at, VERNAUX_SIZE)?;
    Ok(Vernaux {
        hash: word_at(fields, 0, order),
        flags: half_at(fields, 4, order),
        other: half_at(fields, 6, order),
        name: word_at(fields, 8, order),
        next: word_at(fields, 12, order),
    })
}

impl Record for Verdef {
    ghost size = { VERDEF_SIZE };

    ghost of = { verdef_of };

    #[tactic(auto, unfolding(crate::specs::Versions::verdef_at))]
    fn read_in(bytes: &[u8], at: u64, order: Order) -> Result<Verdef, ElfError> {
        verdef_in(bytes, at, order)
    }
}

impl Record for Verdaux {
    ghost size = { VERDAUX_SIZE };

    ghost of = { verdaux_of };

    #[tactic(auto, unfolding(crate::specs::Versions::verdaux_at))]
    fn read_in(bytes: &[u8], at: u64, order: Order) -> Result<Verdaux, ElfError> {
        verdaux_in(bytes, at, order)
    }
}

impl Record for Verneed {
    ghost size = { VERNEED_SIZE };

    ghost of = { verneed_of };

    #[tactic(auto, unfolding(crate::specs::Versions::verneed_at))]
    fn read_in(bytes: &[u8], at: u64, order: Order) -> Result<Verneed, ElfError> {
        verneed_in(bytes, at, order)
    }
}

impl Record for Vernaux {
    ghost size = { VERNAUX_SIZE };

    ghost of = { vernaux_of };

    #[tactic(auto, unfolding(crate::specs::Versions::vernaux_at))]
    fn read_in(bytes: &[u8], at: u64, order: Order) -> Result<Vernaux, ElfError> {
        vernaux_in(bytes, at, order)
    }
}
