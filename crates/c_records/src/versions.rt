//! Version records and notes.

ghost use Rattle.std.specs.Prelude.{◌≡◌};
ghost use Rattle.c_records.specs.Forms.{verdef_record, verdaux_record, verneed_record, vernaux_record, note_record};

use gelf_view::{NoteAt, Verdaux, Verdef, Vernaux, Verneed};

/// A version definition, `GElf_Verdef`.
///
/// Source: gelf_getverdef of gelf(3E).
#[repr(C)]
#[derive(Clone, Copy)]
pub struct VerdefRecord {
    /// `vd_version`.
    pub version: u16,
    /// `vd_flags`.
    pub flags: u16,
    /// `vd_ndx`.
    pub ndx: u16,
    /// `vd_cnt`.
    pub cnt: u16,
    /// `vd_hash`.
    pub hash: u32,
    /// `vd_aux`.
    pub aux: u32,
    /// `vd_next`.
    pub next: u32,
}

impl VerdefRecord {
    /// The record of it.
    pub fn of(x: Verdef) -> VerdefRecord
        ensures { result ≡ verdef_record x }
    {
        VerdefRecord {
            version: x.version,
            flags: x.flags,
            ndx: x.ndx,
            cnt: x.cnt,
            hash: x.hash,
            aux: x.aux,
            next: x.next,
        }
    }
}

/// A name of a version definition, `GElf_Verdaux`.
///
/// Source: gelf_getverdaux of gelf(3E).
#[repr(C)]
#[derive(Clone, Copy)]
pub struct VerdauxRecord {
    /// `vda_name`.
    pub name: u32,
    /// `vda_next`.
    pub next: u32,
}

impl VerdauxRecord {
    /// The record of it.
    pub fn of(x: Verdaux) -> VerdauxRecord
        ensures { result ≡ verdaux_record x }
    {
        VerdauxRecord {
            name: x.name,
            next: x.next,
        }
    }
}

/// The needs of one file, `GElf_Verneed`.
///
/// Source: gelf_getverneed of gelf(3E).
#[repr(C)]
#[derive(Clone, Copy)]
pub struct VerneedRecord {
    /// `vn_version`.
    pub version: u16,
    /// `vn_cnt`.
    pub cnt: u16,
    /// `vn_file`.
    pub file: u32,
    /// `vn_aux`.
    pub aux: u32,
    /// `vn_next`.
    pub next: u32,
}

impl VerneedRecord {
    /// The record of it.
    pub fn of(x: Verneed) -> VerneedRecord
        ensures { result ≡ verneed_record x }
    {
        VerneedRecord {
            version: x.version,
            cnt: x.cnt,
            file: x.file,
            aux: x.aux,
            next: x.next,
        }
    }
}

/// A needed version, `GElf_Vernaux`.
///
/// Source: gelf_getvernaux of gelf(3E).
#[repr(C)]
#[derive(Clone, Copy)]
pub struct VernauxRecord {
    /// `vna_hash`.
    pub hash: u32,
    /// `vna_flags`.
    pub flags: u16,
    /// `vna_other`.
    pub other: u16,
    /// `vna_name`.
    pub name: u32,
    /// `vna_next`.
    pub next: u32,
}

impl VernauxRecord {
    /// The record of it.
    pub fn of(x: Vernaux) -> VernauxRecord
        ensures { result ≡ vernaux_record x }
    {
        VernauxRecord {
            hash: x.hash,
            flags: x.flags,
            other: x.other,
            name: x.name,
            next: x.next,
        }
    }
}

/// A note by its places, in bytes from the first byte of the piece, or that there is none.
///
/// Source: gABI chapter 5, "Note Section"; gelf_getnote of gelf(3E).
#[repr(C)]
#[derive(Clone, Copy)]
pub struct NoteRecord {
    /// 1, or 0 at the end of the piece; every other field is 0 then.
    pub found: u32,
    /// `n_type`.
    pub ntype: u32,
    /// Where its name begins.
    pub name_at: u64,
    /// `n_namesz`.
    pub namesz: u64,
    /// Where its descriptor begins.
    pub desc_at: u64,
    /// `n_descsz`.
    pub descsz: u64,
    /// Where the next note begins, or the end of the piece.
    pub next: u64,
}

impl NoteRecord {
    /// The record of it.
    pub fn of(found: Option<NoteAt>) -> NoteRecord
        ensures { result ≡ note_record found }
    {
        match found {
            Some(x) => NoteRecord {
                found: 1,
                ntype: x.ntype,
                name_at: x.name_at,
                namesz: x.namesz,
                desc_at: x.desc_at,
                descsz: x.descsz,
                next: x.next,
            },
            None => NoteRecord {
                found: 0,
                ntype: 0,
                name_at: 0,
                namesz: 0,
                desc_at: 0,
                descsz: 0,
                next: 0,
            },
        }
    }
}
