//! The records of an archive as C lays them out.

ghost use Rattle.std.specs.Prelude.{◌≡◌};
ghost use Rattle.c_calls.specs.Archives.Forms.{member_record, symbol_record};

use ar_members::{ArHdr, ArSym};

/// The header of a member, or that there is none. Its name is asked for by itself.
///
/// Source: ar.h, `struct ar_hdr`; elf_getarhdr of elf(3E).
#[repr(C)]
#[derive(Clone, Copy)]
pub struct MemberRecord {
    /// 1, or 0 at the end of the archive; every other field is 0 then.
    pub found: u32,
    /// The mode of the file.
    pub mode: u32,
    /// The owner's number.
    pub uid: u32,
    /// The group's number.
    pub gid: u32,
    /// The place of the header in the archive, in bytes.
    pub at: u64,
    /// The place of the body in the archive, in bytes.
    pub body: u64,
    /// The size of the body, in bytes.
    pub size: u64,
    /// The time of the last change, in seconds since 1970.
    pub date: u64,
    /// The number of bytes of the name.
    pub namesz: u64,
}

impl MemberRecord {
    /// The record of it.
    pub fn of(member: &Option<ArHdr>) -> MemberRecord
        ensures { result ≡ member_record member.now }
    {
        match member {
            Some(x) => MemberRecord {
                found: 1,
                mode: x.mode,
                uid: x.uid,
                gid: x.gid,
                at: x.at,
                body: x.body,
                size: x.size,
                date: x.date,
                namesz: x.name.len(),
            },
            None => MemberRecord {
                found: 0,
                mode: 0,
                uid: 0,
                gid: 0,
                at: 0,
                body: 0,
                size: 0,
                date: 0,
                namesz: 0,
            },
        }
    }
}

/// A symbol of the archive's table. Its name is asked for by itself.
///
/// Source: elf_getarsym of elf(3E).
#[repr(C)]
#[derive(Clone, Copy)]
pub struct ArSymRecord {
    /// The place of the header of the member that defines it, in bytes.
    pub at: u64,
    /// The number of bytes of the name.
    pub namesz: u64,
}

impl ArSymRecord {
    /// The record of it.
    pub fn of(x: &ArSym) -> ArSymRecord
        ensures { result ≡ symbol_record x.now }
    {
        ArSymRecord {
            at: x.at,
            namesz: x.name.len(),
        }
    }
}
