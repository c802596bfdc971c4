//! The walk over the members.

ghost use Rattle.std.specs.Prelude.{◌≡◌, ◌⊎◌, length};
ghost use Rattle.c_handles.specs.Objects.Objects.{SameImage};
ghost use Rattle.c_calls.specs.Archives.Forms.{archive_member_name};
ghost use Rattle.c_calls.specs.Archives.Steps.{bytes_of, Steps, BodyLiesIn};

use crate::archives::records::MemberRecord;
use ar_members::ArHdr;
use c_handles::archives::OpenArchive;
use c_records::code_of;
use elf_types::Octets;
use std::alloc::Global;

/// The name of a member, and none where there is no member.
fn into_name(alloc: Global, member: Option<ArHdr>) -> Octets
    ensures { result ≡ archive_member_name member }
{
    match member {
        Some(header) => header.name,
        None => Octets::new(alloc),
    }
}

/// The next member that is not one of the three special ones, or that there is none. The archive
/// keeps its name. It fails with `BadMember` where the header is bad, each time again, and
/// `Memory`, after which the walk is where it was. A member's body lies in the archive.
///
/// Source: ar.h; elf_next and elf_getarhdr of elf(3E).
pub fn next_member(alloc: Global, archive: &mut OpenArchive, out: &mut MemberRecord) -> u32
    ensures steps { Steps archive.old archive.new result out.old out.new }
    ensures lies { (out.new ≡ out.old) ⊎ BodyLiesIn (length (bytes_of archive.old)) out.new }
    ensures image { SameImage archive.old.ar.source archive.new.ar.source }
    ensures symbols { archive.new.symbols ≡ archive.old.symbols }
{
    match archive.ar.next() {
        Ok(member) => {
            *out = MemberRecord::of(&member);
            archive.name = into_name(alloc, member);
            0
        }
        Err(e) => code_of(e),
    }
}

/// The name of the member that the last step gave, into a buffer that is as long. It rejects
/// nothing and takes no memory.
///
/// Source: elf_getarhdr of elf(3E), `ar_name`.
pub fn give_name(archive: &OpenArchive, out: &mut [u8])
    requires { length out.old ≡ length archive.now.name }
    ensures { out.new ≡ archive.now.name }
{
    out.copy_from_slice(archive.name.as_slice());
}
