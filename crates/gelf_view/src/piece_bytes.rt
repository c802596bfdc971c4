//! The bytes of a piece, where they are.

ghost use Rattle.std.specs.Prelude.{[]};
ghost use Rattle.std.specs.Borrow.{sem};
ghost use Rattle.elf_descriptor.specs.elf_object.Words.{AlikeBytes, Answers, IsLike, seen};
ghost use Rattle.elf_descriptor.specs.Reads.{Queries, wanted};
ghost use Rattle.elf_descriptor.specs.Rests.{Rests};
ghost use Rattle.gelf_view.specs.Calls as calls;

use crate::fetching::{bytes_there, fetch_bytes};
use elf_descriptor::Elf;
use elf_descriptor::prelude::Source;
use elf_types::{DataId, ElfError};

/// The bytes of a piece of bytes: its own, or for the clean home piece the home's. It fails as a
/// lend of bytes, in this order: `NoSection`, `NoData`, `WrongKind`, and for the clean home piece
/// `OutOfFile`; then `Memory` or `Read` where its home is not loaded. Nothing is translated or
/// copied, and nothing is marked dirty.
///
/// Source: elf_getdata of elf(3E).
pub fn bytes<S: Source>(elf: &mut Elf<S>, d: DataId) -> Result<&[u8], ElfError>
    ensures answer { Answers elf.old.told (wanted (calls.bytes d.section d.piece) elf.old)
        (seen result) ((calls.bytes d.section d.piece).answer elf.old.o) }
    ensures like { IsLike AlikeBytes (seen result)
        ((calls.bytes d.section d.piece).answer elf.old.o) }
    ensures* rests { sem 𝓛 (Rests S.row S.Source elf.entry (λ new.
        Queries S.Source (calls.bytes d.section d.piece) [] result elf.old new)) }
{
    match fetch_bytes(elf, d) {
        Ok(()) => Ok(bytes_there(elf, d)),
        Err(e) => Err(e),
    }
}
