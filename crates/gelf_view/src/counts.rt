//! The number of items of a piece, told without a read.

ghost use Rattle.std.specs.Prelude.{◌≡◌, ◌/◌, IfErr, None, Ok};
ghost use Rattle.elf_types.specs.Answers.{answered, IsRefusal};
ghost use Rattle.elf_descriptor.specs.elf_xlate.Translation.{items_count};
ghost use Rattle.elf_descriptor.specs.elf_object.Words.{result_map};
ghost use Rattle.elf_descriptor.specs.elf_object.Object.{section_at};
ghost use Rattle.elf_descriptor.specs.elf_object.Answers.{content, count_at, kind_at, lend_refusal, no_content, no_section, piece_refusal};
ghost use Rattle.elf_descriptor.specs.elf_object.Calls.{piece_kind_answer};

use crate::fetching::class;
use crate::string_calls::{home_len, is_out};
use elf_descriptor::prelude::{Item, Source};
use elf_descriptor::{Elf, Held};
use elf_types::{DataId, ElfError, Kind, ScnId};

/// The number of items of a home that is of the items' kind; else `OutOfFile`, then `Ragged`.
fn home_count<S: Source, T: Item>(elf: &Elf<S>, s: ScnId) -> Result<u64, ElfError>
    requires section { no_section elf.now.o s.0 ≡ None }
    requires kind { (section_at elf.now.o s.0).home.kind ≡ T.kind }
    ensures answer { result ≡ result_map items_count (content elf.now.o s.0) }
    ensures err { IfErr result IsRefusal }
{
    if is_out(elf, s) {
        return Err(ElfError::OutOfFile { section: s.0 });
    }
    let size = T::size(class(elf)) as u64;
    let len = home_len(elf, s);
    if len % size != 0 {
        return Err(ElfError::Ragged { section: s.0 });
    }
    Ok(len / size)
}

/// The number of items of a piece that is there and of the items' kind; else for the clean home
/// piece `OutOfFile`, then `Ragged`.
fn count_there<S: Source, T: Item>(elf: &Elf<S>, d: DataId) -> Result<u64, ElfError>
    requires piece { piece_refusal elf.now.o d.section d.piece ≡ None }
    requires kind { kind_at elf.now.o d.section d.piece ≡ T.kind }
    ensures answer { result ≡ answered (no_content elf.now.o d.section d.piece)
        (count_at elf.now.o d.section d.piece) }
    ensures err { IfErr result IsRefusal }
{
    match elf.held(d) {
        Ok(Held::Edited(items)) => Ok(items.count()),
        Ok(Held::Raw(_)) => home_count::<S, T>(elf, ScnId(d.section)),
        Ok(Held::Unread) => home_count::<S, T>(elf, ScnId(d.section)),
        Err(_) => unreachable!(),
    }
}

/// The number of items of a piece that is there and of that kind, where it is the items' kind; else
/// `WrongKind`, and then as `count_there`.
fn count_of_kind<S: Source, T: Item>(elf: &Elf<S>, d: DataId, kind: Kind) -> Result<u64, ElfError>
    requires { Ok kind ≡ piece_kind_answer elf.now.o d.section d.piece }
    ensures answer { result ≡ answered (lend_refusal elf.now.o T.kind d.section d.piece)
        (count_at elf.now.o d.section d.piece) }
    ensures err { IfErr result IsRefusal }
{
    if kind != T::kind() {
        return Err(ElfError::WrongKind { held: kind });
    }
    count_there::<S, T>(elf, d)
}

/// The number of items of a piece of the items' kind. It fails as a lend of them, in this order:
/// `NoSection`, `NoData`, `WrongKind` with the kind that the piece holds, and for the clean home
/// piece `OutOfFile` and `Ragged`. It reads nothing and takes no memory: of a clean piece it tells
/// the number by the home's length.
///
/// Source: gelf_fsize of gelf(3E), and `d_size` of elf_getdata of elf(3E).
pub fn item_count<S: Source, T: Item>(elf: &Elf<S>, d: DataId) -> Result<u64, ElfError>
    ensures answer { result ≡ answered (lend_refusal elf.now.o T.kind d.section d.piece)
        (count_at elf.now.o d.section d.piece) }
    ensures err { IfErr result IsRefusal }
{
    match elf.piece_kind(d) {
        Ok(kind) => count_of_kind::<S, T>(elf, d, kind),
        Err(e) => Err(e),
    }
}
