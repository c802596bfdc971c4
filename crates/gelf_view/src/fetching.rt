//! The bytes of a piece, made to be in memory and given where they are.

ghost use Rattle.std.specs.Prelude.{◌≡◌, ◌||◌, true, IsTrue, IfErr, OnOk, [], None, is_some, length, Ok};
ghost use Rattle.elf_types.specs.Answers.{answered, IsRefusal};
ghost use Rattle.elf_types.specs.declared.records.Kind.TheVariants as kinds;
ghost use Rattle.elf_descriptor.specs.elf_xlate.Translation.{items_kind};
ghost use Rattle.elf_descriptor.specs.elf_object.Words.{Answers};
ghost use Rattle.elf_descriptor.specs.elf_object.Object.{piece_at};
ghost use Rattle.elf_descriptor.specs.elf_object.Answers.{bytes_of, count_at, items_at, lend_refusal, piece_refusal, raw_refusal};
ghost use Rattle.elf_descriptor.specs.elf_object.Due.{is_loaded};
ghost use Rattle.elf_descriptor.specs.elf_object.Calls as calls;
ghost use Rattle.elf_descriptor.specs.elf_object.Calls.{piece_kind_answer};
ghost use Rattle.elf_descriptor.specs.Reads.{Queries, wanted};
ghost use Rattle.elf_descriptor.specs.Rests.{GivesRaw};
ghost use Rattle.gelf_view.specs.Calls.{bytes, kind_refusal};

use elf_descriptor::prelude::{Items, Source};
use elf_descriptor::{Elf, Held};
use elf_types::{Class, DataId, ElfError, Kind, Order, ScnId};

/// Reads a section's home where its bytes are not held. It fails with, in this order: `NoSection`,
/// `OutOfFile`, then `Memory` or `Read`.
fn load<S: Source>(elf: &mut Elf<S>, s: ScnId) -> Result<(), ElfError>
    ensures answer { Answers true (wanted (calls.raw s.0) elf.old) result
        (answered (raw_refusal elf.old.o s.0) tt) }
    ensures gives { GivesRaw S.Source s.0 result elf.old elf.new }
{
    match elf.raw(s) {
        Ok(_) => Ok(()),
        Err(e) => Err(e),
    }
}

/// Whether a piece that is there is own.
pub fn is_edited<S: Source>(elf: &Elf<S>, d: DataId) -> bool
    requires { piece_refusal elf.now.o d.section d.piece ≡ None }
    ensures { result ≡ is_some (piece_at elf.now.o d.section d.piece).own }
{
    match elf.held(d) {
        Ok(Held::Edited(_)) => true,
        Ok(Held::Raw(_)) => false,
        Ok(Held::Unread) => false,
        Err(_) => unreachable!(),
    }
}

/// Whether a piece that holds that kind is own, where that is bytes; else `WrongKind`.
fn own_if_bytes<S: Source>(elf: &Elf<S>, d: DataId, kind: Kind) -> Result<bool, ElfError>
    requires { Ok kind ≡ piece_kind_answer elf.now.o d.section d.piece }
    ensures answer { result ≡ answered (kind_refusal elf.now.o kinds.Bytes d.section d.piece)
        (is_some (piece_at elf.now.o d.section d.piece).own) }
    ensures err { IfErr result IsRefusal }
{
    match kind {
        Kind::Bytes => Ok(is_edited(elf, d)),
        _ => Err(ElfError::WrongKind { held: kind }),
    }
}

/// Whether a piece of bytes is own. It fails with, in this order: `NoSection`, `NoData`,
/// `WrongKind`.
fn is_own<S: Source>(elf: &Elf<S>, d: DataId) -> Result<bool, ElfError>
    ensures answer { result ≡ answered (kind_refusal elf.now.o kinds.Bytes d.section d.piece)
        (is_some (piece_at elf.now.o d.section d.piece).own) }
    ensures err { IfErr result IsRefusal }
{
    match elf.piece_kind(d) {
        Ok(kind) => own_if_bytes(elf, d, kind),
        Err(e) => Err(e),
    }
}

/// Makes sure that the bytes of a piece of bytes are in memory, which is own or not.
fn fetch_home<S: Source>(elf: &mut Elf<S>, d: DataId, own: bool) -> Result<(), ElfError>
    requires kind { kind_refusal elf.old.o kinds.Bytes d.section d.piece ≡ None }
    requires own { own ≡ is_some (piece_at elf.old.o d.section d.piece).own }
    ensures answer { Answers true (wanted (bytes d.section d.piece) elf.old) result
        (answered (lend_refusal elf.old.o kinds.Bytes d.section d.piece) tt) }
    ensures hand { OnOk result (IsTrue (is_some (piece_at elf.new.o d.section d.piece).own
        || is_loaded elf.new.loaded d.section)) }
    ensures queries { Queries S.Source (bytes d.section d.piece) [] result elf.old elf.new }
{
    if own {
        return Ok(());
    }
    load(elf, ScnId(d.section))
}

/// Makes sure that the bytes of a piece are in memory: it is own, or its home is loaded. It fails
/// with, in this order: `NoSection`, `NoData`, `WrongKind`, and for the clean home piece
/// `OutOfFile`; then `Memory` or `Read`.
pub fn fetch_bytes<S: Source>(elf: &mut Elf<S>, d: DataId) -> Result<(), ElfError>
    ensures answer { Answers true (wanted (bytes d.section d.piece) elf.old) result
        (answered (lend_refusal elf.old.o kinds.Bytes d.section d.piece) tt) }
    ensures hand { OnOk result (IsTrue (is_some (piece_at elf.new.o d.section d.piece).own
        || is_loaded elf.new.loaded d.section)) }
    ensures queries { Queries S.Source (bytes d.section d.piece) [] result elf.old elf.new }
{
    match is_own(elf, d) {
        Ok(own) => fetch_home(elf, d, own),
        Err(e) => Err(e),
    }
}

/// The bytes of a piece that are in memory.
pub fn bytes_there<S: Source>(elf: &Elf<S>, d: DataId) -> &[u8]
    requires passed { lend_refusal elf.now.o kinds.Bytes d.section d.piece ≡ None }
    requires hand { IsTrue (is_some (piece_at elf.now.o d.section d.piece).own
        || is_loaded elf.now.loaded d.section) }
    ensures exact { IsTrue elf.now.told
        → result.now ≡ bytes_of (items_at elf.now.o d.section d.piece) }
    ensures count { length result.now ≡ count_at elf.now.o d.section d.piece }
{
    match elf.held(d) {
        Ok(Held::Edited(items)) => own_bytes(items),
        Ok(Held::Raw(raw)) => raw,
        Ok(Held::Unread) => unreachable!(),
        Err(_) => unreachable!(),
    }
}

/// The bytes that are items.
fn own_bytes(items: &Items) -> &[u8]
    requires { items_kind items.now ≡ kinds.Bytes }
    ensures { result.now ≡ bytes_of items.now }
{
    match items {
        Items::Bytes(list) => list.as_slice(),
        _ => unreachable!(),
    }
}

/// The byte order of an object.
#[tactic(auto, unfolding(elf_descriptor::specs::Passed::header_of))]
pub fn order<S: Source>(elf: &Elf<S>) -> Order
    ensures { result ≡ elf.now.o.header.order }
{
    elf.ehdr().order
}

/// The class of an object.
#[tactic(auto, unfolding(elf_descriptor::specs::Passed::header_of))]
pub fn class<S: Source>(elf: &Elf<S>) -> Class
    ensures { result ≡ elf.now.o.header.class }
{
    elf.ehdr().class
}
