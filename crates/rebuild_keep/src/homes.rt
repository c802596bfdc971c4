//! The items of a section's home, from its bytes.

ghost use Rattle.std.specs.Prelude.{◌≡◌, ◌<◌, ◌∷◌, [], length, None, IfOk, IfErr};
ghost use Rattle.rebuild_names.specs.elf_xlate.declared.content.Items.TheVariants as items;
ghost use Rattle.rebuild_making.specs.elf_object.Answers.{words_of, syms_of, raw_refusal};
ghost use Rattle.rebuild_keep.specs.Makes.{MakesStated, FitsAs, FitsAny, SymsFit};
ghost use Rattle.rebuild_keep.specs.Homes.{items_at_home, home_refusal, bytes_at_home, is_there, words_at_home, syms_at_home, words_found, syms_found, section_refusal, Decodes, DecodesIf};

use crate::lists::{none_if_refused, syms_in, words_in};
use elf_types::{Class, DataId, ElfError, Kind, List, Octets, Order, ScnId, Syms, Words};
use elf_update_plan::prelude::Elf;
use rebuild_making::prelude::Source;
use rebuild_names::prelude::{Items, SharedBytes, XlateError, to_memory};
use std::alloc::Global;

/// The refusal of a translation, as that of the section with a number.
fn section_refusal(s: u32, e: XlateError) -> ElfError
    ensures { result ≡ section_refusal s e }
{
    match e {
        XlateError::Memory => ElfError::Memory,
        XlateError::Ragged => ElfError::Ragged { section: s },
        XlateError::Unfit { index: _index } => ElfError::Ragged { section: s },
    }
}

/// The items that bytes hold of the section with a number. It fails with `Ragged` and `Memory`.
fn decode(
    alloc: Global,
    kind: Kind,
    class: Class,
    order: Order,
    s: u32,
    bytes: &[u8],
) -> Result<Items, ElfError>
    ensures { Decodes s kind class order bytes.now result }
{
    match to_memory(alloc, kind, class, order, bytes) {
        Ok(items) => Ok(items),
        Err(e) => Err(section_refusal(s, e)),
    }
}

/// The items that bytes hold of the section with a number, where their kind was told; else why it
/// was not.
fn decode_if(
    alloc: Global,
    kind: Result<Kind, ElfError>,
    class: Class,
    order: Order,
    s: u32,
    bytes: &[u8],
) -> Result<Items, ElfError>
    ensures { DecodesIf s kind class order bytes.now result }
{
    match kind {
        Ok(kind) => decode(alloc, kind, class, order, s, bytes),
        Err(e) => Err(e),
    }
}

/// The items of the home of a section that is there, of the kind that its first piece holds. It
/// fails with, in this order: `OutOfFile`, `NoData`, `Ragged`; and `Memory` and `Read`. It reads
/// the home at the first use.
pub(crate) fn home_items<S: Source>(elf: &mut Elf<S>, s: ScnId) -> Result<Items, ElfError>
    requires { s.0 < length elf.old.o.sections }
    ensures { MakesStated S.Source (λ o. items_at_home o s.0) FitsAs (λ o. home_refusal o s.0)
        (λ o. s.0 ∷ []) result elf.old elf.new }
{
    let first = DataId {
        section: s.0,
        piece: 0,
    };
    let kind = elf.piece_kind(first);
    let header = elf.ehdr();
    let alloc = elf.alloc();
    match elf.raw(s) {
        Ok(bytes) => decode_if(alloc, kind, header.class, header.order, s.0, bytes),
        Err(e) => Err(e),
    }
}

/// A section's home as it is, as items. It fails with, in this order: `NoSection`, `OutOfFile`; and
/// `Memory` and `Read`. It leaves the object, and reads the home at the first use.
///
/// Source: elf_rawdata of elf(3E).
pub fn bytes_at_home<S: Source>(elf: &mut Elf<S>, s: ScnId) -> Result<Items, ElfError>
    ensures { MakesStated S.Source (λ o. bytes_at_home o s.0) FitsAs (λ o. raw_refusal o s.0)
        (λ o. s.0 ∷ []) result elf.old elf.new }
{
    let alloc = elf.alloc();
    match elf.raw(s) {
        Ok(bytes) => copy_items(alloc, bytes),
        Err(e) => Err(e),
    }
}

/// Bytes as items, copied. It fails with `Memory` alone.
pub(crate) fn copy_items(alloc: Global, bytes: &[u8]) -> Result<Items, ElfError>
    ensures ok { IfOk result (λ made. made ≡ items.Bytes bytes.now) }
    ensures err { IfErr result (λ e. e ≡ ElfError.Memory) }
{
    match Octets::from_slice(alloc, bytes) {
        Ok(copy) => Ok(Items::Bytes(copy)),
        Err(e) => Err(e),
    }
}

/// Bytes that are shared as items, copied. It fails with `Memory` alone.
pub(crate) fn copy_shared(alloc: Global, bytes: &SharedBytes) -> Result<Items, ElfError>
    ensures ok { IfOk result (λ made. made ≡ items.Bytes bytes.now) }
    ensures err { IfErr result (λ e. e ≡ ElfError.Memory) }
{
    match bytes.to_octets(alloc) {
        Ok(copy) => Ok(Items::Bytes(copy)),
        Err(e) => Err(e),
    }
}

/// The words of the home of a section that is there; it fails as `home_items` does.
pub(crate) fn own_words<S: Source>(elf: &mut Elf<S>, s: ScnId) -> Result<Words, ElfError>
    requires { s.0 < length elf.old.o.sections }
    ensures { MakesStated S.Source (λ o. words_of (items_at_home o s.0)) FitsAny
        (λ o. home_refusal o s.0) (λ o. s.0 ∷ []) result elf.old elf.new }
{
    let alloc = elf.alloc();
    match home_items(elf, s) {
        Ok(items) => Ok(words_in(alloc, items)),
        Err(e) => Err(e),
    }
}

/// The symbols of the home of a section that is there; it fails as `home_items` does.
pub(crate) fn own_syms<S: Source>(elf: &mut Elf<S>, s: ScnId) -> Result<Syms, ElfError>
    requires { s.0 < length elf.old.o.sections }
    ensures { MakesStated S.Source (λ o. syms_of (items_at_home o s.0)) SymsFit
        (λ o. home_refusal o s.0) (λ o. s.0 ∷ []) result elf.old elf.new }
{
    let alloc = elf.alloc();
    match home_items(elf, s) {
        Ok(items) => Ok(syms_in(alloc, items)),
        Err(e) => Err(e),
    }
}

/// The words of the home of a section that is there, and none where that is rejected. It fails with
/// `Memory` and `Read` alone.
fn words_at_home<S: Source>(elf: &mut Elf<S>, s: ScnId) -> Result<Words, ElfError>
    requires { s.0 < length elf.old.o.sections }
    ensures { MakesStated S.Source (λ o. words_at_home o s.0) FitsAny (λ o. None)
        (λ o. s.0 ∷ []) result elf.old elf.new }
{
    let alloc = elf.alloc();
    match own_words(elf, s) {
        Ok(words) => Ok(words),
        Err(e) => none_if_refused(alloc, e),
    }
}

/// The symbols of the home of a section that is there, and none where that is rejected. It fails
/// with `Memory` and `Read` alone.
fn syms_at_home<S: Source>(elf: &mut Elf<S>, s: ScnId) -> Result<Syms, ElfError>
    requires { s.0 < length elf.old.o.sections }
    ensures { MakesStated S.Source (λ o. syms_at_home o s.0) FitsAny (λ o. None)
        (λ o. s.0 ∷ []) result elf.old elf.new }
{
    let alloc = elf.alloc();
    match own_syms(elf, s) {
        Ok(syms) => Ok(syms),
        Err(e) => none_if_refused(alloc, e),
    }
}

/// Whether a number is that of a section from 1 on.
fn is_there<S: Source>(elf: &Elf<S>, s: u32) -> bool
    ensures { result ≡ is_there elf.now.o s }
{
    s != 0 && s < elf.shnum()
}

/// The words of the home of a section, and none where its items are rejected or of another kind, or
/// the number is not that of a section from 1 on. It fails with `Memory` and `Read` alone.
pub(crate) fn home_words<S: Source>(elf: &mut Elf<S>, s: u32) -> Result<Words, ElfError>
    ensures { MakesStated S.Source (λ o. words_found o s) FitsAny (λ o. None) (λ o. s ∷ [])
        result elf.old elf.new }
{
    if is_there(elf, s) {
        return words_at_home(elf, ScnId(s));
    }
    Ok(List::new(elf.alloc()))
}

/// The symbols of the home of a section, and none where its items are rejected or of another kind,
/// or the number is not that of a section from 1 on. It fails with `Memory` and `Read` alone.
pub(crate) fn home_syms<S: Source>(elf: &mut Elf<S>, s: u32) -> Result<Syms, ElfError>
    ensures { MakesStated S.Source (λ o. syms_found o s) FitsAny (λ o. None) (λ o. s ∷ [])
        result elf.old elf.new }
{
    if is_there(elf, s) {
        return syms_at_home(elf, ScnId(s));
    }
    Ok(List::new(elf.alloc()))
}
