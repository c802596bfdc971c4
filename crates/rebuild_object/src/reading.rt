//! The bytes of a range, read as items.

ghost use Rattle.std.specs.Prelude.{◌≡◌, ◌≤◌, ◌+◌, length, take, drop, true, IsTrue, IfOk, IfErr};
ghost use Rattle.elf_types.specs.Lists.{AreBytes};
ghost use Rattle.elf_xlate.specs.Translation.{is_whole};
ghost use Rattle.rebuild_plan.specs.rebuild_image.Ranges.Ranges.{IsInside, range_bytes, range_due};
ghost use Rattle.rebuild_plan.specs.rebuild_keep.Homes.{decoded_items};
ghost use Rattle.rebuild_plan.specs.rebuild_keep.Makes.{AsksFor, FitsAs};
ghost use Rattle.rebuild_object.specs.Objects.{range_items, due_of, IsUnstated};
ghost use Rattle.rebuild_object.specs.Fitting.{IsSectionReady};
ghost use Rattle.rebuild_object.specs.Filled.{IsReadRange, IsReadSection};

use elf_outside::Source;
use elf_types::{Class, ElfError, Kind, Octets, Order, Shdr, bytes_are_ranged};
use elf_xlate::{Items, XlateError, to_memory};
use rebuild_plan::prelude::{ByteRange, Elf, SharedBytes, occupies_file};
use std::alloc::Global;

/// So many bytes of the base from a place on, copied. It fails with `Memory` and `Read` alone.
fn base_octets<S: Source>(
    alloc: Global,
    elf: &mut Elf<S>,
    at: u64,
    len: u64,
) -> Result<Octets, ElfError>
    requires { at + len ≤ length elf.old.o.base }
    ensures told { IsTrue elf.old.told
        → IfOk result (λ octets. octets ≡ take len (drop at elf.old.o.base)) }
    ensures long { IfOk result (λ octets. length octets ≡ len) }
    ensures bytes { IfOk result AreBytes }
    ensures err { IfErr result IsUnstated }
    ensures asks { AsksFor S.Source result elf.old elf.new len }
{
    let mut bytes = vec![in alloc; 0u8; len as usize]?;
    elf.copy_base(at, bytes.as_mut_slice())?;
    let octets = Octets::from_vec(bytes);
    bytes_are_ranged(octets.as_slice());
    Ok(octets)
}

/// The bytes of a range, copied: of those that are held, or of the base. It fails with `Memory` and
/// `Read` alone.
fn range_octets<S: Source>(
    alloc: Global,
    elf: &mut Elf<S>,
    held: &SharedBytes,
    range: ByteRange,
) -> Result<Octets, ElfError>
    requires { IsInside held.now elf.old.o.base range }
    ensures told { IsTrue elf.old.told
        → IfOk result (λ octets. octets ≡ range_bytes held.now elf.old.o.base range) }
    ensures long { IfOk result (λ octets. length octets ≡ range.len) }
    ensures read { IfOk result (IsReadRange held.now elf.old.o.base range) }
    ensures err { IfErr result IsUnstated }
    ensures asks { AsksFor S.Source result elf.old elf.new (range_due range) }
{
    if range.held {
        return held.octets_at(alloc, range.at, range.len);
    }
    base_octets(alloc, elf, range.at, range.len)
}

/// The items of a kind that bytes hold, which are whole. It fails with `Memory` alone.
fn decode(
    alloc: Global,
    kind: Kind,
    class: Class,
    order: Order,
    bytes: &[u8],
) -> Result<Items, ElfError>
    requires { is_whole kind class (length bytes.now) ≡ true }
    ensures ok { IfOk result (λ items. items ≡ decoded_items kind class order bytes.now) }
    ensures fits { IfOk result (FitsAs class) }
    ensures err { IfErr result (λ e. e ≡ ElfError.Memory) }
{
    match to_memory(alloc, kind, class, order, bytes) {
        Ok(items) => Ok(items),
        Err(XlateError::Memory) => Err(ElfError::Memory),
        Err(XlateError::Ragged) => unreachable!(),
        Err(XlateError::Unfit { index: _index }) => unreachable!(),
    }
}

/// The items of a kind that bytes hold, which are moved: where the kind is bytes nothing is copied.
fn items_of(
    alloc: Global,
    kind: Kind,
    class: Class,
    order: Order,
    bytes: Octets,
) -> Result<Items, ElfError>
    requires { is_whole kind class (length bytes) ≡ true }
    ensures ok { IfOk result (λ items. items ≡ decoded_items kind class order bytes) }
    ensures fits { IfOk result (FitsAs class) }
    ensures err { IfErr result (λ e. e ≡ ElfError.Memory) }
{
    match kind {
        Kind::Bytes => Ok(Items::Bytes(bytes)),
        other => decode(alloc, other, class, order, bytes.as_slice()),
    }
}

/// The items that a section with a header has of a range. Where it has no bytes in the file it has
/// none, and nothing is read. It fails with `Memory` and `Read` alone.
pub(crate) fn section_items<S: Source>(
    alloc: Global,
    elf: &mut Elf<S>,
    held: &SharedBytes,
    h: &Shdr,
    range: ByteRange,
    kind: Kind,
) -> Result<Items, ElfError>
    requires { IsSectionReady elf.old.o held.now h.now range kind }
    ensures told { IsTrue elf.old.told → IfOk result (λ items. items
        ≡ range_items elf.old.o.header.class elf.old.o.header.order held.now elf.old.o.base h.now
        range kind) }
    ensures fits { IfOk result (FitsAs elf.old.o.header.class) }
    ensures read { IfOk result (IsReadSection elf.old.o held.now h.now range kind) }
    ensures err { IfErr result IsUnstated }
    ensures asks { AsksFor S.Source result elf.old elf.new (due_of h.now range) }
{
    if !occupies_file(h) {
        return Ok(Items::Empty);
    }
    let header = elf.ehdr();
    match range_octets(alloc, elf, held, range) {
        Ok(bytes) => items_of(alloc, kind, header.class, header.order, bytes),
        Err(e) => Err(e),
    }
}
