//! Edits of what was gathered.

ghost use Rattle.std.specs.Prelude.{◌≡◌, ◌<◌, ◌^◌, length, slice_set, OnOk, IfOk, IfErr};
ghost use Rattle.elf_types.specs.declared.errors.ElfError.TheVariants.{Memory};
ghost use Rattle.elf_types.specs.Lists.{AreBytes};
ghost use Rattle.rebuild_plan.specs.rebuild_image.Fronts.{HoldsAppended};
ghost use Rattle.rebuild_copy.specs.Edits.{HasOtherBytes, IsPushedLast};

use elf_types::{Addrs, ElfError, Kind, List, Shdr, Shdrs, bytes_are_ranged};
use rebuild_plan::Arranged;
use rebuild_plan::prelude::{ByteRange, hold_shared};
use strtab_shared::bytes::SharedBytes;

/// Holds bytes after the others, and returns their range. It fails with `Memory` alone.
pub(crate) fn hold_bytes(held: &mut SharedBytes, bytes: &[u8]) -> Result<ByteRange, ElfError>
    ensures ok { IfOk result (HoldsAppended bytes.now held.old held.new) }
    ensures err { IfErr result (λ e. e ≡ Memory) }
    ensures bytes { AreBytes bytes.now }
    ensures long { length bytes.now < 2 ^ 64 }
{
    bytes_are_ranged(bytes);
    let at = held.len();
    match held.extend(bytes) {
        Ok(()) => Ok(ByteRange {
            held: true,
            at,
            len: bytes.len() as u64,
        }),
        Err(e) => Err(e),
    }
}

/// Holds bytes that are shared after the others, and returns their range: their text is held, and
/// not what they are. It fails with `Memory` alone.
fn hold_ranges(held: &mut SharedBytes, bytes: &SharedBytes) -> Result<ByteRange, ElfError>
    ensures ok { IfOk result (HoldsAppended bytes.now held.old held.new) }
    ensures err { IfErr result (λ e. e ≡ Memory) }
    ensures bytes { AreBytes bytes.now }
    ensures long { length bytes.now < 2 ^ 64 }
{
    bytes.are_ranged();
    let _count = bytes.len();
    hold_shared(held, bytes)
}

/// Stores a header. One of no section is not stored.
pub(crate) fn set_header(headers: &mut Shdrs, s: u32, h: Shdr)
    ensures { headers.new ≡ slice_set headers.old s h }
{
    if u64::from(s) >= headers.len() {
        return;
    }
    headers.as_mut_slice()[s as usize] = h;
}

/// Stores a size. That of no section is not stored.
fn set_size(sizes: &mut Addrs, s: u32, size: u64)
    ensures { sizes.new ≡ slice_set sizes.old s size }
{
    if u64::from(s) >= sizes.len() {
        return;
    }
    sizes.as_mut_slice()[s as usize] = size;
}

/// Stores a range. That of no section is not stored.
pub(crate) fn set_range(ranges: &mut List<ByteRange>, s: u32, range: ByteRange)
    ensures { ranges.new ≡ slice_set ranges.old s range }
{
    if u64::from(s) >= ranges.len() {
        return;
    }
    ranges.as_mut_slice()[s as usize] = range;
}

/// Stores a kind. That of no section is not stored.
fn set_kind(kinds: &mut List<Kind>, s: u32, kind: Kind)
    ensures { kinds.new ≡ slice_set kinds.old s kind }
{
    if u64::from(s) >= kinds.len() {
        return;
    }
    kinds.as_mut_slice()[s as usize] = kind;
}

/// Gives a section other bytes, which are held after the others. It fails with `Memory` alone.
pub(crate) fn put_bytes(x: &mut Arranged, s: u32, bytes: &[u8]) -> Result<(), ElfError>
    ensures ok { OnOk result (HasOtherBytes s bytes.now x.old x.new) }
    ensures err { IfErr result (λ e. e ≡ Memory) }
{
    match hold_bytes(&mut x.held, bytes) {
        Ok(range) => {
            set_size(&mut x.listed.sizes, s, range.len);
            set_range(&mut x.ranges, s, range);
            set_kind(&mut x.kinds, s, Kind::Bytes);
            Ok(())
        }
        Err(e) => Err(e),
    }
}

/// Gives a section other bytes, which are shared and whose text is held.
pub(crate) fn put_shared(x: &mut Arranged, s: u32, bytes: &SharedBytes) -> Result<(), ElfError>
    ensures ok { OnOk result (HasOtherBytes s bytes.now x.old x.new) }
    ensures err { IfErr result (λ e. e ≡ Memory) }
{
    match hold_ranges(&mut x.held, bytes) {
        Ok(range) => {
            set_size(&mut x.listed.sizes, s, range.len);
            set_range(&mut x.ranges, s, range);
            set_kind(&mut x.kinds, s, Kind::Bytes);
            Ok(())
        }
        Err(e) => Err(e),
    }
}

/// Adds a section after the others, with a header, and with bytes that are held. The header of the
/// image has the number of sections that is told. It fails with `Memory` alone; what a refusal
/// leaves is not stated.
pub(crate) fn push_section(
    x: &mut Arranged,
    count: u32,
    h: Shdr,
    bytes: &[u8],
) -> Result<(), ElfError>
    ensures ok { OnOk result (IsPushedLast count h bytes.now x.old x.new) }
    ensures err { IfErr result (λ e. e ≡ Memory) }
{
    match hold_bytes(&mut x.held, bytes) {
        Ok(range) => {
            x.listed.headers.push(h)?;
            x.listed.sizes.push(range.len)?;
            x.ranges.push(range)?;
            x.kinds.push(Kind::Bytes)?;
            x.listed.header.shnum = count;
            Ok(())
        }
        Err(e) => Err(e),
    }
}
