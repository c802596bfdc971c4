//! Whether an object can be made of a plan.

ghost use Rattle.std.specs.Prelude.{◌≡◌, length, true};
ghost use Rattle.elf_types.specs.declared.constants.TheConstants.{SHT_STRTAB};
ghost use Rattle.elf_types.specs.declared.records.Kind.TheVariants as kinds;
ghost use Rattle.elf_xlate.specs.Headers.{IsShdr};
ghost use Rattle.elf_xlate.specs.Translation.{is_whole};
ghost use Rattle.elf_object.specs.Object.{occupies_file};
ghost use Rattle.rebuild_plan.specs.rebuild_image.Ranges.Ranges.{IsInside};
ghost use Rattle.rebuild_plan.specs.Contents.{kept_size};
ghost use Rattle.rebuild_object.specs.Fitting.{IsSectionReady, AreSectionsReady, AreSizesReady, AreCounted, IsArrangementReady};

use crate::headers::{is_first_ready, is_front_ready, is_header_ready};
use elf_outside::Source;
use elf_types::constants::{MAX_SECTIONS, SHT_STRTAB};
use elf_types::{Class, Kind, Shdr};
use elf_xlate::{item_size, shdr_fits};
use rebuild_plan::Arranged;
use rebuild_plan::prelude::{ByteRange, Elf, SharedBytes, occupies_file};

// ---- One section

/// The fields of a section header are in the range of their types: it is for proofs, and does
/// nothing.
fn shdr_is_ranged(_h: Shdr)
    ensures { IsShdr _h }
{}

/// Whether so many bytes are whole items of a kind.
fn is_whole(kind: Kind, class: Class, len: u64) -> bool
    ensures { result ≡ is_whole kind class len }
{
    kind == Kind::Empty || len % item_size(kind, class) == 0
}

/// Whether a range lies in the bytes that it is one of: those that are held, or the base.
fn is_inside<S: Source>(elf: &Elf<S>, held: &SharedBytes, range: ByteRange) -> bool
    ensures { result ≡ true → IsInside held.now elf.now.o.base range }
{
    let len = if range.held {
        held.len()
    } else {
        elf.base_len()
    };
    range.at <= len && range.len <= len - range.at
}

/// Whether a kind is that of bytes.
fn is_bytes(kind: Kind) -> bool
    ensures { result ≡ true → kind ≡ kinds.Bytes }
{
    matches!(kind, Kind::Bytes)
}

/// Whether a kind is that of some items.
fn is_some_kind(kind: Kind) -> bool
    ensures { result ≡ true → kind ≡ kinds.Empty → ⊥ }
{
    !matches!(kind, Kind::Empty)
}

/// Whether a section with a header can have items of a kind: a string table has bytes, and one that
/// has bytes in the file has items of some kind.
fn may_have(h: &Shdr, kind: Kind) -> bool
    ensures strings { result ≡ true → h.now.stype ≡ SHT_STRTAB → kind ≡ kinds.Bytes }
    ensures some { result ≡ true → occupies_file h.now ≡ true → kind ≡ kinds.Empty → ⊥ }
{
    if h.stype == SHT_STRTAB {
        return is_bytes(kind);
    }
    if !occupies_file(h) {
        return true;
    }
    is_some_kind(kind)
}

/// Whether a section can be made of a header and a range with items of a kind.
fn is_section_ready<S: Source>(
    elf: &Elf<S>,
    held: &SharedBytes,
    h: &Shdr,
    range: ByteRange,
    kind: Kind,
) -> bool
    ensures { result ≡ true → IsSectionReady elf.now.o held.now h.now range kind }
{
    shdr_is_ranged(*h);
    let class = elf.ehdr().class;
    if !shdr_fits(h, class) {
        return false;
    }
    if !is_inside(elf, held, range) {
        return false;
    }
    if !may_have(h, kind) {
        return false;
    }
    is_whole(kind, class, range.len)
}

/// How many of so many bytes a section with a header has in the file.
fn kept_size(h: &Shdr, len: u64) -> u64
    ensures { result ≡ kept_size h.now len }
{
    if occupies_file(h) {
        return len;
    }
    0
}

/// Whether as many bytes are counted of a section as it has in the file.
fn is_size_ready(h: &Shdr, range: ByteRange, size: u64) -> bool
    ensures { result ≡ true → size ≡ kept_size h.now range.len }
{
    size == kept_size(h, range.len)
}

// ---- All sections

/// Whether each section can be made.
fn are_ready<S: Source>(elf: &Elf<S>, x: &Arranged) -> bool
    requires ranges { length x.now.ranges ≡ length x.now.listed.headers }
    requires kinds { length x.now.kinds ≡ length x.now.listed.headers }
    ensures { result ≡ true → AreSectionsReady elf.now.o x.now (length x.now.listed.headers) }
{
    let headers = x.listed.headers.as_slice();
    let ranges = x.ranges.as_slice();
    let kinds = x.kinds.as_slice();
    for s in 0..headers.len() {
        if !is_section_ready(elf, &x.held, &headers[s], ranges[s], kinds[s]) {
            return false;
        }
    }
    true
}

/// Whether of each section as many bytes are counted as it has in the file.
fn are_sizes_ready(x: &Arranged) -> bool
    requires ranges { length x.now.ranges ≡ length x.now.listed.headers }
    requires sizes { length x.now.listed.sizes ≡ length x.now.listed.headers }
    ensures { result ≡ true → AreSizesReady x.now (length x.now.listed.headers) }
{
    let headers = x.listed.headers.as_slice();
    let ranges = x.ranges.as_slice();
    let sizes = x.listed.sizes.as_slice();
    for s in 0..headers.len() {
        if !is_size_ready(&headers[s], ranges[s], sizes[s]) {
            return false;
        }
    }
    true
}

/// Whether each section has a header, a size, a range and a kind, and there are not too many.
fn are_counted(x: &Arranged) -> bool
    ensures { result ≡ true → AreCounted x.now }
{
    let count = x.listed.headers.len();
    if count > MAX_SECTIONS as u64 {
        return false;
    }
    if x.listed.sizes.len() != count {
        return false;
    }
    if x.ranges.len() != count {
        return false;
    }
    x.kinds.len() == count
}

// ---- The plan

/// Whether an object can be made of what was arranged of another one: `object_of` makes none of any
/// other plan, and what it makes of this one is an object.
///
/// The ELF header must be that of a new object with the class, the order and the program headers of
/// the other one; all headers must fit the class, and that of section 0 must have zeros alone. Each
/// section must have its size, a range that lies in its bytes, and a kind under which that range is
/// whole items. The base must reach to the tail. It looks at each section twice, reads nothing and
/// takes no memory.
///
/// Source: gABI chapter 4, "ELF Header" and "Section Header".
pub fn is_ready<S: Source>(elf: &Elf<S>, x: &Arranged) -> bool
    ensures { result ≡ true → IsArrangementReady elf.now.o x.now }
{
    x.held.are_ranged();
    let _held = x.held.len();
    if !is_front_ready(elf, x.tail) {
        return false;
    }
    if !are_counted(x) {
        return false;
    }
    if !is_header_ready(elf, &x.listed.header, x.listed.headers.len()) {
        return false;
    }
    if !is_first_ready(x) {
        return false;
    }
    if !are_sizes_ready(x) {
        return false;
    }
    are_ready(elf, x)
}
