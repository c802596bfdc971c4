//! Questions on an image, mostly the object with two symbols, put to descriptors over sources that
//! tell their bytes or do not.

use elf_descriptor::Elf;
use elf_outside::Source;
use elf_types::{DataId, ElfError, Octets, ScnId};
use elf_xlate::Items;
use std::alloc::Global;
use test_kit_images::{NARROW_OBJECT, OBJECT, Recipe, image_of};
use test_kit_rows::failed;
use test_kit_sources::{Sparse, source};

/// The first piece of section 1, the strings.
pub const STRINGS: DataId = DataId {
    section: 1,
    piece: 0,
};

/// The symbols of section 2.
pub const SYMBOLS: DataId = DataId {
    section: 2,
    piece: 0,
};

/// A question on the object, with its result.
pub trait Question {
    /// Whether the descriptor that began over it behaves as it should.
    fn is_answered<S: Source>(&self, rt: &HostRuntime, elf: &mut Elf<S>) -> bool;
}

/// Whether a question is answered over a source.
fn is_answered_over<Q: Question, S: Source + Drop>(rt: &HostRuntime, q: &Q, src: S) -> bool {
    match Elf::begin(rt.alloc(), src) {
        Ok(mut elf) => {
            let answered = q.is_answered(rt, &mut elf);
            let _src = elf.end();
            answered
        }
        Err((_src, e)) => failed(rt, e),
    }
}

/// Whether a question is answered over a source in memory of these bytes.
fn is_answered_told<Q: Question>(rt: &HostRuntime, q: &Q, bytes: Octets) -> bool {
    match source(rt.alloc(), bytes, 0) {
        Ok(src) => is_answered_over(rt, q, src),
        Err(e) => failed(rt, e),
    }
}

/// Whether a question is answered over a source that does not tell these bytes.
fn is_answered_untold<Q: Question>(rt: &HostRuntime, q: &Q, bytes: Octets) -> bool {
    let len = bytes.len();
    is_answered_over(rt, q, Sparse::new(bytes, len))
}

/// The object of class 64, the least byte first.
static OBJECT_OF_CLASS_64: Recipe = OBJECT;

/// The object of class 32, the greatest byte first.
pub static OBJECT_OF_CLASS_32: Recipe = NARROW_OBJECT;

/// The bytes of an image.
fn bytes_of(alloc: Global, recipe: &Recipe) -> Result<Octets, ElfError> {
    match image_of(alloc, recipe) {
        Ok(image) => Ok(image.bytes),
        Err(e) => Err(e),
    }
}

/// Whether a question is answered over a source in memory of an image.
fn is_answered_told_of<Q: Question>(rt: &HostRuntime, q: &Q, recipe: &Recipe) -> bool {
    match bytes_of(rt.alloc(), recipe) {
        Ok(bytes) => is_answered_told(rt, q, bytes),
        Err(e) => failed(rt, e),
    }
}

/// Whether a question is answered over either source of an image.
pub fn is_answered_of<Q: Question>(rt: &HostRuntime, q: &Q, recipe: &Recipe) -> bool {
    match bytes_of(rt.alloc(), recipe) {
        Ok(bytes) => { is_answered_untold(rt, q, bytes) && is_answered_told_of(rt, q, recipe) }
        Err(e) => failed(rt, e),
    }
}

/// Whether a question is answered over either source of the object of class 64, the least byte
/// first.
pub fn is_answered<Q: Question>(rt: &HostRuntime, q: &Q) -> bool {
    is_answered_of(rt, q, &OBJECT_OF_CLASS_64)
}

/// Adds a piece to section 1, at a multiple of 8.
pub fn add<S: Source>(elf: &mut Elf<S>, items: Items) -> Result<DataId, ElfError> {
    match elf.newdata_aligned(ScnId(1), items, 8) {
        Ok(d) => Ok(d),
        Err((_, e)) => Err(e),
    }
}

/// Adds a piece of bytes to section 1, at a multiple of 8.
pub fn add_octets<S: Source>(elf: &mut Elf<S>, bytes: &[u8]) -> Result<DataId, ElfError> {
    let octets = Octets::from_slice(elf.alloc(), bytes)?;
    add(elf, Items::Bytes(octets))
}

/// Gives a piece other items.
pub fn set<S: Source>(elf: &mut Elf<S>, d: DataId, items: Items) -> Result<(), ElfError> {
    match elf.replace(d, items) {
        Ok(()) => Ok(()),
        Err((_, e)) => Err(e),
    }
}
