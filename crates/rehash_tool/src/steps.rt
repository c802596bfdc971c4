//! The hash sections, rebuilt one after the other.

ghost use Rattle.std.specs.Prelude.{◌≡◌, ◌<◌, IfOk};
ghost use Rattle.elf_object.specs.Answers.{count_at};
ghost use Rattle.elf_object.specs.Calls as calls;
ghost use Rattle.elf_object.specs.Sections.{edited};
ghost use Rattle.rebuild_model.specs.Rehashed.{with_gnu, with_sysv, where_there};
ghost use Rattle.hash_build.specs.Calls.{stated};
ghost use Rattle.hash_build.specs.Rows.{IsOrder};
ghost use Rattle.rehash_tool.specs.Sections.{IsBuildableShape};
ghost use Rattle.rehash_tool.specs.Steps.{kept_shape, kept_nbucket, built_gnu, sorted_gnu, shaped_gnu, built_sysv, Gives, TurnsObject};

use crate::shapes::{nbucket_of, shape_of};
use elf_outside::Source;
use elf_types::{Class, DataId, ElfError, Order, ScnId, Words};
use elf_xlate::Items;
use hash_build::{GnuShape, build_gnu, build_sysv, gnu_order};
use hash_order::reorder;
use tool_files::prelude::Elf;

// ---- What is kept

/// The class and the byte order of an object.
#[tactic(auto, unfolding(elf_object::specs::Object::header_of))]
fn form_of<S: Source>(elf: &Elf<S>) -> (Class, Order)
    ensures class { result.0 ≡ elf.now.o.header.class }
    ensures order { result.1 ≡ elf.now.o.header.order }
{
    let header = elf.ehdr();
    (header.class, header.order)
}

/// The shape of GNU's hash section that is kept. It fails as `data` on the section.
fn kept_shape<S: Source>(elf: &mut Elf<S>, n: u32) -> Result<GnuShape, ElfError>
    ensures gives { Gives S.Source stated (kept_shape elf.old.o n) result elf.old elf.new }
    ensures usable { IfOk result IsBuildableShape }
{
    let (class, order) = form_of(elf);
    let d = DataId {
        section: n,
        piece: 0,
    };
    match elf.data(d) {
        Ok(items) => Ok(shape_of(items, class, order)),
        Err(e) => Err(e),
    }
}

/// The number of buckets of the hash section of words that is kept. It fails as `data` on the
/// section.
fn kept_nbucket<S: Source>(elf: &mut Elf<S>, n: u32) -> Result<u32, ElfError>
    ensures gives { Gives S.Source (λ x. x) (kept_nbucket elf.old.o n) result elf.old elf.new }
    ensures some { IfOk result (λ x. 0 < x) }
{
    let d = DataId {
        section: n,
        piece: 0,
    };
    match elf.data(d) {
        Ok(items) => Ok(nbucket_of(items)),
        Err(e) => Err(e),
    }
}

/// Stores items in the first piece of a section.
fn put_items<S: Source>(elf: &mut Elf<S>, n: u32, items: Items) -> Result<(), ElfError>
    ensures { TurnsObject S.Source (edited
        (calls.replace n 0 items) elf.old.o) result elf.old elf.new }
{
    let d = DataId {
        section: n,
        piece: 0,
    };
    match elf.replace(d, items) {
        Ok(()) => Ok(()),
        Err((_items, e)) => Err(e),
    }
}

// ---- GNU's hash section

/// Builds the section for symbols in their order, and stores it.
fn build_in<S: Source>(elf: &mut Elf<S>, s: ScnId, n: u32, shape: GnuShape) -> Result<(), ElfError>
    requires { IsBuildableShape shape }
    ensures { TurnsObject S.Source (built_gnu elf.old.o s.0 n
        (stated shape)) result elf.old elf.new }
{
    match build_gnu(elf, s, shape) {
        Ok(bytes) => put_items(elf, n, Items::Bytes(bytes)),
        Err(e) => Err(e),
    }
}

/// Puts the symbols in an order, and then builds the section for them.
fn build_sorted<S: Source>(
    elf: &mut Elf<S>,
    s: ScnId,
    n: u32,
    shape: GnuShape,
    order: &Words,
) -> Result<(), ElfError>
    requires usable { IsBuildableShape shape }
    requires order { IsOrder order.now (count_at elf.old.o s.0 0) }
    ensures { TurnsObject S.Source (sorted_gnu elf.old.o s.0 n (stated shape) order.now)
        result elf.old elf.new }
{
    match reorder(elf, s, order) {
        Ok(()) => build_in(elf, s, n, shape),
        Err(e) => Err(e),
    }
}

/// Puts the symbols in the order that the section needs, and then builds it.
fn build_shaped<S: Source>(
    elf: &mut Elf<S>,
    s: ScnId,
    n: u32,
    shape: GnuShape,
) -> Result<(), ElfError>
    requires { IsBuildableShape shape }
    ensures { TurnsObject S.Source (shaped_gnu elf.old.o s.0 n
        (stated shape)) result elf.old elf.new }
{
    match gnu_order(elf, s, shape.nbuckets) {
        Ok(order) => build_sorted(elf, s, n, shape, &order),
        Err(e) => Err(e),
    }
}

/// Puts the symbols of table s in the order that its GNU hash section n needs, and rebuilds that in
/// the shape that it has. It fails as `data` on the section, `gnu_order`, `reorder`, `build_gnu`
/// and `replace` do, in this order; then the object is open.
fn with_gnu<S: Source>(elf: &mut Elf<S>, s: ScnId, n: u32) -> Result<(), ElfError>
    ensures { TurnsObject S.Source (with_gnu elf.old.o s.0 n) result elf.old elf.new }
{
    match kept_shape(elf, n) {
        Ok(shape) => build_shaped(elf, s, n, shape),
        Err(e) => Err(e),
    }
}

/// Rebuilds GNU's hash section as `with_gnu` does, where there is one.
pub fn with_gnu_there<S: Source>(
    elf: &mut Elf<S>,
    s: ScnId,
    section: Option<u32>,
) -> Result<(), ElfError>
    ensures { TurnsObject S.Source (where_there (λ o n. with_gnu o s.0 n) section elf.old.o)
        result elf.old elf.new }
{
    match section {
        Some(n) => with_gnu(elf, s, n),
        None => Ok(()),
    }
}

// ---- The hash section of words

/// Builds the section with so many buckets, and stores it.
fn build_words<S: Source>(elf: &mut Elf<S>, s: ScnId, n: u32, nbucket: u32) -> Result<(), ElfError>
    requires { 0 < nbucket }
    ensures { TurnsObject S.Source (built_sysv elf.old.o s.0 n nbucket) result elf.old elf.new }
{
    match build_sysv(elf, s, nbucket) {
        Ok(words) => put_items(elf, n, Items::Word(words)),
        Err(e) => Err(e),
    }
}

/// Rebuilds the hash section n of the symbols of table s, with as many buckets as it has. It fails
/// as `data` on the section, `build_sysv` and `replace` do, in this order; then the object is open.
fn with_sysv<S: Source>(elf: &mut Elf<S>, s: ScnId, n: u32) -> Result<(), ElfError>
    ensures { TurnsObject S.Source (with_sysv elf.old.o s.0 n) result elf.old elf.new }
{
    match kept_nbucket(elf, n) {
        Ok(nbucket) => build_words(elf, s, n, nbucket),
        Err(e) => Err(e),
    }
}

/// Rebuilds the hash section of words as `with_sysv` does, where there is one.
pub fn with_sysv_there<S: Source>(
    elf: &mut Elf<S>,
    s: ScnId,
    section: Option<u32>,
) -> Result<(), ElfError>
    ensures { TurnsObject S.Source (where_there (λ o n. with_sysv o s.0 n) section elf.old.o)
        result elf.old elf.new }
{
    match section {
        Some(n) => with_sysv(elf, s, n),
        None => Ok(()),
    }
}
