//! The shape of a hash section as it is: what of it the one that is rebuilt keeps.

ghost use Rattle.std.specs.Prelude.{◌≡◌, ◌<◌, ◌≤◌, ◌+◌, ◌*◌, true, length, if◌then◌else◌};
ghost use Rattle.elf_object.specs.Answers.{bytes_of, words_of};
ghost use Rattle.hash_model.specs.HashSections.{gnu_head};
ghost use Rattle.rebuild_model.specs.Rehashed.{is_moderate, is_usable, nbucket_of, shape_at, shape_of, smallest_shape};
ghost use Rattle.hash_build.specs.Calls.{stated};
ghost use Rattle.rehash_tool.specs.Sections.{IsBuildableShape};

use elf_types::{Class, Order};
use elf_xlate::Items;
use hash_build::GnuShape;
use symbol_hashes::word_in;

/// The most buckets and bloom words that a section keeps.
const MOST: u32 = 0x10_0000;

/// Number `i` of the four with which GNU's hash section begins.
#[tactic(auto, unfolding(hash_model::specs::HashSections::gnu_head))]
fn head_at(bytes: &[u8], i: u64, order: Order) -> u32
    requires { 4 * i + 4 ≤ length bytes.now }
    ensures { result ≡ gnu_head order bytes.now i }
{
    match word_in(bytes, 4 * i, order) {
        Some(word) => word,
        None => unreachable!(),
    }
}

/// The shape that a section's bytes begin with.
fn shape_at(bytes: &[u8], order: Order) -> GnuShape
    requires { 16 ≤ length bytes.now }
    ensures { stated result ≡ shape_at order bytes.now }
{
    GnuShape {
        nbuckets: head_at(bytes, 0, order),
        bloom: head_at(bytes, 2, order),
        shift: head_at(bytes, 3, order),
    }
}

/// Whether a number is from 1 to 2^20.
fn is_moderate(n: u32) -> bool
    ensures value { result ≡ is_moderate n }
    ensures some { result ≡ true → 0 < n }
{
    1 <= n && n <= MOST
}

/// Whether a section of a shape can be built.
fn is_usable(shape: GnuShape) -> bool
    ensures { result ≡ is_usable (stated shape) }
{
    is_moderate(shape.nbuckets) && is_moderate(shape.bloom) && shape.shift < 32
}

/// One bucket and one bloom word, and a shift that goes on with the next bits of the hash.
fn smallest_shape(class: Class) -> GnuShape
    ensures value { stated result ≡ smallest_shape class }
    ensures usable { IsBuildableShape result }
{
    match class {
        Class::C32 => GnuShape {
            nbuckets: 1,
            bloom: 1,
            shift: 5,
        },
        Class::C64 => GnuShape {
            nbuckets: 1,
            bloom: 1,
            shift: 6,
        },
    }
}

/// A shape where it can be built, and else the smallest one of a class.
fn usable_shape(shape: GnuShape, class: Class) -> GnuShape
    ensures value { stated result
        ≡ (if is_usable (stated shape) then stated shape else smallest_shape class) }
    ensures usable { IsBuildableShape result }
{
    if is_usable(shape) {
        return shape;
    }
    smallest_shape(class)
}

/// The shape of a section with these bytes that is rebuilt: the one that it has, where that is
/// moderate, and else the smallest one.
#[tactic(auto, unfolding(rebuild_model::specs::Rehashed::shape_of))]
fn shape_in(bytes: &[u8], class: Class, order: Order) -> GnuShape
    ensures value { stated result ≡ shape_of class order bytes.now }
    ensures usable { IsBuildableShape result }
{
    if bytes.len() < 16 {
        return smallest_shape(class);
    }
    usable_shape(shape_at(bytes, order), class)
}

/// The shape in which a section with these items is rebuilt, as `shape_in` tells it. Those of
/// another kind are no bytes.
pub fn shape_of(items: &Items, class: Class, order: Order) -> GnuShape
    ensures value { stated result ≡ shape_of class order (bytes_of items.now) }
    ensures usable { IsBuildableShape result }
{
    match items {
        Items::Bytes(bytes) => shape_in(bytes.as_slice(), class, order),
        _ => shape_in(&[], class, order),
    }
}

/// A number of buckets where it is moderate, and else 1.
fn usable_count(n: u32) -> u32
    ensures value { result ≡ (if is_moderate n then n else 1) }
    ensures some { 0 < result }
{
    if is_moderate(n) {
        return n;
    }
    1
}

/// The number of buckets of a section of words that is rebuilt: the one that it has, where that is
/// from 1 to 2^20, and else 1. Items of another kind are no words.
#[tactic(auto, unfolding(rebuild_model::specs::Rehashed::nbucket_of))]
pub fn nbucket_of(items: &Items) -> u32
    ensures value { result ≡ nbucket_of (words_of items.now) }
    ensures some { 0 < result }
{
    match items {
        Items::Word(words) => match words.get(0) {
            Some(n) => usable_count(n),
            None => 1,
        },
        _ => 1,
    }
}
