//! The bloom of GNU's hash section.

ghost use Rattle.std.specs.Prelude.{◌≡◌, ◌<◌, length, slice_index_or, slice_set, IfOk, IfErr, Some, None};
ghost use Rattle.elf_types.specs.declared.errors.ElfError.TheVariants.{Memory};
ghost use Rattle.elf_xlate.specs.declared.content.Items.TheVariants as items;
ghost use Rattle.elf_xlate.specs.Translation.{first_unfit};
ghost use Rattle.hash_build.specs.Hashed.{zeros_of};
ghost use Rattle.hash_build.specs.Gnu.{bloom_of, HasBitMore, HasHashMore, HasHashes};

use crate::shape::GnuShape;
use crate::words::hash_at;
use elf_types::{Addrs, Class, ElfError, List};
use std::alloc::Global;
use symbol_lookup::prelude::{bloom_bits, shifted};

/// A word with a bit set.
fn with_bit(word: u64, bit: u32) -> u64
    requires { bit < 64 }
    ensures { HasBitMore word result bit }
{
    word | (1 << bit)
}

/// The word at an index.
fn addr_at(words: &Addrs, i: u64) -> u64
    requires { i < length words.now }
    ensures { result ≡ slice_index_or words.now i 0 }
{
    words.as_slice()[i as usize]
}

/// Stores a word at an index.
fn set_addr(words: &mut Addrs, i: u64, word: u64)
    requires { i < length words.old }
    ensures { words.new ≡ slice_set words.old i word }
{
    words.as_mut_slice()[i as usize] = word;
}

/// Sets both bits of a hash in its word.
fn set_hash(words: &mut Addrs, class: Class, shape: GnuShape, hash: u32)
    requires some { 0 < shape.bloom }
    requires long { length words.old ≡ shape.bloom }
    ensures { HasHashMore class shape words.old words.new (Some hash) }
{
    let bits = bloom_bits(class);
    let at = u64::from(hash / bits % shape.bloom);
    let word = addr_at(words, at);
    let once = with_bit(word, hash % bits);
    let twice = with_bit(once, shifted(hash, shape.shift) % bits);
    set_addr(words, at, twice);
}

/// Sets both bits of the hash of a symbol, where it is listed.
fn set_listed(words: &mut Addrs, class: Class, shape: GnuShape, hash: Option<u32>)
    requires some { 0 < shape.bloom }
    requires long { length words.old ≡ shape.bloom }
    ensures { HasHashMore class shape words.old words.new hash }
{
    match hash {
        Some(h) => set_hash(words, class, shape, h),
        None => {}
    }
}

/// Sets both bits of each hash.
fn set_hashes(words: &mut Addrs, class: Class, shape: GnuShape, hashes: &List<Option<u32>>)
    requires some { 0 < shape.bloom }
    requires none { words.old ≡ zeros_of shape.bloom }
    ensures { HasHashes class shape words.new hashes.now }
{
    let count = hashes.len();
    for i in 0..count {
        let hash = hash_at(hashes, i);
        set_listed(words, class, shape, hash);
    }
}

/// So many words that are 0. It fails with `Memory` alone.
fn zero_addrs(alloc: Global, count: u64) -> Result<Addrs, ElfError>
    ensures ok { IfOk result (λ words. words ≡ zeros_of count) }
    ensures err { IfErr result (λ e. e ≡ Memory) }
{
    let words = vec![in alloc; 0u64; count as usize]?;
    Ok(List::from_vec(words))
}

/// The words of the bloom: they have just the bits of these hashes, and fit the class. It fails
/// with `Memory` alone.
pub fn bloom_of(
    alloc: Global,
    class: Class,
    shape: GnuShape,
    hashes: &List<Option<u32>>,
) -> Result<Addrs, ElfError>
    requires { 0 < shape.bloom }
    ensures ok { IfOk result (λ words. words ≡ bloom_of class shape hashes.now) }
    ensures fits { IfOk result (λ words. first_unfit class (items.Addr words) ≡ None) }
    ensures err { IfErr result (λ e. e ≡ Memory) }
{
    let mut words = zero_addrs(alloc, u64::from(shape.bloom))?;
    set_hashes(&mut words, class, shape, hashes);
    Ok(words)
}
