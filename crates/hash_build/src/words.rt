//! Lists of words that are made of hashes.

ghost use Rattle.std.specs.Prelude.{◌≡◌, ◌<◌, ◌%◌, length, slice_index_or, slice_set, IfOk, IfErr, IfSome, None};
ghost use Rattle.std.specs.Option.{option_map};
ghost use Rattle.elf_types.specs.declared.errors.ElfError.TheVariants.{Memory};
ghost use Rattle.hash_build.specs.Hashed.{zeros_of};

use elf_types::{ElfError, List, Words};
use std::alloc::Global;

/// The hash of the symbol at an index, where it is listed; None past the last one.
pub fn hash_at(hashes: &List<Option<u32>>, i: u64) -> Option<u32>
    ensures { result ≡ slice_index_or hashes.now i None }
{
    match hashes.get(i) {
        Some(hash) => hash,
        None => None,
    }
}

/// The bucket of a hash, among so many.
pub fn bucket_of(hash: Option<u32>, count: u32) -> Option<u64>
    requires { 0 < count }
    ensures value { result ≡ option_map (λ h. h % count) hash }
    ensures below { IfSome result (λ bucket. bucket < count) }
{
    match hash {
        Some(h) => Some(u64::from(h % count)),
        None => None,
    }
}

/// So many zeros. It fails with `Memory` alone.
pub fn zeros(alloc: Global, count: u64) -> Result<Words, ElfError>
    ensures ok { IfOk result (λ words. words ≡ zeros_of count) }
    ensures err { IfErr result (λ e. e ≡ Memory) }
{
    let words = vec![in alloc; 0u32; count as usize]?;
    Ok(List::from_vec(words))
}

/// The word at an index.
pub fn hash_word_at(words: &Words, i: u64) -> u32
    requires { i < length words.now }
    ensures { result ≡ slice_index_or words.now i 0 }
{
    words.as_slice()[i as usize]
}

/// Stores a word at an index.
pub fn set_word(words: &mut Words, i: u64, word: u32)
    requires { i < length words.old }
    ensures { words.new ≡ slice_set words.old i word }
{
    words.as_mut_slice()[i as usize] = word;
}
