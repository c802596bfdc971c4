//! The words of a hash section of type `SHT_HASH`, and a walk along a chain of them: the number of
//! buckets, that of chain words, the buckets, and a chain word for each symbol, which is the symbol
//! after it on its chain. All of it is told of words that are in memory.

ghost use Rattle.std.specs.Prelude.{◌≡◌, ◌<◌, ◌+◌, slice_get, slice_index_or};
ghost use Rattle.elf_lint_hashes.specs.Sysv as sysv;
ghost use Rattle.elf_lint_hashes.specs.Sysv.{sysv_section_of, TakesUp};

use crate::sysv::SysvTable;
use elf_types::Words;

/// The symbol after one on a chain, or None where the chain leaves the table.
pub fn behind(words: &Words, t: SysvTable, at: u32) -> Option<u32>
    ensures { result ≡ slice_get (sysv_section_of t words.now).chains at }
{
    words.get(2 + u64::from(t.nbucket) + u64::from(at))
}

/// The first symbol of a bucket.
#[tactic(auto, using(crate::proofs::SysvWords::bucket_rules))]
pub fn bucket_at(words: &Words, t: SysvTable, bucket: u32) -> u32
    requires takes { TakesUp words.now t }
    requires there { bucket < t.nbucket }
    ensures { result ≡ slice_index_or (sysv_section_of t words.now).buckets bucket 0 }
{
    match words.get(2 + u64::from(bucket)) {
        Some(first) => first,
        None => 0,
    }
}

/// Whether symbol `i` is on the chain from one on, or None where the chain leaves the table or has
/// no end within as many steps as there are chain words.
pub fn chain_has(words: &Words, t: SysvTable, first: u32, i: u64) -> Option<bool>
    ensures { result ≡ sysv.chain_has words.now t first i }
{
    let mut at = first;
    let mut met = false;
    for step in 0..t.nchain {
        if at == 0 {
            return Some(met);
        }
        met = met | (i == u64::from(at));
        match behind(words, t, at) {
            Some(next) => at = next,
            None => return None,
        }
    }
    if at == 0 {
        return Some(met);
    }
    None
}
