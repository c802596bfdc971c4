//! The bloom of GNU's hash section.

ghost use Rattle.std.specs.Prelude.{◌≡◌, ◌<◌, ◌≤◌, ◌+◌, ◌/◌, ◌^◌, length, nat_le, if◌then◌else◌, Some, None};
ghost use Rattle.hash_model.specs.elf_xlate.Numbers.{number_at};
ghost use Rattle.hash_model.specs.HashSections as sections;

use crate::numbers::{addr_in, word_in};
use elf_types::{Class, Order};

/// The bits of a bloom word.
pub fn bloom_bits(class: Class) -> u32
    ensures value { result ≡ sections.bloom_bits class }
    ensures some { 0 < result }
    ensures few { result ≤ 64 }
{
    match class {
        Class::C32 => 32,
        Class::C64 => 64,
    }
}

/// The bytes of a bloom word.
pub fn bloom_bytes(class: Class) -> u64
    ensures value { result ≡ sections.bloom_bytes class }
    ensures few { result ≤ 8 }
{
    match class {
        Class::C32 => 4,
        Class::C64 => 8,
    }
}

/// The bloom word at a place, in bytes from the start, or None where it does not lie in the bytes.
pub fn bloom_word(bytes: &[u8], at: u64, class: Class, order: Order) -> Option<u64>
    ensures { result ≡ (if nat_le (at + sections.bloom_bytes class) (length bytes.now)
        then Some (number_at order bytes.now at (sections.bloom_bytes class)) else None) }
{
    match class {
        Class::C32 => match word_in(bytes, at, order) {
            Some(word) => Some(u64::from(word)),
            None => None,
        },
        Class::C64 => addr_in(bytes, at, order),
    }
}

/// Whether a bit of a word is set.
pub fn has_bit(word: u64, bit: u32) -> bool
    requires { bit < 64 }
    ensures { result ≡ sections.has_bit word bit }
{
    (word >> bit) % 2 == 1
}

/// A hash that is shifted: 0 where nothing is left of it.
#[tactic(auto, using(crate::proofs::NumberLemmas::shifted_out))]
pub fn shifted(hash: u32, shift: u32) -> u32
    ensures { result ≡ hash / 2 ^ shift }
{
    if shift >= 32 {
        return 0;
    }
    hash >> shift
}
