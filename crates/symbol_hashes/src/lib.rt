//! The parts of both kinds of hash sections: the hashes of names, the numbers at a place of a
//! section, and the bits of a bloom filter.
#![tactic(auto)]

mod blooms;
mod hashes;
mod numbers;

pub use blooms::{bloom_bits, bloom_bytes, bloom_word, has_bit, shifted};
pub use hashes::{elf_hash, gnu_hash};
pub use numbers::{addr_in, word_in};
