//! The numbers at a place of a section's bytes.

ghost use Rattle.std.specs.Prelude.{◌≡◌, ◌+◌, length, nat_le, if◌then◌else◌, Some, None};
ghost use Rattle.hash_model.specs.elf_xlate.Numbers.{number_at};

use elf_types::{Class, Order};
use hash_model::prelude::{get_addr, get_word};

/// The four-byte number at a place, in bytes from the start, or None where it does not lie in the
/// bytes.
#[tactic(auto, using(crate::proofs::NumberLemmas::word_is))]
pub fn word_in(bytes: &[u8], at: u64, order: Order) -> Option<u32>
    ensures { result ≡ (if nat_le (at + 4) (length bytes.now)
        then Some (number_at order bytes.now at 4) else None) }
{
    let count = bytes.len() as u64;
    if count < 4 || count - 4 < at {
        return None;
    }
    let start = at as usize;
    Some(get_word(Class::C32, order, &bytes[start..start + 4]))
}

/// The eight-byte number at a place, in bytes from the start, or None where it does not lie in the
/// bytes.
#[tactic(auto, using(crate::proofs::NumberLemmas::addr_is))]
pub fn addr_in(bytes: &[u8], at: u64, order: Order) -> Option<u64>
    ensures { result ≡ (if nat_le (at + 8) (length bytes.now)
        then Some (number_at order bytes.now at 8) else None) }
{
    let count = bytes.len() as u64;
    if count < 8 || count - 8 < at {
        return None;
    }
    let start = at as usize;
    Some(get_addr(Class::C64, order, &bytes[start..start + 8]))
}
