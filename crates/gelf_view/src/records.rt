//! Records of bytes, and the numbers in them.

ghost use Rattle.std.specs.Prelude.{ℕ, List, ◌≡◌, ◌+◌, ◌≤◌, length, true, IfOk, OnOk};
ghost use Rattle.elf_types.specs.Constants.{are_numbers};
ghost use Rattle.elf_descriptor.specs.elf_xlate.Numbers.{number_at};
ghost use Rattle.elf_types.specs.declared.records.Order.{Order as TheOrder};
ghost use Rattle.elf_descriptor.specs.elf_object.Words.{result_map, seen};
ghost use Rattle.gelf_view.specs.Records.{record_at};
ghost use Rattle.gelf_view.specs.Constants.{record_sizes};

use elf_descriptor::prelude::{get_half, get_word};
use elf_types::{Class, ElfError, Order};

/// The bytes of the record of `size` bytes that is at a place. It fails with `BadChain { at }`
/// exactly where the record does not lie in the bytes, and takes no memory.
#[tactic(auto, unfolding(crate::specs::Records::record_at))]
pub fn record_in(bytes: &[u8], at: u64, size: usize) -> Result<&[u8], ElfError>
    ensures value { seen result ≡ record_at size bytes.now at }
    ensures size { IfOk result (λ part. length part.now ≡ size) }
    ensures within { OnOk result (at + size ≤ length bytes.now) }
{
    let count = bytes.len() as u64;
    if count < at || count - at < size as u64 {
        return Err(ElfError::BadChain { at });
    }
    let start = at as usize;
    Ok(&bytes[start..start + size])
}

/// A record that is read from bytes.
pub trait Record {
    // The number of its bytes.
    ghost size: { ℕ };

    // The record that bytes hold in an order.
    ghost of: { TheOrder → List ℕ → Self };

    /// The record at a place of bytes in a byte order. It fails with `BadChain { at }` exactly
    /// where the record does not lie in the bytes, and takes no memory.
    fn read_in(bytes: &[u8], at: u64, order: Order) -> Result<Self, ElfError>
        ensures { result ≡ result_map (of order) (record_at size bytes.now at) };
}

/// The two-byte number at a place.
#[tactic(auto, using(crate::proofs::NumberLemmas::half_is))]
pub fn half_at(bytes: &[u8], place: usize, order: Order) -> u16
    requires { place + 2 ≤ length bytes.now }
    ensures { result ≡ number_at order bytes.now place 2 }
{
    get_half(Class::C32, order, &bytes[place..place + 2])
}

/// The four-byte number at a place.
#[tactic(auto, using(crate::proofs::NumberLemmas::word_is))]
pub fn word_at(bytes: &[u8], place: usize, order: Order) -> u32
    requires { place + 4 ≤ length bytes.now }
    ensures { result ≡ number_at order bytes.now place 4 }
{
    get_word(Class::C32, order, &bytes[place..place + 4])
}

/// Each constant is the number that is beside its name in the tables of specs/Constants. It is for
/// the reader and for proofs, and does nothing.
pub fn record_sizes_are()
    ensures { are_numbers record_sizes ≡ true }
{}
