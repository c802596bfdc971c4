//! Numbers of any width.

ghost use Rattle.std.specs.Prelude.{◌≡◌, ◌≤◌, length};
ghost use Rattle.elf_xlate.specs.Numbers.{number_of};

use crate::byte_order::Endian;
use byteorder::{BigEndian, LittleEndian};
use elf_types::Order;

/// The number of at most eight bytes in an order; 0 where there is none. It rejects nothing and
/// takes no memory.
///
/// Source: gABI chapter 4, "ELF Identification", Data Encoding.
pub fn number(order: Order, bytes: &[u8]) -> u64
    requires { length bytes.now ≤ 8 }
    ensures { result ≡ number_of order bytes.now }
{
    match order {
        Order::Least => number_in_order::<LittleEndian>(bytes),
        Order::Greatest => number_in_order::<BigEndian>(bytes),
    }
}

/// The number of at most eight bytes, in an order that is a type.
#[tactic(auto, using(crate::proofs::Bytes::number_of_none, crate::proofs::Bytes::number_of_all))]
fn number_in_order<T: Endian>(bytes: &[u8]) -> u64
    requires { length bytes.now ≤ 8 }
    ensures { result ≡ number_of T.order bytes.now }
{
    if bytes.is_empty() {
        0
    } else {
        T::read_uint(bytes, bytes.len())
    }
}
