//! The two byte orders as types.

ghost use Rattle.std.specs.Prelude.{ℕ, List, length, take, ◌≡◌, ◌≤◌};
ghost use Rattle.elf_types.specs.declared.records.Order.{Order};
ghost use Rattle.elf_types.specs.declared.records.Order.TheVariants.{Least, Greatest};
ghost use Rattle.elf_xlate.specs.Numbers.{number_of as number, octets};
ghost use Rattle.elf_xlate.specs.Orders.{little_reads, big_reads, little_writes, big_writes};

use byteorder::{BigEndian, ByteOrder, LittleEndian};

/// A byte order as a type, tied to the definitions of numbers as bytes.
pub trait Endian: ByteOrder {
    // The order as a value.
    ghost order: { Order };

    // What it reads is the number of the bytes in that order.
    ghost reads: { (width : ℕ) (bytes : List ℕ) → width ≤ length bytes
        → Self.number_of width bytes ≡ number order (take width bytes) };

    // What it writes are the bytes of the number in that order.
    ghost writes: { (width n : ℕ) → Self.bytes_of width n ≡ octets order width n };
}

impl Endian for LittleEndian {
    ghost order = { Least };

    ghost reads = { little_reads };

    ghost writes = { little_writes };
}

impl Endian for BigEndian {
    ghost order = { Greatest };

    ghost reads = { big_reads };

    ghost writes = { big_writes };
}

/// Calls a function at the byte order and the class that are given as values; one that is named
/// with a record, at the form of both and that record. The choice is made once, outside the
/// function.
macro_rules! in_form {
    ($class:expr, $order:expr, $function:ident($($argument:expr),*)) => {
        match ($class, $order) {
            (Class::C32, Order::Least) => $function::<LittleEndian, false>($($argument),*),
            (Class::C32, Order::Greatest) => $function::<BigEndian, false>($($argument),*),
            (Class::C64, Order::Least) => $function::<LittleEndian, true>($($argument),*),
            (Class::C64, Order::Greatest) => $function::<BigEndian, true>($($argument),*),
        }
    };
    ($class:expr, $order:expr, $function:ident::<$record:ty>($($argument:expr),*)) => {
        match ($class, $order) {
            (Class::C32, Order::Least) => {
                $function::<Form<LittleEndian, false>, $record>($($argument),*)
            }
            (Class::C32, Order::Greatest) => {
                $function::<Form<BigEndian, false>, $record>($($argument),*)
            }
            (Class::C64, Order::Least) => {
                $function::<Form<LittleEndian, true>, $record>($($argument),*)
            }
            (Class::C64, Order::Greatest) => {
                $function::<Form<BigEndian, true>, $record>($($argument),*)
            }
        }
    };
}

pub(crate) use in_form;
