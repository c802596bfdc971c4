//! What the numbers stand for by which C names the kind of items, a class and a byte order.

ghost use Rattle.std.specs.Prelude.{◌≡◌, ◌≢◌};
ghost use Rattle.elf_types.specs.declared.records.Kind.TheVariants as kinds;
ghost use Rattle.c_calls.specs.Translation.Numbers.{kind_from, class_from, order_from};

use elf_types::{Class, Kind, Order};

/// The kind that a number stands for, which has items; any number that stands for none of the
/// others stands for bytes. It takes no memory.
#[tactic(auto, unfolding(crate::specs::Translation::Numbers::kind_from))]
pub fn kind_from(number: u32) -> Kind
    ensures kind { result ≡ kind_from number }
    ensures items { result ≢ kinds.Empty }
{
    match number {
        2 => Kind::Half,
        3 => Kind::Word,
        4 => Kind::Addr,
        5 => Kind::Sym,
        6 => Kind::Rel,
        7 => Kind::Rela,
        8 => Kind::Dyn,
        _ => Kind::Bytes,
    }
}

/// The class that a number stands for: class 32 where it is `ELFCLASS32`, and else class 64. It
/// takes no memory.
#[tactic(auto, unfolding(crate::specs::Translation::Numbers::class_from))]
pub fn class_from(number: u32) -> Class
    ensures { result ≡ class_from number }
{
    if number == 1 { Class::C32 } else { Class::C64 }
}

/// The byte order that a number stands for: the greatest byte first where it is `ELFDATA2MSB`, and
/// else the least one. It takes no memory.
#[tactic(auto, unfolding(crate::specs::Translation::Numbers::order_from))]
pub fn order_from(number: u32) -> Order
    ensures { result ≡ order_from number }
{
    if number == 2 {
        Order::Greatest
    } else {
        Order::Least
    }
}
