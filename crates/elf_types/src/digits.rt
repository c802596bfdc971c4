//! Words that are digits.

ghost use Rattle.std.specs.Prelude.{◌≡◌, ◌≤◌};
ghost use Rattle.elf_types.specs.Digits.{are_digits};

/// Whether each byte is a digit in the radix, in either case. It takes no memory.
pub fn are_digits(word: &[u8], radix: u32) -> bool
    requires low { 2 ≤ radix }
    requires high { radix ≤ 36 }
    ensures { result ≡ are_digits radix word.now }
{
    word.iter().all(|byte| char::from(*byte).is_digit(radix))
}
