//! The digits of a number in a radix.

ghost use Rattle.std.specs.Prelude.{◌≡◌, ◌≤◌, ◌<◌, false, length, take, drop};
ghost use Rattle.std.specs.Fmt.{digits, digit_glyph};
ghost use Rattle.tool_output.specs.Columns.Columns.{radix_digits};

use tool_text::Radix;

/// As many digits as a number of 128 bits has at most, in radix eight.
pub const MAX_DIGITS: usize = 43;

fn glyph(digit: u8) -> u8
    requires { digit < 16 }
    ensures { result ≡ digit_glyph false digit }
{
    if digit < 10 {
        b'0' + digit
    } else {
        b'a' + (digit - 10)
    }
}

/// Writes the digits of a number in a base so that they end with the buffer, and tells where they
/// start. What is before them stays. Of a number of 64 bits, as most are, none is divided as one of
/// 128.
fn fill<const BASE: u64>(n: u128, buffer: &mut [u8]) -> usize
    requires base { (8 ≤ BASE) × (BASE ≤ 16) }
    requires len { length buffer.old ≡ 43 }
    ensures digits { drop result buffer.new ≡ digits BASE false n }
    ensures front { take result buffer.new ≡ take result buffer.old }
    ensures start { result ≤ 43 }
{
    let mut wide = n;
    let mut at = MAX_DIGITS;
    while wide > u64::MAX as u128 {
        at -= 1;
        buffer[at] = glyph((wide % BASE as u128) as u8);
        wide /= BASE as u128;
    }
    let mut left = wide as u64;
    while left >= BASE {
        at -= 1;
        buffer[at] = glyph((left % BASE) as u8);
        left /= BASE;
    }
    at -= 1;
    buffer[at] = glyph(left as u8);
    at
}

/// Writes the digits of a number in a radix in the same way.
#[tactic(auto, unfolding(crate::specs::Columns::Columns::radix_digits))]
pub fn fill_in(n: u128, radix: Radix, buffer: &mut [u8]) -> usize
    requires { length buffer.old ≡ 43 }
    ensures digits { drop result buffer.new ≡ radix_digits radix n }
    ensures front { take result buffer.new ≡ take result buffer.old }
    ensures start { result ≤ 43 }
    ensures len { length buffer.new ≡ 43 }
{
    match radix {
        Radix::Octal => fill::<8>(n, buffer),
        Radix::Decimal => fill::<10>(n, buffer),
        Radix::Hex => fill::<16>(n, buffer),
    }
}
