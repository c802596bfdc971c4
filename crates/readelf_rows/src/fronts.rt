//! Texts that are written from their end: the front of a row, its numbers and the words between
//! them, is written into a buffer from its last byte to its first. So each number is written where
//! it is, and the row takes room in the buffer once.
//!
//! Each call writes a text before the place `end` of a buffer, which has room for it, and tells
//! where it begins; what is from `end` on stays. None takes memory.

ghost use Rattle.std.specs.Prelude.{◌≡◌, ◌+◌, ◌≤◌, ◌<◌, ◌++◌, false, length, take, drop, decimal, IfSome};
ghost use Rattle.std.specs.Fmt.{digits, digit_glyph, signed_decimal};
ghost use Rattle.std.specs.Option.{option_copied};
ghost use Rattle.elf_types.specs.Text.{hex};
ghost use Rattle.readelf_rows.specs.Fields.{name_or_hex, hex_column, decimal_column, name_column, row_start};
ghost use Rattle.readelf_rows.specs.Fronts.{Precedes};

use itoa::write_digits;

/// The digits of a number of 64 bits in hexadecimal are at most so many.
const HEX_DIGITS: usize = 16;

/// Puts bytes over those from a place on. The range lies in the buffer.
#[inline(always)]
fn put_over(buffer: &mut [u8], at: usize, bytes: &[u8])
    requires { at + length bytes.now ≤ length buffer.old }
    ensures { buffer.new
        ≡ (take at buffer.old ++ bytes.now) ++ drop (at + length bytes.now) buffer.old }
{
    buffer[at..at + bytes.len()].copy_from_slice(bytes);
}

/// Writes bytes.
#[inline(always)]
pub fn write_bytes(buffer: &mut [u8], end: usize, bytes: &[u8]) -> usize
    requires room { length bytes.now ≤ end }
    requires inside { end ≤ length buffer.old }
    ensures { Precedes buffer.old buffer.new end result bytes.now }
{
    let at = end - bytes.len();
    put_over(buffer, at, bytes);
    at
}

/// Writes a text.
#[inline(always)]
pub fn write_text(buffer: &mut [u8], end: usize, text: &str) -> usize
    requires room { length text.now ≤ end }
    requires inside { end ≤ length buffer.old }
    ensures { Precedes buffer.old buffer.new end result text.now }
{
    let at = end - text.len();
    put_over(buffer, at, text.as_bytes());
    at
}

/// Writes the decimal digits of a number.
#[inline(always)]
pub fn write_decimal(buffer: &mut [u8], end: usize, n: u64) -> usize
    requires room { 20 ≤ end }
    requires inside { end ≤ length buffer.old }
    ensures wrote { Precedes buffer.old buffer.new end result (decimal n) }
    ensures room { end ≤ result + 20 }
{
    write_digits(n, buffer, end)
}

/// Writes the decimal digits of a signed number, after a `-` where it is below 0.
#[inline(always)]
pub fn write_signed(buffer: &mut [u8], end: usize, n: i64) -> usize
    requires room { 21 ≤ end }
    requires inside { end ≤ length buffer.old }
    ensures wrote { Precedes buffer.old buffer.new end result (signed_decimal n) }
    ensures room { end ≤ result + 21 }
{
    let digits = write_decimal(buffer, end, n.unsigned_abs());
    if n >= 0 {
        return digits;
    }
    write_text(buffer, digits, "-")
}

/// The hexadecimal digit of a number below 16, in small letters.
fn glyph(digit: u8) -> u8
    requires { digit < 16 }
    ensures { result ≡ digit_glyph false digit }
{
    if digit < 10 {
        b'0' + digit
    } else {
        b'a' + (digit - 10)
    }
}

/// Writes the hexadecimal digits of a number so that they end with a window of a buffer, and tells
/// where in it they begin.
fn fill_hex(n: u64, window: &mut [u8]) -> usize
    requires { length window.old ≡ 16 }
    ensures digits { drop result window.new ≡ digits 16 false n }
    ensures start { result ≤ 16 }
{
    let mut left = n;
    let mut at = HEX_DIGITS - 1;
    window[at] = glyph((left % 16) as u8);
    while left >= 16 {
        left /= 16;
        at -= 1;
        window[at] = glyph((left % 16) as u8);
    }
    at
}

/// Writes the hexadecimal digits of a number, in small letters and without leading zeros.
#[tactic(auto, unfolding(elf_types::specs::Text::hex))]
#[inline(always)]
pub fn write_hex(buffer: &mut [u8], end: usize, n: u64) -> usize
    requires room { 16 ≤ end }
    requires inside { end ≤ length buffer.old }
    ensures wrote { Precedes buffer.old buffer.new end result (hex n) }
    ensures room { end ≤ result + 16 }
{
    let from = end - HEX_DIGITS;
    let start = fill_hex(n, &mut buffer[from..end]);
    from + start
}

/// Writes a name, or in hexadecimal a number that has none.
#[tactic(auto, unfolding(crate::specs::Fields::name_or_hex))]
#[inline(always)]
pub fn write_name_or_hex(buffer: &mut [u8], end: usize, name: Option<&'static str>, n: u64) -> usize
    requires short { IfSome (option_copied name) (λ t. length t ≤ 18) }
    requires room { 18 ≤ end }
    requires inside { end ≤ length buffer.old }
    ensures wrote { Precedes buffer.old buffer.new end result
        (name_or_hex (option_copied name.entry) n) }
    ensures room { end ≤ result + 18 }
{
    match name {
        Some(name) => write_text(buffer, end, name),
        None => {
            let at = write_hex(buffer, end, n);
            write_text(buffer, at, "0x")
        }
    }
}

/// Writes ` NAME 0xN`, of a name of at most six bytes.
#[tactic(auto, unfolding(crate::specs::Fields::hex_column))]
#[inline(always)]
pub fn write_hex_column(buffer: &mut [u8], end: usize, name: &str, n: u64) -> usize
    requires short { length name.now ≤ 6 }
    requires room { 26 ≤ end }
    requires inside { end ≤ length buffer.old }
    ensures wrote { Precedes buffer.old buffer.new end result (hex_column name.now n) }
    ensures room { end ≤ result + 26 }
{
    let digits = write_hex(buffer, end, n);
    let radix = write_text(buffer, digits, " 0x");
    let title = write_text(buffer, radix, name);
    write_text(buffer, title, " ")
}

/// Writes ` NAME N`, of a name of at most six bytes.
#[tactic(auto, unfolding(crate::specs::Fields::decimal_column))]
#[inline(always)]
pub fn write_decimal_column(buffer: &mut [u8], end: usize, name: &str, n: u64) -> usize
    requires short { length name.now ≤ 6 }
    requires room { 28 ≤ end }
    requires inside { end ≤ length buffer.old }
    ensures wrote { Precedes buffer.old buffer.new end result (decimal_column name.now n) }
    ensures room { end ≤ result + 28 }
{
    let digits = write_decimal(buffer, end, n);
    let space = write_text(buffer, digits, " ");
    let title = write_text(buffer, space, name);
    write_text(buffer, title, " ")
}

/// Writes ` TITLE NAME`, the name of a number or the number in hexadecimal, of a title of at most
/// six bytes and a name of at most eighteen.
#[tactic(auto, unfolding(crate::specs::Fields::name_column))]
#[inline(always)]
pub fn write_name_column(
    buffer: &mut [u8],
    end: usize,
    title: &str,
    name: Option<&'static str>,
    n: u64,
) -> usize
    requires short { length title.now ≤ 6 }
    requires named { IfSome (option_copied name) (λ t. length t ≤ 18) }
    requires room { 26 ≤ end }
    requires inside { end ≤ length buffer.old }
    ensures wrote { Precedes buffer.old buffer.new end result
        (name_column title.now (option_copied name.entry) n) }
    ensures room { end ≤ result + 26 }
{
    let value = write_name_or_hex(buffer, end, name, n);
    let space = write_text(buffer, value, " ");
    let words = write_text(buffer, space, title);
    write_text(buffer, words, " ")
}

/// Writes `  I`, with which a row begins.
#[tactic(auto, unfolding(crate::specs::Fields::row_start))]
#[inline(always)]
pub fn write_row_start(buffer: &mut [u8], end: usize, i: u64) -> usize
    requires room { 22 ≤ end }
    requires inside { end ≤ length buffer.old }
    ensures wrote { Precedes buffer.old buffer.new end result (row_start i) }
    ensures room { end ≤ result + 22 }
{
    let digits = write_decimal(buffer, end, i);
    write_text(buffer, digits, "  ")
}
