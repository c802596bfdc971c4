//! Numbers as text, appended to a list of bytes.
//!
//! Each call fails with `Memory` alone; what the list held then stays, with some bytes after it.

ghost use Rattle.std.specs.Prelude.{◌≡◌, ◌++◌, ◌≤◌, ◌<◌, false, length, drop, decimal, OnOk, IfErr};
ghost use Rattle.std.specs.Fmt.{digits, digit_glyph, signed_decimal};
ghost use Rattle.elf_types.specs.Writers.{WantsMemory};
ghost use Rattle.elf_types.specs.Text.{hex};

use crate::errors::ElfError;
use crate::lists::Octets;
use itoa::Buffer;

/// Appends bytes.
#[tactic(auto, using(crate::proofs::Writers::unchanged))]
pub fn put_bytes(out: &mut Octets, bytes: &[u8]) -> Result<(), ElfError>
    ensures ok { OnOk result (out.new ≡ out.old ++ bytes.now) }
    ensures err { IfErr result (WantsMemory out.old out.new) }
{
    out.extend(bytes)
}

/// Appends a text.
pub fn put_text(out: &mut Octets, text: &str) -> Result<(), ElfError>
    ensures ok { OnOk result (out.new ≡ out.old ++ text.now) }
    ensures err { IfErr result (WantsMemory out.old out.new) }
{
    put_bytes(out, text.as_bytes())
}

/// Appends the decimal digits of a number.
pub fn put_decimal(out: &mut Octets, n: u64) -> Result<(), ElfError>
    ensures ok { OnOk result (out.new ≡ out.old ++ decimal n) }
    ensures err { IfErr result (WantsMemory out.old out.new) }
{
    let mut buffer = Buffer::new();
    put_bytes(out, buffer.format(n).as_bytes())
}

/// Appends the decimal digits of a signed number, after a `-` where it is below 0.
pub fn put_signed(out: &mut Octets, n: i64) -> Result<(), ElfError>
    ensures ok { OnOk result (out.new ≡ out.old ++ signed_decimal n) }
    ensures err { IfErr result (WantsMemory out.old out.new) }
{
    let mut buffer = Buffer::new();
    put_bytes(out, buffer.format(n).as_bytes())
}

/// Appends the hexadecimal digits of a number, in small letters and without leading zeros.
#[tactic(auto, unfolding(crate::specs::Text::hex))]
pub fn put_hex(out: &mut Octets, n: u64) -> Result<(), ElfError>
    ensures ok { OnOk result (out.new ≡ out.old ++ hex n) }
    ensures err { IfErr result (WantsMemory out.old out.new) }
{
    let mut buffer = [0u8; 16];
    put_hex_by(out, n, &mut buffer)
}

/// Writes the digits into `buffer` from its end, and appends them.
fn put_hex_by(out: &mut Octets, n: u64, buffer: &mut [u8]) -> Result<(), ElfError>
    requires { length buffer.old ≡ 16 }
    ensures ok { OnOk result (out.new ≡ out.old ++ digits 16 false n) }
    ensures err { IfErr result (WantsMemory out.old out.new) }
{
    let start = fill_hex(n, buffer);
    put_bytes(out, &buffer[start..])
}

/// Writes the digits so that they end with the buffer, and tells where they start.
fn fill_hex(n: u64, buffer: &mut [u8]) -> usize
    requires { length buffer.old ≡ 16 }
    ensures digits { drop result buffer.new ≡ digits 16 false n }
    ensures start { result ≤ 16 }
{
    let mut left = n;
    let mut at = 15;
    buffer[at] = glyph((left % 16) as u8);
    while left >= 16 {
        left /= 16;
        at -= 1;
        buffer[at] = glyph((left % 16) as u8);
    }
    at
}

fn glyph(digit: u8) -> u8
    requires { digit < 16 }
    ensures { result ≡ digit_glyph false digit }
{
    if digit < 10 {
        b'0' + digit
    } else {
        b'a' + (digit - 10)
    }
}
