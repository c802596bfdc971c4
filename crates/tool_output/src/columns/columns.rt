//! Numbers in columns. Each call fails with `Memory` alone; what the buffer held then stays, with
//! some bytes after it.

ghost use Rattle.std.specs.Prelude.{◌≡◌, ◌++◌, ◌≤◌, ℕ, length, OnOk, IfErr};
ghost use Rattle.std.proofs.Math.ListN.{replicate};
ghost use Rattle.elf_types.specs.Writers.{WantsMemory};
ghost use Rattle.tool_output.specs.Columns.Columns.{radix_digits, padded, column, zero_filled};

use crate::columns::digits::{MAX_DIGITS, fill_in};
use elf_types::{ElfError, Octets, put_bytes};
use tool_text::Radix;

/// The places of a column.
const COLUMN: usize = 7;

/// The bytes that are put after a number at once with it.
const BEHIND: usize = 3;

/// Appends a number, right in so many places of at least `width`, by a buffer for its digits. What
/// the buffer holds is before them.
fn put_by(
    page: &mut Octets,
    n: u128,
    radix: Radix,
    width: usize,
    buffer: &mut [u8],
) -> Result<(), ElfError>
    requires len { length buffer.old ≡ 43 }
    requires width { width ≤ 16 }
    ensures ok { (byte : ℕ) → buffer.old ≡ replicate 43 byte
        → OnOk result (page.new ≡ page.old ++ padded byte width (radix_digits radix n)) }
    ensures err { IfErr result (WantsMemory page.old page.new) }
{
    let start = fill_in(n, radix, buffer);
    put_bytes(page, &buffer[start.min(MAX_DIGITS - width)..])
}

/// Appends a number, right in so many places, with copies of a byte before it.
fn put_filled(
    page: &mut Octets,
    n: u128,
    radix: Radix,
    byte: u8,
    width: usize,
) -> Result<(), ElfError>
    requires { width ≤ 16 }
    ensures ok { OnOk result (page.new ≡ page.old ++ padded byte width (radix_digits radix n)) }
    ensures err { IfErr result (WantsMemory page.old page.new) }
{
    let mut buffer = [byte; MAX_DIGITS];
    put_by(page, n, radix, width, &mut buffer)
}

/// Appends a number in a radix, without leading zeros.
#[tactic(auto, unfolding(crate::specs::Columns::Columns::padded))]
pub fn put_number(page: &mut Octets, n: u128, radix: Radix) -> Result<(), ElfError>
    ensures ok { OnOk result (page.new ≡ page.old ++ radix_digits radix n) }
    ensures err { IfErr result (WantsMemory page.old page.new) }
{
    put_filled(page, n, radix, b'0', 0)
}

/// Appends a number, right in so many places of at least `width`, and some bytes after it, by a
/// buffer for its digits and these. What the buffer holds is before them.
fn put_both_by(
    page: &mut Octets,
    n: u128,
    radix: Radix,
    width: usize,
    behind: [u8; BEHIND],
    buffer: &mut [u8],
) -> Result<(), ElfError>
    requires len { length buffer.old ≡ 46 }
    requires width { width ≤ 16 }
    ensures ok { (byte : ℕ) → buffer.old ≡ replicate 46 byte
        → OnOk result (page.new ≡ page.old ++
        (padded byte width (radix_digits radix n) ++ behind)) }
    ensures err { IfErr result (WantsMemory page.old page.new) }
{
    let (digits, rest) = buffer.split_at_mut(MAX_DIGITS);
    let start = fill_in(n, radix, digits);
    rest.copy_from_slice(&behind);
    put_bytes(page, &buffer[start.min(MAX_DIGITS - width)..])
}

/// Appends a number in a radix, of at least `width` digits, with zeros before it where it has
/// fewer, and three bytes after it.
#[tactic(auto, unfolding(crate::specs::Columns::Columns::zero_filled))]
pub fn put_zero_filled_before(
    page: &mut Octets,
    n: u128,
    radix: Radix,
    width: usize,
    behind: [u8; 3],
) -> Result<(), ElfError>
    requires { width ≤ 16 }
    ensures ok { OnOk result (page.new ≡ page.old ++ (zero_filled radix width n ++ behind)) }
    ensures err { IfErr result (WantsMemory page.old page.new) }
{
    let mut buffer = [b'0'; MAX_DIGITS + BEHIND];
    put_both_by(page, n, radix, width, behind, &mut buffer)
}

/// Appends a number in a radix, right in seven places; one with more digits has them all.
#[tactic(auto, unfolding(crate::specs::Columns::Columns::column))]
pub fn put_column(page: &mut Octets, n: u128, radix: Radix) -> Result<(), ElfError>
    ensures ok { OnOk result (page.new ≡ page.old ++ column radix n) }
    ensures err { IfErr result (WantsMemory page.old page.new) }
{
    put_filled(page, n, radix, b' ', COLUMN)
}
