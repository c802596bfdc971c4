//! The words of a script that stand for numbers and bytes.

ghost use Rattle.std.specs.Prelude.{◌≡◌, ◌≤◌, ◌+◌, ◌*◌, ◌^◌, true, option_map, option_and_then, IfErr};
ghost use Rattle.std.specs.Bool.{then_some};
ghost use Rattle.std.specs.Str.Parse.{digits_value};
ghost use Rattle.elf_types.specs.Answers.{or_refused};
ghost use Rattle.elf_types.specs.Digits.{are_digits};
ghost use Rattle.elf_calls_script.specs.Causes.{PhraseFollows};
ghost use Rattle.elf_calls_script.specs.Numbers.{digits_of, number_literal_of, signed_literal_of, number_if_below, within_64_bits, hex_of};

use crate::faults::{CallFault, Why};
use elf_types::{Octets, are_digits};
use hex::FromHexError;
use std::alloc::Global;

/// A number, or None where it is 2^64 or greater. It fails with `BadWords` where the word has
/// another form.
#[tactic(auto, unfolding(crate::specs::Numbers::number_literal_of))]
pub(crate) fn read_number(word: &[u8]) -> Result<Option<u64>, CallFault>
    ensures value { PhraseFollows result
        (or_refused (option_map (number_if_below (2 ^ 64))
        (number_literal_of word.now)) Why.BadWords) }
    ensures why { IfErr result (λ stop. stop ≡ CallFault.Why Why.BadWords) }
{
    if word.starts_with(b"0x") {
        return read_digits(&word[2..], 16, 16);
    }
    read_digits(word, 10, 20)
}

/// A number that may be below 0, or None where it is not from -2^63 to 2^63 - 1. It fails with
/// `BadWords` where the word has another form.
#[tactic(auto, unfolding(crate::specs::Numbers::signed_literal_of))]
pub(crate) fn read_signed(word: &[u8]) -> Result<Option<i64>, CallFault>
    ensures { PhraseFollows result
        (or_refused (option_map within_64_bits (signed_literal_of word.now)) Why.BadWords) }
{
    if word.starts_with(b"-") {
        let n = read_digits(&word[1..], 10, 20)?;
        return Ok(n.and_then(|n| 0i64.checked_sub_unsigned(n)));
    }
    let n = read_number(word)?;
    Ok(n.and_then(|n| i64::try_from(n).ok()))
}

/// The number that one to `most` digits stand for, or None where it is 2^64 or greater. It fails
/// with `BadWords` where the word has another form.
#[tactic(auto, unfolding(crate::specs::Numbers::digits_of))]
fn read_digits(word: &[u8], radix: u32, most: usize) -> Result<Option<u64>, CallFault>
    requires low { 2 ≤ radix }
    requires high { radix ≤ 36 }
    ensures value { PhraseFollows result
        (or_refused (option_map (number_if_below (2 ^ 64))
        (digits_of radix most word.now)) Why.BadWords) }
    ensures why { IfErr result (λ stop. stop ≡ CallFault.Why Why.BadWords) }
{
    if word.is_empty() || word.len() > most || !are_digits(word, radix) {
        return Err(CallFault::Why(Why::BadWords));
    }
    Ok(value_of(word, radix))
}

/// The number that digits stand for, or None where it is 2^64 or greater.
fn value_of(digits: &[u8], radix: u32) -> Option<u64>
    requires low { 2 ≤ radix }
    requires high { radix ≤ 36 }
    requires digits { are_digits radix digits.now ≡ true }
    ensures { result ≡ number_if_below (2 ^ 64) (digits_value radix digits.now) }
{
    let mut value = 0u64;
    for byte in digits {
        let digit = char::from(*byte).to_digit(radix)?;
        value = with_digit(value, radix, digit)?;
    }
    Some(value)
}

/// A number with one more digit, or None where it is 2^64 or greater.
fn with_digit(value: u64, radix: u32, digit: u32) -> Option<u64>
    ensures { result ≡ number_if_below (2 ^ 64) (value * radix + digit) }
{
    value
        .checked_mul(u64::from(radix))?
        .checked_add(u64::from(digit))
}

/// A number at each width: it, and whether it is in the width's range. Where it is not, the value
/// is 0.
#[derive(Clone, Copy)]
pub(crate) struct Number {
    /// The number as one byte.
    pub byte: u8,
    /// Whether it is below 2^8.
    pub is_byte: bool,
    /// The number as two bytes.
    pub half: u16,
    /// Whether it is below 2^16.
    pub is_half: bool,
    /// The number as four bytes.
    pub word: u32,
    /// Whether it is below 2^32.
    pub is_word: bool,
    /// The number as eight bytes.
    pub xword: u64,
    /// Whether it is below 2^64.
    pub is_xword: bool,
}

impl Number {
    /// A number below 2^64 at each width, or one that is in no range.
    pub fn of(n: Option<u64>) -> Number
        ensures byte { then_some result.is_byte result.byte ≡ option_and_then
            (number_if_below (2 ^ 8)) n }
        ensures half { then_some result.is_half result.half ≡ option_and_then
            (number_if_below (2 ^ 16)) n }
        ensures word { then_some result.is_word result.word ≡ option_and_then
            (number_if_below (2 ^ 32)) n }
        ensures xword { then_some result.is_xword result.xword ≡ n }
    {
        let (byte, is_byte) = to_u8(n);
        let (half, is_half) = to_u16(n);
        let (word, is_word) = to_u32(n);
        let (xword, is_xword) = to_u64(n);
        Number {
            byte,
            is_byte,
            half,
            is_half,
            word,
            is_word,
            xword,
            is_xword,
        }
    }
}

/// A number as eight bytes, and whether it is below 2^64.
pub(crate) fn to_u64(n: Option<u64>) -> (u64, bool)
    ensures { then_some result.1 result.0 ≡ n }
{
    match n {
        Some(n) => (n, true),
        None => (0, false),
    }
}

/// A number as four bytes, and whether it is below 2^32.
pub(crate) fn to_u32(n: Option<u64>) -> (u32, bool)
    ensures { then_some result.1 result.0 ≡ option_and_then (number_if_below (2 ^ 32)) n }
{
    match n {
        Some(n) if n < 1 << 32 => (n as u32, true),
        _ => (0, false),
    }
}

/// A number as two bytes, and whether it is below 2^16.
fn to_u16(n: Option<u64>) -> (u16, bool)
    ensures { then_some result.1 result.0 ≡ option_and_then (number_if_below (2 ^ 16)) n }
{
    match n {
        Some(n) if n < 1 << 16 => (n as u16, true),
        _ => (0, false),
    }
}

/// A number as one byte, and whether it is below 2^8.
fn to_u8(n: Option<u64>) -> (u8, bool)
    ensures { then_some result.1 result.0 ≡ option_and_then (number_if_below (2 ^ 8)) n }
{
    match n {
        Some(n) if n < 1 << 8 => (n as u8, true),
        _ => (0, false),
    }
}

/// The bytes of a word: none for `-`, else two hexadecimal digits for each. It fails with
/// `BadWords` where the word has another form.
#[tactic(auto, unfolding(crate::specs::Numbers::hex_of))]
pub(crate) fn read_bytes(alloc: Global, word: &[u8]) -> Result<Octets, CallFault>
    ensures { PhraseFollows result (or_refused (hex_of word.now) Why.BadWords) }
{
    if word == b"-".as_slice() {
        return Ok(Octets::new(alloc));
    }
    if word.is_empty() {
        return Err(CallFault::Why(Why::BadWords));
    }
    match hex::decode(alloc, word) {
        Ok(bytes) => Ok(Octets::from_vec(bytes)),
        Err(FromHexError::OutOfMemory) => Err(CallFault::Memory),
        Err(_) => Err(CallFault::Why(Why::BadWords)),
    }
}
