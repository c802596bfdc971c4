//! Reading numbers and strings from the start of bytes.

ghost use Rattle.std.specs.Prelude.{◌≡◌, ◌≤◌, ◌<◌, length, OnOk, ◌==◌};
ghost use Rattle.std.specs.Int.{w16, w32, w64};
ghost use Rattle.std.specs.Option.{option_copied};
ghost use Rattle.elf_types.specs.Answers.{FollowsBy};
ghost use Rattle.line_table.specs.Reading.{byte_at, bytes_at, number_at, leb128_at, string_at, digit, file_at};
ghost use Rattle.line_table.specs.Header.{named_file_at};
ghost use Rattle.line_table.specs.Outcomes.{why_of};

use crate::faults::{LineWhy, UnitFault};
use byte_search::find_byte;
use elf_types::Order;
use std::marker::Model;

/// What is left to read, which contracts see as the list of these bytes. Each call takes what it
/// reads off the start, and fails with `Cut` where the bytes end before it does; what is left then
/// is open.
#[derive(Drop)]
pub struct Reader<'a> {
    rest: &'a [u8],
}

impl<'a> Model for Reader<'a> {
    ghost use Rattle.std.specs.Prelude.{List, ℕ};

    ghost Value = { List ℕ };

    ghost view = { λ r. r.rest.now };
}

impl<'a> Reader<'a> {
    /// All of the bytes are left.
    pub fn new(bytes: &'a [u8]) -> Reader<'a>
        ensures { result ≡ bytes.now }
    {
        Reader { rest: bytes }
    }

    /// How many bytes are left.
    pub fn len(&self) -> usize
        ensures { result ≡ length self.now }
    {
        self.rest.len()
    }

    /// Whether nothing is left.
    pub fn is_empty(&self) -> bool
        ensures { result ≡ (length self.now == 0) }
    {
        self.rest.is_empty()
    }

    /// A byte.
    #[tactic(auto, unfolding(crate::specs::Reading::byte_at))]
    pub fn read_u8(&mut self) -> Result<u8, UnitFault>
        ensures value { FollowsBy (λ b. (b, self.new)) why_of result (byte_at self.old) }
        ensures shorter { OnOk result (length self.new < length self.old) }
    {
        match self.rest {
            [] => Err(UnitFault::Why(LineWhy::Cut)),
            [first, rest @ ..] => {
                self.rest = rest;
                Ok(*first)
            }
        }
    }

    /// A number of bytes.
    #[tactic(auto, unfolding(crate::specs::Reading::bytes_at))]
    pub fn read_bytes(&mut self, count: u64) -> Result<&'a [u8], UnitFault>
        ensures value { FollowsBy (λ b. (b.now, self.new)) why_of result (bytes_at count self.old) }
        ensures no_longer { OnOk result (length self.new ≤ length self.old) }
    {
        if (self.rest.len() as u64) < count {
            return Err(UnitFault::Why(LineWhy::Cut));
        }
        let (front, rest) = self.rest.split_at(count as usize);
        self.rest = rest;
        Ok(front)
    }

    /// A number of two bytes.
    #[tactic(auto, unfolding(crate::proofs::Words::numbers))]
    pub fn read_u16(&mut self, order: Order) -> Result<u16, UnitFault>
        ensures value { FollowsBy (λ n. (n, self.new)) why_of result
            (number_at order w16 self.old) }
        ensures no_longer { OnOk result (length self.new ≤ length self.old) }
    {
        let Some((front, rest)) = self.rest.split_first_chunk::<2>() else {
            return Err(UnitFault::Why(LineWhy::Cut));
        };
        self.rest = rest;
        Ok(match order {
            Order::Least => u16::from_le_bytes(*front),
            Order::Greatest => u16::from_be_bytes(*front),
        })
    }

    /// A number of four bytes.
    #[tactic(auto, unfolding(crate::proofs::Words::numbers))]
    pub fn read_u32(&mut self, order: Order) -> Result<u32, UnitFault>
        ensures value { FollowsBy (λ n. (n, self.new)) why_of result
            (number_at order w32 self.old) }
        ensures no_longer { OnOk result (length self.new ≤ length self.old) }
    {
        let Some((front, rest)) = self.rest.split_first_chunk::<4>() else {
            return Err(UnitFault::Why(LineWhy::Cut));
        };
        self.rest = rest;
        Ok(match order {
            Order::Least => u32::from_le_bytes(*front),
            Order::Greatest => u32::from_be_bytes(*front),
        })
    }

    /// A number of eight bytes.
    #[tactic(auto, unfolding(crate::proofs::Words::numbers))]
    pub fn read_u64(&mut self, order: Order) -> Result<u64, UnitFault>
        ensures value { FollowsBy (λ n. (n, self.new)) why_of result
            (number_at order w64 self.old) }
        ensures no_longer { OnOk result (length self.new ≤ length self.old) }
    {
        let Some((front, rest)) = self.rest.split_first_chunk::<8>() else {
            return Err(UnitFault::Why(LineWhy::Cut));
        };
        self.rest = rest;
        Ok(match order {
            Order::Least => u64::from_le_bytes(*front),
            Order::Greatest => u64::from_be_bytes(*front),
        })
    }

    /// A LEB128 number, signed or not, modulo 2 to the power of 64 and of any length.
    #[tactic(auto, unfolding(crate::specs::Reading::leb128_at))]
    pub fn read_leb128(&mut self, signed: bool) -> Result<u64, UnitFault>
        ensures value { FollowsBy (λ n. (n, self.new)) why_of result (leb128_at signed self.old) }
        ensures no_longer { OnOk result (length self.new ≤ length self.old) }
    {
        let mut number = 0u64;
        let mut worth = 1u64;
        loop {
            let byte = self.read_u8()?;
            let digit = digit_of(byte, signed);
            number = number.wrapping_add(digit.wrapping_mul(worth));
            if byte < 128 {
                return Ok(number);
            }
            worth = worth.wrapping_mul(128);
        }
    }

    /// A string, which a byte 0 ends.
    #[tactic(auto, unfolding(crate::specs::Reading::string_at))]
    pub fn read_string(&mut self) -> Result<&'a [u8], UnitFault>
        ensures value { FollowsBy (λ text. (text.now, self.new)) why_of result
            (string_at self.old) }
        ensures shorter { OnOk result (length self.new < length self.old) }
    {
        let Some(end) = find_byte(self.rest, 0) else {
            return Err(UnitFault::Why(LineWhy::Cut));
        };
        let text = &self.rest[..end];
        self.rest = &self.rest[end + 1..];
        Ok(text)
    }

    /// A file: its name, and its directory, time and length, which are passed over.
    ///
    /// Source: DWARF 4, 6.2.4, item 12, and `DW_LNE_define_file` of 6.2.5.3.
    #[tactic(auto, unfolding(crate::specs::Reading::file_at))]
    pub fn read_file(&mut self) -> Result<&'a [u8], UnitFault>
        ensures value { FollowsBy (λ name. (name.now, self.new)) why_of result (file_at self.old) }
        ensures shorter { OnOk result (length self.new < length self.old) }
    {
        let name = self.read_string()?;
        let _directory = self.read_leb128(false)?;
        let _time = self.read_leb128(false)?;
        let _length = self.read_leb128(false)?;
        Ok(name)
    }

    /// The name of a file in a list of files, or None where a byte 0 ends the list.
    #[tactic(auto, unfolding(crate::specs::Header::named_file_at))]
    pub fn read_named_file(&mut self) -> Result<Option<&'a [u8]>, UnitFault>
        ensures value { FollowsBy (λ o. (option_copied o, self.new)) why_of result
            (named_file_at self.old) }
        ensures shorter { OnOk result (length self.new < length self.old) }
    {
        match self.rest {
            [] => Err(UnitFault::Why(LineWhy::Cut)),
            [0, rest @ ..] => {
                self.rest = rest;
                Ok(None)
            }
            _ => Ok(Some(self.read_file()?)),
        }
    }
}

/// What a byte of a LEB128 number stands for: its low seven bits, of which bit 6 is the sign in the
/// last byte of a signed number.
fn digit_of(byte: u8, signed: bool) -> u64
    ensures { result ≡ digit signed byte }
{
    let low = u64::from(byte % 128);
    if signed && matches!(byte, 64..=127) {
        low.wrapping_sub(128)
    } else {
        low
    }
}
