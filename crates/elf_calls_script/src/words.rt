//! The words of a line, read one after the other.

ghost use Rattle.std.specs.Prelude.{◌≡◌, ◌∷◌, ◌==◌, Some, Ok, IfOk, IfErr, length, position};
ghost use Rattle.std.specs.Bool.{then_some};
ghost use Rattle.std.specs.Option.{option_copied};
ghost use Rattle.std.specs.Str.{byte};
ghost use Rattle.elf_types.specs.Answers.{FollowsBy};
ghost use Rattle.elf_calls_script.specs.Causes.{call_fault_why, PhraseFollows};
ghost use Rattle.elf_calls_script.specs.Parts.{pieces_between, words_of, next_word, no_words_left, u8 as u8_part, u16 as u16_part, u32 as u32_part, u64 as u64_part, i64 as i64_part, hex_phrase, name};
ghost use Rattle.elf_calls_script.specs.Said.{Says};
ghost use Rattle.elf_calls_script.specs.Lines.{section, piece_phrase};
ghost use Rattle.elf_calls_script.specs.Left.{pieces_left, IsNoText};

use crate::faults::{CallFault, Why};
use crate::numbers::{Number, read_bytes, read_number, read_signed, to_u32, to_u64};
use elf_types::{DataId, Octets, ScnId};
use std::alloc::Global;
use std::marker::Model;

/// What is before the first separator, and what is after it, or None where there is none.
pub(crate) fn cut(bytes: &[u8], separator: u8) -> (&[u8], Option<&[u8]>)
    ensures { pieces_between separator bytes.now
        ≡ result.0.now ∷ pieces_left separator (option_copied result.1) }
{
    match find(bytes, separator) {
        Some(end) => (&bytes[..end], Some(&bytes[end + 1..])),
        None => (bytes, None),
    }
}

/// The place of the first separator.
fn find(bytes: &[u8], separator: u8) -> Option<usize>
    ensures { result ≡ position (λ b. b == separator) bytes.now }
{
    bytes.iter().position(|byte| *byte == separator)
}

/// The words of a line that are left to read, which contracts see as their list. Each call takes
/// what it reads off the start, and fails with `BadWords` where the words have another form; what
/// is left then is open. Beside a value with numbers is whether each of them is in its range; where
/// one is not, the value is open.
#[derive(Drop)]
pub(crate) struct Words<'a> {
    /// What is left of the line, or None after its last word.
    rest: Option<&'a [u8]>,
}

impl<'a> Model for Words<'a> {
    ghost use Rattle.std.specs.Prelude.{List, ℕ};
    ghost use Rattle.std.specs.Option.{option_copied as copied};
    ghost use Rattle.std.specs.Str.{byte as code};
    ghost use Rattle.elf_calls_script.specs.Left.{pieces_left as left};

    ghost Value = { List (List ℕ) };

    ghost view = { λ w. left (code " ") (copied w.rest) };
}

impl<'a> Words<'a> {
    /// All words of a line.
    pub fn new(line: &'a [u8]) -> Words<'a>
        ensures { result ≡ words_of line.now }
    {
        Words { rest: Some(line) }
    }

    /// A word.
    pub fn read_word(&mut self) -> Result<&'a [u8], CallFault>
        ensures value { FollowsBy (λ w. (w.now, self.new)) call_fault_why result
            (next_word self.old) }
        ensures why { IfErr result (λ stop. stop ≡ CallFault.Why Why.BadWords) }
    {
        let Some(rest) = self.rest else {
            return Err(CallFault::Why(Why::BadWords));
        };
        let (word, after) = cut(rest, b' ');
        self.rest = after;
        Ok(word)
    }

    /// A word that is text. It fails with `BadWords` where there is no word, and where it is no
    /// text.
    pub fn read_text(&mut self) -> Result<&'a str, CallFault>
        ensures ok { IfOk result (λ text. next_word self.old ≡ Ok (text.now, self.new)) }
        ensures err { IfErr result (λ stop. IsNoText stop self.old) }
    {
        let word = self.read_word()?;
        match str::from_utf8(word) {
            Ok(text) => Ok(text),
            Err(_) => Err(CallFault::Why(Why::BadWords)),
        }
    }

    /// A number, or None where it is 2^64 or greater.
    #[tactic(auto, unfolding(crate::specs::Parts::bounded_number))]
    fn read_digits(&mut self) -> Result<Option<u64>, CallFault>
        ensures value { FollowsBy (λ n. (n, self.new)) call_fault_why result (u64_part self.old) }
        ensures why { IfErr result (λ stop. stop ≡ CallFault.Why Why.BadWords) }
    {
        let word = self.read_word()?;
        read_number(word)
    }

    /// A number at each width.
    pub fn read_number(&mut self) -> Result<Number, CallFault>
        ensures byte { FollowsBy (λ n. (then_some n.is_byte n.byte, self.new)) call_fault_why result
            (u8_part self.old) }
        ensures half { FollowsBy (λ n. (then_some n.is_half n.half, self.new)) call_fault_why result
            (u16_part self.old) }
        ensures word { FollowsBy (λ n. (then_some n.is_word n.word, self.new)) call_fault_why result
            (u32_part self.old) }
        ensures xword { FollowsBy (λ n. (then_some n.is_xword n.xword, self.new)) call_fault_why
            result
            (u64_part self.old) }
        ensures why { IfErr result (λ stop. stop ≡ CallFault.Why Why.BadWords) }
    {
        let n = self.read_digits()?;
        Ok(Number::of(n))
    }

    /// A number below 2^64.
    pub fn read_u64(&mut self) -> Result<(u64, bool), CallFault>
        ensures { Says u64_part self.old result self.new }
    {
        let n = self.read_digits()?;
        Ok(to_u64(n))
    }

    /// A number below 2^32.
    pub fn read_u32(&mut self) -> Result<(u32, bool), CallFault>
        ensures { Says u32_part self.old result self.new }
    {
        let n = self.read_digits()?;
        Ok(to_u32(n))
    }

    /// An addend or a tag: a number from -2^63 to 2^63 - 1.
    #[tactic(auto, unfolding(crate::specs::Parts::i64))]
    pub fn read_i64(&mut self) -> Result<(i64, bool), CallFault>
        ensures { Says i64_part self.old result self.new }
    {
        let word = self.read_word()?;
        match read_signed(word)? {
            Some(n) => Ok((n, true)),
            None => Ok((0, false)),
        }
    }

    /// HEX: bytes.
    #[tactic(auto, unfolding(crate::specs::Parts::hex_phrase))]
    pub fn read_hex(&mut self, alloc: Global) -> Result<Octets, CallFault>
        ensures { FollowsBy (λ bytes. (Some bytes, self.new)) call_fault_why result
            (hex_phrase self.old) }
    {
        let word = self.read_word()?;
        read_bytes(alloc, word)
    }

    /// NAME: all that is left of the line, which is not empty.
    #[tactic(auto, unfolding(crate::specs::Parts::name))]
    pub fn read_name(&mut self, alloc: Global) -> Result<Octets, CallFault>
        ensures { FollowsBy (λ text. (Some text, self.new)) call_fault_why result (name self.old) }
    {
        match self.rest {
            Some(rest) if !rest.is_empty() => {
                self.rest = None;
                Ok(Octets::from_slice(alloc, rest)?)
            }
            _ => Err(CallFault::Why(Why::BadWords)),
        }
    }

    /// S: a section.
    #[tactic(auto, using(crate::proofs::Said::said))]
    pub fn read_section(&mut self) -> Result<(ScnId, bool), CallFault>
        ensures { Says section self.old result self.new }
    {
        let (section, fits) = self.read_u32()?;
        Ok((ScnId(section), fits))
    }

    /// S P: a piece of a section.
    #[tactic(auto, using(crate::proofs::Said::said))]
    pub fn read_piece(&mut self) -> Result<(DataId, bool), CallFault>
        ensures { Says piece_phrase self.old result self.new }
    {
        let (section, section_fits) = self.read_u32()?;
        let (piece, piece_fits) = self.read_u32()?;
        Ok((DataId { section, piece }, section_fits & piece_fits))
    }

    /// Whether no word is left.
    pub fn is_empty(&self) -> bool
        ensures { result ≡ (length self.now == 0) }
    {
        self.rest.is_none()
    }

    /// The end of the line.
    pub fn read_end(&self) -> Result<(), CallFault>
        ensures { PhraseFollows result (no_words_left self.now) }
    {
        if !self.is_empty() {
            return Err(CallFault::Why(Why::BadWords));
        }
        Ok(())
    }
}
