//! The bytes of a home, once they are read.

ghost use Rattle.std.specs.Prelude.{◌≡◌, ◌≤◌, length, take};
ghost use Rattle.elf_object.specs.elf_xlate.declared.content.Items.TheVariants as items;
ghost use Rattle.elf_object.specs.Answers.{bytes_of};
ghost use Rattle.section_data.specs.Nuls.{IsLastEnd, IsEndedFront};

use elf_object::prelude::Items;
use elf_types::Octets;
use memchr::memrchr;
use std::marker::Model;

/// The bytes of a home, as items of kind `Bytes`, and where their last NUL is once that was looked
/// for, so that no string is looked for after it. Contracts see the items.
#[derive(Drop)]
pub(crate) struct RawBytes {
    items: Items,
    /// How many bytes there are up to the last NUL, once it was looked for.
    ended: Option<usize>,
}

impl Model for RawBytes {
    ghost use Rattle.elf_object.specs.elf_xlate.declared.content.Items.{Items as TheItems};
    ghost use Rattle.elf_object.specs.Answers.{bytes_of as bytes_in};
    ghost use Rattle.section_data.specs.Nuls.{IsEndNoted};

    ghost Value = { TheItems };

    ghost view = { λ r. r.items };

    ghost invariant = { λ r. IsEndNoted (bytes_in r.items) r.ended };
}

/// How many bytes there are up to the last NUL, which is one of them; 0 where there is none. It
/// takes no memory.
pub fn ended_len(bytes: &[u8]) -> usize
    ensures { IsLastEnd bytes.now result }
{
    let _count = bytes.len();
    match memrchr(0, bytes) {
        Some(last) => last + 1,
        None => 0,
    }
}

/// The first `n` bytes.
fn first_bytes(bytes: &[u8], n: usize) -> &[u8]
    requires { n ≤ length bytes.now }
    ensures { result.now ≡ take n bytes.now }
{
    &bytes[..n]
}

impl RawBytes {
    /// Bytes of which nothing is known. It takes no memory.
    pub(crate) fn of(bytes: Octets) -> RawBytes
        ensures { result ≡ items.Bytes bytes }
    {
        RawBytes {
            items: Items::Bytes(bytes),
            ended: None,
        }
    }

    /// The bytes.
    pub(crate) fn bytes(&self) -> &[u8]
        ensures { result.now ≡ bytes_of self.now }
    {
        match &self.items {
            Items::Bytes(bytes) => bytes.as_slice(),
            _ => &[],
        }
    }

    /// The bytes as items.
    pub(crate) fn items(&self) -> &Items
        ensures { result.now ≡ self.now }
    {
        &self.items
    }

    /// Looks for the last NUL, where that was not done yet.
    #[inline(always)]
    pub(crate) fn note_end(&mut self)
        ensures { self.new ≡ self.old }
    {
        if self.ended.is_some() {
            return;
        }
        self.ended = Some(ended_len(self.bytes()));
    }

    /// The bytes up to the last NUL, where that was looked for; else all of them.
    pub(crate) fn ended(&self) -> &[u8]
        ensures { IsEndedFront (bytes_of self.now) result.now }
    {
        match self.ended {
            Some(n) => first_bytes(self.bytes(), n),
            None => self.bytes(),
        }
    }
}
