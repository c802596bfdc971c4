//! The lines in which a tool says what is wrong with a file.

ghost use Rattle.std.specs.Prelude.{◌≡◌, ◌++◌};
ghost use Rattle.elf_types.specs.Text.{error_text};
ghost use Rattle.tool_output.specs.Messages.{message, section_message};

use crate::lines::Line;
use crate::names::FileName;
use elf_types::{ElfError, Octets, put_bytes, put_decimal, put_error, put_text};

/// The line `COMMAND: NAME: TEXT` with its newline.
#[derive(Clone, Copy)]
pub struct Message<'a, T> {
    /// The command.
    pub command: &'a str,
    /// The file, or the member of an archive.
    pub name: &'a FileName<'a>,
    /// What is wrong with it.
    pub text: T,
}

impl<T: Line> Line for Message<'_, T> {
    ghost text = { λ m. message m.command.now m.name.now (T.text m.text) };

    #[tactic(auto, using(crate::proofs::Rows::kept), unfolding(crate::specs::Messages::message))]
    fn put(&self, page: &mut Octets) -> Result<(), ElfError> {
        put_text(page, self.command)?;
        put_text(page, ": ")?;
        self.name.put(page)?;
        put_text(page, ": ")?;
        self.text.put(page)?;
        put_text(page, "\n")
    }
}

/// `section S: TEXT`, what is wrong with a section.
#[derive(Clone, Copy)]
pub struct InSection<T> {
    /// The section.
    pub section: u32,
    /// What is wrong with it.
    pub text: T,
}

impl<T: Line> Line for InSection<T> {
    ghost text = { λ s. section_message s.section (T.text s.text) };

    #[tactic(auto, using(crate::proofs::Rows::kept), unfolding(crate::specs::Messages::section_message))]
    fn put(&self, page: &mut Octets) -> Result<(), ElfError> {
        put_text(page, "section ")?;
        put_decimal(page, u64::from(self.section))?;
        put_text(page, ": ")?;
        self.text.put(page)
    }
}

/// A text of its own.
impl Line for &str {
    ghost text = { λ t. t.now };

    fn put(&self, page: &mut Octets) -> Result<(), ElfError> {
        put_text(page, self)
    }
}

/// Bytes that need not be text.
impl Line for &[u8] {
    ghost text = { λ b. b.now };

    fn put(&self, page: &mut Octets) -> Result<(), ElfError> {
        put_bytes(page, self)
    }
}

/// The text of an error.
impl Line for ElfError {
    ghost text = { error_text };

    fn put(&self, page: &mut Octets) -> Result<(), ElfError> {
        put_error(page, self)
    }
}
