//! The names under which a tool reports.

ghost use Rattle.std.specs.Prelude.{◌≡◌, ◌++◌};
ghost use Rattle.tool_output.specs.Names.{file_name, member_name, shown_name, name_ex};

use crate::lines::Line;
use elf_types::{ElfError, Octets, put_bytes, put_text};
use std::marker::Model;

/// The name of a file, or of a member of an archive. Neither need be text. As a line it is `FILE`,
/// or `LIB[MEMBER]`.
#[derive(Drop)]
pub struct FileName<'a> {
    file: &'a [u8],
    member: Option<&'a [u8]>,
}

impl<'a> Model for FileName<'a> {
    ghost use Rattle.std.specs.Option.{option_copied};
    ghost use Rattle.tool_output.specs.Names.{Name};

    ghost Value = { Name };

    ghost view = { λ n. record { file = n.file.now; member = option_copied n.member } };
}

impl<'a> FileName<'a> {
    /// The name of a file.
    pub fn of(file: &'a [u8]) -> FileName<'a>
        ensures { result ≡ file_name file.now }
    {
        FileName { file, member: None }
    }

    /// The name of a member of an archive.
    pub fn of_member(archive: &'a [u8], member: &'a [u8]) -> FileName<'a>
        ensures { result ≡ member_name archive.now member.now }
    {
        FileName {
            file: archive,
            member: Some(member),
        }
    }
}

impl Line for FileName<'_> {
    ghost text = { shown_name };

    #[tactic(auto, using(crate::proofs::Rows::kept), unfolding(crate::specs::Names::shown_name))]
    fn put(&self, page: &mut Octets) -> Result<(), ElfError> {
        put_bytes(page, self.file)?;
        match self.member {
            None => Ok(()),
            Some(member) => {
                put_text(page, "[")?;
                put_bytes(page, member)?;
                put_text(page, "]")
            }
        }
    }
}

/// A name as `FILE`, or `MEMBER (ex LIB)`.
#[derive(Clone, Copy)]
pub struct NameEx<'a> {
    /// The name.
    pub name: &'a FileName<'a>,
}

impl Line for NameEx<'_> {
    ghost text = { λ n. name_ex n.name.now };

    #[tactic(auto, using(crate::proofs::Rows::kept), unfolding(crate::specs::Names::name_ex))]
    fn put(&self, page: &mut Octets) -> Result<(), ElfError> {
        let name = self.name;
        match name.member {
            None => put_bytes(page, name.file),
            Some(member) => {
                put_bytes(page, member)?;
                put_text(page, " (ex ")?;
                put_bytes(page, name.file)?;
                put_text(page, ")")
            }
        }
    }
}
