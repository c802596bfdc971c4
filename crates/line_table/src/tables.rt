//! The tables of directories and files after a unit's header (DWARF 4, 6.2.4, items 11 and 12).

ghost use Rattle.elf_types.specs.Answers.{FollowsBy};
ghost use Rattle.line_table.specs.Reading.{list_at};
ghost use Rattle.line_table.specs.Header.{directory_at, files_at, tables_at};
ghost use Rattle.line_table.specs.Outcomes.{why_of};

use crate::faults::UnitFault;
use crate::reader::Reader;
use crate::rows::FileNames;
use elf_types::{List, Octets};
use std::alloc::Global;

/// The names of the files. It fails with `Cut` where a string or a file passes the unit.
#[tactic(auto, unfolding(crate::specs::Header::tables_at))]
pub fn read_tables(alloc: Global, reader: &mut Reader) -> Result<FileNames, UnitFault>
    ensures { FollowsBy (λ names. (names, reader.new)) why_of result (tables_at reader.old) }
{
    pass_directories(reader)?;
    read_files(alloc, reader)
}

/// Passes over the directories, which are strings that an empty one ends.
fn pass_directories(reader: &mut Reader) -> Result<(), UnitFault>
    ensures { FollowsBy (λ _. reader.new) why_of result (list_at directory_at reader.old).after }
{
    loop {
        let directory = reader.read_string()?;
        if directory.is_empty() {
            return Ok(());
        }
    }
}

/// The names of the files, which a byte 0 ends.
fn read_files(alloc: Global, reader: &mut Reader) -> Result<FileNames, UnitFault>
    ensures { FollowsBy (λ names. (names, reader.new)) why_of result (files_at reader.old) }
{
    let mut names = List::new(alloc);
    loop {
        match reader.read_named_file()? {
            Some(name) => names.push(Octets::from_slice(alloc, name)?)?,
            None => return Ok(names),
        }
    }
}
