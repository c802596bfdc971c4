//! Executing a line number program (DWARF 4, 6.2.5), instruction by instruction.

ghost use Rattle.std.specs.Prelude.{◌+◌, ◌<◌, ◌^◌, length, OnOk};
ghost use Rattle.elf_types.specs.Answers.{FollowsBy};
ghost use Rattle.line_table.specs.Table.{turn};
ghost use Rattle.line_table.specs.Units.{executed};
ghost use Rattle.line_table.specs.Outcomes.{why_of, stated_fault};
ghost use Rattle.line_table.specs.Views.{seen};

use crate::faults::{LineFault, UnitFault};
use crate::header::Header;
use crate::operations::read_operation;
use crate::reader::Reader;
use crate::rows::{FileNames, Registers, Table};
use elf_types::List;
use std::alloc::Global;

/// The table of a unit whose program begins at a place of the section: its files, to which the
/// program adds, and its rows. A fault has the place of the first instruction that is not well
/// formed or cannot be executed.
pub fn execute(
    alloc: Global,
    header: &Header,
    at: u64,
    program: &[u8],
    files: FileNames,
) -> Result<Table, LineFault>
    requires { at + length program.now < 2 ^ 64 }
    ensures { FollowsBy (λ t. (t.files, t.rows)) stated_fault result
        (executed (seen header.now) at files program.now) }
{
    let end = at + program.len() as u64;
    let mut reader = Reader::new(program);
    let mut table = Table {
        registers: Registers::start(header),
        files,
        rows: List::new(alloc),
    };
    while !reader.is_empty() {
        let place = end - reader.len() as u64;
        if let Err(stop) = execute_next(alloc, header, &mut reader, &mut table) {
            return Err(stop.at(place));
        }
    }
    Ok(table)
}

/// Reads and executes one instruction.
#[tactic(auto, unfolding(crate::specs::Table::turn))]
fn execute_next(
    alloc: Global,
    header: &Header,
    reader: &mut Reader,
    table: &mut Table,
) -> Result<(), UnitFault>
    ensures value { FollowsBy (λ _. (table.new, reader.new)) why_of result
        (turn (seen header.now) table.old reader.old) }
    ensures shorter { OnOk result (length reader.new < length reader.old) }
{
    let operation = read_operation(alloc, header, reader)?;
    table.execute(header, operation)
}
