//! Opening a unit: what is before its program (DWARF 4, 6.2.4).

ghost use Rattle.std.specs.Prelude.{◌≡◌, ◌+◌, length, IfOk};
ghost use Rattle.elf_types.specs.Answers.{FollowsBy};
ghost use Rattle.line_table.specs.Header.{unit_length, program_of, program_at, opened_unit};
ghost use Rattle.line_table.specs.Outcomes.{why_of};
ghost use Rattle.line_table.specs.Views.{seen, seen_opened, IsPlaced};

use crate::faults::{LineWhy, UnitFault};
use crate::header::{Header, read_body};
use crate::reader::Reader;
use crate::rows::FileNames;
use crate::tables::read_tables;
use elf_types::{Class, Order};
use std::alloc::Global;

/// A unit whose program is still to be executed.
#[derive(Drop)]
pub struct Opened<'a> {
    /// The header.
    pub header: Header<'a>,
    /// The names of the header's files.
    pub files: FileNames,
    /// The program.
    pub program: &'a [u8],
    /// How many bytes the unit takes, of which the program's are the last.
    pub size: u64,
}

/// The unit at the start of bytes. It fails with `Form`, then `Cut` of the length, then `Version`,
/// then `Cut` of the header's fields, then `Ops`, then `Cut` of the directories and the files, and
/// then `Header`.
#[tactic(auto, unfolding(crate::specs::Header::opened_unit))]
pub fn open<'a>(
    alloc: Global,
    bytes: &'a [u8],
    class: Class,
    order: Order,
) -> Result<Opened<'a>, UnitFault>
    ensures value { FollowsBy seen_opened why_of result (opened_unit class order bytes.now) }
    ensures placed { IfOk result
        (λ o. IsPlaced o (unit_length order bytes.now) (length bytes.now)) }
{
    let body = read_body(bytes, order)?;
    let (header, mut reader) = Header::read(body, class, order)?;
    let files = read_tables(alloc, &mut reader)?;
    let program = find_program(&header, body, &reader)?;
    Ok(Opened {
        header,
        files,
        program,
        size: 4 + body.len() as u64,
    })
}

/// The program in a unit's body, where a reader follows the files.
#[tactic(auto, unfolding(crate::specs::Header::program_at, crate::specs::Header::program_refusal))]
fn find_program<'a>(
    header: &Header,
    body: &'a [u8],
    after_files: &Reader,
) -> Result<&'a [u8], UnitFault>
    ensures value { FollowsBy (λ p. p.now) why_of result
        (program_at (seen header.now) body.now after_files.now) }
    ensures size { IfOk result
        (λ p. program_of (seen header.now) + length p.now ≡ length body.now) }
{
    let begin = 6 + header.header_length as usize;
    if header.opcode_base == 0 || begin > body.len() {
        return Err(UnitFault::Why(LineWhy::Header));
    }
    let (_, program) = body.split_at(begin);
    // Where the files end past the program's begin, less is left after them than the program has.
    if after_files.len() < program.len() {
        return Err(UnitFault::Why(LineWhy::Header));
    }
    Ok(program)
}
