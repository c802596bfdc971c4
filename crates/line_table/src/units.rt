//! A unit of a line table.

ghost use Rattle.std.specs.Prelude.{◌≡◌, ◌<◌, ◌≤◌, ◌↔◌, length, IfOk, IfSome, Ok, None};
ghost use Rattle.elf_types.specs.Answers.{FollowsBy};
ghost use Rattle.line_table.specs.Units.{unit_of, unit_at};
ghost use Rattle.line_table.specs.Outcomes.{stated_fault};

use crate::faults::LineFault;
use crate::opening::{Opened, open};
use crate::program::execute;
use crate::rows::{FileNames, Rows};
use elf_types::{Class, Order};
use std::alloc::Global;

/// A unit of a `.debug_line` section: the table of one compilation unit's lines.
#[derive(Drop)]
pub struct Unit {
    /// The unit's place in the section, in bytes.
    pub at: u64,
    /// The place of the next unit: where this one ends.
    pub next: u64,
    /// The version of its format, which is that of the DWARF standard: 2, 3 or 4.
    pub version: u16,
    /// The names of its files: those of the header, and then those that the program adds.
    pub files: FileNames,
    /// Its rows.
    pub rows: Rows,
}

/// The unit at a place of a `.debug_line` section, or None exactly where the place is the section's
/// end. The places of a unit that is not well formed are those in the section.
///
/// It rejects a unit, at the unit's place, by the first of these that holds: `Form`, `Cut` of
/// `unit_length`, `Version`, `Cut` of the header's fields, `Ops`, `Cut` of the directories and the
/// files, `Header`. Else it fails at the first opcode that is `Cut`, `Address` or `Range`; where
/// one opcode is both, `Cut` comes before `Address`. `Memory` comes alone where memory runs out.
///
/// Source: DWARF 2, 3 and 4, section 6.2, in the 32-bit format.
#[tactic(auto, unfolding(crate::specs::Units::unit_at))]
pub fn unit_at(
    alloc: Global,
    bytes: &[u8],
    at: u64,
    class: Class,
    order: Order,
) -> Result<Option<Unit>, LineFault>
    requires { at ≤ length bytes.now }
    ensures value { FollowsBy (λ unit. unit) stated_fault result
        (unit_at class order bytes.now at) }
    ensures none { (result ≡ Ok None) ↔ (at ≡ length bytes.now) }
    ensures next { IfOk result
        (λ found. IfSome found (λ unit. (at < unit.next) × (unit.next ≤ length bytes.now))) }
{
    if at == bytes.len() as u64 {
        return Ok(None);
    }
    let unit = read_unit(alloc, bytes, at, class, order)?;
    Ok(Some(unit))
}

/// The unit at a place.
fn read_unit(
    alloc: Global,
    bytes: &[u8],
    at: u64,
    class: Class,
    order: Order,
) -> Result<Unit, LineFault>
    requires { at ≤ length bytes.now }
    ensures value { FollowsBy (λ unit. unit) stated_fault result
        (unit_of class order bytes.now at) }
    ensures next { IfOk result (λ unit. (at < unit.next) × (unit.next ≤ length bytes.now)) }
{
    let (_, unit) = bytes.split_at(at as usize);
    let opened = match open(alloc, unit, class, order) {
        Ok(opened) => opened,
        Err(stop) => return Err(stop.at(at)),
    };
    let Opened {
        header,
        files,
        program,
        size,
    } = opened;
    let next = at + size;
    let table = execute(alloc, &header, next - program.len() as u64, program, files)?;
    Ok(Unit {
        at,
        next,
        version: header.version,
        files: table.files,
        rows: table.rows,
    })
}
