//! The instructions of a line number program (DWARF 4, 6.2.5), read one at a time.

ghost use Rattle.std.specs.Prelude.{◌≡◌, ◌<◌, ◌≤◌, length, OnOk};
ghost use Rattle.elf_types.specs.Answers.{FollowsBy};
ghost use Rattle.line_table.specs.Program.{operation_at, extended_at, extended_in, standard_at, address_in, passed};
ghost use Rattle.line_table.specs.Outcomes.{why_of};
ghost use Rattle.line_table.specs.Views.{seen};

use crate::faults::{LineWhy, UnitFault};
use crate::header::Header;
use crate::opcodes::{
    DW_LNE_DEFINE_FILE, DW_LNE_END_SEQUENCE, DW_LNE_SET_ADDRESS, DW_LNS_ADVANCE_LINE,
    DW_LNS_ADVANCE_PC, DW_LNS_CONST_ADD_PC, DW_LNS_COPY, DW_LNS_FIXED_ADVANCE_PC,
    DW_LNS_NEGATE_STMT, DW_LNS_SET_BASIC_BLOCK, DW_LNS_SET_COLUMN, DW_LNS_SET_EPILOGUE_BEGIN,
    DW_LNS_SET_FILE, DW_LNS_SET_ISA, DW_LNS_SET_PROLOGUE_END, EXTENDED,
};
use crate::reader::Reader;
use elf_types::{Class, Octets};
use std::alloc::Global;

/// What an instruction does, with its operand.
#[derive(Drop)]
pub enum Operation {
    /// A special opcode, less `opcode_base`.
    Special(u8),
    /// `DW_LNS_copy`.
    Copy,
    /// `DW_LNS_advance_pc`.
    AdvancePc(u64),
    /// `DW_LNS_advance_line`, with a signed number modulo 2 to the power of 64.
    AdvanceLine(u64),
    /// `DW_LNS_set_file`.
    SetFile(u64),
    /// `DW_LNS_set_column`.
    SetColumn(u64),
    /// `DW_LNS_negate_stmt`.
    NegateStmt,
    /// `DW_LNS_const_add_pc`.
    ConstAddPc,
    /// `DW_LNS_fixed_advance_pc`.
    FixedAdvancePc(u16),
    /// `DW_LNE_end_sequence`.
    EndSequence,
    /// `DW_LNE_set_address`.
    SetAddress(u64),
    /// `DW_LNE_define_file`, with the file's name.
    DefineFile(Octets),
    /// An instruction that changes no register of the table and appends no row.
    Nothing,
}

/// The next instruction. It fails with `Cut` where one of its parts passes the unit or its extended
/// opcode, and `Address` where an address is not as wide as one of the class.
#[tactic(auto, unfolding(crate::specs::Program::operation_at))]
pub fn read_operation(
    alloc: Global,
    header: &Header,
    reader: &mut Reader,
) -> Result<Operation, UnitFault>
    ensures value { FollowsBy (λ o. (o, reader.new)) why_of result
        (operation_at (seen header.now) reader.old) }
    ensures shorter { OnOk result (length reader.new < length reader.old) }
{
    let opcode = reader.read_u8()?;
    if opcode >= header.opcode_base {
        return Ok(Operation::Special(opcode - header.opcode_base));
    }
    if opcode == EXTENDED {
        return read_extended(alloc, header, reader);
    }
    read_standard(header, opcode, reader)
}

/// The instruction of a standard opcode, which was read.
#[tactic(auto, unfolding(crate::proofs::Words::standard))]
fn read_standard(header: &Header, opcode: u8, reader: &mut Reader) -> Result<Operation, UnitFault>
    requires above { 0 < opcode }
    requires below { opcode < header.now.opcode_base }
    ensures value { FollowsBy (λ o. (o, reader.new)) why_of result
        (standard_at (seen header.now) opcode reader.old) }
    ensures no_longer { OnOk result (length reader.new ≤ length reader.old) }
{
    match opcode {
        DW_LNS_COPY => Ok(Operation::Copy),
        DW_LNS_ADVANCE_PC => Ok(Operation::AdvancePc(reader.read_leb128(false)?)),
        DW_LNS_ADVANCE_LINE => Ok(Operation::AdvanceLine(reader.read_leb128(true)?)),
        DW_LNS_SET_FILE => Ok(Operation::SetFile(reader.read_leb128(false)?)),
        DW_LNS_SET_COLUMN => Ok(Operation::SetColumn(reader.read_leb128(false)?)),
        DW_LNS_NEGATE_STMT => Ok(Operation::NegateStmt),
        DW_LNS_SET_BASIC_BLOCK => Ok(Operation::Nothing),
        DW_LNS_CONST_ADD_PC => Ok(Operation::ConstAddPc),
        DW_LNS_FIXED_ADVANCE_PC => Ok(Operation::FixedAdvancePc(reader.read_u16(header.order)?)),
        DW_LNS_SET_PROLOGUE_END => Ok(Operation::Nothing),
        DW_LNS_SET_EPILOGUE_BEGIN => Ok(Operation::Nothing),
        DW_LNS_SET_ISA => {
            let _isa = reader.read_leb128(false)?;
            Ok(Operation::Nothing)
        }
        _ => {
            pass_operands(header.operand_counts[opcode as usize - 1], reader)?;
            Ok(Operation::Nothing)
        }
    }
}

/// Passes over the operands of an opcode that has no meaning here.
fn pass_operands(count: u8, reader: &mut Reader) -> Result<(), UnitFault>
    ensures value { FollowsBy (λ _. reader.new) why_of result (passed count reader.old) }
    ensures no_longer { OnOk result (length reader.new ≤ length reader.old) }
{
    for _ in 0..count {
        let _operand = reader.read_leb128(false)?;
    }
    Ok(())
}

/// The instruction of an extended opcode, whose 0 was read: it is as long as it says, whatever it
/// holds.
#[tactic(auto, unfolding(crate::specs::Program::extended_at))]
fn read_extended(
    alloc: Global,
    header: &Header,
    reader: &mut Reader,
) -> Result<Operation, UnitFault>
    ensures value { FollowsBy (λ o. (o, reader.new)) why_of result
        (extended_at (seen header.now) reader.old) }
    ensures no_longer { OnOk result (length reader.new ≤ length reader.old) }
{
    let size = reader.read_leb128(false)?;
    let bytes = reader.read_bytes(size)?;
    extended_operation(alloc, header, bytes)
}

/// The instruction in the bytes of an extended opcode.
#[tactic(auto, unfolding(crate::specs::Program::extended_in))]
fn extended_operation(alloc: Global, header: &Header, bytes: &[u8]) -> Result<Operation, UnitFault>
    ensures value { FollowsBy (λ o. o) why_of result (extended_in (seen header.now) bytes.now) }
{
    let mut reader = Reader::new(bytes);
    match reader.read_u8()? {
        DW_LNE_END_SEQUENCE => Ok(Operation::EndSequence),
        DW_LNE_SET_ADDRESS => Ok(Operation::SetAddress(read_address(header, &mut reader)?)),
        DW_LNE_DEFINE_FILE => {
            let name = Octets::from_slice(alloc, reader.read_file()?)?;
            Ok(Operation::DefineFile(name))
        }
        _ => Ok(Operation::Nothing),
    }
}

/// The address that is all of what is left.
#[tactic(auto, unfolding(crate::proofs::Words::address))]
fn read_address(header: &Header, reader: &mut Reader) -> Result<u64, UnitFault>
    ensures value { FollowsBy (λ n. n) why_of result (address_in (seen header.now) reader.old) }
{
    match header.class {
        Class::C32 if reader.len() == 4 => Ok(u64::from(reader.read_u32(header.order)?)),
        Class::C64 if reader.len() == 8 => reader.read_u64(header.order),
        _ => Err(UnitFault::Why(LineWhy::Address)),
    }
}
