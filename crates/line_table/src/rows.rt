//! The rows of a line table, and the registers that make them (DWARF 4, 6.2.2).

ghost use Rattle.std.specs.Prelude.{◌≡◌, Ok};
ghost use Rattle.elf_types.specs.Answers.{FollowsBy};
ghost use Rattle.line_table.specs.Outcomes.{why_of};
ghost use Rattle.line_table.specs.Views.{seen};

use crate::faults::{LineWhy, UnitFault};
use crate::header::Header;
use crate::operations::Operation;
use elf_types::{List, Octets};
use std::alloc::Global;

/// A row of a line table: the source of the instruction at an address.
#[derive(Clone, Copy, Debug, PartialEq, Eq)]
pub struct Row {
    /// The address of the instruction.
    pub address: u64,
    /// The number of the source file, of which the first is 1.
    pub file: u64,
    /// The line in the file, of which the first is 1; 0 where there is none.
    pub line: u32,
    /// The column in the line, of which the first is 1; 0 where there is none.
    pub column: u64,
    /// Whether the instruction is a good place for a breakpoint.
    pub stmt: bool,
    /// Whether the address is the first after the end of a sequence.
    pub end: bool,
}

/// The rows of a line table, in the order of the program.
pub type Rows = List<Row>;

/// The names of a unit's files, of which the first is file 1.
pub type FileNames = List<Octets>;

/// The registers of the line number machine that are in its rows.
#[derive(Clone, Copy)]
pub struct Registers {
    /// The address, modulo 2 to the power of 64.
    pub address: u64,
    /// The file.
    pub file: u64,
    /// The line, modulo 2 to the power of 32.
    pub line: u32,
    /// The column.
    pub column: u64,
    /// Whether the instruction is a good place for a breakpoint.
    pub stmt: bool,
}

impl Registers {
    ghost use Rattle.line_table.specs.Rows.{start, row_of, advanced, moved, fixed_advanced, ranged, advanced_special, const_added};

    /// The registers with which a program and each sequence start.
    pub fn start(header: &Header) -> Registers
        ensures { result ≡ start (seen header.now) }
    {
        Registers {
            address: 0,
            file: 1,
            line: 1,
            column: 0,
            stmt: header.default_is_stmt,
        }
    }

    /// The row that these registers make.
    fn row(&self, end: bool) -> Row
        ensures { result ≡ row_of end self.now }
    {
        Row {
            address: self.address,
            file: self.file,
            line: self.line,
            column: self.column,
            stmt: self.stmt,
            end,
        }
    }

    /// Goes on in addresses, by a count of instructions of the least length.
    fn advance_pc(&mut self, header: &Header, count: u64)
        ensures { self.new ≡ advanced (seen header.now) count self.old }
    {
        let bytes = u64::from(header.minimum_instruction_length).wrapping_mul(count);
        self.address = self.address.wrapping_add(bytes);
    }

    /// Goes on in lines, by a number modulo 2 to the power of 64.
    #[tactic(auto, using(crate::proofs::Digits::sum_mod))]
    fn advance_line(&mut self, count: u64)
        ensures { self.new ≡ moved count self.old }
    {
        self.line = self.line.wrapping_add((count % 0x1_0000_0000) as u32);
    }

    /// Goes on in addresses, by a number of bytes.
    fn fixed_advance_pc(&mut self, bytes: u16)
        ensures { self.new ≡ fixed_advanced bytes self.old }
    {
        self.address = self.address.wrapping_add(u64::from(bytes));
    }

    /// Goes on in addresses and in lines, by a special opcode less `opcode_base`. It fails with
    /// `Range` where `line_range` is 0.
    fn advance_special(&mut self, header: &Header, adjusted: u8) -> Result<(), UnitFault>
        ensures { FollowsBy (λ _. self.new) why_of result
            (ranged (seen header.now) (advanced_special (seen header.now) adjusted self.old)) }
    {
        if header.line_range == 0 {
            return Err(UnitFault::Why(LineWhy::Range));
        }
        self.advance_pc(header, u64::from(adjusted / header.line_range));
        self.advance_line(u64::from(header.line_base) + u64::from(adjusted % header.line_range));
        Ok(())
    }

    /// Goes on in addresses as the special opcode 255 does. It fails with `Range` where
    /// `line_range` is 0.
    fn const_add_pc(&mut self, header: &Header) -> Result<(), UnitFault>
        ensures { FollowsBy (λ _. self.new) why_of result
            (ranged (seen header.now) (const_added (seen header.now) self.old)) }
    {
        if header.line_range == 0 {
            return Err(UnitFault::Why(LineWhy::Range));
        }
        let count = (255 - header.opcode_base) / header.line_range;
        self.advance_pc(header, u64::from(count));
        Ok(())
    }
}

/// What a program has made so far.
#[derive(Drop)]
pub struct Table {
    /// The registers.
    pub registers: Registers,
    /// The names of the files.
    pub files: FileNames,
    /// The rows.
    pub rows: Rows,
}

impl Table {
    ghost use Rattle.line_table.specs.Table.{stepped, shown_in};

    /// Executes an instruction. It fails with `Range` where it would divide by a `line_range` of 0.
    #[tactic(auto, unfolding(crate::specs::Rows::effect))]
    pub fn execute(&mut self, header: &Header, operation: Operation) -> Result<(), UnitFault>
        ensures { FollowsBy (λ _. self.new) why_of result
            (stepped (seen header.now) self.old operation) }
    {
        match operation {
            Operation::Special(adjusted) => {
                self.registers.advance_special(header, adjusted)?;
                self.append_row(false)?;
            }
            Operation::Copy => self.append_row(false)?,
            Operation::AdvancePc(count) => self.registers.advance_pc(header, count),
            Operation::AdvanceLine(count) => self.registers.advance_line(count),
            Operation::SetFile(file) => self.registers.file = file,
            Operation::SetColumn(column) => self.registers.column = column,
            Operation::NegateStmt => self.registers.stmt = !self.registers.stmt,
            Operation::ConstAddPc => self.registers.const_add_pc(header)?,
            Operation::FixedAdvancePc(bytes) => self.registers.fixed_advance_pc(bytes),
            Operation::EndSequence => {
                self.append_row(true)?;
                self.registers = Registers::start(header);
            }
            Operation::SetAddress(address) => self.registers.address = address,
            Operation::DefineFile(name) => self.files.push(name)?,
            Operation::Nothing => {}
        }
        Ok(())
    }

    /// Appends the row that the registers make. It fails with `Memory` alone.
    fn append_row(&mut self, end: bool) -> Result<(), UnitFault>
        ensures { FollowsBy (λ _. self.new) why_of result (Ok (shown_in end self.old)) }
    {
        self.rows.push(self.registers.row(end))?;
        Ok(())
    }
}
