//! The opcodes of a line number program (DWARF 4, 7.21).

ghost use Rattle.std.specs.Prelude.{◌≡◌, true};
ghost use Rattle.elf_types.specs.Constants.{are_numbers};
ghost use Rattle.line_table.specs.Constants.{extended_opcodes, lengths, standard_opcodes};

/// A row is appended.
pub const DW_LNS_COPY: u8 = 1;
/// Further in addresses, by instructions.
pub const DW_LNS_ADVANCE_PC: u8 = 2;
/// Further in lines.
pub const DW_LNS_ADVANCE_LINE: u8 = 3;
/// Another file.
pub const DW_LNS_SET_FILE: u8 = 4;
/// Another column.
pub const DW_LNS_SET_COLUMN: u8 = 5;
/// `is_stmt` is turned.
pub const DW_LNS_NEGATE_STMT: u8 = 6;
/// The next instruction begins a basic block.
pub const DW_LNS_SET_BASIC_BLOCK: u8 = 7;
/// Further in addresses, as the special opcode 255 goes.
pub const DW_LNS_CONST_ADD_PC: u8 = 8;
/// Further in addresses, by bytes.
pub const DW_LNS_FIXED_ADVANCE_PC: u8 = 9;
/// A function's prologue ends.
pub const DW_LNS_SET_PROLOGUE_END: u8 = 10;
/// A function's epilogue begins.
pub const DW_LNS_SET_EPILOGUE_BEGIN: u8 = 11;
/// Another instruction set.
pub const DW_LNS_SET_ISA: u8 = 12;

/// The opcode that begins an extended one.
pub const EXTENDED: u8 = 0;

/// The sequence ends.
pub const DW_LNE_END_SEQUENCE: u8 = 1;
/// Another address.
pub const DW_LNE_SET_ADDRESS: u8 = 2;
/// A file more.
pub const DW_LNE_DEFINE_FILE: u8 = 3;

/// Each constant is the number that is beside its name in the tables of specs/Constants. It is for
/// the reader and for proofs, and does nothing.
pub fn constants_are()
    ensures standard { are_numbers standard_opcodes ≡ true }
    ensures extended { are_numbers extended_opcodes ≡ true }
    ensures lengths { are_numbers lengths ≡ true }
{}
