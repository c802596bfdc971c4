//! The header of a unit (DWARF 4, 6.2.4).

ghost use Rattle.std.specs.Prelude.{◌≡◌, ◌+◌, ◌-◌, ◌≤◌, length, IfOk};
ghost use Rattle.elf_types.specs.Answers.{FollowsBy};
ghost use Rattle.line_table.specs.Header.{unit_body_at, unit_length, signed_byte, operations_at, unit_header_at};
ghost use Rattle.line_table.specs.Outcomes.{why_of};

use crate::faults::{LineWhy, UnitFault};
use crate::reader::Reader;
use elf_types::{Class, Order};

/// The first length that stands for another format than the 32-bit one (DWARF 4, 7.4).
pub const FIRST_RESERVED_LENGTH: u32 = 0xffff_fff0;

/// The fields of a unit's header.
#[derive(Drop)]
pub struct Header<'a> {
    /// The class of the image, which says how wide an address is.
    pub class: Class,
    /// The byte order of the image.
    pub order: Order,
    /// `version`.
    pub version: u16,
    /// `header_length`, in bytes.
    pub header_length: u32,
    /// `minimum_instruction_length`, in bytes.
    pub minimum_instruction_length: u8,
    /// Whether `default_is_stmt` is not 0.
    pub default_is_stmt: bool,
    /// `line_base`, a signed byte, modulo 2 to the power of 32.
    pub line_base: u32,
    /// `line_range`.
    pub line_range: u8,
    /// `opcode_base`, the first special opcode.
    pub opcode_base: u8,
    /// `standard_opcode_lengths`: how many operands each opcode below `opcode_base` has, from
    /// opcode 1 on.
    pub operand_counts: &'a [u8],
    ghost counted: { length operand_counts.now ≡ opcode_base - 1 },
}

/// The body of the unit at the start of bytes, which is what `unit_length` counts. It fails with
/// `Cut` where that field passes the bytes, then `Form`, and then `Cut` where the body passes them.
#[tactic(auto, unfolding(crate::proofs::Words::body))]
pub fn read_body(bytes: &[u8], order: Order) -> Result<&[u8], UnitFault>
    ensures value { FollowsBy (λ b. b.now) why_of result (unit_body_at order bytes.now) }
    ensures size { IfOk result
        (λ b. (length b.now ≡ unit_length order bytes.now)
        × (4 + length b.now ≤ length bytes.now)) }
{
    let mut reader = Reader::new(bytes);
    let length = reader.read_u32(order)?;
    if length >= FIRST_RESERVED_LENGTH {
        return Err(UnitFault::Why(LineWhy::Form));
    }
    reader.read_bytes(u64::from(length))
}

/// A signed byte, modulo 2 to the power of 32.
fn signed(byte: u8) -> u32
    ensures { result ≡ signed_byte byte }
{
    if byte < 128 {
        u32::from(byte)
    } else {
        u32::from(byte).wrapping_sub(256)
    }
}

/// `maximum_operations_per_instruction`, which version 4 has alone; 1 stands for it elsewhere.
fn read_maximum_operations(version: u16, reader: &mut Reader) -> Result<u8, UnitFault>
    ensures value { FollowsBy (λ n. (n, reader.new)) why_of result
        (operations_at version reader.old) }
{
    if version == 4 {
        return reader.read_u8();
    }
    Ok(1)
}

impl<'a> Header<'a> {
    ghost use Rattle.line_table.specs.Views.{seen};

    /// The header in a unit's body, and a reader of what follows it. It fails with `Cut` where the
    /// body ends before the version, then `Version`, then `Cut` where it ends before another field,
    /// and then `Ops`.
    #[tactic(auto, unfolding(crate::specs::Reading::bytes_at))]
    pub fn read(
        body: &'a [u8],
        class: Class,
        order: Order,
    ) -> Result<(Header<'a>, Reader<'a>), UnitFault>
        ensures { FollowsBy (λ x. (seen x.0, x.1)) why_of result
            (unit_header_at class order body.now) }
    {
        let mut reader = Reader::new(body);
        let version = reader.read_u16(order)?;
        if !matches!(version, 2..=4) {
            return Err(UnitFault::Why(LineWhy::Version));
        }
        let header_length = reader.read_u32(order)?;
        let minimum_instruction_length = reader.read_u8()?;
        let maximum_operations = read_maximum_operations(version, &mut reader)?;
        let default_is_stmt = reader.read_u8()? != 0;
        let line_base = signed(reader.read_u8()?);
        let line_range = reader.read_u8()?;
        let opcode_base = reader.read_u8()?;
        let operand_counts = reader.read_bytes(u64::from(opcode_base.saturating_sub(1)))?;
        if maximum_operations != 1 {
            return Err(UnitFault::Why(LineWhy::Ops));
        }
        let header = Header {
            class,
            order,
            version,
            header_length,
            minimum_instruction_length,
            default_is_stmt,
            line_base,
            line_range,
            opcode_base,
            operand_counts,
        };
        Ok((header, reader))
    }
}
