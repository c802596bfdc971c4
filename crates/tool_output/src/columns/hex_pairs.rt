//! Bytes as hexadecimal digits. Each call fails with `Memory` alone; what the buffer held then
//! stays, with some bytes after it.

ghost use Rattle.std.specs.Prelude.{◌≡◌, ◌++◌, ◌*◌, ◌≤◌, length, flat_map, OnOk, IfErr};
ghost use Rattle.elf_types.specs.Writers.{WantsMemory};
ghost use Rattle.tool_output.specs.Columns.HexPairs.{hex_pair};

use elf_types::{ElfError, Octets, put_bytes};

/// How many bytes are turned into digits at once.
const BLOCK: usize = 32;

/// Appends bytes, two hexadecimal digits each, by a buffer for the digits.
fn put_block_by(page: &mut Octets, block: &[u8], digits: &mut [u8]) -> Result<(), ElfError>
    requires { length digits.old ≡ 2 * length block.now }
    ensures ok { OnOk result (page.new ≡ page.old ++ flat_map hex_pair block.now) }
    ensures err { IfErr result (WantsMemory page.old page.new) }
{
    match hex::encode_to_slice(block, digits) {
        Ok(()) => put_bytes(page, digits),
        Err(_) => unreachable!(),
    }
}

/// Appends no more bytes than are turned at once, two hexadecimal digits each.
fn put_block(page: &mut Octets, block: &[u8]) -> Result<(), ElfError>
    requires { length block.now ≤ 32 }
    ensures ok { OnOk result (page.new ≡ page.old ++ flat_map hex_pair block.now) }
    ensures err { IfErr result (WantsMemory page.old page.new) }
{
    let mut digits = [0u8; 2 * BLOCK];
    put_block_by(page, block, &mut digits[..2 * block.len()])
}

/// Appends bytes, two hexadecimal digits each, in small letters.
pub fn put_hex_pairs(page: &mut Octets, bytes: &[u8]) -> Result<(), ElfError>
    ensures ok { OnOk result (page.new ≡ page.old ++ flat_map hex_pair bytes.now) }
    ensures err { IfErr result (WantsMemory page.old page.new) }
{
    for block in bytes.chunks(BLOCK) {
        put_block(page, block)?;
    }
    Ok(())
}
