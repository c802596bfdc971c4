//! The fill byte, put over a device.

ghost use Rattle.std.specs.Prelude.{◌≡◌, ◌≤◌, ◌<◌, length};
ghost use Rattle.std.proofs.Math.ListN.{replicate};
ghost use Rattle.elf_update_in_place.specs.Writes.Overwrites.{MayOverwrite, Overwrites};

use elf_outside::Device;
use elf_types::ElfError;
use elf_update_to::prelude::Elf;

/// Puts a byte so many times over the device from the place `at` on. `page` holds that byte alone.
fn write_same<D: Device>(
    elf: &mut Elf<D>,
    page: &[u8],
    at: u64,
    count: u64,
    byte: u8,
) -> Result<(), ElfError>
    requires page { page.now ≡ replicate (length page.now) byte }
    requires room { 0 < length page.now }
    requires may { MayOverwrite D.Source elf.old at count }
    ensures { Overwrites D.Source D.Device.own result elf.old elf.new at (replicate count byte) }
{
    let mut done = 0;
    while done < count {
        let some = (count - done).min(page.len() as u64);
        if let Err(e) = elf.write_base(at + done, &page[..some as usize]) {
            return Err(e);
        }
        done += some;
    }
    Ok(())
}

/// Puts a byte so many times over the device from the place `at` on, buffer by buffer. It fails
/// with `Write` alone, reads nothing and takes no memory.
pub fn write_fill<D: Device>(
    elf: &mut Elf<D>,
    page: &mut [u8],
    at: u64,
    count: u64,
    byte: u8,
) -> Result<(), ElfError>
    requires room { 0 < length page.old }
    requires may { MayOverwrite D.Source elf.old at count }
    ensures filled { Overwrites D.Source D.Device.own result elf.old elf.new at
        (replicate count byte) }
    ensures page { length page.new ≡ length page.old }
{
    if count == 0 {
        return Ok(());
    }
    let some = count.min(page.len() as u64);
    let front = &mut page[..some as usize];
    front.fill(byte);
    write_same(elf, front, at, count, byte)
}
