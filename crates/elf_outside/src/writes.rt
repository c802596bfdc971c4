//! Writes to a sink and to a device whose failure is an error of the library.

ghost use Rattle.std.specs.Prelude.{◌≡◌, ◌+◌, ◌≤◌, length, replicate, OnOk, OnErr, IfErr};
ghost use Rattle.elf_outside.specs.Writes.{Resizes, ResizesOrNot};
ghost use Rattle.elf_outside.specs.Puts.{Puts};
ghost use Rattle.elf_outside.specs.Patches.{UsesDevice, Patches};

use crate::devices::Device;
use crate::sinks::Sink;
use crate::sources::Failed;
use elf_types::ElfError;

/// Appends a text to a sink. It fails with `Write` alone and takes no memory.
pub fn put<K: Sink>(out: &mut K, text: &[u8]) -> Result<(), ElfError>
    ensures puts { Puts K.Sink result out.old out.new text.now }
    ensures err { IfErr result (λ e. e ≡ ElfError.Write) }
{
    match out.put(text) {
        Ok(()) => Ok(()),
        Err(Failed) => Err(ElfError::Write),
    }
}

/// Appends `n` zero bytes to a sink. It fails with `Write` alone and takes no memory.
pub fn put_zeros<K: Sink>(out: &mut K, n: u64) -> Result<(), ElfError>
    ensures puts { Puts K.Sink result out.old out.new (replicate n 0) }
    ensures err { IfErr result (λ e. e ≡ ElfError.Write) }
{
    match out.put_zeros(n) {
        Ok(()) => Ok(()),
        Err(Failed) => Err(ElfError::Write),
    }
}

/// Puts a piece over the bytes of a device from the place `at` on. It fails with `Write` alone and
/// takes no memory.
pub fn write_at<D: Device>(device: &mut D, at: u64, piece: &[u8]) -> Result<(), ElfError>
    requires { at + length piece.now ≤ D.size device.old }
    ensures patches { Patches D.Source D.Device.own result device.old device.new at piece.now
        (length piece.now) }
    ensures err { IfErr result (λ e. e ≡ ElfError.Write) }
{
    match device.write_at(at, piece) {
        Ok(()) => Ok(()),
        Err(Failed) => Err(ElfError::Write),
    }
}

/// Cuts a device to `n` bytes, or lengthens it to `n` by zero bytes. It fails with `Write` alone,
/// and then the device is as long as before or has that length. It takes no memory.
pub fn set_len<D: Device>(device: &mut D, n: u64) -> Result<(), ElfError>
    ensures uses { UsesDevice D.Source D.Device.own result device.old device.new 0 0 }
    ensures ok { OnOk result (Resizes (D.size device.old) (D.size device.new)
        (D.holds device.old) (D.holds device.new) n) }
    ensures unfinished { OnErr result (ResizesOrNot (D.size device.old) (D.size device.new)
        (D.holds device.old) (D.holds device.new) n) }
    ensures err { IfErr result (λ e. e ≡ ElfError.Write) }
{
    match device.set_len(n) {
        Ok(()) => Ok(()),
        Err(Failed) => Err(ElfError::Write),
    }
}
