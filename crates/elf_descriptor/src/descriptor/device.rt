//! Writes of the device that a descriptor is over.

ghost use Rattle.std.specs.Prelude.{◌≡◌, ◌+◌, ◌≤◌, length, IsTrue, OnOk, OnErr, IfErr};
ghost use Rattle.section_table.specs.elf_outside.Writes.{Resizes, ResizesOrNot};
ghost use Rattle.section_table.specs.elf_outside.Patches.{UsesDevice, Patches};

use crate::descriptor::Elf;
use elf_types::ElfError;
use section_table::prelude::{Device, set_len, write_at};

impl<D: Device> Elf<D> {
    ghost use Rattle.elf_descriptor.specs.Cuts.{MayWrite, MaySize, CutsBase};

    /// Puts `buf` over the bytes of the device from the place `at` on; the range lies in the
    /// device, and the object is ready. No home that shares a place with it rests on the base: it
    /// is loaded, and each piece of its section is marked, as the object is. It fails with `Write`
    /// alone; then each byte of the range is the old one or the new one. It reads nothing and takes
    /// no memory.
    pub fn write_base(&mut self, at: u64, buf: &[u8]) -> Result<(), ElfError>
        requires ready { IsTrue self.old.ready }
        requires within { at + length buf.now ≤ D.size self.old.source }
        requires may { MayWrite self.old at (length buf.now) }
        ensures cuts { CutsBase D.Source self.old self.new }
        ensures patches { Patches D.Source D.Device.own result self.old.source self.new.source
            at buf.now (length buf.now) }
        ensures err { IfErr result (λ e. e ≡ ElfError.Write) }
    {
        let result = write_at(&mut self.src, at, buf);
        let _size = self.src.len();
        result
    }

    /// Cuts the device to `n` bytes, or lengthens it to `n` by zero bytes; the object is ready. No
    /// home that passes the new end rests on the base, as for `write_base`. It fails with `Write`
    /// alone; then the device is as long as before or has that length. It reads nothing and takes
    /// no memory.
    pub fn size_base(&mut self, n: u64) -> Result<(), ElfError>
        requires ready { IsTrue self.old.ready }
        requires may { MaySize self.old n }
        ensures cuts { CutsBase D.Source self.old self.new }
        ensures uses { UsesDevice D.Source D.Device.own result self.old.source self.new.source
            0 0 }
        ensures ok { OnOk result (Resizes (D.size self.old.source) (D.size self.new.source)
            (D.holds self.old.source) (D.holds self.new.source) n) }
        ensures unfinished { OnErr result (ResizesOrNot (D.size self.old.source)
            (D.size self.new.source) (D.holds self.old.source) (D.holds self.new.source) n) }
        ensures err { IfErr result (λ e. e ≡ ElfError.Write) }
    {
        let result = set_len(&mut self.src, n);
        let size = self.src.len();
        self.body.cut_base(size);
        result
    }
}
