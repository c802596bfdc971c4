//! The base bytes of an object.

ghost use Rattle.std.specs.Prelude.{◌≡◌, ◌+◌, ◌≤◌, length, take, drop, IsTrue, OnOk, IfErr};
ghost use Rattle.section_table.specs.elf_outside.Asks.{Asks};

use crate::body::Base;
use crate::descriptor::Elf;
use elf_types::ElfError;
use section_table::prelude::{Source, read};

/// Copies the bytes from the place `at` on into the whole of `buf`.
fn copy_range(bytes: &[u8], at: u64, buf: &mut [u8])
    requires { at + length buf.old ≤ length bytes.now }
    ensures { buf.new ≡ take (length buf.old) (drop at bytes.now) }
{
    let start = at as usize;
    let range = &bytes[start..start + buf.len()];
    buf.copy_from_slice(range);
}

impl<S: Source> Elf<S> {
    /// Copies base bytes, those of the image as opened or last settled, from the place `at` on into
    /// the whole of `buf`; the range lies in the base. It fails with `Read` alone and takes no
    /// memory. It loads no section.
    pub fn copy_base(&mut self, at: u64, buf: &mut [u8]) -> Result<(), ElfError>
        requires { at + length buf.old ≤ length self.old.o.base }
        ensures bytes { IsTrue self.old.told
            → OnOk result (buf.new ≡ take (length buf.old) (drop at self.old.o.base)) }
        ensures asks { Asks S.Source result self.old.source self.new.source (length buf.old) }
        ensures stays { self.new ≡ record self.old { source = self.new.source } }
        ensures err { IfErr result (λ e. e ≡ ElfError.Read) }
    {
        match &self.body.base {
            Base::Own(bytes) => {
                copy_range(bytes.as_slice(), at, buf);
                Ok(())
            }
            Base::Source(_) => read(&mut self.src, at, buf),
        }
    }
}
