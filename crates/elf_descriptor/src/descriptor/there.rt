//! What is at an index that is there.

ghost use Rattle.std.specs.Prelude.{◌≡◌, ◌<◌, length, slice_index_or};
ghost use Rattle.section_table.specs.elf_object.Object.{section_at};

use crate::descriptor::Elf;
use elf_types::{Phdr, ScnId, Shdr};
use section_table::prelude::Source;

impl<S: Source> Elf<S> {
    /// The present program header `i`, which is there. It takes no memory.
    ///
    /// Source: gelf_getphdr of gelf(3E).
    #[tactic(auto, unfolding(section_table::specs::Passed::phdr_answer))]
    pub fn phdr_at(&self, i: u32) -> Phdr
        requires { i < length self.now.o.phdrs }
        ensures { result ≡ slice_index_or self.now.o.phdrs i result }
    {
        match self.phdr(i) {
            Ok(header) => header,
            Err(_) => unreachable!(),
        }
    }

    /// The present header of a section that is there. It takes no memory.
    ///
    /// Source: gelf_getshdr of gelf(3E).
    #[tactic(auto, unfolding(section_table::specs::Passed::shdr_answer))]
    pub fn section_header(&self, s: ScnId) -> Shdr
        requires { s.0 < length self.now.o.sections }
        ensures { result ≡ (section_at self.now.o s.0).header }
    {
        match self.shdr(s) {
            Ok(header) => header,
            Err(_) => unreachable!(),
        }
    }
}
