//! The command, by the image of an open file.

ghost use Rattle.std.specs.Prelude.{codes};
ghost use Rattle.rebuild_model.specs.Rehashed.{rehashed};
ghost use Rattle.rehash_tool.specs.Writes.{rehashed_done};

use crate::writing::write_rehashed;
use elf_outside::{Files, Sink, Source};
use std::alloc::Global;
use tool_files::elf_images::ImageCommand;
use tool_files::prelude::Elf;
use tool_output::{Outputs, Stop};

/// rehash, by the name of the file that is made.
#[derive(Clone, Copy)]
pub struct RehashCommand<'a> {
    /// The name.
    pub out: &'a str,
}

/// The hash sections of the image are rebuilt, and what this leaves is written to the new file
/// while the old one is open.
impl ImageCommand for RehashCommand<'_> {
    ghost named = { λ _. codes "rehash" };

    ghost done = { λ t file o. rehashed_done file t.out.now (rehashed o) };

    fn name(&self) -> &'static str {
        "rehash"
    }

    fn write<S: Source, F: Files, O: Sink, E: Sink>(
        &self,
        alloc: Global,
        elf: Elf<S>,
        file: &[u8],
        files: &mut F,
        outputs: &mut Outputs<'_, O, E>,
    ) -> (S, Result<bool, Stop>) {
        let mut elf = elf;
        let written = write_rehashed(alloc, &mut elf, file, self.out, files, outputs);
        (elf.end(), written)
    }
}
