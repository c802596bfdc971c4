//! The image of an open file without the sections that are removed, and the new file of it.

ghost use Rattle.std.specs.Prelude.{codes};
ghost use Rattle.strip_tool.specs.Writes.{object_done};

use crate::writing::write_stripped;
use elf_outside::{Files, Sink, Source};
use rebuild_files::prelude::{Elf, ImageCommand};
use std::alloc::Global;
use tool_output::{Outputs, Stop};
use tool_text::Args;

/// What is removed, and the name of the file that is made.
#[derive(Clone, Copy)]
pub struct StripCommand<'a> {
    /// Whether it is debug data alone, and not the symbols too.
    pub debug_only: bool,
    /// The names of the sections that are removed besides.
    pub names: &'a Args,
    /// The name of the file.
    pub out: &'a str,
}

/// The image without the sections that are removed is written to the new file, while the old one is
/// open: what stays as it is is copied range by range. An image that cannot be rebuilt has the
/// message that says why: then no file is made.
impl ImageCommand for StripCommand<'_> {
    ghost named = { λ _. codes "strip" };

    ghost done = { λ t file o. object_done t.debug_only t.names.now file t.out.now o };

    fn name(&self) -> &'static str {
        "strip"
    }

    fn write<S: Source, F: Files, O: Sink, E: Sink>(
        &self,
        alloc: Global,
        elf: Elf<S>,
        file: &[u8],
        files: &mut F,
        outputs: &mut Outputs<'_, O, E>,
    ) -> (S, Result<bool, Stop>) {
        write_stripped(self, alloc, elf, file, files, outputs)
    }
}
