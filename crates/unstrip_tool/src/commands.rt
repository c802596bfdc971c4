//! strip with `-f`, as a command by the image of an open file.

ghost use Rattle.std.specs.Prelude.{codes};
ghost use Rattle.unstrip_tool.specs.Writes.{object_split};

use crate::names::HalfNames;
use crate::writing::write_halves;
use elf_outside::{Files, Sink, Source};
use rebuild_files::prelude::ImageCommand;
use rebuild_join::prelude::Elf;
use std::alloc::Global;
use tool_output::{Outputs, Stop};
use tool_text::Args;

/// What is removed, and the names of the files that are made.
#[derive(Clone, Copy)]
pub struct SplitCommand<'a> {
    /// Whether it is debug data alone, and not the symbols too.
    pub debug_only: bool,
    /// The names of the sections that are removed besides.
    pub names: &'a Args,
    /// The files: of what is kept, and of the debug half.
    pub halves: &'a HalfNames<'a>,
}

/// The image without the sections that are removed, and its debug half, are written to new files
/// while the old one is open, the debug half last: what stays as it is is copied range by range. An
/// image that cannot be split has the message that says why: then no file is made.
impl ImageCommand for SplitCommand<'_> {
    ghost named = { λ _. codes "strip" };

    ghost done = { λ t file o. object_split t.debug_only t.names.now t.halves.now file o };

    fn name(&self) -> &'static str {
        "strip"
    }

    fn write<S: Source, F: Files, O: Sink, E: Sink>(
        &self,
        alloc: Global,
        elf: Elf<S>,
        file: &[u8],
        files: &mut F,
        outputs: &mut Outputs<'_, O, E>,
    ) -> (S, Result<bool, Stop>) {
        write_halves(self, alloc, elf, file, files, outputs)
    }
}
