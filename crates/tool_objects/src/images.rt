//! The one image that a command takes.

ghost use Rattle.std.specs.Prelude.{◌≡◌, ◌≤◌, ◌+◌, IfOk, IfSome, is_some};
ghost use Rattle.elf_types.specs.Answers.{Follows};
ghost use Rattle.tool_output.specs.elf_outside.Asks.{Asks};
ghost use Rattle.gelf_view.specs.elf_ident.Front.{front_bytes, most_front_bytes};
ghost use Rattle.gelf_view.specs.elf_descriptor.Begun.{IsBegun, begun_answer, source_after};
ghost use Rattle.tool_objects.specs.Images.{file_object};

use elf_types::ElfError;
use gelf_view::prelude::{Elf, FileKind, kind_of_source};
use std::alloc::Global;
use tool_output::prelude::Source;

/// Begins over what a file holds, for a command that takes one image and no archive: an archive is
/// rejected as `Magic`. It reads at most eight bytes and the front's. With a refusal it hands the
/// source back.
pub fn begin_image<S: Source>(alloc: Global, mut src: S) -> Result<Elf<S>, (S, ElfError)>
    ensures answer { IfSome (S.holds src) (λ image.
        Follows (begun_answer result) (file_object image)) }
    ensures begun { IfOk result (IsBegun S.Source src) }
    ensures told { IfOk result (λ e. e.told ≡ is_some (S.holds src)) }
    ensures asks { Asks S.Source (begun_answer result) src (source_after result)
        (8 + most_front_bytes) }
    ensures bound { IfSome (S.holds src) (λ image.
        S.taken (source_after result) ≤ S.taken src + (8 + front_bytes image)) }
{
    match kind_of_source(&mut src) {
        Ok(FileKind::Archive) => Err((src, ElfError::Magic)),
        Ok(FileKind::Elf) => Elf::begin(alloc, src),
        Ok(FileKind::Other) => Elf::begin(alloc, src),
        Err(e) => Err((src, e)),
    }
}
