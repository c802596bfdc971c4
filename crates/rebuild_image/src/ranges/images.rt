//! The image whose parts are ranges of bytes.

ghost use Rattle.std.specs.Prelude.{Some, None, is_some, if◌then◌else◌};
ghost use Rattle.rebuild_image.specs.Ranges.Images.{IsReadyImage, ranged_text, ranged_asks};
ghost use Rattle.rebuild_image.specs.Ranges.Ranges.{kept_of_parts};

use crate::ranges::parts::RangedParts;
use elf_layout::Parts;
use elf_outside::{Sink, Source};
use elf_types::ElfError;
use elf_update_to::{Ground, Page, put_image};
use std::alloc::Global;
use tool_files::Image;

/// An image whose parts are copied, and what is needed to write it in one go.
#[derive(Drop)]
pub struct RangedImage<S: Source> {
    /// Its parts.
    pub parts: RangedParts<S>,
    /// Where they are: those that are not empty, by their places.
    pub plan: Parts,
    /// Its length in bytes.
    pub end: u64,
    /// Where the room for a buffer of it comes from.
    pub alloc: Global,
}

/// The image is written buffer by buffer: of its source each byte of a range of the base is asked
/// for once, and of the base between the parts each that is there.
impl<S: Source> Image for RangedImage<S> {
    type From = S;

    ghost ready = { λ i. IsReadyImage (kept_of_parts S.Source i.parts) i.plan i.end };

    ghost bytes = { λ i. if is_some (S.holds i.parts.source)
        then Some (ranged_text (kept_of_parts S.Source i.parts) i.plan i.end) else None };

    ghost source = { λ i. i.parts.source };

    ghost due = { λ i. ranged_asks (kept_of_parts S.Source i.parts) i.plan i.end };

    fn put_to<K: Sink>(&mut self, sink: &mut K) -> Result<(), ElfError> {
        let mut page = match Page::new(self.alloc) {
            Ok(page) => page,
            Err(e) => return Err(e),
        };
        let ground = Ground {
            kept: self.parts.kept,
            fill: 0,
        };
        put_image(
            &mut self.parts,
            &mut page,
            sink,
            self.plan.as_slice(),
            ground,
            self.end,
        )
    }
}
