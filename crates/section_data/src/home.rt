//! Where a section's data is in the image as it was opened.

ghost use Rattle.std.specs.Prelude.{◌≡◌, ℕ, false};
ghost use Rattle.elf_types.specs.declared.records.Kind.TheVariants as kinds;
ghost use Rattle.elf_object.specs.Object.{no_home};
ghost use Rattle.elf_object.specs.Open.{home_of};
ghost use Rattle.section_data.specs.Views.{home_view, passes_end};

use elf_object::home_len;
use elf_types::{Class, Kind, Shdr, kind_of};

/// A section's home: an extent of the image, and the kind of the items in it.
#[derive(Clone, Copy, Debug, PartialEq, Eq)]
pub struct Home {
    /// The place of its first byte.
    pub at: u64,
    /// The number of its bytes.
    pub len: u64,
    /// The kind of its items.
    pub kind: Kind,
}

impl Home {
    /// The home of a new section: empty, at 0. It takes no memory.
    pub(crate) fn none() -> Home
        ensures { home_view result.at result.len result.kind false ≡ no_home }
    {
        Home {
            at: 0,
            len: 0,
            kind: Kind::Empty,
        }
    }

    /// The home that a section header gives its section. It rejects nothing and takes no memory.
    ///
    /// Source: gABI chapter 4, "Section Header".
    #[tactic(auto, unfolding(elf_object::specs::Open::home_of))]
    pub fn of(class: Class, h: &Shdr) -> Home
        ensures home { (size : ℕ) → home_view result.at result.len result.kind
            (passes_end size result.at result.len) ≡ home_of size h.now }
        ensures empty { result.kind ≡ kinds.Empty → result.len ≡ 0 }
    {
        Home {
            at: h.offset,
            len: home_len(h),
            kind: kind_of(class, h),
        }
    }

    /// Whether the home is not empty and passes the end of an image of `size` bytes. It takes no
    /// memory.
    pub fn passes_end(&self, size: u64) -> bool
        ensures { result ≡ passes_end size self.now.at self.now.len }
    {
        self.len != 0 && (size < self.at || size - self.at < self.len)
    }
}
