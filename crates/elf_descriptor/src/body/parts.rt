//! The parts of an object, and their flags.

ghost use Rattle.std.specs.Prelude.{◌≡◌, ◌<◌, ℕ, List, Option, length, false, OnOk};
ghost use Rattle.elf_types.specs.Answers.{answered};
ghost use Rattle.section_table.specs.elf_object.Answers.{flag_bits, flags_of, part_refusal};
ghost use Rattle.elf_descriptor.specs.Views.{HasCounts, object_of};
ghost use Rattle.elf_descriptor.specs.Edits.{IsThere};

use crate::body::Body;
use elf_types::{DIRTY, DataId, ElfError, LAYOUT, Part};

/// The flags of a part, by its dirty mark and whether `ELF_F_LAYOUT` is set.
fn flag_bits(dirty: bool, layout: bool) -> u32
    ensures { result ≡ flag_bits dirty layout }
{
    let bits = if dirty { DIRTY } else { 0 };
    if layout { bits + LAYOUT } else { bits }
}

impl Body {
    /// Whether a part is there; else `NoSection`, then `NoData`.
    #[tactic(auto, unfolding(crate::proofs::Words::part), using(crate::proofs::Rules::part))]
    pub fn check_part(&self, part: Part) -> Result<(), ElfError>
        requires { HasCounts self.now }
        ensures answer { (image : Option (List ℕ)) (size : ℕ)
            → result ≡ answered (part_refusal (object_of image size self.now) part) tt }
        ensures there { OnOk result (IsThere self.now part) }
    {
        match part {
            Part::Section(s) => self.check_section(s),
            Part::Piece(section, piece) => self.check_piece(DataId { section, piece }),
            _ => Ok(()),
        }
    }

    /// The flags of a part that is there.
    #[tactic(auto, unfolding(crate::proofs::Words::part_flags), using(crate::proofs::Rules::flags))]
    pub fn part_flags(&self, part: Part) -> u32
        requires { IsThere self.now part }
        ensures { (image : Option (List ℕ)) (size : ℕ)
            → result ≡ flags_of (object_of image size self.now) part }
    {
        match part {
            Part::Object => flag_bits(self.marked, self.layout),
            Part::Table => flag_bits(self.marked, self.layout),
            Part::Header => flag_bits(self.header_marked, false),
            Part::Segments => flag_bits(self.segments_marked, false),
            Part::Section(s) => flag_bits(self.marked_at(s), false),
            Part::Piece(s, p) => {
                let at = self.cell_at(s);
                flag_bits(at.cell().is_marked(p), false)
            }
        }
    }
}
