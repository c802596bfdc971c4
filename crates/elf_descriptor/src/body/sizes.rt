//! How long a section's data is.

ghost use Rattle.std.specs.Prelude.{◌≡◌, ◌-◌, ◌^◌, min};
ghost use Rattle.elf_types.specs.Answers.{answered};
ghost use Rattle.section_table.specs.section_data.Sizes.{data_size};
ghost use Rattle.elf_descriptor.specs.Views.{HasCounts, scn_at, no_scn};

use crate::body::Body;
use elf_types::ElfError;

impl Body {
    /// Where the last piece of a section ends, at most 2^64 - 1; else `NoSection`.
    #[tactic(auto, using(crate::proofs::Rules::answered))]
    pub fn data_size(&self, s: u32) -> Result<u64, ElfError>
        requires { HasCounts self.now }
        ensures { result ≡ answered (no_scn self.now s)
            (min (data_size self.now.header.class (scn_at self.now s).cell) (2 ^ 64 - 1)) }
    {
        self.check_section(s)?;
        let at = self.cell_at(s);
        Ok(at.cell().size(self.header.class))
    }
}
