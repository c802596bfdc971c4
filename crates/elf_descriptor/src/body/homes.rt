//! Where the sections' homes lie.

ghost use Rattle.std.specs.Prelude.{◌≡◌, ℕ, List, Option};
ghost use Rattle.elf_descriptor.specs.Views.{HasCounts, object_of};
ghost use Rattle.elf_descriptor.specs.Homes.{out_answer};

use crate::body::Body;
use elf_types::ElfError;

impl Body {
    /// Whether a section's home is out of the file; else `NoSection`.
    #[tactic(auto, using(crate::proofs::Rules::out_of_file))]
    pub fn is_out_of_file(&self, s: u32) -> Result<bool, ElfError>
        requires { HasCounts self.now }
        ensures { (image : Option (List ℕ)) (size : ℕ)
            → result ≡ out_answer (object_of image size self.now) s }
    {
        self.check_section(s)?;
        let at = self.cell_at(s);
        Ok(at.cell().out())
    }
}
