//! Whether an item can be stored.

ghost use Rattle.std.specs.Prelude.{◌≡◌, IfErr};
ghost use Rattle.elf_types.specs.Answers.{answered, IsRefusal};
ghost use Rattle.elf_descriptor.specs.Views.{HasCounts};
ghost use Rattle.elf_descriptor.specs.Stores.{no_store_in};

use crate::body::Body;
use elf_types::{DataId, ElfError};
use section_table::prelude::Storable;

impl Body {
    /// Whether item `i` of a piece of the item's kind can be given that value. It fails with, in
    /// this order: `NoSection`, `NoData`, `WrongKind`, for the clean home piece `OutOfFile` and
    /// `Ragged`, `NoEntry`, `Unfit`. It reads nothing.
    #[tactic(auto, unfolding(crate::specs::Stores::no_store_in))]
    pub fn check_store<T: Storable>(&self, d: DataId, i: u64, item: &T) -> Result<(), ElfError>
        requires { HasCounts self.now }
        ensures answer { result ≡ answered (no_store_in self.now T.kind d.section d.piece i
            (T.fitting self.now.header.class item.now)) tt }
        ensures err { IfErr result IsRefusal }
    {
        self.check_section(d.section)?;
        let at = self.cell_at(d.section);
        at.cell().check_store(d.piece, i, item, self.header.class)
    }
}
