//! A cell that is looked at.

ghost use Rattle.std.specs.Prelude.{◌≡◌};
ghost use Rattle.section_table.specs.Sections.{cell_of};

use section_data::Cell;

/// The cell of a section that is looked at: the one that was made, or else one that is made to be
/// looked at, of which nothing is read.
#[derive(Drop)]
pub enum CellAt<'a> {
    /// It was made.
    Made(&'a Cell),
    /// It was not.
    Unread(Cell),
}

impl CellAt<'_> {
    /// The cell. It takes no memory.
    #[inline(always)]
    pub fn cell(&self) -> &Cell
        ensures { result.now ≡ cell_of self.now }
    {
        match self {
            CellAt::Made(cell) => cell,
            CellAt::Unread(cell) => cell,
        }
    }
}
