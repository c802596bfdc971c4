//! The cell of one section.

ghost use Rattle.std.specs.Prelude.{◌≡◌, ◌<◌, ◌-◌, length, slice_index, true, false, IsTrue, is_some, OnOk, OnErr};
ghost use Rattle.std.specs.List.{list_any};
ghost use Rattle.elf_types.specs.declared.records.Kind.TheVariants as kinds;
ghost use Rattle.elf_types.specs.Answers.{answered};
ghost use Rattle.section_table.specs.elf_outside.Asks.{Asks};
ghost use Rattle.section_table.specs.elf_object.Words.{Answers};
ghost use Rattle.section_table.specs.section_data.Leaves.{LiesIn, Warms};
ghost use Rattle.section_table.specs.section_data.Held.{piece_in, kind_in, is_at_hand, cell_is_loaded};
ghost use Rattle.section_table.specs.section_data.Refused.{kind_refused, loading};
ghost use Rattle.elf_descriptor.specs.Dues.{list_due};
ghost use Rattle.section_table.specs.section_data.Views.{IsCell};
ghost use Rattle.elf_descriptor.specs.Held.{IsHeldIn};
ghost use Rattle.elf_descriptor.specs.Rooms.{can_forget};
ghost use Rattle.elf_descriptor.specs.Tables.{HoldsAlone};

use crate::held::Held;
use elf_types::{Class, ElfError, Kind};
use section_table::prelude::{Cell, Source};

/// Makes sure that each item of a piece of a kind is in memory: it is own, or its home is loaded.
/// It fails with, in this order: `NoData`, `WrongKind` with the kind that the piece holds, and for
/// the clean home piece `OutOfFile` and `Ragged`; then `Memory` or `Read`.
pub fn fetch_list<S: Source>(
    cell: &mut Cell,
    src: &mut S,
    p: u32,
    kind: Kind,
    class: Class,
) -> Result<(), ElfError>
    requires lies { LiesIn cell.old (S.size src.old) }
    ensures answer { Answers true (loading (list_due class cell.old kind p)) result
        (answered (kind_refused class cell.old kind p) tt) }
    ensures there { OnOk result (p < length cell.new.pieces) }
    ensures kind { OnOk result (kind_in cell.new p ≡ kind) }
    ensures hand { OnOk result (IsTrue (is_at_hand class cell.new p)) }
    ensures held { cell.new.held ≡ cell.old.held }
    ensures warms { Warms (S.holds src.old) cell.old cell.new }
    ensures unchanged { OnErr result (cell.new ≡ cell.old) }
    ensures own { is_some (piece_in cell.old p).own ≡ true
        → cell.new ≡ cell.old }
    ensures asks { Asks S.Source result src.old src.new
        (list_due class cell.old kind p) }
{
    if let Err(e) = cell.check_lend(p, kind, class) {
        return Err(e);
    }
    cell.fetch(src, p)
}

/// What is held of a piece.
#[tactic(auto, unfolding(section_table::specs::Passed::ready))]
pub fn held_in(cell: &Cell, p: u32) -> Held<'_>
    requires { p < length cell.now.pieces }
    ensures held { IsHeldIn cell.now p result }
    ensures cell { IsCell cell.now }
{
    if cell.is_own(p) {
        return Held::Edited(cell.items(p));
    }
    if cell.is_loaded() {
        return Held::Raw(cell.bytes());
    }
    Held::Unread
}

/// Whether a home holds bytes and is longer than an offset.
#[inline(always)]
fn is_of_bytes(cell: &Cell, offset: u64) -> bool
    ensures kind { result ≡ true → cell.now.home.kind ≡ kinds.Bytes }
    ensures within { result ≡ true → offset < cell.now.home.len }
{
    let home = cell.home();
    home.kind == Kind::Bytes && offset < home.len
}

/// Whether there is one piece, which is clean.
#[inline(always)]
fn has_one_clean(cell: &Cell) -> bool
    ensures alone { result ≡ true → length cell.now.pieces ≡ 1 }
    ensures clean { result ≡ true → is_some (piece_in cell.now 0).own ≡ false }
{
    cell.piece_count() == 1 && !cell.is_own(0)
}

/// Whether a home in the file is loaded.
#[inline(always)]
fn is_held(cell: &Cell) -> bool
    ensures loaded { result ≡ true → cell_is_loaded cell.now ≡ true }
    ensures inside { result ≡ true → cell.now.home.out ≡ false }
{
    cell.is_loaded() && !cell.out()
}

/// Whether the last of bytes is a NUL.
#[inline(always)]
fn end_in_nul(bytes: &[u8]) -> bool
    ensures { result ≡ true → slice_index bytes.now (length bytes.now - 1) ≡ 0 }
{
    let n = bytes.len();
    n != 0 && bytes[n - 1] == 0
}

/// Whether the one piece is the clean home piece, which holds bytes, and its home is in the file,
/// loaded, and longer than an offset. It is told only where a NUL is the last of `ended_bytes`: in
/// them each string ends, so that none is looked for up to the end of the home more than once.
#[inline(always)]
pub fn holds_alone(cell: &Cell, offset: u64) -> bool
    ensures { result ≡ true → HoldsAlone cell.now offset }
{
    if !is_of_bytes(cell, offset) || !has_one_clean(cell) || !is_held(cell) {
        return false;
    }
    end_in_nul(cell.ended_bytes())
}

/// Whether what is held of a home can be read again, of a base of so many bytes: its home piece is
/// clean and not marked, and the home lies in the base.
pub fn can_forget(cell: &Cell, base: u64) -> bool
    ensures { result ≡ can_forget base cell.now }
{
    cell.is_untouched() && !cell.out() && !cell.home().passes_end(base)
}

/// Whether a piece is marked dirty.
#[tactic(auto, unfolding(crate::proofs::Words::piece), using(crate::proofs::Rules::marks))]
pub fn some_piece_marked(cell: &Cell) -> bool
    ensures { result ≡ list_any (λ p. p.marked) cell.now.pieces }
{
    let count = cell.piece_count();
    for p in 0..count {
        if cell.is_marked(p) {
            return true;
        }
    }
    false
}
