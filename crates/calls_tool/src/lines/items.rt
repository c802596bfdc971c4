//! The lines of items. Each call fails with `Memory` alone; what the buffer held then stays, with
//! some bytes after it.

ghost use Rattle.std.specs.Prelude.{◌≡◌, ◌++◌, OnOk, IfErr};
ghost use Rattle.elf_types.specs.Writers.{WantsMemory};
ghost use Rattle.calls_tool.specs.Lines.{sym_text, rel_text, rela_place, rela_text, dyn_text, item_text};

use crate::lines::columns::Number::{Decimal, Hex, Signed};
use crate::lines::columns::{put_column, put_columns};
use elf_calls_apply::PieceItem;
use elf_types::{Dyn, ElfError, Octets, Rel, Rela, Sym};

/// Appends a symbol.
#[tactic(auto, unfolding(crate::specs::Lines::sym_text))]
fn put_sym(page: &mut Octets, s: &Sym) -> Result<(), ElfError>
    ensures ok { OnOk result (page.new ≡ page.old ++ sym_text s.now) }
    ensures err { IfErr result (WantsMemory page.old page.new) }
{
    put_columns(
        page,
        &[
            ("sym name ", Decimal(u64::from(s.name))),
            (" value ", Hex(s.value)),
            (" size ", Decimal(s.size)),
            (" info ", Hex(u64::from(s.info))),
            (" other ", Hex(u64::from(s.other))),
            (" shndx ", Hex(u64::from(s.shndx))),
        ],
    )
}

/// Appends a relocation without an addend.
#[tactic(auto, unfolding(crate::specs::Lines::rel_text))]
fn put_rel(page: &mut Octets, r: &Rel) -> Result<(), ElfError>
    ensures ok { OnOk result (page.new ≡ page.old ++ rel_text r.now) }
    ensures err { IfErr result (WantsMemory page.old page.new) }
{
    put_columns(
        page,
        &[
            ("rel offset ", Hex(r.offset)),
            (" sym ", Decimal(u64::from(r.sym))),
            (" type ", Decimal(u64::from(r.rtype))),
        ],
    )
}

/// Appends the place, the symbol and the type of a relocation with an addend.
#[tactic(auto, unfolding(crate::specs::Lines::rela_place))]
fn put_rela_place(page: &mut Octets, r: &Rela) -> Result<(), ElfError>
    ensures ok { OnOk result (page.new ≡ page.old ++ rela_place r.now) }
    ensures err { IfErr result (WantsMemory page.old page.new) }
{
    put_columns(
        page,
        &[
            ("rela offset ", Hex(r.offset)),
            (" sym ", Decimal(u64::from(r.sym))),
            (" type ", Decimal(u64::from(r.rtype))),
        ],
    )
}

/// Appends a relocation with an addend.
#[tactic(auto, using(elf_types::proofs::Writers::kept), unfolding(crate::specs::Lines::rela_text))]
fn put_rela(page: &mut Octets, r: &Rela) -> Result<(), ElfError>
    ensures ok { OnOk result (page.new ≡ page.old ++ rela_text r.now) }
    ensures err { IfErr result (WantsMemory page.old page.new) }
{
    put_rela_place(page, r)?;
    put_column(page, " addend ", Signed(r.addend))
}

/// Appends an entry of the dynamic section.
#[tactic(auto, unfolding(crate::specs::Lines::dyn_text))]
fn put_dyn(page: &mut Octets, d: &Dyn) -> Result<(), ElfError>
    ensures ok { OnOk result (page.new ≡ page.old ++ dyn_text d.now) }
    ensures err { IfErr result (WantsMemory page.old page.new) }
{
    put_columns(page, &[("dyn tag ", Signed(d.tag)), (" val ", Hex(d.val))])
}

/// Appends an item.
#[tactic(auto, unfolding(crate::specs::Lines::item_text))]
pub(super) fn put_item(page: &mut Octets, item: &PieceItem) -> Result<(), ElfError>
    ensures ok { OnOk result (page.new ≡ page.old ++ item_text item.now) }
    ensures err { IfErr result (WantsMemory page.old page.new) }
{
    match item {
        PieceItem::Byte(n) => put_column(page, "byte ", Hex(u64::from(*n))),
        PieceItem::Half(n) => put_column(page, "half ", Hex(u64::from(*n))),
        PieceItem::Word(n) => put_column(page, "word ", Hex(u64::from(*n))),
        PieceItem::Addr(n) => put_column(page, "addr ", Hex(*n)),
        PieceItem::Sym(s) => put_sym(page, s),
        PieceItem::Rel(r) => put_rel(page, r),
        PieceItem::Rela(r) => put_rela(page, r),
        PieceItem::Dyn(d) => put_dyn(page, d),
    }
}
