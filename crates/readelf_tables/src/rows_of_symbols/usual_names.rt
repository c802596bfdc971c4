//! The words for what a symbol is, as one text, of the symbols that compilers and linkers write
//! most: such a text is found and written once for a row, and not one for each of its three words.

ghost use Rattle.std.specs.Prelude.{◌≡◌, ◌≤◌, length, IfSome};
ghost use Rattle.readelf_tables.specs.RowsOfSymbols.SymbolLines.{symbol_names};

use elf_types::{Sym, vis};

/// ` type T bind B vis V` of a symbol that is seen by default, and is local, global or weak and of a
/// usual type. None of another, whose words are written one by one.
#[tactic(auto, unfolding(crate::specs::RowsOfSymbols::SymbolLines::symbol_names, readelf_rows::specs::Fields::name_column, readelf_rows::specs::Fields::name_or_hex, elf_types::proofs::Words::names))]
#[inline(always)]
pub fn usual_names(x: &Sym) -> Option<&'static str>
    ensures names { IfSome result (λ t. t.now ≡ symbol_names x.now) }
    ensures short { IfSome result (λ t. length t.now ≤ 78) }
{
    if vis(x.other) != 0 {
        return None;
    }
    match x.info {
        0x00 => Some(" type NOTYPE bind LOCAL vis DEFAULT"),
        0x01 => Some(" type OBJECT bind LOCAL vis DEFAULT"),
        0x02 => Some(" type FUNC bind LOCAL vis DEFAULT"),
        0x03 => Some(" type SECTION bind LOCAL vis DEFAULT"),
        0x04 => Some(" type FILE bind LOCAL vis DEFAULT"),
        0x10 => Some(" type NOTYPE bind GLOBAL vis DEFAULT"),
        0x11 => Some(" type OBJECT bind GLOBAL vis DEFAULT"),
        0x12 => Some(" type FUNC bind GLOBAL vis DEFAULT"),
        0x20 => Some(" type NOTYPE bind WEAK vis DEFAULT"),
        0x21 => Some(" type OBJECT bind WEAK vis DEFAULT"),
        0x22 => Some(" type FUNC bind WEAK vis DEFAULT"),
        _ => None,
    }
}
