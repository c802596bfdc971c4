//! The parts of a symbol's `st_info` and `st_other`, and what they say. These calls take no memory.

ghost use Rattle.std.specs.Prelude.{◌≡◌, ◌/◌, ◌%◌};
ghost use Rattle.elf_types.specs.Symbols.{has_bind, has_type, is_local};

use crate::constants::STB_LOCAL;
use crate::records::Sym;

/// The binding of a symbol, `ELF32_ST_BIND` (gABI chapter 4, "Symbol Table").
pub fn bind(info: u8) -> u8
    ensures { result ≡ info / 16 }
{
    info / 16
}

/// The type of a symbol, `ELF32_ST_TYPE` (gABI chapter 4, "Symbol Table").
pub fn stt(info: u8) -> u8
    ensures { result ≡ info % 16 }
{
    info % 16
}

/// The visibility of a symbol, `ELF32_ST_VISIBILITY` (gABI chapter 4, "Symbol Table").
pub fn vis(other: u8) -> u8
    ensures { result ≡ other % 4 }
{
    other % 4
}

/// Whether a symbol has this binding (gABI chapter 4, "Symbol Table").
pub fn has_bind(x: &Sym, binding: u8) -> bool
    ensures { result ≡ has_bind binding x.now }
{
    bind(x.info) == binding
}

/// Whether a symbol is of this type (gABI chapter 4, "Symbol Table").
pub fn has_type(x: &Sym, kind: u8) -> bool
    ensures { result ≡ has_type kind x.now }
{
    stt(x.info) == kind
}

/// Whether a symbol is not seen outside its file (gABI chapter 4, "Symbol Table", STB_LOCAL).
pub fn is_local(x: &Sym) -> bool
    ensures { result ≡ is_local x.now }
{
    has_bind(x, STB_LOCAL)
}
