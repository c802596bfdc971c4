//! Whether values fit their fields in a class. In class 64 every value does.

ghost use Rattle.std.specs.Prelude.{Bool, ◌≡◌};
ghost use Rattle.elf_types.specs.declared.records.Class.{Class};
ghost use Rattle.elf_types.specs.declared.records.Class.TheVariants.{C32};
ghost use Rattle.elf_xlate.specs.Fields.{class_of, fits, fits_signed};
ghost use Rattle.elf_xlate.specs.Items.{info_fits, sym_fits, rel_fits, rela_fits, dyn_fits};
ghost use Rattle.elf_xlate.specs.Headers.{ehdr_fits, phdr_fits, shdr_fits};
ghost use Rattle.elf_xlate.specs.Translation.{first_not, first_unfit};

use crate::content::Items;
use elf_types::{Class, Dyn, Ehdr, Phdr, Rel, Rela, Shdr, Sym};

/// Whether a number fits a field of four bytes in class 32 and of eight in class 64.
pub fn number_fits(class: Class, n: u64) -> bool
    ensures { result ≡ fits class n }
{
    match class {
        Class::C32 => n < 1 << 32,
        Class::C64 => true,
    }
}

/// Whether a signed number does, from -2^31 to 2^31 - 1 in class 32.
pub fn signed_fits(class: Class, n: i64) -> bool
    ensures { result ≡ fits_signed class n }
{
    match class {
        Class::C32 => -(1 << 31) <= n && n < 1 << 31,
        Class::C64 => true,
    }
}

/// Whether the symbol's index and the type of a relocation fit its `r_info`.
pub fn relocation_fits(class: Class, sym: u32, rtype: u32) -> bool
    ensures { result ≡ info_fits class sym rtype }
{
    match class {
        Class::C32 => sym < 1 << 24 && rtype < 1 << 8,
        Class::C64 => true,
    }
}

/// Whether a header's fields fit its class: in class 32 the entry and the places of the two tables
/// are below 2^32. The two counts and the string index are not looked at. It takes no memory.
///
/// Source: gABI chapter 4, "ELF Header".
#[tactic(auto, unfolding(crate::specs::Headers::ehdr_fits))]
pub fn ehdr_fits(h: &Ehdr) -> bool
    ensures { result ≡ ehdr_fits h.now }
{
    number_fits(h.class, h.entry) && number_fits(h.class, h.phoff) && number_fits(h.class, h.shoff)
}

/// Whether a program header's fields fit a class: in class 32 all are below 2^32. It takes no
/// memory.
///
/// Source: gABI chapter 5, "Program Header".
#[tactic(auto, unfolding(crate::specs::Headers::phdr_fits))]
pub fn phdr_fits(p: &Phdr, class: Class) -> bool
    ensures { result ≡ phdr_fits class p.now }
{
    number_fits(class, p.offset)
        && number_fits(class, p.vaddr)
        && number_fits(class, p.paddr)
        && number_fits(class, p.filesz)
        && number_fits(class, p.memsz)
        && number_fits(class, p.align)
}

/// Whether a section header's fields fit a class: in class 32 all are below 2^32. It takes no
/// memory.
///
/// Source: gABI chapter 4, "Sections".
#[tactic(auto, unfolding(crate::specs::Headers::shdr_fits))]
pub fn shdr_fits(h: &Shdr, class: Class) -> bool
    ensures { result ≡ shdr_fits class h.now }
{
    number_fits(class, h.flags)
        && number_fits(class, h.addr)
        && number_fits(class, h.offset)
        && number_fits(class, h.size)
        && number_fits(class, h.addralign)
        && number_fits(class, h.entsize)
}

/// The index of the first item that does not fit its fields in a class, or None exactly where all
/// fit. In class 32 a number of four bytes is below 2^32 and a signed one from -2^31 to 2^31 - 1,
/// the index of a relocation's symbol is below 2^24 and its type below 2^8. It takes no memory.
///
/// Source: gABI chapter 4, "Data Representation" and "Relocation".
#[tactic(auto, using(crate::proofs::Broad::none_unfit))]
pub fn unfit(items: &Items, class: Class) -> Option<u64>
    ensures { result ≡ first_unfit class items.now }
{
    match class {
        Class::C32 => narrow_unfit(items),
        Class::C64 => None,
    }
}

/// The index of the first item that does not fit class 32.
#[tactic(auto, unfolding(crate::specs::Translation::first_unfit))]
fn narrow_unfit(items: &Items) -> Option<u64>
    ensures { result ≡ first_unfit C32 items.now }
{
    match items {
        Items::Empty | Items::Bytes(_) | Items::Half(_) | Items::Word(_) => None,
        Items::Addr(l) => index_of(first_not_narrow(l.as_slice())),
        Items::Sym(l) => index_of(first_not_narrow(l.as_slice())),
        Items::Rel(l) => index_of(first_not_narrow(l.as_slice())),
        Items::Rela(l) => index_of(first_not_narrow(l.as_slice())),
        Items::Dyn(l) => index_of(first_not_narrow(l.as_slice())),
    }
}

/// The index of the first item of a list that does not fit class 32.
fn first_not_narrow<T: Fit>(items: &[T]) -> Option<usize>
    ensures { result ≡ first_not (T.fitting C32) items.now }
{
    items.iter().position(|item| !item.fits_class(Class::C32))
}

/// An index as a number of 64 bits.
fn index_of(index: Option<usize>) -> Option<u64>
    ensures { result ≡ index }
{
    match index {
        Some(i) => Some(i as u64),
        None => None,
    }
}

/// Class 64 or class 32 as a value.
pub(crate) fn class<const WIDE: bool>() -> Class
    ensures { result ≡ class_of WIDE }
{
    if WIDE { Class::C64 } else { Class::C32 }
}

/// An item that may not fit its fields in class 32.
pub(crate) trait Fit {
    // Whether it fits.
    ghost fitting: { Class → Self → Bool };

    /// Whether the item fits its fields in a class.
    fn fits_class(&self, class: Class) -> bool
        ensures { result ≡ fitting class self.now };
}

impl Fit for u64 {
    ghost fitting = { fits };

    fn fits_class(&self, class: Class) -> bool {
        number_fits(class, *self)
    }
}

impl Fit for Sym {
    ghost fitting = { sym_fits };

    #[tactic(auto, unfolding(crate::specs::Items::sym_fits))]
    fn fits_class(&self, class: Class) -> bool {
        number_fits(class, self.value) && number_fits(class, self.size)
    }
}

impl Fit for Rel {
    ghost fitting = { rel_fits };

    #[tactic(auto, unfolding(crate::specs::Items::rel_fits))]
    fn fits_class(&self, class: Class) -> bool {
        number_fits(class, self.offset) && relocation_fits(class, self.sym, self.rtype)
    }
}

impl Fit for Rela {
    ghost fitting = { rela_fits };

    #[tactic(auto, unfolding(crate::specs::Items::rela_fits))]
    fn fits_class(&self, class: Class) -> bool {
        number_fits(class, self.offset)
            && relocation_fits(class, self.sym, self.rtype)
            && signed_fits(class, self.addend)
    }
}

impl Fit for Dyn {
    ghost fitting = { dyn_fits };

    #[tactic(auto, unfolding(crate::specs::Items::dyn_fits))]
    fn fits_class(&self, class: Class) -> bool {
        signed_fits(class, self.tag) && number_fits(class, self.val)
    }
}
