//! The lines of headers. Each call fails with `Memory` alone; what the buffer held then stays, with
//! some bytes after it.

ghost use Rattle.std.specs.Prelude.{◌≡◌, ◌++◌, OnOk, IfErr};
ghost use Rattle.elf_types.specs.Writers.{WantsMemory};
ghost use Rattle.calls_tool.specs.Lines.{class_text, ehdr_order_text, ehdr_numbers_text, ehdr_text, phdr_text, shdr_text};

use crate::lines::columns::Number::{Decimal, Hex};
use crate::lines::columns::put_columns;
use elf_types::{Class, Ehdr, ElfError, Octets, Order, Phdr, Shdr, put_text};

/// How the line of the ELF header begins, by its class.
#[tactic(auto, unfolding(crate::specs::Lines::class_text))]
fn class_text(class: Class) -> &'static str
    ensures { result.now ≡ class_text class }
{
    match class {
        Class::C32 => "ehdr class 32",
        Class::C64 => "ehdr class 64",
    }
}

/// The text of the byte order.
#[tactic(auto, unfolding(crate::specs::Lines::ehdr_order_text))]
fn order_text(order: Order) -> &'static str
    ensures { result.now ≡ ehdr_order_text order }
{
    match order {
        Order::Least => " order least",
        Order::Greatest => " order greatest",
    }
}

/// Appends the numbers of the ELF header.
#[tactic(auto, unfolding(crate::specs::Lines::ehdr_numbers_text))]
fn put_ehdr_numbers(page: &mut Octets, h: &Ehdr) -> Result<(), ElfError>
    ensures ok { OnOk result (page.new ≡ page.old ++ ehdr_numbers_text h.now) }
    ensures err { IfErr result (WantsMemory page.old page.new) }
{
    put_columns(
        page,
        &[
            (" osabi ", Decimal(u64::from(h.osabi))),
            (" abiversion ", Decimal(u64::from(h.abiversion))),
            (" type ", Decimal(u64::from(h.etype))),
            (" machine ", Decimal(u64::from(h.machine))),
            (" version ", Decimal(u64::from(h.version))),
            (" entry ", Hex(h.entry)),
            (" phoff ", Decimal(h.phoff)),
            (" shoff ", Decimal(h.shoff)),
            (" flags ", Hex(u64::from(h.flags))),
            (" ehsize ", Decimal(u64::from(h.ehsize))),
            (" phentsize ", Decimal(u64::from(h.phentsize))),
            (" phnum ", Decimal(u64::from(h.phnum))),
            (" shentsize ", Decimal(u64::from(h.shentsize))),
            (" shnum ", Decimal(u64::from(h.shnum))),
            (" shstrndx ", Decimal(u64::from(h.shstrndx))),
        ],
    )
}

/// Appends the ELF header.
#[tactic(auto, using(elf_types::proofs::Writers::kept), unfolding(crate::specs::Lines::ehdr_text))]
pub(super) fn put_ehdr(page: &mut Octets, h: &Ehdr) -> Result<(), ElfError>
    ensures ok { OnOk result (page.new ≡ page.old ++ ehdr_text h.now) }
    ensures err { IfErr result (WantsMemory page.old page.new) }
{
    put_text(page, class_text(h.class))?;
    put_text(page, order_text(h.order))?;
    put_ehdr_numbers(page, h)
}

/// Appends a program header.
#[tactic(auto, unfolding(crate::specs::Lines::phdr_text))]
pub(super) fn put_phdr(page: &mut Octets, h: &Phdr) -> Result<(), ElfError>
    ensures ok { OnOk result (page.new ≡ page.old ++ phdr_text h.now) }
    ensures err { IfErr result (WantsMemory page.old page.new) }
{
    put_columns(
        page,
        &[
            ("phdr type ", Hex(u64::from(h.ptype))),
            (" flags ", Hex(u64::from(h.flags))),
            (" offset ", Hex(h.offset)),
            (" vaddr ", Hex(h.vaddr)),
            (" paddr ", Hex(h.paddr)),
            (" filesz ", Hex(h.filesz)),
            (" memsz ", Hex(h.memsz)),
            (" align ", Hex(h.align)),
        ],
    )
}

/// Appends a section header.
#[tactic(auto, unfolding(crate::specs::Lines::shdr_text))]
pub(super) fn put_shdr(page: &mut Octets, h: &Shdr) -> Result<(), ElfError>
    ensures ok { OnOk result (page.new ≡ page.old ++ shdr_text h.now) }
    ensures err { IfErr result (WantsMemory page.old page.new) }
{
    put_columns(
        page,
        &[
            ("shdr name ", Decimal(u64::from(h.name))),
            (" type ", Hex(u64::from(h.stype))),
            (" flags ", Hex(h.flags)),
            (" addr ", Hex(h.addr)),
            (" offset ", Hex(h.offset)),
            (" size ", Hex(h.size)),
            (" link ", Decimal(u64::from(h.link))),
            (" info ", Decimal(u64::from(h.info))),
            (" addralign ", Decimal(h.addralign)),
            (" entsize ", Decimal(h.entsize)),
        ],
    )
}
