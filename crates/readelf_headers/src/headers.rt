//! The lines of an ELF header.

ghost use Rattle.std.specs.Prelude.{◌≡◌, ◌++◌, OnOk, IfErr};
ghost use Rattle.elf_types.specs.Writers.{WantsMemory};
ghost use Rattle.tool_output.specs.Reports.{Reports};
ghost use Rattle.tool_output.specs.Steps.{LeavesOutputs};
ghost use Rattle.readelf_headers.specs.Header.{class_bits, order_text, header_title, ident_lines, type_lines, place_lines, table_lines, header_lines, header_report};

use elf_outside::Sink;
use elf_types::{Class, Ehdr, ElfError, Octets, Order, etype_name, machine_name, put_text};
use readelf_rows::{put_decimal_field, put_field, put_hex_field, put_name_field};
use tool_output::{Line, Outputs, Stop};

/// The bits of a class.
#[tactic(auto, unfolding(crate::specs::Header::class_bits))]
fn class_bits(class: Class) -> u64
    ensures { result ≡ class_bits class }
{
    match class {
        Class::C32 => 32,
        Class::C64 => 64,
    }
}

/// Which byte comes first.
#[tactic(auto, unfolding(crate::specs::Header::order_text))]
fn order_text(order: Order) -> &'static str
    ensures { result.now ≡ order_text order }
{
    match order {
        Order::Least => "least",
        Order::Greatest => "greatest",
    }
}

/// Appends the first line.
#[tactic(auto, using(elf_types::proofs::Writers::kept), unfolding(crate::specs::Header::header_title))]
fn put_title(page: &mut Octets) -> Result<(), ElfError>
    ensures ok { OnOk result (page.new ≡ page.old ++ header_title) }
    ensures err { IfErr result (WantsMemory page.old page.new) }
{
    put_text(page, "ELF header\n")
}

/// Appends the class, the order and the other fields of the identification.
#[tactic(auto, using(elf_types::proofs::Writers::kept), unfolding(crate::specs::Header::ident_lines))]
fn put_ident(page: &mut Octets, h: &Ehdr) -> Result<(), ElfError>
    ensures ok { OnOk result (page.new ≡ page.old ++ ident_lines h.now) }
    ensures err { IfErr result (WantsMemory page.old page.new) }
{
    put_decimal_field(page, "class", class_bits(h.class))?;
    put_field(page, "order", order_text(h.order))?;
    put_decimal_field(page, "osabi", u64::from(h.osabi))?;
    put_decimal_field(page, "abiversion", u64::from(h.abiversion))
}

/// Appends the type, the machine and the version.
#[tactic(auto, using(elf_types::proofs::Writers::kept), unfolding(crate::specs::Header::type_lines))]
fn put_type(page: &mut Octets, h: &Ehdr) -> Result<(), ElfError>
    ensures ok { OnOk result (page.new ≡ page.old ++ type_lines h.now) }
    ensures err { IfErr result (WantsMemory page.old page.new) }
{
    put_name_field(page, "type", etype_name(h.etype), u64::from(h.etype))?;
    put_name_field(
        page,
        "machine",
        machine_name(h.machine),
        u64::from(h.machine),
    )?;
    put_decimal_field(page, "version", u64::from(h.version))
}

/// Appends the entry, the places of the tables, and the flags.
#[tactic(auto, using(elf_types::proofs::Writers::kept), unfolding(crate::specs::Header::place_lines))]
fn put_places(page: &mut Octets, h: &Ehdr) -> Result<(), ElfError>
    ensures ok { OnOk result (page.new ≡ page.old ++ place_lines h.now) }
    ensures err { IfErr result (WantsMemory page.old page.new) }
{
    put_hex_field(page, "entry", h.entry)?;
    put_decimal_field(page, "phoff", h.phoff)?;
    put_decimal_field(page, "shoff", h.shoff)?;
    put_hex_field(page, "flags", u64::from(h.flags))
}

/// Appends the sizes and the counts of the tables.
#[tactic(auto, using(elf_types::proofs::Writers::kept), unfolding(crate::specs::Header::table_lines))]
fn put_tables(page: &mut Octets, h: &Ehdr) -> Result<(), ElfError>
    ensures ok { OnOk result (page.new ≡ page.old ++ table_lines h.now) }
    ensures err { IfErr result (WantsMemory page.old page.new) }
{
    put_decimal_field(page, "ehsize", u64::from(h.ehsize))?;
    put_decimal_field(page, "phentsize", u64::from(h.phentsize))?;
    put_decimal_field(page, "phnum", u64::from(h.phnum))?;
    put_decimal_field(page, "shentsize", u64::from(h.shentsize))?;
    put_decimal_field(page, "shnum", u64::from(h.shnum))?;
    put_decimal_field(page, "shstrndx", u64::from(h.shstrndx))
}

/// The lines of a header.
#[derive(Clone, Copy)]
struct HeaderLines<'a> {
    /// The header.
    header: &'a Ehdr,
}

impl Line for HeaderLines<'_> {
    ghost text = { λ l. header_lines l.header.now };

    #[tactic(auto, using(elf_types::proofs::Writers::kept), unfolding(crate::specs::Header::header_lines))]
    fn put(&self, page: &mut Octets) -> Result<(), ElfError> {
        let h = self.header;
        put_title(page)?;
        put_ident(page, h)?;
        put_type(page, h)?;
        put_places(page, h)?;
        put_tables(page, h)
    }
}

/// Shows the header. Nothing is rejected.
#[tactic(auto, unfolding(crate::specs::Header::header_report))]
pub fn show_header<O: Sink, E: Sink>(
    header: &Ehdr,
    outputs: &mut Outputs<'_, O, E>,
) -> Result<bool, Stop>
    ensures reports { Reports O.Sink E.Sink result outputs.old outputs.new
        (header_report header.now) }
    ensures leaves { LeavesOutputs O.Sink E.Sink ⊥ result outputs.old outputs.new }
{
    outputs.show(&HeaderLines { header })
}
