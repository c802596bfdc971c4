//! The bytes of a table of relocations, of its symbols and of their names, where all three are in
//! memory: they were read, and nothing in them was edited. Then each row is told from bytes alone.

ghost use Rattle.std.specs.Prelude.{◌≡◌, IfSome};
ghost use Rattle.tool_objects.specs.Steps.{ReadsElf};
ghost use Rattle.readelf_tables.specs.Blocks.AtHand.{AreTableBytes};

use elf_outside::Source;
use elf_types::{Class, Order, Sym};
use readelf_rows::ItemTable;
use tool_objects::at_hand::{item_bytes, load, string_bytes};
use tool_objects::prelude::{Elf, Item};
use tool_output::Stop;

/// The bytes of a table of relocations, of the symbols that it names and of their names.
#[derive(Clone, Copy)]
pub struct TableBytes<'a> {
    /// The class of the object.
    pub class: Class,
    /// Its byte order.
    pub order: Order,
    /// The bytes of the relocations.
    pub relocations: &'a [u8],
    /// The bytes of the symbols.
    pub symbols: &'a [u8],
    /// The bytes of the strings in which their names are.
    pub strings: &'a [u8],
}

/// Reads the bytes of a table, of the section that it links to and of the one that this links to.
pub fn load_table<S: Source>(elf: &mut Elf<S>, table: ItemTable) -> Result<(), Stop>
    ensures { ReadsElf S.Source result elf.old elf.new }
{
    load(elf, table.section)?;
    load(elf, table.links.linked)?;
    load(elf, table.links.strings)
}

/// The class of an object.
#[tactic(auto, unfolding(elf_object::specs::Object::header_of))]
fn class<S: Source>(elf: &Elf<S>) -> Class
    ensures { result ≡ elf.now.o.header.class }
{
    elf.ehdr().class
}

/// The byte order of an object.
#[tactic(auto, unfolding(elf_object::specs::Object::header_of))]
fn order<S: Source>(elf: &Elf<S>) -> Order
    ensures { result ≡ elf.now.o.header.order }
{
    elf.ehdr().order
}

/// The bytes of a table, of its symbols and of their names, where all are in memory.
pub fn table_at_hand<S: Source, T: Item>(elf: &Elf<S>, table: ItemTable) -> Option<TableBytes<'_>>
    ensures { IfSome result (λ t. AreTableBytes T.kind T.list_of elf.now table t) }
{
    let relocations = item_bytes::<S, T>(elf, table.section)?;
    let symbols = item_bytes::<S, Sym>(elf, table.links.linked)?;
    let strings = string_bytes(elf, table.links.strings)?;
    Some(TableBytes {
        class: class(elf),
        order: order(elf),
        relocations,
        symbols,
        strings,
    })
}
