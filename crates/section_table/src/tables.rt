//! A table of section headers that may be held twice and is in memory once.

ghost use Rattle.std.specs.Prelude.{◌≡◌, length, IfOk, IfErr};
ghost use Rattle.elf_types.specs.declared.errors.ElfError.TheVariants.{Memory};
ghost use Rattle.section_table.specs.Tables.{listed_in};

use elf_types::{ElfError, Shdr, Shdrs};
use std::alloc::Global;
use std::marker::Model;
use std::rc::Rc;

/// Who holds the headers of a table.
#[derive(Drop)]
pub(crate) enum Holding {
    /// One alone.
    Alone(Shdrs),
    /// Several, or the last of them.
    Shared(Rc<Shdrs>),
}

/// A table of section headers that does not change. A descriptor and its sections hold the one of
/// the image that was opened together, so that it is in memory once. Contracts see it as the list
/// of its headers.
///
/// Source: gABI chapter 4, "Section Header".
#[derive(Drop)]
pub struct HeaderTable {
    held: Holding,
}

impl Model for HeaderTable {
    ghost use Rattle.std.specs.Prelude.{List};
    ghost use Rattle.elf_types.specs.declared.records.Shdr.{Shdr as Header};
    ghost use Rattle.section_table.specs.Tables.{listed_in};

    ghost Value = { List Header };

    ghost view = { λ t. listed_in t.held };
}

/// The headers that are held.
#[inline(always)]
fn headers_in(held: &Holding) -> &[Shdr]
    ensures { result.now ≡ listed_in held.now }
{
    match held {
        Holding::Alone(headers) => headers.as_slice(),
        Holding::Shared(headers) => headers.as_ref().as_slice(),
    }
}

impl HeaderTable {
    /// The table of these headers. It takes no memory.
    pub fn of(headers: Shdrs) -> HeaderTable
        ensures { result ≡ headers }
    {
        HeaderTable {
            held: Holding::Alone(headers),
        }
    }

    /// The table of these headers twice. It takes memory for no header, and fails with `Memory`
    /// alone.
    pub fn shared(alloc: Global, headers: Shdrs) -> Result<(HeaderTable, HeaderTable), ElfError>
        ensures one { IfOk result (λ t. t.0 ≡ headers) }
        ensures other { IfOk result (λ t. t.1 ≡ headers) }
        ensures err { IfErr result (λ e. e ≡ Memory) }
    {
        let one = Rc::new(alloc, headers)?;
        let other = one.clone()?;
        Ok((
            HeaderTable {
                held: Holding::Shared(one),
            },
            HeaderTable {
                held: Holding::Shared(other),
            },
        ))
    }

    /// The headers. It takes no memory.
    #[inline(always)]
    pub fn as_slice(&self) -> &[Shdr]
        ensures { result.now ≡ self.now }
    {
        headers_in(&self.held)
    }

    /// The number of the headers. It takes no memory.
    pub fn len(&self) -> u64
        ensures { result ≡ length self.now }
    {
        self.as_slice().len() as u64
    }
}
