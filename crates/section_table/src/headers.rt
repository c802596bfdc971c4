//! The present headers of sections.

ghost use Rattle.std.specs.Prelude.{◌≡◌, ◌*◌, ◌<◌, ◌≤◌, ◌++◌, ◌∷◌, [], length, slice_index_or, slice_set, OnOk, OnErr, IfOk, IfErr, vec_capacity};
ghost use Rattle.elf_types.specs.declared.constants.TheConstants.{MAX_SECTIONS};
ghost use Rattle.elf_types.specs.declared.errors.ElfError.TheVariants.{Memory};
ghost use Rattle.section_data.specs.elf_ident.Front.{zero_shdr};
ghost use Rattle.section_table.specs.Tables.{present};

use crate::lists::{make_room, put_last};
use crate::tables::HeaderTable;
use elf_types::{ElfError, Shdr, Shdrs};
use std::alloc::Global;
use std::marker::Model;

/// The present headers of sections. As long as none changed since they were opened they are those
/// of the table that is in the image, which is not copied. Memory for the copy is kept from the
/// beginning and not touched, so that a header changes without any.
#[derive(Drop)]
pub(crate) struct Headers {
    opened: HeaderTable,
    /// All headers, once one changed; else none.
    own: Vec<Shdr>,
}

impl Model for Headers {
    ghost use Rattle.std.specs.Prelude.{List, ◌≤◌, length, vec_capacity};
    ghost use Rattle.elf_types.specs.declared.records.Shdr.{Shdr as Header};
    ghost use Rattle.section_table.specs.Tables.{present};

    ghost Value = { List Header };

    ghost view = { λ h. present h.opened h.own.items };

    ghost invariant = { λ h. length h.opened ≤ vec_capacity h.own };
}

/// The present headers, by the table that was opened and the others.
#[inline(always)]
fn present<'a>(opened: &'a HeaderTable, own: &'a Vec<Shdr>) -> &'a [Shdr]
    ensures { result.now ≡ present opened.now own.now.items }
{
    if own.is_empty() {
        return opened.as_slice();
    }
    own.as_slice()
}

/// Copies the headers of the table that was opened where there are no others yet. There is room for
/// them, so it takes no memory.
fn copy_once(opened: &HeaderTable, own: &mut Vec<Shdr>)
    requires { length opened.now ≤ vec_capacity own.old }
    ensures items { own.new.items ≡ present opened.now own.old.items }
    ensures room { vec_capacity own.old ≤ vec_capacity own.new }
{
    if !own.is_empty() {
        return;
    }
    let headers = opened.as_slice();
    let _copied = own.extend_from_slice(headers);
}

/// Adds a header to a list at the end, and makes room for some `besides` where it must be moved. It
/// fails with `Memory` alone, and then nothing changes.
#[inline(always)]
fn push_to(own: &mut Vec<Shdr>, header: Shdr, besides: usize) -> Result<(), ElfError>
    requires { besides ≤ 3 * MAX_SECTIONS }
    ensures ok { OnOk result (own.new.items ≡ own.old.items ++ header ∷ []) }
    ensures unchanged { OnErr result (own.new.items ≡ own.old.items) }
    ensures room { vec_capacity own.old ≤ vec_capacity own.new }
    ensures err { IfErr result (λ e. e ≡ Memory) }
{
    make_room(own, 1, besides)?;
    put_last(own, header);
    Ok(())
}

impl Headers {
    /// No headers. It takes no memory.
    pub(crate) fn new(alloc: Global) -> Headers
        ensures { result ≡ [] }
    {
        Headers {
            opened: HeaderTable::of(Shdrs::new(alloc)),
            own: Vec::new(alloc),
        }
    }

    /// The headers of a table that was opened. It fails with `Memory` alone.
    pub(crate) fn over(alloc: Global, opened: HeaderTable) -> Result<Headers, ElfError>
        ensures ok { IfOk result (λ h. h ≡ opened) }
        ensures err { IfErr result (λ e. e ≡ Memory) }
    {
        let own = Vec::with_capacity(alloc, opened.len() as usize)?;
        Ok(Headers { opened, own })
    }

    /// The number of the headers. It takes no memory.
    #[inline(always)]
    pub(crate) fn len(&self) -> usize
        ensures { result ≡ length self.now }
    {
        present(&self.opened, &self.own).len()
    }

    /// The header with a number that is there. It takes no memory.
    #[inline(always)]
    pub(crate) fn at(&self, s: u32) -> &Shdr
        requires { s < length self.now }
        ensures { result.now ≡ slice_index_or self.now s zero_shdr }
    {
        &present(&self.opened, &self.own)[s as usize]
    }

    /// Stores a header at a number that is there. It takes no memory.
    pub(crate) fn set(&mut self, s: u32, header: Shdr)
        requires { s < length self.old }
        ensures { self.new ≡ slice_set self.old s header }
    {
        copy_once(&self.opened, &mut self.own);
        self.own[s as usize] = header;
    }

    /// Adds a header at the end, and makes room for some `besides` where the headers must be moved.
    /// It fails with `Memory` alone, and then nothing changes.
    pub(crate) fn push(&mut self, header: Shdr, besides: usize) -> Result<(), ElfError>
        requires { besides ≤ 3 * MAX_SECTIONS }
        ensures ok { OnOk result (self.new ≡ self.old ++ header ∷ []) }
        ensures unchanged { OnErr result (self.new ≡ self.old) }
        ensures err { IfErr result (λ e. e ≡ Memory) }
    {
        copy_once(&self.opened, &mut self.own);
        push_to(&mut self.own, header, besides)
    }
}
