//! The sections of an object.

ghost use Rattle.std.specs.Prelude.{◌≡◌, ◌<◌, ◌≤◌, ◌++◌, ◌∷◌, [], length, map, true, None, IfOk, IfErr, IfSome, OnOk, OnErr, slice_set};
ghost use Rattle.std.specs.Borrow.{sem};
ghost use Rattle.elf_types.specs.declared.constants.TheConstants.{MAX_SECTIONS};
ghost use Rattle.elf_types.specs.declared.errors.ElfError.TheVariants.{Memory};
ghost use Rattle.section_table.specs.Sections.{section_in, opened_scns, new_scn, reopened_scn, cell_of, IsAsOpened, AreNumbered};

use crate::at::CellAt;
use crate::headers::Headers;
use crate::lists::{add_header, cell_room, clear_marks, empty_slots, put_last};
use crate::making::{Form, make};
use crate::tables::HeaderTable;
use elf_types::{Class, ElfError, NULL_SECTION, Shdr};
use section_data::Cell;
use std::alloc::Global;
use std::marker::Model;

/// The sections of an object: of each its present header, whether that is marked dirty, and its
/// cell. The headers are those of the table that was opened, which is not copied until one of them
/// changes. The cell of a section as it was opened is made when it is first lent. Memory for all
/// headers and cells is kept from the beginning and not touched, so that no edit needs any for it.
#[derive(Drop)]
pub struct Sections {
    form: Form,
    headers: Headers,
    marks: Vec<bool>,
    /// Of each section, one more than the place of its cell; 0 where it was not made.
    slots: Vec<u32>,
    cells: Vec<Cell>,
}

impl Model for Sections {
    ghost use Rattle.std.specs.Prelude.{List, vec_capacity};
    ghost use Rattle.section_table.specs.Sections.{SectionView, sections_view, IsSections};

    ghost Value = { List SectionView };

    ghost view = { λ t. sections_view t.form.size t.headers t.marks.items t.slots.items
        t.cells.items };

    ghost invariant = { λ t. IsSections t.headers t.marks.items t.slots.items t.cells.items
        (vec_capacity t.cells) };
}

impl Sections {
    ghost use Rattle.section_table.specs.Lends.{LendsCellAt};

    /// No sections. It takes no memory.
    pub fn new(alloc: Global, class: Class) -> Sections
        ensures { result ≡ [] }
    {
        Sections {
            form: Form {
                alloc,
                class,
                size: 0,
            },
            headers: Headers::new(alloc),
            marks: Vec::new(alloc),
            slots: Vec::new(alloc),
            cells: Vec::new(alloc),
        }
    }

    /// The sections with the headers of a table in an image of `size` bytes: nothing of them is
    /// read, and no header is copied. It fails with `Memory` alone.
    ///
    /// Source: gABI chapter 4, "Sections".
    pub fn opened(
        alloc: Global,
        class: Class,
        table: HeaderTable,
        size: u64,
    ) -> Result<Sections, ElfError>
        requires { length table ≤ MAX_SECTIONS }
        ensures ok { IfOk result (λ l. l ≡ opened_scns size table) }
        ensures err { IfErr result (λ e. e ≡ Memory) }
    {
        let headers = Headers::over(alloc, table)?;
        let count = headers.len();
        let marks = clear_marks(alloc, count)?;
        let slots = empty_slots(alloc, count)?;
        let cells = cell_room(alloc, count)?;
        Ok(Sections {
            form: Form { alloc, class, size },
            headers,
            marks,
            slots,
            cells,
        })
    }

    /// The number of the sections. It takes no memory.
    pub fn count(&self) -> u32
        ensures { result ≡ length self.now }
    {
        self.headers.len() as u32
    }

    /// The present header of a section that is there. It takes no memory.
    pub fn header(&self, s: u32) -> &Shdr
        requires { s < length self.now }
        ensures { result.now ≡ (section_in self.now s).header }
    {
        self.headers.at(s)
    }

    /// Whether a section that is there is marked dirty. It takes no memory.
    pub fn is_marked(&self, s: u32) -> bool
        requires { s < length self.now }
        ensures { result ≡ (section_in self.now s).marked }
    {
        self.marks[s as usize]
    }

    /// The cell of a section that is there, where it was made; else nothing of it is held, and it
    /// has the clean home piece alone. It takes no memory.
    #[inline(always)]
    pub fn made(&self, s: u32) -> Option<&Cell>
        requires { s < length self.now }
        ensures some { IfSome result (λ cell. cell.now ≡ (section_in self.now s).cell) }
        ensures none { result ≡ None → IsAsOpened (section_in self.now s).cell }
    {
        let slot = self.slots[s as usize];
        if slot == 0 {
            return None;
        }
        Some(&self.cells[slot as usize - 1])
    }

    /// The cell of a section that is there, to be looked at. It takes no memory.
    #[inline(always)]
    pub fn at(&self, s: u32) -> CellAt<'_>
        requires { s < length self.now }
        ensures { cell_of result ≡ (section_in self.now s).cell }
    {
        let slot = self.slots[s as usize];
        if slot == 0 {
            let form = self.form;
            let header = self.headers.at(s);
            return CellAt::Unread(Cell::unread(form.alloc, s, form.class, header, form.size));
        }
        CellAt::Made(&self.cells[slot as usize - 1])
    }

    /// The cell of a section that is there, lent for writing: what the borrower leaves is in its
    /// place. It takes no memory.
    pub fn cell_mut(&mut self, s: u32) -> &mut Cell
        requires { s < length self.old }
        ensures* lends { sem 𝓛 (LendsCellAt s self.entry result) }
        ensures value { result.now ≡ (section_in self.old s).cell }
    {
        let form = self.form;
        let place = make(form, s, &self.headers, &mut self.slots, &mut self.cells);
        &mut self.cells[place]
    }

    /// Gives a section that is there another header; its cell stays. It takes no memory.
    pub fn set_header(&mut self, s: u32, header: Shdr)
        requires { s < length self.old }
        ensures { self.new ≡ slice_set self.old s
            (record (section_in self.old s) { header = header }) }
    {
        let form = self.form;
        make(form, s, &self.headers, &mut self.slots, &mut self.cells);
        self.headers.set(s, header);
    }

    /// Marks a section that is there dirty. It takes no memory.
    pub fn mark(&mut self, s: u32)
        requires { s < length self.old }
        ensures { self.new ≡ slice_set self.old s
            (record (section_in self.old s) { marked = true }) }
    {
        self.marks[s as usize] = true;
    }

    /// Adds a new section at the end: a header of zeros, no home and no piece, marked dirty. It
    /// fails with `Memory` alone, and then nothing changes.
    ///
    /// Source: elf_newscn of elf(3E).
    pub fn push_new(&mut self) -> Result<(), ElfError>
        requires { length self.old < MAX_SECTIONS }
        ensures ok { OnOk result
            (self.new ≡ self.old ++ new_scn (length self.old) ∷ []) }
        ensures unchanged { OnErr result (self.new ≡ self.old) }
        ensures err { IfErr result (λ e. e ≡ Memory) }
    {
        let number = self.headers.len() as u32;
        if let Err(e) = add_header(
            &mut self.headers,
            NULL_SECTION,
            &mut self.marks,
            &mut self.slots,
            &mut self.cells,
        ) {
            return Err(e);
        }
        let place = self.cells.len();
        let cell = Cell::fresh(self.form.alloc, number);
        put_last(&mut self.cells, cell);
        put_last(&mut self.slots, place as u32 + 1);
        put_last(&mut self.marks, true);
        Ok(())
    }

    /// Makes each section that of an image of `size` bytes which was written, as its header gives
    /// it: nothing of it is read, its one piece is the clean home piece, and nothing is marked. It
    /// takes no memory.
    ///
    /// Source: elf_update of elf(3E), which leaves what it wrote as what was read.
    pub fn reopen(&mut self, size: u64)
        requires { AreNumbered self.old }
        ensures { self.new ≡ map (reopened_scn size) self.old }
    {
        self.form.size = size;
        self.marks.fill(false);
        self.slots.fill(0);
        self.cells.clear();
    }
}
