//! Edits of the headers.

ghost use Rattle.std.specs.Prelude.{◌≡◌, ◌<◌, ℕ, List, Option, length, not, ◌&&◌, ◌==◌, nat_le, slice_set, false, [], ◌∷◌, OnOk, OnErr};
ghost use Rattle.elf_types.specs.Answers.{answered, refused_if, first_refusal};
ghost use Rattle.elf_types.specs.declared.errors.ElfError.TheVariants.{NoSection, Unfit};
ghost use Rattle.elf_types.specs.declared.records.Part.TheVariants as part;
ghost use Rattle.section_table.specs.elf_xlate.Headers.{ehdr_fits, phdr_fits, shdr_fits};
ghost use Rattle.section_table.specs.elf_object.Answers.{reserved, no_entry};
ghost use Rattle.section_table.specs.elf_object.Steps.{stored_ehdr};
ghost use Rattle.section_table.specs.elf_object.Calls as calls;
ghost use Rattle.elf_descriptor.specs.Views.{HasCounts, object_of, no_scn};
ghost use Rattle.elf_descriptor.specs.Edits.{IsStepped};

use crate::body::Body;
use elf_types::{Ehdr, ElfError, Part, Phdr, Phdrs, Shdr};
use section_table::prelude::{ehdr_fits, phdr_fits, shdr_fits, stored_ehdr};

/// Whether a section is not section 0; else `Reserved`.
pub(super) fn check_reserved(s: u32) -> Result<(), ElfError>
    ensures answer { result ≡ answered (reserved s) tt }
{
    if s == 0 {
        return Err(ElfError::Reserved);
    }
    Ok(())
}

/// Stores an item of a list.
fn set_item(list: &mut Phdrs, i: u32, p: Phdr)
    requires { i < length list.old }
    ensures { list.new ≡ slice_set list.old i p }
{
    list.as_mut_slice()[i as usize] = p;
}

impl Body {
    /// Whether a string index is 0 or that of a section; else `NoSection`.
    fn check_string_index(&self, s: u32) -> Result<(), ElfError>
        requires { HasCounts self.now }
        ensures answer { result ≡ answered (refused_if
            (not (s == 0) && nat_le (length self.now.sections) s)
            (NoSection s (length self.now.sections))) tt }
    {
        let count = self.header.shnum;
        if s != 0 && s >= count {
            return Err(ElfError::NoSection { index: s, count });
        }
        Ok(())
    }

    /// Whether a header fits with the fields of another stored; else `Unfit`.
    fn check_ehdr_fit(&self, h: &Ehdr) -> Result<(), ElfError>
        ensures answer { result ≡ answered (refused_if
            (not (ehdr_fits (stored_ehdr self.now.header h.now))) (Unfit part.Header 0)) tt }
    {
        if ehdr_fits(&stored_ehdr(&self.header, h)) {
            return Ok(());
        }
        Err(ElfError::Unfit {
            part: Part::Header,
            index: 0,
        })
    }

    /// Whether a header can be stored; else `NoSection`, then `Unfit`.
    fn check_ehdr(&self, h: &Ehdr) -> Result<(), ElfError>
        requires { HasCounts self.now }
        ensures answer { result ≡ answered (first_refusal
            (refused_if (not (h.now.shstrndx == 0)
            && nat_le (length self.now.sections) h.now.shstrndx)
            (NoSection h.now.shstrndx (length self.now.sections))
            ∷ refused_if (not (ehdr_fits (stored_ehdr self.now.header h.now)))
            (Unfit part.Header 0) ∷ [])) tt }
    {
        self.check_string_index(h.shstrndx)?;
        self.check_ehdr_fit(h)
    }

    /// Stores nine fields of a header.
    fn set_ehdr(&mut self, h: &Ehdr)
        ensures { IsStepped (calls.update_ehdr h.now).after false self.old self.new }
    {
        self.header = stored_ehdr(&self.header, h);
        self.header_marked = true;
        self.ready = false;
    }

    /// Stores nine fields of the header; else `NoSection`, then `Unfit`.
    pub fn update_ehdr(&mut self, h: &Ehdr) -> Result<(), ElfError>
        requires { HasCounts self.old }
        ensures answer { (image : Option (List ℕ)) (size : ℕ)
            → result ≡ (calls.update_ehdr h.now).answer (object_of image size self.old) }
        ensures step { OnOk result
            (IsStepped (calls.update_ehdr h.now).after false self.old self.new) }
        ensures unchanged { OnErr result (self.new ≡ self.old) }
    {
        if let Err(e) = self.check_ehdr(h) {
            return Err(e);
        }
        self.set_ehdr(h);
        Ok(())
    }

    /// Whether there is a program header with that number; else `NoEntry`.
    fn check_phdr(&self, i: u32) -> Result<(), ElfError>
        ensures answer { result ≡ answered (no_entry i (length self.now.phdrs)) tt }
        ensures there { OnOk result (i < length self.now.phdrs) }
    {
        let index = u64::from(i);
        let count = self.phdrs.len();
        if index >= count {
            return Err(ElfError::NoEntry { index, count });
        }
        Ok(())
    }

    /// Whether a program header fits; else `Unfit`.
    fn check_phdr_fit(&self, i: u32, p: &Phdr) -> Result<(), ElfError>
        ensures answer { result ≡ answered (refused_if
            (not (phdr_fits self.now.header.class p.now)) (Unfit part.Segments i)) tt }
    {
        if phdr_fits(p, self.header.class) {
            return Ok(());
        }
        Err(ElfError::Unfit {
            part: Part::Segments,
            index: u64::from(i),
        })
    }

    /// Whether a program header can be stored; else `NoEntry`, then `Unfit`.
    fn check_update_phdr(&self, i: u32, p: &Phdr) -> Result<(), ElfError>
        ensures answer { result ≡ answered (first_refusal (no_entry i (length self.now.phdrs)
            ∷ refused_if (not (phdr_fits self.now.header.class p.now)) (Unfit part.Segments i)
            ∷ [])) tt }
        ensures there { OnOk result (i < length self.now.phdrs) }
    {
        self.check_phdr(i)?;
        self.check_phdr_fit(i, p)
    }

    /// Stores a program header.
    fn set_phdr(&mut self, i: u32, p: Phdr)
        requires counts { HasCounts self.old }
        requires there { i < length self.old.phdrs }
        ensures { IsStepped (calls.update_phdr i p).after false self.old self.new }
    {
        set_item(&mut self.phdrs, i, p);
        self.segments_marked = true;
        self.ready = false;
    }

    /// Stores a program header; else `NoEntry`, then `Unfit`.
    pub fn update_phdr(&mut self, i: u32, p: &Phdr) -> Result<(), ElfError>
        requires { HasCounts self.old }
        ensures answer { (image : Option (List ℕ)) (size : ℕ)
            → result ≡ (calls.update_phdr i p.now).answer (object_of image size self.old) }
        ensures step { OnOk result
            (IsStepped (calls.update_phdr i p.now).after false self.old self.new) }
        ensures unchanged { OnErr result (self.new ≡ self.old) }
    {
        if let Err(e) = self.check_update_phdr(i, p) {
            return Err(e);
        }
        self.set_phdr(i, *p);
        Ok(())
    }

    /// Whether a section's header fits; else `Unfit`.
    fn check_shdr_fit(&self, s: u32, h: &Shdr) -> Result<(), ElfError>
        ensures answer { result ≡ answered (refused_if
            (not (shdr_fits self.now.header.class h.now)) (Unfit (part.Section s) 0)) tt }
    {
        if shdr_fits(h, self.header.class) {
            return Ok(());
        }
        Err(ElfError::Unfit {
            part: Part::Section(s),
            index: 0,
        })
    }

    /// Whether a section's header can be stored; else `NoSection`, `Reserved`, then `Unfit`.
    fn check_shdr(&self, s: u32, h: &Shdr) -> Result<(), ElfError>
        requires { HasCounts self.now }
        ensures answer { result ≡ answered (first_refusal (no_scn self.now s ∷ reserved s
            ∷ refused_if (not (shdr_fits self.now.header.class h.now)) (Unfit (part.Section s) 0)
            ∷ [])) tt }
        ensures there { OnOk result (s < length self.now.sections) }
    {
        self.check_section(s)?;
        check_reserved(s)?;
        self.check_shdr_fit(s, h)
    }

    /// Stores a section's header.
    fn set_shdr(&mut self, s: u32, h: Shdr)
        requires { s < length self.old.sections }
        ensures { IsStepped (calls.update_shdr s h).after false self.old self.new }
    {
        self.sections.set_header(s, h);
        self.sections.mark(s);
        self.ready = false;
    }

    /// Stores a section's header; else `NoSection`, `Reserved`, then `Unfit`.
    pub fn update_shdr(&mut self, s: u32, h: &Shdr) -> Result<(), ElfError>
        requires { HasCounts self.old }
        ensures answer { (image : Option (List ℕ)) (size : ℕ)
            → result ≡ (calls.update_shdr s h.now).answer (object_of image size self.old) }
        ensures step { OnOk result
            (IsStepped (calls.update_shdr s h.now).after false self.old self.new) }
        ensures unchanged { OnErr result (self.new ≡ self.old) }
    {
        if let Err(e) = self.check_shdr(s, h) {
            return Err(e);
        }
        self.set_shdr(s, *h);
        Ok(())
    }
}
