//! Dirty marks, the flag of a layout of the caller's, and the fill byte.

ghost use Rattle.std.specs.Prelude.{◌≡◌, ◌<◌, ℕ, List, Option, length, not, ◌&&◌, if◌then◌else◌, false, OnOk, OnErr};
ghost use Rattle.elf_types.specs.Answers.{answered, refused_if};
ghost use Rattle.elf_types.specs.declared.errors.ElfError.TheVariants.{FlagKept};
ghost use Rattle.elf_types.specs.declared.records.Part.{Part};
ghost use Rattle.elf_types.specs.declared.records.Part.TheVariants as part;
ghost use Rattle.section_table.specs.elf_object.Answers.{has_dirty, has_layout};
ghost use Rattle.section_table.specs.elf_object.Steps.{is_whole, with_mark, with_layout, with_flags};
ghost use Rattle.section_table.specs.elf_object.Calls.{flag_refusal};
ghost use Rattle.section_table.specs.elf_object.Calls as calls;
ghost use Rattle.elf_descriptor.specs.Views.{HasCounts, object_of, scn_at, ready_of};
ghost use Rattle.elf_descriptor.specs.Edits.{IsStepped, IsThere};

use crate::body::Body;
use elf_types::{DIRTY, ElfError, LAYOUT, Part};

/// Whether bits have the flag of a dirty part.
fn has_dirty(bits: u32) -> bool
    ensures { result ≡ has_dirty bits }
{
    bits / DIRTY % 2 == 1
}

/// Whether bits have the flag of a layout of the caller's.
fn has_layout(bits: u32) -> bool
    ensures { result ≡ has_layout bits }
{
    bits / LAYOUT % 2 == 1
}

/// Whether a part has the flag of a layout of the caller's.
fn is_whole(part: Part) -> bool
    ensures { result ≡ is_whole part }
{
    match part {
        Part::Object => true,
        Part::Table => true,
        _ => false,
    }
}

/// Whether flags that are set or cleared mark a part.
fn is_marking(set: bool, bits: u32) -> bool
    ensures { result ≡ (set && has_dirty bits) }
{
    set && has_dirty(bits)
}

/// Whether flags of a part set or clear that of a layout of the caller's.
fn is_laying_out(part: Part, bits: u32) -> bool
    ensures { result ≡ (is_whole part && has_layout bits) }
{
    is_whole(part) && has_layout(bits)
}

/// Whether no dirty mark would be cleared; else `FlagKept`.
fn check_kept(set: bool, bits: u32) -> Result<(), ElfError>
    ensures { result ≡ answered (refused_if (not set && has_dirty bits) FlagKept) tt }
{
    if !set && has_dirty(bits) {
        return Err(ElfError::FlagKept);
    }
    Ok(())
}

impl Body {
    /// Marks a section dirty.
    fn mark_section(&mut self, s: u32)
        requires { s < length self.old.sections }
        ensures step { IsStepped (λ o. with_mark o (part.Section s)) (ready_of self.old)
            self.old self.new }
        ensures there { IsThere self.new (part.Section s) }
    {
        self.sections.mark(s);
    }

    /// Marks a piece dirty.
    fn mark_piece(&mut self, s: u32, p: u32)
        requires section { s < length self.old.sections }
        requires piece { p < length (scn_at self.old s).cell.pieces }
        ensures step { IsStepped (λ o. with_mark o (part.Piece s p)) (ready_of self.old)
            self.old self.new }
        ensures there { IsThere self.new (part.Piece s p) }
    {
        let cell = self.sections.cell_mut(s);
        cell.mark(p);
    }

    /// Marks a part dirty that is there; the section header table has the mark of the object.
    fn mark(&mut self, part: Part)
        requires { IsThere self.old part }
        ensures step { IsStepped (λ o. with_mark o part) (ready_of self.old) self.old self.new }
        ensures there { IsThere self.new part }
    {
        match part {
            Part::Object => self.marked = true,
            Part::Table => self.marked = true,
            Part::Header => self.header_marked = true,
            Part::Segments => self.segments_marked = true,
            Part::Section(s) => self.mark_section(s),
            Part::Piece(s, p) => self.mark_piece(s, p),
        }
    }

    /// Marks a part dirty that is there, where it is to be.
    #[tactic(auto, using(crate::proofs::EditSteps::mark_then, crate::proofs::EditSteps::mark_else))]
    fn mark_if(&mut self, dirty: bool, part: Part)
        requires { IsThere self.old part }
        ensures step { IsStepped (λ o. if dirty then with_mark o part else o) (ready_of self.old)
            self.old self.new }
        ensures there { IsThere self.new part }
    {
        if dirty {
            self.mark(part);
        }
    }

    /// Stores whether the layout is the caller's, where it is to be.
    #[tactic(auto, using(crate::proofs::Rules::layout))]
    fn set_layout_if(&mut self, whole: bool, layout: bool)
        ensures step { IsStepped (λ o. if whole then with_layout o layout else o) (ready_of self.old)
            self.old self.new }
        ensures there { (p : Part) → IsThere self.old p → IsThere self.new p }
    {
        if whole {
            self.layout = layout;
        }
    }

    /// Sets the flags that bits have, or clears that of a layout of the caller's.
    fn set_flags(&mut self, part: Part, set: bool, bits: u32)
        requires { IsThere self.old part }
        ensures step { IsStepped (λ o. with_flags o part set bits) (ready_of self.old)
            self.old self.new }
        ensures there { IsThere self.new part }
    {
        self.mark_if(is_marking(set, bits), part);
        self.set_layout_if(is_laying_out(part, bits), set);
    }

    /// Whether flags of a part can be set or cleared; else `NoSection`, `NoData`, then `FlagKept`.
    fn check_flag(&self, part: Part, set: bool, bits: u32) -> Result<(), ElfError>
        requires { HasCounts self.now }
        ensures answer { (image : Option (List ℕ)) (size : ℕ)
            → result ≡ answered (flag_refusal (object_of image size self.now) part set bits) tt }
        ensures there { OnOk result (IsThere self.now part) }
    {
        if let Err(e) = self.check_part(part) {
            return Err(e);
        }
        check_kept(set, bits)
    }

    /// Sets or clears flags of a part, and returns those that it has then; else `NoSection`,
    /// `NoData`, then `FlagKept`.
    pub fn flag(&mut self, part: Part, set: bool, bits: u32) -> Result<u32, ElfError>
        requires { HasCounts self.old }
        ensures answer { (image : Option (List ℕ)) (size : ℕ)
            → result ≡ (calls.flag part set bits).answer (object_of image size self.old) }
        ensures step { OnOk result
            (IsStepped (calls.flag part set bits).after (ready_of self.old) self.old self.new) }
        ensures unchanged { OnErr result (self.new ≡ self.old) }
    {
        if let Err(e) = self.check_flag(part, set, bits) {
            return Err(e);
        }
        self.set_flags(part, set, bits);
        Ok(self.part_flags(part))
    }

    /// Stores the fill byte.
    pub fn set_fill(&mut self, byte: u8)
        ensures { IsStepped (calls.set_fill byte).after false self.old self.new }
    {
        self.fill = byte;
        self.ready = false;
    }
}
