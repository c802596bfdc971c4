//! Calls that store one field, the section of a symbol, strings, and what a call may read, computed
//! on small images by proof.
#![tactic(auto, unfolding(crate::proofs::Computing::all_words))]

ghost use Rattle.std.specs.Prelude.{[], ◌≡◌, ℕ, ◌+◌, ◌^◌, ◌∷◌, true, false, Some, None, Ok, Err};
ghost use Rattle.elf_types.specs.declared.errors.ElfError.TheVariants.{Memory, NoEntry, NoSection, NoString, NotStrings, OutOfFile, Overlap, Read, TooMany, Unended, Unfit, WrongKind};
ghost use Rattle.elf_types.specs.declared.records.Kind.TheVariants as kind;
ghost use Rattle.elf_ident.specs.elf_xlate.declared.content.Items.TheVariants as items;
ghost use Rattle.elf_types.specs.declared.records.Part.TheVariants as part;
ghost use Rattle.elf_object.specs.Words.{AlikeBytes, AlikeItems, Answers, AnswersRead, Edits, IsLike, Updates, handing_back, late_after, result_map, seen};
ghost use Rattle.elf_object.specs.Object.{header_of, no_phdr};
ghost use Rattle.elf_object.specs.Calls.{step, due, wants, ehdr, section_data, raw, word, sym, sym_answer, update_sym, phdr_answer, newscn, newdata_aligned};
ghost use Rattle.elf_object.specs.SymbolSections.{symshndx};
ghost use Rattle.elf_object.specs.Strings.{strptr};
ghost use Rattle.elf_object.specs.Runs.{addall, left_by, set_ehdr, set_item, set_phdr, set_shdr};
ghost use Rattle.elf_object.specs.Samples.{out_of_memory, type_set, link_set, entry_set, shstrndx_set, vaddr_set, value_set, section_of, symbols64, symbols32, ragged, missing, indexed, extended, third, wanting, no_symbol};

use elf_types::{ElfError, Words};

/// One field of the ELF header is stored where it fits, and the others stay.
fn a_field_of_the_header_is_stored()
    ensures stored { (set_ehdr (entry_set 0x10)).answer symbols64 ≡ Ok tt }
    ensures left { header_of (step (set_ehdr (entry_set 0x10)) symbols64)
        ≡ record (header_of symbols64) { entry = 0x10 } }
    ensures no_section { (set_ehdr (shstrndx_set 3)).answer symbols64 ≡ Err (NoSection 3 3) }
    ensures unfit { (set_ehdr (entry_set (2 ^ 32))).answer symbols32 ≡ Err (Unfit part.Header 0) }
{}

/// One field of a program header is stored.
fn a_field_of_a_program_header_is_stored()
    ensures stored { (set_phdr 0 (vaddr_set 0x10)).answer extended ≡ Ok tt }
    ensures left { phdr_answer (step (set_phdr 0 (vaddr_set 0x10)) extended) 0
        ≡ Ok (record no_phdr { vaddr = 0x10 }) }
    ensures no_entry { (set_phdr 1 (vaddr_set 0x10)).answer extended ≡ Err (NoEntry 1 1) }
{}

/// The section of a symbol is its index, a special one, or what the table of extended indexes has.
fn symbols_have_sections()
    ensures numbered { (section_of 2 0 0).answer indexed ≡ Ok (true, 0) }
    ensures special { (section_of 2 0 1).answer symbols64 ≡ Ok (false, 0xfff1) }
    ensures extended { (section_of 2 0 1).answer indexed ≡ Ok (true, 7) }
    ensures no_symbol { (section_of 2 0 2).answer indexed ≡ Err (NoEntry 2 2) }
    ensures no_table { (section_of 2 0 1).answer (step (set_shdr 1 (link_set 0)) indexed)
        ≡ Err (NoEntry 1 0) }
    ensures other_kind { (section_of 2 0 1).answer
        (left_by (set_shdr 1 (link_set 2) ∷ set_shdr 1 (type_set 18) ∷ []) symbols64)
        ≡ Ok (false, 0xfff1) }
{}

/// A symbol's section is due the home of the table of extended indexes where the symbol has such an
/// index, and for any symbol over a source that does not tell its bytes.
fn sections_of_symbols_are_due_both_homes()
    ensures numbered { due (section_of 2 0 0) indexed [] ≡ 48 }
    ensures extended { due (section_of 2 0 1) indexed [] ≡ 48 + 8 }
    ensures untold { due (symshndx false (λ n. n) (λ n. n) 2 0 0) indexed [] ≡ 48 + 8 }
    ensures no_symbol { due (section_of 2 0 2) indexed [] ≡ 48 }
    ensures no_table { due (section_of 2 0 1) (step (set_shdr 1 (link_set 0)) indexed) [] ≡ 48 }
    ensures loaded { due (section_of 2 0 1) indexed (false ∷ false ∷ true ∷ []) ≡ 8 }
{}

/// A string ends at the first NUL of the piece that covers its offset, and the first refusal
/// counts.
fn strings_are_found_in_their_piece()
    ensures found { (strptr 1 1).answer symbols64 ≡ Ok (0x61 ∷ []) }
    ensures empty { (strptr 1 0).answer symbols64 ≡ Ok [] }
    ensures no_section { (strptr 3 0).answer symbols64 ≡ Err (NoSection 3 3) }
    ensures not_strings { (strptr 2 0).answer symbols64 ≡ Err (NotStrings 2) }
    ensures missing { (strptr 2 0).answer (step (set_shdr 2 (type_set 3)) missing)
        ≡ Err (OutOfFile 2) }
    ensures no_string { (strptr 1 3).answer symbols64 ≡ Err (NoString 3 3) }
    ensures between { (strptr 1 3).answer
        (step (newdata_aligned 1 (items.Bytes (0x62 ∷ [])) 4) symbols64) ≡ Err (NoString 3 5) }
    ensures unended { (strptr 1 4).answer
        (step (newdata_aligned 1 (items.Bytes (0x62 ∷ [])) 4) symbols64) ≡ Err (Unended 4) }
    ensures reads { due (strptr 1 1) symbols64 [] ≡ 3 }
    ensures refused { due (strptr 2 0) symbols64 [] ≡ 0 }
{}

/// A call is due the home of its section, as long as that is not loaded and its home piece is
/// clean.
fn calls_are_due_the_home()
    ensures data { due (section_data 2 0) symbols64 [] ≡ 48 }
    ensures loaded { due (section_data 2 0) symbols64 (false ∷ false ∷ true ∷ []) ≡ 0 }
    ensures own { due (section_data 2 0) (step (addall 2 0 16) symbols64) [] ≡ 0 }
    ensures raw { due (raw 2) (step (addall 2 0 16) symbols64) [] ≡ 48 }
    ensures no_entry { due (sym 2 0 2) symbols64 [] ≡ 48 }
    ensures header { due ehdr symbols64 [] ≡ 0 }
{}

/// A call that is rejected before a home is read is due nothing.
fn refused_calls_are_due_nothing()
    ensures no_section { due (section_data 3 0) symbols64 [] ≡ 0 }
    ensures wrong_kind { (word 2 0 0).answer symbols64 ≡ Err (WrongKind kind.Sym) }
    ensures wrong_kind_due { due (word 2 0 0) symbols64 [] ≡ 0 }
    ensures ragged { due (section_data 2 0) ragged [] ≡ 0 }
    ensures missing { due (raw 2) missing [] ≡ 0 }
{}

/// A call that looks and then stores is due a home once.
fn homes_are_due_once()
    ensures item { due (set_item (sym 2 0 0) (update_sym 2 0 0) (value_set 0x10)) symbols64 []
        ≡ 48 }
{}

/// A call needs memory unless its piece holds its items, and fails to read only where something is
/// due.
fn held_items_want_nothing()
    ensures unread { wants (section_data 2 0) symbols64 [] []
        ≡ record { memory = true; read = true } }
    ensures loaded { wants (section_data 2 0) symbols64 third []
        ≡ record { memory = true; read = false } }
    ensures held { wants (section_data 2 0) symbols64 third third
        ≡ record { memory = false; read = false } }
    ensures own { wants (sym 2 0 0) (step (addall 2 0 16) symbols64) [] []
        ≡ record { memory = false; read = false } }
    ensures edit { wants newscn symbols64 third third ≡ record { memory = true; read = false } }
    ensures store { wants (set_shdr 2 (type_set 1)) symbols64 [] []
        ≡ record { memory = false; read = false } }
{}

/// Out of memory and a failed read come after the stated refusals, and in a call that reads a home
/// they may come before those that are found in its items.
fn want_of_memory_comes_after_refusals()
    ensures no_section { Answers true wanting (Err Memory) (sym_answer symbols64 9 0 0) → ⊥ }
    ensures no_entry { Answers true wanting (Err Memory) (sym_answer symbols64 2 0 9) }
    ensures failed { Answers true wanting (Err Read) (sym_answer symbols64 2 0 9) }
    ensures held { Answers false (record wanting { memory = false }) (Err Memory)
        (sym_answer symbols64 2 0 9) → ⊥ }
    ensures loaded { Answers false (record wanting { read = false }) (Err Read)
        (sym_answer symbols64 2 0 0) → ⊥ }
    ensures edit { Edits (Err Read) symbols64 symbols64 (newscn.answer symbols64) symbols64 → ⊥ }
{}

/// In an update out of memory comes in place of a length, of an overlap and of too large an image
/// alone.
fn updates_want_memory_before_overlaps()
    ensures overlap { Updates {S = ℕ} out_of_memory 0 0 (Err (Overlap part.Header part.Table)) 1 }
    ensures too_many { Updates {S = ℕ} out_of_memory 0 0 (Err TooMany) 1 → ⊥ }
{}

/// Where a source does not tell its bytes, a value may come in place of a refusal that only bytes
/// show, and in place of no other.
fn untold_bytes_refuse_late()
    ensures late { AnswersRead {A = ℕ} false wanting (late_after None) (Ok 1) (Err (Unended 3)) }
    ensures told { AnswersRead {A = ℕ} true wanting (late_after None) (Ok 1) (Err (Unended 3)) → ⊥ }
    ensures early { AnswersRead {A = ℕ} false wanting (late_after (Some (NoSection 3 3))) (Ok 1)
        (Err (NoSection 3 3)) → ⊥ }
{}

/// A result that is a reference is seen as the value that is there.
fn shown(bytes: &[u8]) -> Result<&[u8], ElfError>
    ensures answer { Answers true wanting (seen result) (Ok bytes.now) }
    ensures shape { IsLike AlikeBytes (seen result) (Ok bytes.now) }
    ensures with { handing_back bytes.now (seen result) ≡ Ok bytes.now }
{
    Ok(bytes)
}

/// A lend returns the items that are lent.
fn lent(list: &mut Words) -> Result<&mut Words, ElfError>
    ensures answer { Answers true wanting (result_map (λ w. items.Word w.now) result)
        (Ok (items.Word list.old)) }
    ensures shape { IsLike AlikeItems (result_map (λ w. items.Word w.now) result)
        (Ok (items.Word list.old)) }
{
    Ok(list)
}

#[test]
fn calls_compute_on_small_images() {
    a_field_of_the_header_is_stored();
    a_field_of_a_program_header_is_stored();
    symbols_have_sections();
    strings_are_found_in_their_piece();
    sections_of_symbols_are_due_both_homes();
    calls_are_due_the_home();
    refused_calls_are_due_nothing();
    let _answer = shown(&[1]);
    homes_are_due_once();
    held_items_want_nothing();
    want_of_memory_comes_after_refusals();
    updates_want_memory_before_overlaps();
    untold_bytes_refuse_late();
}
