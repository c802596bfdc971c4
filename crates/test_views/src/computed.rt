//! Calls that look at notes and version records, computed on small images by proof.
#![tactic(auto, unfolding(elf_object::proofs::Computing::all_words, crate::proofs::Words::calls))]

ghost use Rattle.std.specs.Prelude.{◌≡◌, ◌∷◌, [], true, false, None, Ok, Err};
ghost use Rattle.elf_types.specs.declared.errors.ElfError.TheVariants.{BadChain, NoData, NoSection, WrongKind};
ghost use Rattle.elf_types.specs.declared.records.Kind.TheVariants as kind;
ghost use Rattle.elf_xlate.specs.declared.content.Items.TheVariants as items;
ghost use Rattle.elf_object.specs.Calls.{step, due, wants, newdata};
ghost use Rattle.elf_object.specs.Samples.{symbols64, third};
ghost use Rattle.gelf_view.specs.Calls.{note, verdaux};

/// What is not a note or a record in a piece of bytes is rejected, and a lend's refusals come
/// first.
fn bytes_are_refused_in_order()
    ensures no_section { (verdaux 9 0 0).answer symbols64 ≡ Err (NoSection 9 3) }
    ensures no_data { (verdaux 1 1 0).answer symbols64 ≡ Err (NoData 1 1) }
    ensures wrong_kind { (note 2 0 0).answer symbols64 ≡ Err (WrongKind kind.Sym) }
    ensures record { (verdaux 1 0 0).answer symbols64 ≡ Err (BadChain 0) }
    ensures note { (note 1 0 1).answer symbols64 ≡ Err (BadChain 1) }
    ensures ended { (note 1 0 3).answer symbols64 ≡ Ok None }
{}

/// A record of a piece is read in the image's order.
fn records_are_read()
    ensures { (verdaux 1 1 0).answer
        (step (newdata 1 (items.Bytes (1 ∷ 0 ∷ 0 ∷ 0 ∷ 0 ∷ 2 ∷ 0 ∷ 0 ∷ []))) symbols64)
        ≡ Ok (record { name = 1; next = 0x200 }) }
{}

/// A call on bytes is due the home of a clean piece, and needs memory where that is not loaded.
fn bytes_are_read_where_they_stand()
    ensures unread { wants (note 1 0 3) symbols64 [] []
        ≡ record { memory = true; read = true } }
    ensures loaded { wants (note 1 0 3) symbols64 (false ∷ true ∷ []) []
        ≡ record { memory = false; read = false } }
    ensures reads { due (verdaux 1 0 0) symbols64 [] ≡ 3 }
    ensures refused { due (note 2 0 0) symbols64 third ≡ 0 }
{}

#[test]
fn calls_compute_on_small_images() {
    bytes_are_refused_in_order();
    records_are_read();
    bytes_are_read_where_they_stand();
}
