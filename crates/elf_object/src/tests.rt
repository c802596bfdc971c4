//! The definitions computed on four small images. Each function below states what they give there,
//! and is proved by computation. The values were worked out by hand from the gABI.
#![tactic(auto, unfolding(crate::proofs::Computing::all_words))]

ghost use Rattle.std.specs.Prelude.{[], ◌≡◌, ◌+◌, ◌-◌, ◌^◌, ◌∷◌, ◌++◌, take, drop, slice_set, true, false};
ghost use Rattle.std.proofs.Math.ListN.{replicate};
ghost use Rattle.elf_types.specs.declared.errors.ElfError.TheVariants.{BadAlign, FlagKept, NoSection, OutOfFile, Overlap, Ragged, Reserved, ShTable, Unfit};
ghost use Rattle.elf_types.specs.declared.records.Kind.TheVariants as kind;
ghost use Rattle.elf_types.specs.declared.records.Part.TheVariants as part;
ghost use Rattle.elf_types.specs.declared.records.Class.TheVariants.{C64};
ghost use Rattle.elf_types.specs.declared.records.Order.TheVariants.{Least};
ghost use Rattle.elf_ident.specs.Front.{first_section, header_at, true_counts, true_phnum, true_shnum, true_shstrndx, zero_shdr};
ghost use Rattle.elf_ident.specs.elf_xlate.Headers.{ehdr_bytes, shdr_bytes};
ghost use Rattle.elf_ident.specs.elf_xlate.declared.content.Items.TheVariants.{Bytes, Sym};
ghost use Rattle.elf_object.specs.Object.{header_of, section_at, some_piece_marked};
ghost use Rattle.elf_object.specs.Open.{opened};
ghost use Rattle.elf_object.specs.Answers.{count_at, kind_at};
ghost use Rattle.elf_object.specs.Blocks.{is_covered};
ghost use Rattle.elf_object.specs.Joined.{piece_blocks, pieces_end};
ghost use Rattle.elf_object.specs.Layout.{placed};
ghost use Rattle.elf_object.specs.Derived.{numbered_shdr, written_header};
ghost use Rattle.elf_object.specs.Image.{image};
ghost use Rattle.elf_object.specs.Settled.{settle};
ghost use Rattle.elf_object.specs.Changed.{changed, changed_bytes, fill_places, is_moved, torn};
ghost use Rattle.elf_object.specs.Due.{update_in_place_due, update_to_due};
ghost use Rattle.elf_object.specs.Calls.{step, data_answer, raw_answer, shdr_answer, sym_answer, newdata, newdata_aligned, newphdr, newscn, replace, flag, set_fill, update_null};
ghost use Rattle.elf_object.specs.Runs.{answers_to, left_by, addall, item, set_shdr};
ghost use Rattle.elf_object.specs.Samples.{small64, tailed64, header64, crowded64, flags_set, type_set, offset_set, byte_in, sym_in, object_in, symbols64, symbols32, sections, tailed, numbered64, ragged, missing, shifted, laid, eight_more, grown, typed, two_bytes, extended, spaced, third, named_symbol, no_symbol, typed_shdr, with_shnum, with_shstrndx, with_phnum, first_beside, read_back, moved_twice, typed_and_aligned, flagged_in_turn, stored_value};

/// A symbol is read in both classes and orders.
fn symbols_are_read()
    ensures in_64 { sym_answer symbols64 2 0 1
        ≡ Ok (named_symbol 0x1000) }
    ensures in_32 { sym_answer symbols32 2 0 1
        ≡ Ok (named_symbol 0x1000) }
    ensures items { (item sym_in 2 0 1).answer symbols32 ≡ (item sym_in 2 0 1).answer symbols64 }
    ensures item { (item sym_in 2 0 1).answer symbols64
        ≡ Ok (named_symbol 0x1000) }
    ensures no_section { data_answer symbols64 9 0 ≡ Err (NoSection 9 3) }
{}

/// The count and the string index may be in section 0.
fn extended_numbers_are_read()
    ensures counts { header_of (object_in (numbered64 3)) ≡ header_of symbols64 }
    ensures count { (header_of (object_in (numbered64 3))).shnum ≡ 3 }
    ensures index { (header_of (object_in (numbered64 3))).shstrndx ≡ 1 }
    ensures too_long { opened (numbered64 (2 ^ 60)) ≡ Err ShTable }
{}

/// The header holds counts below `SHN_LORESERVE` itself; from there on section 0 does.
fn extended_numbers_are_written()
    ensures below { written_header (with_shnum 0xfeff)
        ≡ with_shnum 0xfeff }
    ensures from { written_header (record (with_shnum 0xff00) { shstrndx = 0xff00 })
        ≡ record (with_shnum 0) { shstrndx = 0xffff } }
    ensures first { numbered_shdr (record (with_shnum 0xff00) { shstrndx = 0xff00; phnum = 0xffff })
        (record zero_shdr { size = 7; link = 7; info = 7 })
        ≡ record zero_shdr { size = 0xff00; link = 0xff00; info = 0xffff } }
    ensures sections { answers_to (newscn ∷ newscn ∷ update_null ∷ []) (object_in header64)
        ≡ Ok 1 ∷ Ok 2 ∷ Ok 256 ∷ [] }
    ensures bytes { take 2 (drop 60 (image (left_by (newscn ∷ newscn ∷ []) (object_in header64))))
        ≡ 3 ∷ 0 ∷ [] }
{}

/// The bytes of the counts in the ELF header, and of `sh_size` in section 0, on both sides of the
/// border.
fn extended_numbers_have_their_bytes()
    ensures below { take 2 (drop 60 (ehdr_bytes (written_header (with_shnum 0xfeff)) symbols64.pad))
        ≡ 0xff ∷ 0xfe ∷ [] }
    ensures from { take 2 (drop 60 (ehdr_bytes (written_header (with_shnum 0xff00)) symbols64.pad))
        ≡ 0 ∷ 0 ∷ [] }
    ensures first_below { take 8 (drop 32 (shdr_bytes C64 Least (first_beside (with_shnum 0xfeff))))
        ≡ replicate 8 0 }
    ensures first_from { take 8 (drop 32 (shdr_bytes C64 Least (first_beside (with_shnum 0xff00))))
        ≡ 0 ∷ 0xff ∷ replicate 6 0 }
{}

/// What is written is read back as it was, on both sides of each border.
fn extended_numbers_are_read_back()
    ensures sections { read_back true_shnum (with_shnum 0xff00)
        ≡ 0xff00 }
    ensures sections_below { read_back true_shnum (with_shnum 0xfeff)
        ≡ 0xfeff }
    ensures index { read_back true_shstrndx (with_shstrndx 0xff00)
        ≡ 0xff00 }
    ensures segments { read_back true_phnum (with_phnum 0xffff)
        ≡ 0xffff }
    ensures segments_from { (written_header (with_phnum 0x10000)).phnum
        ≡ 0xffff }
    ensures segments_first { (first_beside (with_phnum 0xffff)).info
        ≡ 0xffff }
    ensures segments_below { (written_header (with_phnum 0xfffe)).phnum
        ≡ 0xfffe }
    ensures segments_first_below { (first_beside (with_phnum 0xfffe)).info
        ≡ 0 }
{}

/// The numbers in the bytes of section 0 are the true ones; then the table does not lie in the
/// image.
fn extended_numbers_are_read_from_bytes()
    ensures counts { true_counts (header_at C64 Least crowded64).0
        (first_section (header_at C64 Least crowded64).0 crowded64)
        ≡ record { phnum = 0x10000; shnum = 0xff00; shstrndx = 0xff01 } }
    ensures too_long { opened crowded64 ≡ Err ShTable }
{}

/// A section whose length is no multiple of its items' size.
fn ragged_sections_keep_their_bytes()
    ensures refused { data_answer ragged 2 0 ≡ Err (Ragged 2) }
    ensures bytes { raw_answer ragged 2 ≡ Ok (replicate 24 0 ++ 1 ∷ []) }
{}

/// A section that passes the end of the file.
fn missing_sections_are_refused()
    ensures reading { raw_answer missing 2 ≡ Err (OutOfFile 2) }
    ensures editing { (set_shdr 1 (flags_set 2)).answer missing ≡ Ok tt }
    ensures updating { update_null.answer (step (set_shdr 1 (flags_set 2)) missing)
        ≡ Err (OutOfFile 2) }
{}

/// A section keeps the kind of its header as opened.
fn edited_headers_do_not_decide()
    ensures edited { (set_shdr 2 (type_set 1)).answer symbols64 ≡ Ok tt }
    ensures data { data_answer (step (set_shdr 2 (type_set 1)) symbols64) 2 0
        ≡ data_answer symbols64 2 0 }
    ensures held { data_answer symbols64 2 0
        ≡ Ok (Sym (no_symbol ∷ named_symbol 0x1000 ∷ [])) }
    ensures kind { kind_at (step (set_shdr 2 (type_set 1)) symbols64) 2 0 ≡ kind.Sym }
    ensures count { count_at (step (set_shdr 2 (type_set 1)) symbols64) 2 0 ≡ 2 }
{}

/// 16 added to each symbol's value changes one byte of each symbol.
fn edited_items_show_in_the_image()
    ensures changed { (addall 2 0 16).answer symbols64 ≡ Ok 2 }
    ensures size { update_null.answer shifted ≡ Ok 312 }
    ensures bytes { image shifted ≡ slice_set (slice_set small64 80 0x10) 104 0x10 }
    ensures again { sym_answer (object_in (image shifted)) 2 0 1
        ≡ Ok (named_symbol 0x1010) }
{}

/// A value of 2^32 fits no symbol of class 32: the call that stores it is rejected, and after a
/// lend the update.
fn values_that_do_not_fit_are_refused()
    ensures stored { (stored_value (2 ^ 32)).answer symbols32 ≡ Err (Unfit (part.Piece 2 0) 1) }
    ensures kept { step (stored_value (2 ^ 32)) symbols32 ≡ symbols32 }
    ensures lent { answers_to
        (addall 2 0 (2 ^ 32) ∷ update_null ∷ addall 2 0 0xffffffff00000000 ∷ update_null ∷ [])
        symbols32
        ≡ Ok 2 ∷ Err (Unfit (part.Piece 2 0) 0) ∷ Ok 2 ∷ Ok 208 ∷ [] }
{}

/// With nothing dirty the image is the input, also what follows its last part.
fn clean_images_stay()
    ensures bytes { image tailed ≡ tailed64 }
    ensures size { update_null.answer tailed ≡ Ok 317 }
    ensures kept { step update_null tailed ≡ tailed }
{}

/// With `ELF_F_LAYOUT` section 2 may begin where section 1 ends, and not a byte before.
fn parts_may_not_share_a_byte()
    ensures flagged { (flag part.Object true 4).answer symbols64 ≡ Ok 4 }
    ensures edited { answers_to moved_twice (laid symbols64)
        ≡ Ok tt ∷ Ok tt ∷ [] }
    ensures refused { update_null.answer (step (set_shdr 2 (offset_set 66)) (laid symbols64))
        ≡ Err (Overlap (part.Section 1) (part.Section 2)) }
    ensures placed { update_null.answer (left_by moved_twice (laid symbols64))
        ≡ Ok 312 }
{}

/// A section that grows moves those after it.
fn grown_sections_move_others()
    ensures piece { (newdata 3 eight_more).answer sections ≡ Ok (3, 1) }
    ensures size { update_null.answer grown ≡ Ok 496 }
    ensures bytes { take 40 (drop 80 (image grown))
        ≡ replicate 8 3 ++ replicate 8 0x33 ++ replicate 8 4 ++ replicate 8 5 ++ replicate 8 0 }
    ensures table { (placed grown).header.shoff ≡ 112 }
    ensures third { shdr_answer (step update_null grown) 3
        ≡ Ok (typed_shdr 1 80 16 8) }
    ensures fourth { shdr_answer (step update_null grown) 4
        ≡ Ok (typed_shdr 1 96 8 8) }
    ensures fifth { shdr_answer (step update_null grown) 5
        ≡ Ok (typed_shdr 1 104 8 8) }
    ensures changed { changed grown
        ≡ part.Header ∷ part.Section 3 ∷ part.Section 4 ∷ part.Section 5 ∷ part.Table ∷ [] }
    ensures given { changed_bytes grown ≡ 64 + 16 + 8 + 8 + 384 }
    ensures moved { update_in_place_due grown [] ≡ 24 }
    ensures read { update_to_due grown [] ≡ 40 }
{}

/// The image of an object, opened again, is that object settled.
fn grown_objects_settle()
    ensures { opened (image grown) ≡ Ok (settle grown) }
{}

/// A failed write leaves a mark, and one on each piece of a section that moves; nothing where
/// nothing is dirty.
fn torn_objects_are_marked()
    ensures marked { (torn grown []).marked ≡ true }
    ensures stays { some_piece_marked (section_at (torn grown []) 2) ≡ false }
    ensures moves { some_piece_marked (section_at (torn grown []) 5) ≡ true }
    ensures clean { torn symbols64 [] ≡ symbols64 }
    ensures missing { is_moved missing 2 ≡ false }
{}

/// `ELF_F_LAYOUT` keeps the bytes of the base that no part covers; without it they go. A dirty mark
/// stays.
fn flags_are_set_and_cleared()
    ensures kept { answers_to flagged_in_turn tailed
        ≡ Ok 4 ∷ Ok 4 ∷ Ok 0 ∷ Err FlagKept ∷ Ok 4 ∷ Ok 1 ∷ Ok 317 ∷ [] }
    ensures bytes { image (left_by (flag part.Object true 4 ∷ flag part.Header true 1 ∷ []) tailed)
        ≡ tailed64 }
    ensures gone { answers_to (flag part.Header true 1 ∷ update_null ∷ []) tailed
        ≡ Ok 1 ∷ Ok 312 ∷ [] }
    ensures shorter { image (step (flag part.Header true 1) tailed) ≡ small64 }
{}

/// A new section with two bytes and one program header: the update places both.
fn new_sections_are_placed()
    ensures number { newscn.answer symbols64 ≡ Ok 3 }
    ensures edited { answers_to (typed_and_aligned 3 1 4) (step newscn symbols64)
        ≡ Ok tt ∷ Ok tt ∷ [] }
    ensures piece { (newdata 3 two_bytes).answer typed ≡ Ok (3, 0) }
    ensures segments { (newphdr 1).answer (step (newdata 3 two_bytes) typed) ≡ Ok tt }
    ensures size { update_null.answer extended ≡ Ok 440 }
    ensures stored { shdr_answer (step update_null extended) 3
        ≡ Ok (typed_shdr 1 0xb0 2 4) }
{}

/// The raw bytes stay those of the file, whatever was edited.
fn raw_bytes_stay()
    ensures changed { (addall 1 0 1).answer symbols64 ≡ Ok 3 }
    ensures item { (item byte_in 1 0 1).answer (step (addall 1 0 1) symbols64) ≡ Ok 0x62 }
    ensures raw { raw_answer (step (addall 1 0 1) symbols64) 1 ≡ Ok (0 ∷ 0x61 ∷ 0 ∷ []) }
    ensures replaced { (replace 1 0 (Bytes [])).answer (step (addall 1 0 1) symbols64) ≡ Ok tt }
    ensures data { data_answer (step (replace 1 0 (Bytes [])) (step (addall 1 0 1) symbols64)) 1 0
        ≡ Ok (Bytes []) }
    ensures raw_then { raw_answer (step (replace 1 0 (Bytes [])) (step (addall 1 0 1) symbols64)) 1
        ≡ Ok (0 ∷ 0x61 ∷ 0 ∷ []) }
    ensures reserved { (replace 0 0 (Bytes [])).answer symbols64 ≡ Err Reserved }
{}

/// Pieces are at their alignments, and the fill byte is in the gaps, also between parts.
fn gaps_have_the_fill_byte()
    ensures filled { (set_fill 0xaa).answer symbols64 ≡ Ok tt }
    ensures piece { (newdata_aligned 1 (Bytes (0x62 ∷ [])) 8).answer
        (step (set_fill 0xaa) symbols64)
        ≡ Ok (1, 1) }
    ensures refused { (newdata_aligned 1 (Bytes (0x62 ∷ [])) 3).answer spaced ≡ Err (BadAlign 3) }
    ensures end { pieces_end spaced 1 ≡ 9 }
    ensures gap { is_covered (piece_blocks spaced 1) 4 ≡ false }
    ensures second { (section_at (placed spaced) 2).header.offset ≡ 80 }
    ensures table { (placed spaced).header.shoff ≡ 128 }
    ensures size { update_null.answer spaced ≡ Ok 320 }
    ensures bytes { take 16 (drop 64 (image spaced))
        ≡ 0 ∷ 0x61 ∷ 0 ∷ replicate 5 0xaa ++ 0x62 ∷ replicate 7 0xaa }
    ensures places { fill_places spaced ≡ 73 ∷ 74 ∷ 75 ∷ 76 ∷ 77 ∷ 78 ∷ 79 ∷ [] }
{}

#[test]
fn definitions_compute_on_small_images() {
    symbols_are_read();
    extended_numbers_are_read();
    extended_numbers_are_written();
    extended_numbers_have_their_bytes();
    extended_numbers_are_read_back();
    extended_numbers_are_read_from_bytes();
    ragged_sections_keep_their_bytes();
    missing_sections_are_refused();
    edited_headers_do_not_decide();
    edited_items_show_in_the_image();
    values_that_do_not_fit_are_refused();
    clean_images_stay();
    parts_may_not_share_a_byte();
    grown_sections_move_others();
    grown_objects_settle();
    torn_objects_are_marked();
    flags_are_set_and_cleared();
    new_sections_are_placed();
    raw_bytes_stay();
    gaps_have_the_fill_byte();
}
