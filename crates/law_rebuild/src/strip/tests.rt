//! A whole executable meets what the theorem on loaded bytes asks, computed by proof.
#![tactic(auto, unfolding(crate::proofs::strip::Computing::all_words))]

ghost use Rattle.hash_model.specs.elf_ident.Front.{front};
ghost use Rattle.rebuild_model.specs.Executable.{executable64};
ghost use Rattle.law_rebuild.specs.Strip.Samples.{StaysIn};

/// The header of the executable is a usual one. `e_entry` is in its first segment of type
/// `PT_LOAD`, and place 1300 in its last one.
fn executables_are_usual()
    ensures entry { StaysIn 24 (front executable64) }
    ensures data { StaysIn 1300 (front executable64) }
{}

#[test]
fn executables_meet_the_premises() {
    executables_are_usual();
}
