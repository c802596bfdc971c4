//! The theorems on string tables in order of first use.

ghost use Rattle.std.specs.Prelude.{◌≡◌, ◌≢◌, ℕ, List, ◌++◌, All, Contains};
ghost use Rattle.strtab_build.specs.Table.{distinct, table, place_of, string_at};

/// What a table means for a caller that keeps all the names that it used, repeats and the empty
/// name among them, while `Strings` keeps each once. The call does nothing: its contract is the
/// theorem.
///
/// The distinct names have the table and the places of all that were used, and with more names they
/// become the distinct names of all. A name keeps its place while more are used, and the string at
/// its place in the table is the name (gABI chapter 4, "String Table").
pub fn uses_have_places()
    ensures names { (used more : List (List ℕ))
        → distinct (distinct used ++ more) ≡ distinct (used ++ more) }
    ensures tables { (used : List (List ℕ)) → table (distinct used) ≡ table used }
    ensures places { (used : List (List ℕ)) (name : List ℕ)
        → place_of name (distinct used) ≡ place_of name used }
    ensures stays { (used more : List (List ℕ)) (name : List ℕ) → Contains used name
        → place_of name (used ++ more) ≡ place_of name used }
    ensures reads { (used : List (List ℕ)) (name : List ℕ) → Contains used name
        → All (λ b. b ≢ 0) name → string_at (table used) (place_of name used) ≡ name }
{}
