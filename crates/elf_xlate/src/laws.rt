//! Theorems on the two forms, for all lists: they speak of the definitions alone.

ghost use Rattle.std.specs.Prelude.{ℕ, List, ◌≡◌, ◌<◌, ◌^◌, length, IsTrue};
ghost use Rattle.std.specs.List.{All};
ghost use Rattle.elf_types.specs.declared.records.Class.{Class};
ghost use Rattle.elf_types.specs.declared.records.Order.{Order};
ghost use Rattle.elf_types.specs.declared.records.Kind.{Kind};
ghost use Rattle.elf_xlate.specs.declared.content.Items.{Items};
ghost use Rattle.elf_types.specs.declared.records.Ehdr.{Ehdr};
ghost use Rattle.elf_types.specs.declared.records.Phdr.{Phdr};
ghost use Rattle.elf_types.specs.declared.records.Shdr.{Shdr};
ghost use Rattle.elf_xlate.specs.Headers.{IsEhdr, HasNarrowCounts, ehdr_fits, ehdr_bytes, HoldsEhdr, IsPhdr, phdr_fits, phdr_of, phdr_bytes, phdr_size, IsShdr, shdr_fits, shdr_of, shdr_bytes, shdr_size};
ghost use Rattle.elf_xlate.specs.Translation.{EncodesAsDecoded, DecodesAsEncoded};

/// Encoding what was decoded gives the same bytes, for every kind that has a file form, in both
/// classes and both orders, where the bytes are not ragged.
#[tactic(auto, using(crate::proofs::Translated::encodes_as_decoded))]
pub fn encodes_as_decoded()
    ensures { (kind : Kind) (class : Class) (order : Order) (bytes : List ℕ)
        → EncodesAsDecoded kind class order bytes }
{}

/// Decoding what was encoded gives the same items, where each fits, in both classes and both
/// orders.
#[tactic(auto, using(crate::proofs::Translated::decodes_as_encoded))]
pub fn decodes_as_encoded()
    ensures { (class : Class) (order : Order) (items : Items) → DecodesAsEncoded class order items }
{}

/// A header that fits its class, written with its two counts and its string index below 2^16, is
/// read as it was, beside its identification; and bytes that hold a header are those that are
/// written for it.
pub fn ehdr_both_ways()
    ensures written { (h : Ehdr) (pad : List ℕ) → IsEhdr h → HasNarrowCounts h
        → IsTrue (ehdr_fits h) → length pad ≡ 7 → HoldsEhdr h pad (ehdr_bytes h pad) }
    ensures read { (h : Ehdr) (pad bytes : List ℕ) → All (λ b. b < 2 ^ 8) bytes → length pad ≡ 7
        → HoldsEhdr h pad bytes → ehdr_bytes h pad ≡ bytes }
{}

/// A program header that fits a class, written, is read as it was; and written as it was read, it
/// has the same bytes.
pub fn phdr_both_ways()
    ensures written { (class : Class) (order : Order) (p : Phdr) → IsPhdr p
        → IsTrue (phdr_fits class p) → phdr_of class order (phdr_bytes class order p) ≡ p }
    ensures read { (class : Class) (order : Order) (bytes : List ℕ) → All (λ b. b < 2 ^ 8) bytes
        → length bytes ≡ phdr_size class
        → phdr_bytes class order (phdr_of class order bytes) ≡ bytes }
{}

/// A section header that fits a class, written, is read as it was; and written as it was read, it
/// has the same bytes.
pub fn shdr_both_ways()
    ensures written { (class : Class) (order : Order) (h : Shdr) → IsShdr h
        → IsTrue (shdr_fits class h) → shdr_of class order (shdr_bytes class order h) ≡ h }
    ensures read { (class : Class) (order : Order) (bytes : List ℕ) → All (λ b. b < 2 ^ 8) bytes
        → length bytes ≡ shdr_size class
        → shdr_bytes class order (shdr_of class order bytes) ≡ bytes }
{}
