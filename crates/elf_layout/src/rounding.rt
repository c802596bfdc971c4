//! Alignment.

ghost use Rattle.std.specs.Prelude.{◌≤◌};
ghost use Rattle.std.specs.Option.{SomeIff};
ghost use Rattle.elf_layout.specs.Layout.{rounded_up};

/// The least multiple of `align` that is not below `n`, or None exactly where it is above `limit`.
/// An alignment of 0 counts as 1, as `sh_addralign` has it (gABI chapter 4, "Section Header").
#[tactic(auto, unfolding(crate::specs::Layout::rounded_up))]
pub fn rounded_within(n: u64, align: u64, limit: u64) -> Option<u64>
    ensures { SomeIff result (rounded_up n align ≤ limit) (rounded_up n align) }
{
    match n.checked_next_multiple_of(align.max(1)) {
        Some(multiple) if multiple <= limit => Some(multiple),
        _ => None,
    }
}
