//! The theorem is the contract of a function that does nothing: what it ensures holds, and is
//! proved.

ghost use Rattle.law_hash.specs.Find.Built.{BuiltHaveNoFinding};

use crate::laws::built_are_whole;

/// A section that holds what is built for the symbol table to which it links has no finding of
/// elflint's rules 31 and 32.
pub fn built_have_no_finding()
    ensures { BuiltHaveNoFinding }
{
    built_are_whole();
}
