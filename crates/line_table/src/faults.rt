//! Why a unit is rejected.

ghost use Rattle.std.specs.Prelude.{◌≡◌};
ghost use Rattle.line_table.specs.declared.faults.UnitFault.TheVariants.{Memory};

use elf_types::ElfError;
use std::alloc::{AllocError, AllocFailed};

/// Why a unit of a line table is rejected.
#[derive(Clone, Copy, Debug, PartialEq, Eq)]
pub enum LineWhy {
    /// A field, a string or an operand passes its unit, its extended opcode or the section, or an
    /// extended opcode has no length.
    Cut,
    /// `unit_length` is one of those that stand for another format, from 0xfffffff0 on.
    Form,
    /// The version is not 2, 3 or 4.
    Version,
    /// `maximum_operations_per_instruction` is not 1.
    Ops,
    /// `opcode_base` is 0, the program begins past the unit's end, or the files end past the
    /// program's begin.
    Header,
    /// `line_range` is 0 where an opcode divides by it.
    Range,
    /// The operand of `DW_LNE_set_address` is not as wide as an address of the class.
    Address,
}

impl LineWhy {
    ghost use Rattle.line_table.specs.Texts.{cause_text};

    /// The text under which the cause is shown. It takes no memory.
    #[tactic(auto, unfolding(crate::specs::Texts::cause_text))]
    pub fn text(&self) -> &'static str
        ensures { result.now ≡ cause_text self.now }
    {
        match self {
            LineWhy::Cut => "cut",
            LineWhy::Form => "form",
            LineWhy::Version => "version",
            LineWhy::Ops => "operations",
            LineWhy::Header => "header",
            LineWhy::Range => "range",
            LineWhy::Address => "address",
        }
    }
}

/// What `unit_at` rejects.
#[derive(Clone, Copy, Debug, PartialEq, Eq)]
pub enum LineFault {
    /// There is no memory for the call.
    Memory,
    /// The unit is not well formed.
    Bad {
        /// The place in the section, in bytes: of the unit for its length and header, else of the
        /// opcode.
        at: u64,
        /// The cause.
        why: LineWhy,
    },
}

/// Why a part of a unit is rejected, without the place, which its caller knows.
#[derive(Clone, Copy, Debug)]
pub enum UnitFault {
    /// There is no memory.
    Memory,
    /// The part is not well formed.
    Why(LineWhy),
}

impl UnitFault {
    ghost use Rattle.line_table.specs.Outcomes.{fault_at};

    /// The fault of a refusal at a place of the section.
    pub fn at(self, at: u64) -> LineFault
        ensures { result ≡ fault_at self at }
    {
        match self {
            UnitFault::Memory => LineFault::Memory,
            UnitFault::Why(why) => LineFault::Bad { at, why },
        }
    }
}

impl From<ElfError> for UnitFault {
    ghost from_gives = { λ _ e. e ≡ Memory };

    fn from(_e: ElfError) -> UnitFault {
        UnitFault::Memory
    }
}
