//! The lines of `flag`.

ghost use Rattle.std.specs.Prelude.{◌≡◌, Some};
ghost use Rattle.elf_types.specs.Answers.{FollowsBy};
ghost use Rattle.elf_calls_script.specs.Causes.{call_fault_why};
ghost use Rattle.elf_calls_script.specs.Parts.{one_of};
ghost use Rattle.elf_calls_script.specs.Lines.{object_parts, flag_words, flag_line};
ghost use Rattle.elf_calls_script.specs.Said.{Says};

use crate::calls::Call;
use crate::faults::{CallFault, Why};
use crate::words::Words;
use elf_types::Part;

/// `flag PART set BITS` and `flag PART clear BITS`.
#[tactic(auto, using(crate::proofs::Said::said), unfolding(crate::specs::Lines::flag_line))]
pub(crate) fn read_flag(words: &mut Words) -> Result<(Call, bool), CallFault>
    ensures { Says flag_line words.old result words.new }
{
    let (part, part_fits) = read_part(words)?;
    let set = read_flag_word(words)?;
    let (bits, bits_fit) = words.read_u32()?;
    Ok((Call::Flag { part, set, bits }, part_fits & bits_fit))
}

/// PART: a part of an object.
#[tactic(auto, using(crate::proofs::Said::said), unfolding(crate::specs::Lines::object_parts))]
fn read_part(words: &mut Words) -> Result<(Part, bool), CallFault>
    ensures { Says (one_of object_parts) words.old result words.new }
{
    let part = words.read_text()?;
    match part {
        "object" => Ok((Part::Object, true)),
        "header" => Ok((Part::Header, true)),
        "segments" => Ok((Part::Segments, true)),
        "section" => {
            let (section, fits) = words.read_u32()?;
            Ok((Part::Section(section), fits))
        }
        "piece" => {
            let (d, fits) = words.read_piece()?;
            Ok((Part::Piece(d.section, d.piece), fits))
        }
        _ => Err(CallFault::Why(Why::BadWords)),
    }
}

/// `set` or `clear`: whether the flags are set.
#[tactic(auto, unfolding(crate::specs::Lines::flag_words))]
fn read_flag_word(words: &mut Words) -> Result<bool, CallFault>
    ensures { FollowsBy (λ set. (Some set, words.new)) call_fault_why result
        (one_of flag_words words.old) }
{
    let word = words.read_text()?;
    match word {
        "set" => Ok(true),
        "clear" => Ok(false),
        _ => Err(CallFault::Why(Why::BadWords)),
    }
}
