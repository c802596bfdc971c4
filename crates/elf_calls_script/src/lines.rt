//! The lines of a script, by the word that begins each.

ghost use Rattle.std.specs.Prelude.{◌≡◌};
ghost use Rattle.elf_calls_script.specs.Lines.{phdr_call_line, shdr_line, pieces_line, data_line, raw_line, item_line, str_line, note_call_line, find_line, addall_line, newphdr_line, newdata_line, fill_line, replace_line};
ghost use Rattle.elf_calls_script.specs.Said.{Says};
ghost use Rattle.elf_calls_script.specs.Script.{call_at};

use crate::calls::Call;
use crate::faults::{CallFault, Why};
use crate::flags::read_flag;
use crate::sets::read_set;
use crate::words::Words;
use std::alloc::Global;

/// The call that the words of a line say, and whether each number is in its range. It fails with
/// `BadCall` where the first word is no call, and then `BadWords`.
pub(crate) fn read_call(alloc: Global, words: &mut Words) -> Result<(Call, bool), CallFault>
    ensures { Says call_at words.old result words.new }
{
    let Ok(name) = words.read_text() else {
        return Err(CallFault::Why(Why::BadCall));
    };
    match name {
        "ehdr" => Ok((Call::Ehdr, true)),
        "phdr" => read_phdr(words),
        "shdr" => read_shdr(words),
        "pieces" => read_pieces(words),
        "data" => read_data(words),
        "raw" => read_raw(words),
        "item" => read_item(words),
        "str" => read_str(words),
        "note" => read_note(words),
        "find" => read_find(alloc, words),
        "set" => read_set(words),
        "addall" => read_addall(words),
        "newscn" => Ok((Call::NewScn, true)),
        "newphdr" => read_newphdr(words),
        "newdata" => read_newdata(alloc, words),
        "fill" => read_fill(words),
        "replace" => read_replace(alloc, words),
        "flag" => read_flag(words),
        "null" => Ok((Call::Null, true)),
        _ => Err(CallFault::Why(Why::BadCall)),
    }
}

/// `phdr I`.
#[tactic(auto, using(crate::proofs::Said::said), unfolding(crate::specs::Lines::phdr_call_line))]
fn read_phdr(words: &mut Words) -> Result<(Call, bool), CallFault>
    ensures { Says phdr_call_line words.old result words.new }
{
    let (i, fits) = words.read_u32()?;
    Ok((Call::Phdr { i }, fits))
}

/// `shdr S`.
#[tactic(auto, using(crate::proofs::Said::said), unfolding(crate::specs::Lines::shdr_line))]
fn read_shdr(words: &mut Words) -> Result<(Call, bool), CallFault>
    ensures { Says shdr_line words.old result words.new }
{
    let (s, fits) = words.read_section()?;
    Ok((Call::Shdr { s }, fits))
}

/// `pieces S`.
#[tactic(auto, using(crate::proofs::Said::said), unfolding(crate::specs::Lines::pieces_line))]
fn read_pieces(words: &mut Words) -> Result<(Call, bool), CallFault>
    ensures { Says pieces_line words.old result words.new }
{
    let (s, fits) = words.read_section()?;
    Ok((Call::Pieces { s }, fits))
}

/// `data S P`.
#[tactic(auto, using(crate::proofs::Said::said), unfolding(crate::specs::Lines::data_line))]
fn read_data(words: &mut Words) -> Result<(Call, bool), CallFault>
    ensures { Says data_line words.old result words.new }
{
    let (d, fits) = words.read_piece()?;
    Ok((Call::Data { d }, fits))
}

/// `raw S`.
#[tactic(auto, using(crate::proofs::Said::said), unfolding(crate::specs::Lines::raw_line))]
fn read_raw(words: &mut Words) -> Result<(Call, bool), CallFault>
    ensures { Says raw_line words.old result words.new }
{
    let (s, fits) = words.read_section()?;
    Ok((Call::Raw { s }, fits))
}

/// `item S P I`.
#[tactic(auto, using(crate::proofs::Said::said), unfolding(crate::specs::Lines::item_line))]
fn read_item(words: &mut Words) -> Result<(Call, bool), CallFault>
    ensures { Says item_line words.old result words.new }
{
    let (d, d_fits) = words.read_piece()?;
    let (i, i_fits) = words.read_u64()?;
    Ok((Call::Item { d, i }, d_fits & i_fits))
}

/// `str S OFF`.
#[tactic(auto, using(crate::proofs::Said::said), unfolding(crate::specs::Lines::str_line))]
fn read_str(words: &mut Words) -> Result<(Call, bool), CallFault>
    ensures { Says str_line words.old result words.new }
{
    let (s, s_fits) = words.read_section()?;
    let (off, off_fits) = words.read_u64()?;
    Ok((Call::Str { s, off }, s_fits & off_fits))
}

/// `note S P AT`.
#[tactic(auto, using(crate::proofs::Said::said), unfolding(crate::specs::Lines::note_call_line))]
fn read_note(words: &mut Words) -> Result<(Call, bool), CallFault>
    ensures { Says note_call_line words.old result words.new }
{
    let (d, d_fits) = words.read_piece()?;
    let (at, at_fits) = words.read_u64()?;
    Ok((Call::Note { d, at }, d_fits & at_fits))
}

/// `find S NAME`.
#[tactic(auto, using(crate::proofs::Said::said), unfolding(crate::specs::Lines::find_line))]
fn read_find(alloc: Global, words: &mut Words) -> Result<(Call, bool), CallFault>
    ensures { Says find_line words.old result words.new }
{
    let (s, fits) = words.read_section()?;
    let name = words.read_name(alloc)?;
    Ok((Call::Find { s, name }, fits))
}

/// `addall S P N`.
#[tactic(auto, using(crate::proofs::Said::said), unfolding(crate::specs::Lines::addall_line))]
fn read_addall(words: &mut Words) -> Result<(Call, bool), CallFault>
    ensures { Says addall_line words.old result words.new }
{
    let (d, d_fits) = words.read_piece()?;
    let (n, n_fits) = words.read_u64()?;
    Ok((Call::AddAll { d, n }, d_fits & n_fits))
}

/// `newphdr N`.
#[tactic(auto, using(crate::proofs::Said::said), unfolding(crate::specs::Lines::newphdr_line))]
fn read_newphdr(words: &mut Words) -> Result<(Call, bool), CallFault>
    ensures { Says newphdr_line words.old result words.new }
{
    let (n, fits) = words.read_u32()?;
    Ok((Call::NewPhdr { n }, fits))
}

/// `newdata S HEX` and `newdata S HEX N`.
#[tactic(auto, using(crate::proofs::Said::said), unfolding(crate::specs::Lines::newdata_line))]
fn read_newdata(alloc: Global, words: &mut Words) -> Result<(Call, bool), CallFault>
    ensures { Says newdata_line words.old result words.new }
{
    let (s, s_fits) = words.read_section()?;
    let bytes = words.read_hex(alloc)?;
    if words.is_empty() {
        return Ok((Call::NewData { s, bytes }, s_fits));
    }
    let (align, align_fits) = words.read_u64()?;
    let fits = s_fits & align_fits;
    Ok((Call::NewDataAligned { s, bytes, align }, fits))
}

/// `fill N`.
#[tactic(auto, using(crate::proofs::Said::said), unfolding(crate::specs::Lines::fill_line))]
fn read_fill(words: &mut Words) -> Result<(Call, bool), CallFault>
    ensures { Says fill_line words.old result words.new }
{
    let n = words.read_number()?;
    Ok((Call::Fill { byte: n.byte }, n.is_byte))
}

/// `replace S P HEX`.
#[tactic(auto, using(crate::proofs::Said::said), unfolding(crate::specs::Lines::replace_line))]
fn read_replace(alloc: Global, words: &mut Words) -> Result<(Call, bool), CallFault>
    ensures { Says replace_line words.old result words.new }
{
    let (d, fits) = words.read_piece()?;
    let bytes = words.read_hex(alloc)?;
    Ok((Call::Replace { d, bytes }, fits))
}
